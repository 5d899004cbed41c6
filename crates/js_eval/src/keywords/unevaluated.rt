//! `unevaluatedItems` and `unevaluatedProperties`: what they apply (Core, sections 11.2 and 11.3).
ghost use Rattle.js_eval.specs.Applications.{among_indexes, among_names, indexed};
ghost use Rattle.js_eval.specs.code.Asked.{IsAsking, asked};
ghost use Rattle.js_eval.specs.code.Cursors.{AreMarked};
ghost use Rattle.js_eval.specs.code.Starting.{HoldsOne, on_items, on_members};
ghost use Rattle.js_eval.specs.code.Terms.{entries, instance_of, texts_of};
ghost use Rattle.std.specs.Prelude.{IfOk, filter, not, ◌≡◌};

use crate::cursors::application::{AppliedTo, Subschemas};
use crate::cursors::asking::{Asking, in_box};
use crate::cursors::item_cursor::ItemCursor;
use crate::cursors::member_cursor::Choice;
use crate::cursors::start::CursorStart;
use crate::keywords::nothing_left::are_all_evaluated;
use crate::keywords::objects::on_chosen;
use crate::schema_lookup::held_below;
use crate::searching::name_set::set_of;
use js_doc::{Members, Memory};
use std::alloc::Global;

/// The schema of `unevaluatedItems`, applied to each item that isn't at one of these indexes.
///
/// # Errors
/// `Memory` if an allocation fails.
pub(crate) fn unevaluated_items<'a>(
    start: &CursorStart<'_, 'a>,
    indexes: &[usize],
) -> Result<Asking<'a>, Memory>
    requires { HoldsOne start.now.schemas.now start.now.at.now }
    ensures asked { IfOk result (λ a. asked start.now.schemas.now a ≡ on_items start.now.schemas.now start.now.at.now
        (filter (λ e. not (among_indexes e.0 indexes.now)) (indexed (instance_of start.now.value)))) }
    ensures is { IfOk result (λ a. IsAsking start.now.schemas.now a) }
{
    let items = start.value.array();
    let passed_over = marks_at(start.alloc, items.len(), indexes)?;
    let (below, held) = held_below(start.schemas, start.at);
    Ok(Asking::Items(ItemCursor {
        held: Subschemas::One(below, held),
        to: AppliedTo::Part,
        items,
        next: 0,
        passed_over,
    }))
}

// A list of `count` marks, set at these indexes.
fn marks_at(alloc: Global, count: usize, indexes: &[usize]) -> Result<Vec<bool>, Memory>
    ensures { IfOk result (λ marks. AreMarked marks.items count indexes.now) }
{
    let mut marks = vec![in alloc; false; count]?;
    for index in indexes {
        if *index < count {
            marks[*index] = true;
        }
    }
    Ok(marks)
}

/// The applications of `unevaluatedProperties`, if members with these names are evaluated.
///
/// # Errors
/// `Memory` if an allocation fails.
pub(crate) fn unevaluated_properties<'a>(
    start: &CursorStart<'_, 'a>,
    evaluated: &[&'a str],
) -> Result<Asking<'a>, Memory>
    requires { HoldsOne start.now.schemas.now start.now.at.now }
    ensures asked { IfOk result (λ a. asked start.now.schemas.now a
        ≡ on_members start.now.schemas.now start.now.at.now
        (filter (λ m. not (among_names m.0 (texts_of evaluated.now))) (entries (instance_of start.now.value)))) }
    ensures is { IfOk result (λ a. IsAsking start.now.schemas.now a) }
{
    let Some(members) = start.value.object() else {
        return Ok(Asking::One(None));
    };
    if are_all_evaluated(members, evaluated) {
        return Ok(Asking::One(None));
    }
    let set = set_of(start.alloc, evaluated)?;
    let cursor = on_chosen(start, AppliedTo::Part, members, Choice::Except(set));
    Ok(Asking::Members(in_box(start.alloc, cursor)?))
}

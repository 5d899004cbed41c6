//! `contains`: what it applies, when it passes, and its annotation (Core, section 10.3.1.3).
ghost use Rattle.js_assert.specs.Argument.{entries, on_array};
ghost use Rattle.js_eval.specs.Applications.{indexed};
ghost use Rattle.js_eval.specs.Passes.{any, how_many, may_contain_none};
ghost use Rattle.js_eval.specs.code.Asked.{IsAsking, asked};
ghost use Rattle.js_eval.specs.code.Starting.{HoldsOne, on_items};
ghost use Rattle.js_eval.specs.code.Terms.{instance_of, value_of};
ghost use Rattle.js_tree.specs.Seen.{note_of};
ghost use Rattle.std.specs.Prelude.{Bool, IfOk, List, ◌||◌, ◌≡◌};
ghost use Rattle.js_eval.specs.Note as notes;

use crate::cursors::asking::Asking;
use crate::cursors::start::CursorStart;
use crate::evaluation::Tally;
use crate::instance::Instance;
use crate::keywords::arrays::{are_all_items, from_index};
use crate::keywords::in_place::holds_any;
use crate::schema::argument_in;
use js_doc::{Doc, Memory, Whole};
use js_keyword::{ArrayKeyword, AssertionKeyword};
use js_tree::{Indexes, Note};
use std::alloc::Global;

/// The schema of `contains`, applied to each item.
pub(crate) fn every<'a>(start: &CursorStart<'_, 'a>) -> Asking<'a>
    requires { HoldsOne start.now.schemas.now start.now.at.now }
    ensures asked { asked start.now.schemas.now result
        ≡ on_items start.now.schemas.now start.now.at.now (indexed (instance_of start.now.value)) }
    ensures is { IsAsking start.now.schemas.now result }
{
    from_index(start, 0)
}

/// Whether `contains` passes: if an item matches, if none has to, or if the value is no array.
pub(crate) fn contains_passes(schema: &Doc, value: Instance<'_>, tally: Tally) -> bool
    ensures { (verdicts : List Bool) → how_many verdicts ≡ tally.succeeded
        → result ≡ on_array (instance_of value.entry)
        (λ _. any verdicts || may_contain_none (entries (value_of schema.now))) }
{
    match value {
        Instance::Doc(Doc::List(_)) => holds_any(tally) || may_hold_none(schema),
        _ => true,
    }
}

// Whether the adjacent `minContains` is 0, so that `contains` passes without a match (Core, section 10.3.1.3).
fn may_hold_none(schema: &Doc) -> bool
    ensures { result ≡ may_contain_none (entries (value_of schema.now)) }
{
    match argument_in(
        schema,
        AssertionKeyword::Array(ArrayKeyword::MinContains).name(),
    ) {
        Some(least) => *least == Doc::Whole(Whole::from_u64(0)),
        None => false,
    }
}

/// For an array: `true` if every item matches, else the indexes of the items that match.
pub(crate) fn matching_items<'a>(
    alloc: Global,
    value: Instance<'a>,
    indexes: &[usize],
) -> Result<Note<'a>, Memory>
    ensures { IfOk result (λ n. note_of n ≡ notes.said_of_array (instance_of value.entry)
        (notes.true_or (notes.are_all_items (instance_of value.entry) indexes.now) (notes.indexes indexes.now))) }
{
    let are_all = are_all_items(value, indexes);
    match value {
        Instance::Doc(Doc::List(_)) if are_all => Ok(Note::Truth),
        Instance::Doc(Doc::List(_)) => Ok(Note::Indexes(Indexes::new(as_numbers(alloc, indexes)?))),
        _ => Ok(Note::Silent),
    }
}

fn as_numbers(alloc: Global, indexes: &[usize]) -> Result<Vec<u64>, Memory>
    ensures { IfOk result (λ ns. ns.items ≡ indexes.now) }
{
    let mut numbers = Vec::new(alloc);
    for index in indexes {
        numbers.push(*index as u64)?;
    }
    Ok(numbers)
}

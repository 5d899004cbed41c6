//! The applications that a keyword asks for, one after another (Core, sections 8.2.3, 10 and 11).
ghost use Rattle.std.specs.Prelude.{◌≡◌, ◌∷◌, [], IfOk, MatchOption};
ghost use Rattle.js_eval.specs.code.Asked.{IsApplied, IsAsking, IsNext, IsOne, asked, one_asked};
ghost use Rattle.js_eval.specs.code.Terms.{Documents, IsSchemaAt, instance_of, numbered_site, value_of};
ghost use Rattle.js_eval.specs.SchemaSet as spec;

use crate::cursors::item_cursor::ItemCursor;
use crate::cursors::list_cursor::ListCursor;
use crate::cursors::member_cursor::MemberCursor;
use crate::cursors::name_cursor::NameCursor;
use crate::cursors::pattern_cursor::PatternCursor;
use crate::instance::{Applied, Instance};
use crate::searching::searchers::{PatternSearch, Searchers};
use js_bundle::{Place, Schemas, Step};
use js_doc::{Doc, Memory};
use std::alloc::Global;

/// The applications that a keyword still has to ask for.
#[derive(Drop)]
pub(crate) enum Asking<'a> {
    /// At most one application.
    One(Option<Applied<'a>>),
    List(ListCursor<'a>),
    Items(ItemCursor<'a>),
    Names(NameCursor<'a>),
    // These are boxed, because they are the largest: each level of the recursion holds an `Asking`, and one is cleared
    // and copied several times for each keyword.
    Members(Box<MemberCursor<'a>>),
    Patterns(Box<PatternCursor<'a>>),
}

/// The schema at a place, applied to the value itself.
pub(crate) fn alone<'a>(place: Place, schema: &'a Doc, value: Instance<'a>) -> Asking<'a>
    ensures asked { (documents : Documents) → asked documents result
        ≡ record {
          place = numbered_site documents place;
          step = spec.Alone;
          at = spec.Alone;
          value = instance_of value.entry;
        } ∷ [] }
    ensures is { (documents : Documents) → IsSchemaAt documents place (value_of schema.now)
        → IsAsking documents result }
{
    Asking::One(Some(Applied {
        place,
        schema,
        step: Step::Alone,
        at: Step::Alone,
        value,
    }))
}

/// The value, in a box.
///
/// # Errors
/// `Memory` if an allocation fails.
#[inline(always)]
pub(crate) fn in_box<T: Drop>(alloc: Global, value: T) -> Result<Box<T>, Memory>
    ensures { IfOk result (λ b. b.value ≡ value) }
{
    Ok(Box::new(alloc, value)?)
}

/// The next application, or None after the last.
///
/// # Errors
/// `Memory` if an allocation fails; a search with a pattern may need one.
pub(crate) fn next_asked<'a>(
    alloc: Global,
    schemas: &'a Schemas,
    searchers: &Searchers<'a>,
    asking: &mut Asking<'a>,
) -> Result<Option<Applied<'a>>, Memory>
    requires { IsAsking schemas.now asking.old }
    ensures next { IfOk result (λ o. IsNext schemas.now (asked schemas.now asking.old) o
        (asked schemas.now asking.new)) }
    ensures applied { IfOk result (λ o. MatchOption o (Unit {0}) (λ a. IsApplied schemas.now a)) }
    ensures is { IfOk result (λ _. IsAsking schemas.now asking.new) }
{
    let search = PatternSearch {
        alloc,
        schemas,
        searchers,
    };
    match asking {
        Asking::One(one) => Ok(next_alone(schemas, one)),
        Asking::List(list) => Ok(list.next_in_list(schemas)),
        Asking::Names(names) => Ok(names.next_of_names(schemas)),
        Asking::Items(items) => Ok(items.next_on_item(schemas)),
        Asking::Members(members) => members.next_on_member(&search),
        Asking::Patterns(patterns) => patterns.next_matching(&search),
    }
}

#[tactic(auto, using(crate::proofs::AskedNothing::taken, crate::proofs::AskedNothing::taken_applied))]
fn next_alone<'a>(_schemas: &Schemas, one: &mut Option<Applied<'a>>) -> Option<Applied<'a>>
    requires { IsOne _schemas.now one.old }
    ensures next { IsNext _schemas.now (one_asked _schemas.now one.old) result (one_asked _schemas.now one.new) }
    ensures applied { MatchOption result (Unit {0}) (λ a. IsApplied _schemas.now a) }
    ensures is { IsOne _schemas.now one.new }
{
    one.take()
}

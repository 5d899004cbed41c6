//! Keywords for arrays, `prefixItems` and `items`: what they apply, and their annotations (Core, section 10.3.1).
ghost use Rattle.js_eval.specs.Applications.{indexed, prefix_length};
ghost use Rattle.js_eval.specs.code.Asked.{IsAsking, asked};
ghost use Rattle.js_eval.specs.code.Starting.{HoldsOne, IsAtPlace, by_keyword, on_items};
ghost use Rattle.js_eval.specs.code.Terms.{entries, instance_of, value_of, values};
ghost use Rattle.js_tree.specs.Seen.{note_of};
ghost use Rattle.std.specs.Prelude.{filter, length, map, nat_le, nat_lt, take, ◌≡◌};
ghost use Rattle.js_eval.specs.Note as notes;
ghost use Rattle.js_eval.specs.SchemaSet as spec;

use crate::cursors::application::{AppliedTo, Subschemas};
use crate::cursors::asking::Asking;
use crate::cursors::item_cursor::ItemCursor;
use crate::cursors::start::CursorStart;
use crate::instance::{Instance, array_in};
use crate::schema::argument_in;
use crate::schema_lookup::held_below;
use js_doc::Doc;
use js_keyword::Keyword;
use js_tree::Note;

/// Each schema of `prefixItems`, applied to the item at the same index.
pub(crate) fn prefix<'a>(start: &CursorStart<'_, 'a>) -> Asking<'a>
    requires { IsAtPlace start.now.schemas.now start.now.at.now }
    ensures asked { asked start.now.schemas.now result
        ≡ map (λ e. by_keyword start.now.schemas.now start.now.at.now (spec.Index e.0) (spec.Index e.0) e.1)
        (filter (λ e. nat_lt e.0 (length (values (value_of start.now.at.now.keyword.argument.now))))
        (indexed (instance_of start.now.value))) }
    ensures is { IsAsking start.now.schemas.now result }
{
    let at = start.at;
    let keyword = at.keyword;
    let list = array_in(keyword.argument);
    Asking::Items(ItemCursor {
        held: Subschemas::Each(at.place, at.schema, keyword.name),
        to: AppliedTo::Part,
        items: first_of(start.value.array(), list.len()),
        next: 0,
        passed_over: Vec::new(start.alloc),
    })
}

// The first `count` items, or all if there are fewer.
fn first_of(items: &[Doc], count: usize) -> &[Doc]
    ensures { result.now ≡ take count items.now }
{
    if count < items.len() {
        &items[..count]
    } else {
        items
    }
}

/// The schema of `items`, applied to each item after those that the adjacent `prefixItems` has schemas for.
pub(crate) fn following<'a>(start: &CursorStart<'_, 'a>) -> Asking<'a>
    requires { HoldsOne start.now.schemas.now start.now.at.now }
    ensures asked { asked start.now.schemas.now result ≡ on_items start.now.schemas.now start.now.at.now
        (filter (λ e. nat_le (prefix_length (entries (value_of start.now.at.now.schema.now))) e.0)
        (indexed (instance_of start.now.value))) }
    ensures is { IsAsking start.now.schemas.now result }
{
    let at = start.at;
    let first = prefix_length_in(at.schema);
    from_index(start, first)
}

pub(crate) fn from_index<'a>(start: &CursorStart<'_, 'a>, first: usize) -> Asking<'a>
    requires { HoldsOne start.now.schemas.now start.now.at.now }
    ensures asked { asked start.now.schemas.now result ≡ on_items start.now.schemas.now start.now.at.now
        (filter (λ e. nat_le first e.0) (indexed (instance_of start.now.value))) }
    ensures is { IsAsking start.now.schemas.now result }
{
    let (below, held) = held_below(start.schemas, start.at);
    Asking::Items(ItemCursor {
        held: Subschemas::One(below, held),
        to: AppliedTo::Part,
        items: start.value.array(),
        next: first,
        passed_over: Vec::new(start.alloc),
    })
}

// The number of schemas in the adjacent `prefixItems`, or 0 without it.
fn prefix_length_in(schema: &Doc) -> usize
    ensures { result ≡ prefix_length (entries (value_of schema.now)) }
{
    match argument_in(schema, Keyword::PrefixItems.name()) {
        Some(argument) => array_in(argument).len(),
        None => 0,
    }
}

/// `true` if a schema was applied to every item, else the largest index that one was applied to.
pub(crate) fn true_or_largest<'a>(value: Instance<'a>, indexes: &[usize]) -> Note<'a>
    ensures { note_of result ≡ notes.true_or (notes.are_all_items (instance_of value.entry) indexes.now)
        (notes.largest indexes.now) }
{
    if are_all_items(value, indexes) {
        Note::Truth
    } else {
        largest(indexes)
    }
}

/// Whether these are the indexes of all items of a nonempty array.
pub(crate) fn are_all_items(value: Instance<'_>, indexes: &[usize]) -> bool
    ensures { result ≡ notes.are_all_items (instance_of value.entry) indexes.now }
{
    match indexes.last() {
        Some(_) => indexes.len() == value.array().len(),
        None => false,
    }
}

// The largest index that a schema was applied to. It is the last.
fn largest<'a>(indexes: &[usize]) -> Note<'a>
    ensures { note_of result ≡ notes.largest indexes.now }
{
    match indexes.last() {
        Some(index) => Note::Index(*index as u64),
        None => Note::Silent,
    }
}

/// `true` if a schema was applied to any item, else nothing.
pub(crate) fn if_any<'a>(indexes: &[usize]) -> Note<'a>
    ensures { note_of result ≡ notes.if_any indexes.now }
{
    match indexes.last() {
        Some(_) => Note::Truth,
        None => Note::Silent,
    }
}

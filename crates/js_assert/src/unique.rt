//! The least pair of equal items (JSON Schema Validation, section 6.4.3).
ghost use Rattle.std.specs.Prelude.{◌≡◌, ◌≤◌, IfOk, Some, map, drop, length, string_bytes};
ghost use Rattle.js_doc.specs.Seen.{value_of};
ghost use Rattle.js_doc.specs.Parts.{items_of};
ghost use Rattle.js_assert.specs.Arrays.{first_equal, equal_pair, pair_text};

use crate::text_parts::put_number;
use js_doc::{Doc, Memory};
use std::alloc::Global;
use std::collections::BTreeSet;

// Up to this many items are compared with one another directly.
const FEW_ITEMS: usize = 16;

/// The least position that has an equal later one, with the least such later one.
pub(crate) fn least_equal_pair(
    alloc: Global,
    docs: &[Doc],
) -> Result<Option<(usize, usize)>, Memory>
    ensures { IfOk result (λ pair. pair ≡ equal_pair 0 (map value_of docs.now)) }
{
    let start = first_repeated(alloc, docs)?;
    for i in start..docs.len() {
        if let Some(j) = first_equal_from(docs, i + 1, &docs[i]) {
            return Ok(Some((i, j)));
        }
    }
    Ok(None)
}

// The first position whose item can have an equal later one: one with the same text. So the search for the pair
// ends with its first item, and n items take n insertions into a set.
fn first_repeated(alloc: Global, docs: &[Doc]) -> Result<usize, Memory>
    ensures within { IfOk result (λ start. start ≤ length docs.now) }
    ensures skipped { IfOk result (λ start.
        equal_pair 0 (map value_of docs.now) ≡ equal_pair start (map value_of (drop start docs.now))) }
{
    if docs.len() < FEW_ITEMS {
        return Ok(0);
    }
    let mut first = docs.len();
    let mut later = BTreeSet::new(alloc);
    for i in (0..docs.len()).rev() {
        if later.insert(js_doc::text(alloc, &docs[i])?)? {
            continue;
        }
        first = i;
    }
    Ok(first)
}

// The position of the first that equals `doc`, from `start` on.
fn first_equal_from(docs: &[Doc], start: usize, doc: &Doc) -> Option<usize>
    requires { start ≤ length docs.now }
    ensures { result ≡ first_equal (value_of doc.now) start (map value_of (drop start docs.now)) }
{
    for j in start..docs.len() {
        if doc == &docs[j] {
            return Some(j);
        }
    }
    None
}

/// The least pair of equal items, by their positions.
pub(crate) fn equal_items(alloc: Global, value: &Doc) -> Result<String, Memory>
    ensures { IfOk result (λ s. string_bytes s ≡ pair_text (equal_pair 0 (items_of (value_of value.now)))) }
{
    let Doc::List(items) = value else {
        return Ok(String::new(alloc));
    };
    match least_equal_pair(alloc, items.as_slice())? {
        Some(pair) => equal_text(alloc, pair),
        None => Ok(String::new(alloc)),
    }
}

fn equal_text(alloc: Global, pair: (usize, usize)) -> Result<String, Memory>
    ensures { IfOk result (λ s. string_bytes s ≡ pair_text (Some pair)) }
{
    let mut text = String::from_str(alloc, "items ")?;
    put_number(&mut text, pair.0)?;
    text.push_str(" and ")?;
    put_number(&mut text, pair.1)?;
    text.push_str(" are equal")?;
    Ok(text)
}

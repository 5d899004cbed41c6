//! Whether two rows surely stand at different places.
ghost use Rattle.std.specs.Prelude.{◌≡◌, ◌≢◌, ◌++◌, IsTrue, List, ℕ, false, true};
ghost use Rattle.json.specs.Print.{escape};
ghost use Rattle.js_tree.specs.Rows.RelativeState.{part, relative_row};
ghost use Rattle.js_tree.specs.code.Differing.{same_places};

use crate::rows::relative_rows::{RelativeRow, behind};
use js_doc::stand_as_they_are;

/// Whether the rows surely add different instance locations to that of the node above, or have different absolute
/// keyword locations. These aren't put together: false may be wrong, true isn't.
pub(crate) fn stand_apart(a: &RelativeRow, b: &RelativeRow) -> bool
    ensures { result ≡ true → same_places (relative_row a.now).0 (relative_row b.now).0 ≡ false }
{
    if a.instance != b.instance {
        return true;
    }
    absolutes_differ(a, b)
}

// Whether their absolute keyword locations surely differ.
fn absolutes_differ(a: &RelativeRow, b: &RelativeRow) -> bool
    ensures { IsTrue result → (relative_row a.now).0.absolute ≢ (relative_row b.now).0.absolute }
{
    // Most differ here already, and schemas are longer.
    if ends_differ(a.absolute, b.absolute) {
        return true;
    }
    if a.schema == b.schema {
        return parts_differ(a.absolute_slash, a.absolute, b.absolute_slash, b.absolute);
    }
    if is_same_part(a.absolute_slash, a.absolute, b.absolute_slash, b.absolute) {
        return true;
    }
    let end_of_a = end_of(a.schema, a.absolute_slash, a.absolute, b.absolute.len());
    let end_of_b = end_of(b.schema, b.absolute_slash, b.absolute, a.absolute.len());
    ends_differ(end_of_a, end_of_b)
}

// Whether the parts differ.
fn parts_differ(first_slash: bool, first: &[u8], second_slash: bool, second: &[u8]) -> bool
    ensures { IsTrue result → part first_slash first.now ≢ part second_slash second.now }
{
    if first_slash == second_slash {
        return first != second;
    }
    if first_slash {
        return first != behind(second, 1);
    }
    behind(first, 1) != second
}

// Whether the parts are the same, with the slash at the same place. The other way round they may be the same too.
fn is_same_part(first_slash: bool, first: &[u8], second_slash: bool, second: &[u8]) -> bool
    ensures { IsTrue result → part first_slash first.now ≡ part second_slash second.now }
{
    first_slash == second_slash && first == second
}

// Bytes that this absolute keyword location ends with: its part or, where there is none, the last `length` bytes of its
// schema. None if these would have to be escaped.
fn end_of<'a>(schema: &'a str, slash: bool, absolute: &'a [u8], length: usize) -> &'a [u8]
    ensures { (start : List ℕ) × (escape schema.now ++ part slash absolute.now ≡ start ++ result.now) }
{
    if slash {
        return absolute;
    }
    if !absolute.is_empty() {
        return absolute;
    }
    let end = last_bytes(schema.as_bytes(), length);
    if stand_as_they_are(end) { end } else { &[] }
}

// So many bytes at the end of the text, or all of them.
fn last_bytes(text: &[u8], length: usize) -> &[u8]
    ensures { (start : List ℕ) × (text.now ≡ start ++ result.now) }
{
    if length < text.len() {
        behind(text, text.len() - length)
    } else {
        text
    }
}

// Whether texts that end with these differ, because the shorter of them isn't the end of the longer.
#[inline(always)]
fn ends_differ(first: &[u8], second: &[u8]) -> bool
    ensures { IsTrue result → (s t : List ℕ) → s ++ first.now ≢ t ++ second.now }
{
    if first.len() < second.len() {
        return first != behind(second, second.len() - first.len());
    }
    behind(first, first.len() - second.len()) != second
}

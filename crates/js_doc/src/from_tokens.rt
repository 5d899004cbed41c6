//! From a text's tokens straight to a value, with no tree of `serde_json` in between.
//!
//! None stands for a text that is left to `serde_json`'s tree (see `reading`): one that may have no value, since it is
//! no JSON or has a number that isn't whole, and one with many names out of order, which the tree's map sorts.
ghost use Rattle.std.specs.Prelude.{◌≡◌, ◌<◌, ◌==◌, IfOk, IfSome, IsTrue, Ok, Some, false, length, slice_index, true};
ghost use Rattle.json.specs.Lex.{tokens};
ghost use Rattle.serde_json.specs.Data.{negative as below_zero, unsigned as not_negative};
ghost use Rattle.serde_json.specs.Read.{number_from};
ghost use Rattle.js_doc.specs.Reading.{IsReadAs};
ghost use Rattle.js_doc.specs.Seen.{items_seen, value_of};
ghost use Rattle.js_doc.specs.Value.{members};
ghost use Rattle.js_doc.specs.code.FromTokens.{AreNextItems, AreNextMembers, IsNextValue, IsWholeText};

use crate::doc::Doc;
use crate::items::Items;
use crate::members::Members;
use crate::memory::Memory;
use crate::string::Text;
use crate::whole::Whole;
use fast_float::Numeral;
use json::{Reader, Scratch, Token};
use simdutf8::compat::from_utf8;
use std::alloc::Global;

/// How deep `serde_json` reads.
const MAX_DEPTH: usize = 127;

/// How many members `put` may move for a name that comes out of order.
const MOST_MOVED: usize = 256;

/// The value of a JSON text.
///
/// # Errors
/// `Memory`.
pub(crate) fn read_by_tokens(alloc: Global, bytes: &[u8]) -> Result<Option<Doc>, Memory>
    ensures { IfOk result (λ o. IfSome o (λ d. IsReadAs bytes.now (Ok (value_of d)))) }
{
    let Ok(text) = from_utf8(bytes) else {
        return Ok(None);
    };
    let mut scratch = Scratch::new(alloc);
    let mut reader = Reader::new(text, &mut scratch)?;
    let Some(doc) = next_value(alloc, &mut reader, MAX_DEPTH)? else {
        return Ok(None);
    };
    if reader.next().is_some() {
        return Ok(None);
    }
    Ok(Some(doc))
}

#[cycle(next)]
#[inline(always)]
fn next_value(alloc: Global, reader: &mut Reader<'_>, depth: usize) -> Result<Option<Doc>, Memory>
    ensures is { IfOk result (λ o. IfSome o (λ d. IsNextValue depth reader.old (value_of d) reader.new)) }
    ensures shorter { IfOk result (λ o. IfSome o (λ _. length reader.new < length reader.old)) }
{
    let Some(token) = reader.next() else {
        return Ok(None);
    };
    match token {
        Token::String(text) => {
            let text = Text::from_str(alloc, text)?;
            Ok(Some(Doc::Text(text)))
        }
        Token::Number(text) => Ok(whole_of(text)),
        Token::Bool(b) => Ok(Some(Doc::Truth(b))),
        Token::Null => Ok(Some(Doc::Null)),
        Token::BeginArray => {
            if depth == 0 {
                return Ok(None);
            }
            match next_items(alloc, reader, depth - 1)? {
                Some(docs) => Ok(Some(Doc::List(Items::new(docs)))),
                None => Ok(None),
            }
        }
        Token::BeginObject => {
            if depth == 0 {
                return Ok(None);
            }
            match next_members(alloc, reader, depth - 1)? {
                Some(members) => Ok(Some(Doc::Members(members))),
                None => Ok(None),
            }
        }
        Token::EndObject | Token::EndArray | Token::Key(_) | Token::Bad => Ok(None),
    }
}

#[cycle(next)]
#[inline(never)]
fn next_items(
    alloc: Global,
    reader: &mut Reader<'_>,
    depth: usize,
) -> Result<Option<Vec<Doc>>, Memory>
    ensures are { IfOk result (λ o. IfSome o (λ v. AreNextItems depth reader.old (items_seen v.items) reader.new)) }
    ensures shorter { IfOk result (λ o. IfSome o (λ _. length reader.new < length reader.old)) }
{
    let mut docs = Vec::new(alloc);
    'items: while !reader.take_end_array() {
        let Some(doc) = next_value(alloc, reader, depth)? else {
            return Ok(None);
        };
        docs.push(doc)?;
    }
    Ok(Some(docs))
}

#[cycle(next)]
#[inline(never)]
fn next_members(
    alloc: Global,
    reader: &mut Reader<'_>,
    depth: usize,
) -> Result<Option<Members>, Memory>
    ensures are { IfOk result (λ o. IfSome o (λ m. AreNextMembers depth reader.old (members m) reader.new)) }
    ensures shorter { IfOk result (λ o. IfSome o (λ _. length reader.new < length reader.old)) }
{
    let mut found = Members::new(alloc);
    'members: loop {
        let Ok(key) = reader.next_key() else {
            return Ok(None);
        };
        match key {
            Some(name) => {
                if MOST_MOVED < found.len() && !found.goes_last(name) {
                    return Ok(None);
                }
                let name = Text::from_str(alloc, name)?;
                let Some(doc) = next_value(alloc, reader, depth)? else {
                    return Ok(None);
                };
                found.put(name, doc)?;
            }
            None => return Ok(Some(found)),
        }
    }
}

// The whole number that a token is, or None where it isn't whole or takes more than 64 bits.
fn whole_of(text: &str) -> Option<Doc>
    ensures { IfSome result (λ d. IsWholeText text.now (value_of d)) }
{
    let bytes = text.as_bytes();
    if has_minus(bytes) {
        let number = negative(&Numeral::scan(&bytes[1..]))?;
        Some(Doc::Whole(Whole::from_i64(number)))
    } else {
        let number = unsigned(&Numeral::scan(bytes))?;
        Some(Doc::Whole(Whole::from_u64(number)))
    }
}

#[inline(always)]
fn has_minus(bytes: &[u8]) -> bool
    ensures value { result ≡ (slice_index bytes.now 0 == 45) }
    ensures len { IsTrue result → 0 < length bytes.now }
{
    !bytes.is_empty() && bytes[0] == b'-'
}

fn unsigned(numeral: &Numeral<'_>) -> Option<u64>
    ensures { IfSome result (λ n. number_from false numeral.now ≡ Some (not_negative n)) }
{
    numeral.to_u64()
}

fn negative(numeral: &Numeral<'_>) -> Option<i64>
    ensures { IfSome result (λ n. number_from true numeral.now ≡ Some (below_zero n)) }
{
    let number = numeral.to_i64(true)?;
    if number < 0 { Some(number) } else { None }
}

//! From `serde_json`'s value to ours, whose texts move: one tree goes as the other comes.
ghost use Rattle.std.specs.Prelude.{◌≡◌, ◌≤◌, [], Ok, IfOk, IfErr, decimal, vec_capacity};
ghost use Rattle.serde_json.specs.View.{view, number_view, items_view, members_view};
ghost use Rattle.js_doc.specs.Value.{members};
ghost use Rattle.js_doc.specs.Seen.{value_of, items_seen};
ghost use Rattle.js_doc.specs.WholeNumbers.{whole_number, value_in, items_in, members_in};
ghost use Rattle.js_doc.specs.Reading.{IsConversionFault};

use crate::doc::Doc;
use crate::items::Items;
use crate::members::Members;
use crate::memory::Memory;
use crate::pointer::Pointer;
use crate::reading::ReadFault;
use crate::string::Text;
use crate::whole::Whole;
use serde_json::{Map, Number, Value};
use std::alloc::Global;

// It stands in the two loops below, so that a value without parts costs no call.
#[cycle(convert)]
#[inline(always)]
pub(crate) fn convert(alloc: Global, value: Value) -> Result<Doc, ReadFault>
    ensures ok { IfOk result (λ d. value_in (view value) ≡ Ok (value_of d)) }
    ensures err { IfErr result (λ e. IsConversionFault (value_in (view value)) e) }
{
    match value {
        Value::Null => Ok(Doc::Null),
        Value::Bool(b) => Ok(Doc::Truth(b)),
        Value::Number(number) => convert_number(alloc, &number),
        Value::String(text) => Ok(Doc::Text(Text::new(text))),
        Value::Array(values) => Ok(Doc::List(Items::new(convert_items(alloc, values)?))),
        Value::Object(map) => {
            let members = convert_members(alloc, map)?;
            Ok(Doc::Members(members))
        }
    }
}

#[cycle(convert)]
#[inline(never)]
fn convert_items(alloc: Global, values: Vec<Value>) -> Result<Vec<Doc>, ReadFault>
    ensures ok { IfOk result
        (λ v. items_in 0 (items_view values.items) ≡ Ok (items_seen v.items)) }
    ensures err { IfErr result (λ e. IsConversionFault (items_in 0 (items_view values.items)) e) }
{
    let mut docs = values_with_room(alloc, values.len())?;
    for value in values {
        match convert(alloc, value) {
            Ok(doc) => docs.push_reserved(doc),
            Err(fault) => return Err(fault.lifted(index_token(alloc, docs.len())?)),
        }
    }
    Ok(docs)
}

#[cycle(convert)]
#[inline(never)]
fn convert_members(alloc: Global, map: Map<String, Value>) -> Result<Members, ReadFault>
    ensures ok { IfOk result (λ m. members_in (members_view map.entries) ≡ Ok (members m)) }
    ensures err { IfErr result (λ e. IsConversionFault (members_in (members_view map.entries)) e) }
{
    let mut members = Members::with_capacity(alloc, map.len())?;
    for (name, value) in map {
        match convert(alloc, value) {
            Ok(doc) => members.push(Text::new(name), doc)?,
            Err(fault) => return Err(fault.lifted(Text::new(name))),
        }
    }
    Ok(members)
}

fn convert_number(alloc: Global, number: &Number) -> Result<Doc, ReadFault>
    ensures ok { IfOk result (λ d. whole_number (number_view number.now) ≡ Ok (value_of d)) }
    ensures err { IfErr result (λ e. IsConversionFault (whole_number (number_view number.now)) e) }
{
    if let Some(n) = number.as_u64() {
        return Ok(Doc::Whole(Whole::from_u64(n)));
    }
    match number.as_i64() {
        Some(n) => Ok(Doc::Whole(Whole::from_i64(n))),
        None => Err(ReadFault::NotWhole(Pointer::new(alloc))),
    }
}

fn index_token(alloc: Global, index: usize) -> Result<Text, Memory>
    ensures { IfOk result (λ t. t ≡ decimal index) }
{
    let text = index.to_string(alloc)?;
    Ok(Text::new(text))
}

// No values, with room for `len`.
fn values_with_room(alloc: Global, len: usize) -> Result<Vec<Doc>, Memory>
    ensures items { IfOk result (λ v. v.items ≡ []) }
    ensures room { IfOk result (λ v. len ≤ vec_capacity v) }
{
    let docs = Vec::with_capacity(alloc, len)?;
    Ok(docs)
}

//! Where parts of an upgraded document come from, as C sees it.
ghost use Rattle.std.specs.Prelude.{◌≡◌, [], None, IfErr, IfOk, Ok, map, option_map};
ghost use Rattle.js_doc.specs.Reading.{IsReadAs};
ghost use Rattle.js_doc.specs.Seen.{value_of};
ghost use Rattle.jschema_c.specs.LastCall.{text_in};
ghost use Rattle.jschema_c.specs.Tracing.{RefusesOriginal, Traces, origin_told, origins_text, origins_told};

use crate::last_call::LastCall;
use crate::position::parse_all;
use crate::session::LONGEST_DOCUMENT;
use crate::status::Status;
use crate::upgrading::assumed_in;
use js_doc::{Doc, Items, Memory, Pointer, Text, read};
use js_output::{Fault, unread_document, value_line};
use js_upgrade::{Dialect, original};
use std::alloc::Global;

/// Lists where what stands at the pointers in the upgraded document comes from, as the text. The pointers' texts stand
/// one after another, each up to its end.
pub(crate) fn traced(
    alloc: Global,
    uri: &[u8],
    document: &[u8],
    pointers: &[u8],
    ends: &[usize],
    said: &mut LastCall,
) -> Result<Status, Fault>
    ensures traces { Traces uri.now document.now pointers.now ends.now (text_in said.new) result }
    ensures none { said.new.refusal ≡ None }
{
    said.reset();
    let Some(assumed) = assumed_in(uri) else {
        return Ok(Status::Misused);
    };
    let Some(parsed) = parse_all(alloc, pointers, ends)? else {
        return Ok(Status::Misused);
    };
    let root = root_of(alloc, document)?;
    let list = origins_text(alloc, assumed, &root, parsed.as_slice())?;
    said.text = list;
    Ok(Status::Done)
}

fn root_of(alloc: Global, document: &[u8]) -> Result<Doc, Fault>
    ensures ok { IfOk result (λ d. IsReadAs document.now (Ok (value_of d))) }
    ensures err { IfErr result (RefusesOriginal document.now) }
{
    if LONGEST_DOCUMENT < document.len() {
        return Err(Fault::InputTooLarge);
    }
    match read(alloc, document) {
        Ok(root) => Ok(root),
        Err(fault) => Err(unread_document(alloc, 0, fault)),
    }
}

// A JSON array with a text for each pointer, and a line feed.
fn origins_text(
    alloc: Global,
    assumed: Dialect,
    root: &Doc,
    pointers: &[Pointer],
) -> Result<Vec<u8>, Memory>
    ensures { IfOk result (λ v. v.items ≡ origins_text assumed (value_of root.now) pointers.now) }
{
    let origins = origins(alloc, assumed, root, pointers)?;
    value_line(alloc, &Doc::List(Items::new(origins)))
}

fn origins(
    alloc: Global,
    assumed: Dialect,
    root: &Doc,
    pointers: &[Pointer],
) -> Result<Vec<Doc>, Memory>
    ensures { IfOk result (λ v. map value_of v.items ≡ origins_told assumed (value_of root.now) pointers.now) }
{
    let mut origins = Vec::with_capacity(alloc, pointers.len())?;
    for pointer in pointers {
        let found = original(alloc, assumed, root, pointer.tokens())?;
        origins.push(origin_told(alloc, found)?)?;
    }
    Ok(origins)
}

fn origin_told(alloc: Global, found: Option<Pointer>) -> Result<Doc, Memory>
    ensures { IfOk result (λ d. value_of d ≡ origin_told found) }
{
    match found {
        Some(pointer) => Ok(Doc::Text(Text::new(pointer.text(alloc)?))),
        None => Ok(Doc::Null),
    }
}

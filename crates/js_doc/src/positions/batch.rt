//! Where the values at many pointers stand in a text.
ghost use Rattle.std.specs.Prelude.{◌≡◌, ◌≢◌, ◌<◌, IfOk, IfSome, IsUtf8, None, Some, drop, length, map};
ghost use Rattle.std.specs.Prelude.{option_map};
ghost use Rattle.json.specs.Find.{BeginsWith};
ghost use Rattle.json.specs.Json.{Json, document};
ghost use Rattle.json.specs.Lex.{tokens};
ghost use Rattle.json.specs.Tape.{Linked, node_token};
ghost use Rattle.js_doc.specs.Positions.{name_start, spot_at, spots, value_end};
ghost use Rattle.js_doc.specs.Spots.{spot_seen, spots_seen};
ghost use Rattle.js_doc.specs.code.Nodes.{IsTape};
ghost use Rattle.js_doc.specs.code.SpotTable.{AreAllBegun};

use super::ends::trimmed_length;
use super::name_token;
use super::nodes::{after, value_placed};
use super::spots::{Spot, spot_of, spots, start_of};
use crate::memory::Memory;
use crate::pointer::Pointer;
use json::{Error, Node, Scratch, Tape};
use simdutf8::compat::from_utf8;
use std::alloc::Global;

/// Where a value stands in a text.
#[derive(Clone, Copy, Debug, Drop)]
pub struct Spots {
    /// The value's first byte.
    pub value: Spot,
    /// The offset of the byte after its last.
    pub end: usize,
    /// The first byte of the member's name, where the value is a member's.
    pub name: Option<Spot>,
}

/// Where the values at the pointers stand in the text, each as `position_of` says: None where the bytes are no JSON
/// text. The text is read once, however many pointers there are.
///
/// # Errors
/// `Memory`; a text of 4 GiB or more is refused so too.
pub fn positions_of(
    alloc: Global,
    bytes: &[u8],
    pointers: &[Pointer],
) -> Result<Option<Vec<Option<Spots>>>, Memory>
    ensures found { IfOk result (λ o. IfSome o (λ v. IsUtf8 bytes.now × (document bytes.now ≢ None)
        × (map spots_seen v.items ≡ map (spots bytes.now) pointers.now))) }
    ensures none { IfOk result (λ o. o ≡ None → IsUtf8 bytes.now → document bytes.now ≡ None) }
{
    match from_utf8(bytes) {
        Ok(text) => positions_in(alloc, text, pointers),
        Err(_) => Ok(None),
    }
}

fn positions_in(
    alloc: Global,
    text: &str,
    pointers: &[Pointer],
) -> Result<Option<Vec<Option<Spots>>>, Memory>
    ensures found { IfOk result (λ o. IfSome o (λ v. (document text.now ≢ None)
        × (map spots_seen v.items ≡ map (spots text.now) pointers.now))) }
    ensures none { IfOk result (λ o. o ≡ None → document text.now ≡ None) }
{
    let mut scratch = Scratch::new(alloc);
    let tape = match Tape::parse(text, &mut scratch, Vec::new(alloc)) {
        Ok(tape) => tape,
        Err(Error::Invalid) => return Ok(None),
        Err(_) => return Err(Memory),
    };
    let begun = spots(alloc, text.as_bytes())?;
    let found = all_found(alloc, text, tape.nodes(), &begun, pointers)?;
    Ok(Some(found))
}

fn all_found(
    alloc: Global,
    text: &str,
    nodes: &[Node<'_>],
    begun: &[Spot],
    pointers: &[Pointer],
) -> Result<Vec<Option<Spots>>, Memory>
    requires { IsTape text.now nodes.now × AreAllBegun text.now begun.now }
    ensures { IfOk result (λ v. map spots_seen v.items ≡ map (spots text.now) pointers.now) }
{
    let mut all = Vec::with_capacity(alloc, pointers.len())?;
    for pointer in pointers {
        all.push(found(text, nodes, begun, pointer))?;
    }
    Ok(all)
}

fn found(text: &str, nodes: &[Node<'_>], begun: &[Spot], pointer: &Pointer) -> Option<Spots>
    requires { IsTape text.now nodes.now × AreAllBegun text.now begun.now }
    ensures { spots_seen result ≡ spots text.now pointer.now }
{
    match value_placed(nodes, pointer.tokens()) {
        Some(at) => Some(Spots {
            value: spot_of(text, begun, at),
            end: value_end(text, nodes, begun, at),
            name: name_spot(text, nodes, begun, at),
        }),
        None => None,
    }
}

fn value_end(text: &str, nodes: &[Node<'_>], begun: &[Spot], at: usize) -> usize
    requires { (at < length nodes.now) × Linked (map node_token nodes.now) 0 nodes.now
        × AreAllBegun text.now begun.now }
    ensures { (j : Json) → BeginsWith (drop at (map node_token nodes.now)) j → result ≡ value_end at j text.now }
{
    trimmed_length(text.as_bytes(), start_of(text, begun, after(nodes, at)))
}

fn name_spot(text: &str, nodes: &[Node<'_>], begun: &[Spot], at: usize) -> Option<Spot>
    requires { (map node_token nodes.now ≡ tokens text.now) × (at < length nodes.now)
        × AreAllBegun text.now begun.now }
    ensures { option_map spot_seen result ≡ option_map (spot_at text.now) (name_start at text.now) }
{
    match name_token(text, nodes, at) {
        Some(name) => Some(spot_of(text, begun, name)),
        None => None,
    }
}

//! Where the value at a pointer stands in a text.
ghost use Rattle.std.specs.Prelude.{◌≡◌, ◌<◌, IfOk, IfSome, IsUtf8, None, Some, drop, length, map, option_map};
ghost use Rattle.json.specs.Find.{BeginsWith};
ghost use Rattle.json.specs.Json.{Json};
ghost use Rattle.json.specs.Lex.{tokens};
ghost use Rattle.json.specs.Tape.{Linked, node_token};
ghost use Rattle.js_doc.specs.Positions.{BeginsAt, name_start, position, token_start, value_end};

use crate::memory::Memory;
use crate::pointer::Pointer;
use json::{Error, Node, Scratch, Tape};
use simdutf8::compat::from_utf8;
use std::alloc::Global;

mod batch;
mod ends;
mod lines;
mod nodes;
mod spots;
mod starts;

pub use batch::{Spots, positions_of};
use ends::trimmed_length;
pub use lines::line_and_column;
use nodes::{after, value_placed};
pub use spots::Spot;
use starts::token_start;

/// Where a value stands in a text.
#[derive(Clone, Copy, Debug, Drop)]
pub struct Position {
    /// The offset of the value's first byte.
    pub offset: usize,
    /// The offset of the byte after its last.
    pub end: usize,
    /// The offset of the first byte of the member's name, where the value is a member's.
    pub name: Option<usize>,
}

/// Where the value at the pointer stands in the text: None where the bytes are no JSON text, or no value stands there.
/// Of members with the same name the last counts, as for `read`. A number that `read` refuses is found too, and arrays
/// and objects may be 128 deep, which is one more than `read` allows.
///
/// # Errors
/// `Memory`; a text of 4 GiB or more is refused so too.
pub fn position_of(
    alloc: Global,
    bytes: &[u8],
    pointer: &Pointer,
) -> Result<Option<Position>, Memory>
    ensures found { IfOk result (λ o. IfSome o (λ p. IsUtf8 bytes.now
        × (position bytes.now pointer.now ≡ Some (p.offset, (p.end, p.name))))) }
    ensures begins { IfOk result (λ o. IfSome o (λ p. BeginsAt bytes.now pointer.now p.offset)) }
    ensures none { IfOk result
        (λ o. o ≡ None → IsUtf8 bytes.now → position bytes.now pointer.now ≡ None) }
{
    match from_utf8(bytes) {
        Ok(text) => position_in(alloc, text, pointer),
        Err(_) => Ok(None),
    }
}

fn position_in(alloc: Global, text: &str, pointer: &Pointer) -> Result<Option<Position>, Memory>
    ensures is { IfOk result
        (λ o. option_map (λ p. (p.offset, (p.end, p.name))) o ≡ position text.now pointer.now) }
    ensures begins { IfOk result (λ o. IfSome o (λ p. BeginsAt text.now pointer.now p.offset)) }
{
    let mut scratch = Scratch::new(alloc);
    let tape = match Tape::parse(text, &mut scratch, Vec::new(alloc)) {
        Ok(tape) => tape,
        Err(Error::Invalid) => return Ok(None),
        Err(_) => return Err(Memory),
    };
    let nodes = tape.nodes();
    match value_placed(nodes, pointer.tokens()) {
        Some(at) => Ok(Some(Position {
            offset: token_start(text.as_bytes(), at),
            end: value_end(text.as_bytes(), nodes, at),
            name: name_start(text, nodes, at),
        })),
        None => Ok(None),
    }
}

fn value_end(text: &[u8], nodes: &[Node<'_>], at: usize) -> usize
    requires { (at < length nodes.now) × Linked (map node_token nodes.now) 0 nodes.now }
    ensures { (j : Json) → BeginsWith (drop at (map node_token nodes.now)) j → result ≡ value_end at j text.now }
{
    trimmed_length(text, token_start(text, after(nodes, at)))
}

fn name_start(text: &str, nodes: &[Node<'_>], at: usize) -> Option<usize>
    requires { (map node_token nodes.now ≡ tokens text.now) × (at < length nodes.now) }
    ensures { result ≡ name_start at text.now }
{
    match name_token(text, nodes, at) {
        Some(name) => Some(token_start(text.as_bytes(), name)),
        None => None,
    }
}

/// The number of the token before this one, if that is a name.
pub(crate) fn name_token(text: &str, nodes: &[Node<'_>], at: usize) -> Option<usize>
    requires { (map node_token nodes.now ≡ tokens text.now) × (at < length nodes.now) }
    ensures { option_map (λ n. token_start n text.now) result ≡ name_start at text.now }
{
    if at == 0 {
        return None;
    }
    match nodes[at - 1] {
        Node::Key(_) => Some(at - 1),
        _ => None,
    }
}

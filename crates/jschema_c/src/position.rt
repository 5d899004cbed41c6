//! Where values stand in a JSON text, as C sees it.
ghost use Rattle.std.specs.Prelude.{◌≡◌, ◌≤◌, ◌-◌, IfOk, IfSome, IsUtf8, None, Some};
ghost use Rattle.std.specs.Prelude.{List, drop, length, map, option_map, take};
ghost use Rattle.js_doc.specs.Pointer.{Tokens, pointer_text};
ghost use Rattle.js_doc.specs.Spots.{spot_seen, spots_seen};
ghost use Rattle.jschema_c.specs.Locating.{ArePointers, AreUtf8, Locates, position_seen, spot_told, spots_told};

use crate::status::Status;
use js_doc::{Memory, Pointer, PointerFault, Spot, Spots, positions_of};
use simdutf8::compat::from_utf8;
use std::alloc::Global;

/// Where a value begins and ends, and where its member's name begins: bytes from 0, lines and columns from 1. Of what
/// isn't there, each number is the greatest.
#[repr(C)]
#[derive(Clone, Copy, Drop)]
pub struct ValuePosition {
    pub offset: usize,
    pub line: usize,
    pub column: usize,
    /// The byte after the value's last.
    pub end: usize,
    pub name_offset: usize,
    pub name_line: usize,
    pub name_column: usize,
}

const ABSENT: usize = usize::MAX;

/// Finds the values at the pointers, whose texts stand in `pointers` one after another, each up to its end.
pub(crate) fn locate(
    alloc: Global,
    text: &[u8],
    pointers: &[u8],
    ends: &[usize],
    positions: &mut [ValuePosition],
) -> Status
    ensures { Locates text.now pointers.now ends.now positions.old positions.new result }
{
    if ends.len() != positions.len() {
        return Status::Misused;
    }
    let parsed = match parse_all(alloc, pointers, ends) {
        Ok(Some(parsed)) => parsed,
        Ok(None) => return Status::Misused,
        Err(_) => return Status::Failed,
    };
    match positions_of(alloc, text, &parsed) {
        Ok(Some(found)) => {
            put_all(&found, positions);
            Status::Done
        }
        Ok(None) => Status::Refused,
        Err(_) => Status::Failed,
    }
}

/// The pointers whose texts stand one after another, each up to its end. None if one isn't a pointer's.
///
/// # Errors
/// `Memory`.
pub(crate) fn parse_all(
    alloc: Global,
    bytes: &[u8],
    ends: &[usize],
) -> Result<Option<Vec<Pointer>>, Memory>
    ensures some { IfOk result (λ o. IfSome o (λ v. ArePointers bytes.now 0 ends.now v.items
        × (length v.items ≡ length ends.now))) }
    ensures none { IfOk result (λ o. o ≡ None → (ps : List Tokens) → AreUtf8 ps
        → ¬ (ArePointers bytes.now 0 ends.now ps)) }
{
    let mut all = Vec::with_capacity(alloc, ends.len())?;
    let mut start = 0;
    for &end in ends {
        match parse_between(alloc, bytes, start, end)? {
            Some(pointer) => all.push(pointer)?,
            None => return Ok(None),
        }
        start = end;
    }
    Ok(Some(all))
}

fn parse_between(
    alloc: Global,
    bytes: &[u8],
    start: usize,
    end: usize,
) -> Result<Option<Pointer>, Memory>
    ensures some { IfOk result (λ o. IfSome o (λ p. (start ≤ end) × (end ≤ length bytes.now)
        × (pointer_text p ≡ take (end - start) (drop start bytes.now)))) }
    ensures none { IfOk result (λ o. o ≡ None → (p : Tokens) → IsUtf8 (pointer_text p) → start ≤ end
        → end ≤ length bytes.now → ¬ (pointer_text p ≡ take (end - start) (drop start bytes.now))) }
{
    if start > end || end > bytes.len() {
        return Ok(None);
    }
    let Ok(text) = from_utf8(&bytes[start..end]) else {
        return Ok(None);
    };
    match Pointer::parse(alloc, text) {
        Ok(pointer) => Ok(Some(pointer)),
        Err(PointerFault::BadPointer) => Ok(None),
        Err(PointerFault::Memory) => Err(Memory),
    }
}

fn put_all(found: &[Option<Spots>], positions: &mut [ValuePosition])
    requires { length found.now ≡ length positions.old }
    ensures { map position_seen positions.new ≡ map (λ s. spots_told (spots_seen s)) found.now }
{
    for i in 0..found.len() {
        positions[i] = position_of(found[i]);
    }
}

fn position_of(found: Option<Spots>) -> ValuePosition
    ensures { position_seen result ≡ spots_told (spots_seen found) }
{
    let (value, end, name) = match found {
        Some(spots) => (Some(spots.value), spots.end, spots.name),
        None => (None, ABSENT, None),
    };
    let value = spot_or_absent(value);
    let name = spot_or_absent(name);
    ValuePosition {
        offset: value.offset,
        line: value.line,
        column: value.column,
        end,
        name_offset: name.offset,
        name_line: name.line,
        name_column: name.column,
    }
}

fn spot_or_absent(spot: Option<Spot>) -> Spot
    ensures { spot_seen result ≡ spot_told (option_map spot_seen spot) }
{
    match spot {
        Some(spot) => spot,
        None => Spot {
            offset: ABSENT,
            line: ABSENT,
            column: ABSENT,
        },
    }
}

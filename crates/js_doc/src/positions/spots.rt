//! The spots at which the tokens of a text begin, found in one pass.
ghost use Rattle.std.specs.Prelude.{◌≡◌, ◌<◌, ◌+◌, ◌≤◌, ◌^◌, ◌++◌, ◌∷◌, [], IfOk, if◌then◌else◌, length};
ghost use Rattle.js_doc.specs.Positions.{line_and_column_past, spot_at, token_start};
ghost use Rattle.js_doc.specs.Spots.{spot_seen};
ghost use Rattle.js_doc.specs.code.SpotTable.{AreAllBegun};

use super::lines::{line_and_column, line_and_column_past};
use super::starts::{Within, begins, past};
use crate::memory::Memory;
use std::alloc::Global;

/// A byte of a text.
#[derive(Clone, Copy, Debug, Drop)]
pub struct Spot {
    /// The number of bytes before it.
    pub offset: usize,
    /// Its line, from 1.
    pub line: usize,
    /// Its column, from 1, in characters.
    pub column: usize,
}

/// Where each token of the text begins.
pub(crate) fn spots(alloc: Global, text: &[u8]) -> Result<Vec<Spot>, Memory>
    ensures { IfOk result (λ v. AreAllBegun text.now v.items) }
{
    let mut spots = Vec::new(alloc);
    let mut within = Within::Nothing;
    let mut here = Spot {
        offset: 0,
        line: 1,
        column: 1,
    };
    for &byte in text {
        push_if(&mut spots, begins(within, byte), here)?;
        within = past(within, byte);
        here = spot_past(here, byte);
    }
    Ok(spots)
}

fn push_if(spots: &mut Vec<Spot>, wanted: bool, spot: Spot) -> Result<(), Memory>
    ensures { IfOk result (λ _. spots.new.items
        ≡ (if wanted then spots.old.items ++ spot ∷ [] else spots.old.items)) }
{
    if wanted {
        spots.push(spot)?;
    }
    Ok(())
}

// The spot behind the byte.
fn spot_past(spot: Spot, byte: u8) -> Spot
    requires { (spot.offset < 2 ^ 63) × (spot.line < 2 ^ 63 + 1) × (spot.column < 2 ^ 63 + 1) }
    ensures offset { result.offset ≡ spot.offset + 1 }
    ensures is { (result.line, result.column) ≡ line_and_column_past spot.line spot.column (byte ∷ []) }
    ensures small { (result.line ≤ spot.line + 1) × (result.column ≤ spot.column + 1) }
{
    let (line, column) = line_and_column_past(spot.line, spot.column, byte);
    Spot {
        offset: spot.offset + 1,
        line,
        column,
    }
}

/// Where the token that has `number` tokens before it begins, as the table says; the text's end if there is none.
pub(crate) fn spot_of(text: &str, spots: &[Spot], number: usize) -> Spot
    requires { AreAllBegun text.now spots.now }
    ensures { spot_seen result ≡ spot_at text.now (token_start number text.now) }
{
    if number < spots.len() {
        return spots[number];
    }
    let (line, column) = line_and_column(text.as_bytes(), text.len());
    Spot {
        offset: text.len(),
        line,
        column,
    }
}

/// How many bytes stand before the token that has `number` tokens before it: all of them if there is none.
pub(crate) fn start_of(text: &str, spots: &[Spot], number: usize) -> usize
    requires { AreAllBegun text.now spots.now }
    ensures { result ≡ token_start number text.now }
{
    match spots.get(number) {
        Some(spot) => spot.offset,
        None => text.len(),
    }
}

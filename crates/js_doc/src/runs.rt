//! Runs of bytes that stand in a JSON string as they are (RFC 8259, section 7).
ghost use Rattle.std.specs.Prelude.{◌≡◌, ◌+◌, ◌-◌, ◌<◌, ◌≤◌, drop, length, map};
ghost use Rattle.std.specs.List.{list_all, prefix_len};
ghost use Rattle.std.specs.Simd.Lanes.{mask_l};
ghost use Rattle.js_doc.specs.Escapes.{needs_escape, stands};

use std::simd::prelude::*;

/// Whether the bytes stand in a string as they are: none of them has to be escaped.
pub fn stand_as_they_are(bytes: &[u8]) -> bool
    ensures { result ≡ list_all stands bytes.now }
{
    run_end(bytes, 0) == bytes.len()
}

/// Where the run from `start` on ends: the place of the first byte that has to be escaped, or the length.
pub(crate) fn run_end(bytes: &[u8], start: usize) -> usize
    requires { start ≤ length bytes.now }
    ensures value { result ≡ start + prefix_len stands (drop start bytes.now) }
    ensures bound { result ≤ length bytes.now }
{
    if bytes.len() - start < 16 {
        return run_end_among_few(bytes, start);
    }
    let mut end = start;
    while bytes.len() - end >= 16 {
        let escapes = escapes_of(u8x16::from_slice(&bytes[end..]));
        if escapes != 0 {
            return end + escapes.trailing_zeros() as usize;
        }
        end += 16;
    }
    run_end_in_last::<16>(bytes)
}

// The same from the last N bytes on. Those before them are known to stand as they are, and some of these too: looking
// at them again costs less than looking at the others one by one.
fn run_end_in_last<const N: usize>(bytes: &[u8]) -> usize
    requires { (N ≤ 64) × (N ≤ length bytes.now) }
    ensures { result ≡ (length bytes.now - N) + prefix_len stands (drop (length bytes.now - N) bytes.now) }
{
    let last = bytes.len() - N;
    let escapes = escapes_of(Simd::<u8, N>::from_slice(&bytes[last..]));
    if escapes != 0 {
        return last + escapes.trailing_zeros() as usize;
    }
    bytes.len()
}

// The same where fewer than 16 bytes are left.
fn run_end_among_few(bytes: &[u8], start: usize) -> usize
    requires { (start ≤ length bytes.now) × (length bytes.now - start < 16) }
    ensures { result ≡ start + prefix_len stands (drop start bytes.now) }
{
    if bytes.len() - start < 8 {
        return run_end_by_bytes(bytes, start);
    }
    let escapes = escapes_of(u8x8::from_slice(&bytes[start..]));
    if escapes != 0 {
        return start + escapes.trailing_zeros() as usize;
    }
    run_end_in_last::<8>(bytes)
}

fn run_end_by_bytes(bytes: &[u8], start: usize) -> usize
    requires { start ≤ length bytes.now }
    ensures { result ≡ start + prefix_len stands (drop start bytes.now) }
{
    let mut end = start;
    while end < bytes.len() && !is_escaped(bytes[end]) {
        end += 1;
    }
    end
}

fn is_escaped(byte: u8) -> bool
    ensures { result ≡ needs_escape byte }
{
    byte == b'"' || byte == b'\\' || byte < 0x20
}

// A bit for each byte that has to be escaped, the first byte's lowest.
fn escapes_of<const N: usize>(bytes: Simd<u8, N>) -> u64
    requires { N ≤ 64 }
    ensures { result ≡ mask_l (map needs_escape bytes.entry) }
{
    let quotes = bytes.simd_eq(Simd::splat(b'"'));
    let backslashes = bytes.simd_eq(Simd::splat(b'\\'));
    let controls = bytes.simd_lt(Simd::splat(0x20));
    (quotes | backslashes | controls).to_bitmask()
}

//! The names of schemas, spelled so that `$anchor` can have them.
ghost use Rattle.std.specs.Prelude.{◌≡◌, ◌<◌, ◌++◌, IfOk, OnOk, codes, flat_map, true, if◌then◌else◌};
ghost use Rattle.std.specs.Fmt.{digit_glyph};
ghost use Rattle.std.specs.List.{list_all};
ghost use Rattle.js_doc.specs.Seen.{value_of};
ghost use Rattle.js_upgrade.specs.AnchorName.{anchor_name, anchor_upgraded, is_kept_byte, is_name_of_2019};
ghost use Rattle.js_upgrade.specs.AnchorName.{is_name_part, is_name_start, is_part_of_2019, is_plain_name, is_settled};
ghost use Rattle.js_upgrade.specs.AnchorName.{is_spelled, spelled, spelled_byte};

use js_doc::{Doc, Memory, Text};
use percent_encoding::ascii_str;
use std::alloc::Global;

/// The argument of `$anchor` of 2019-09.
///
/// # Errors
/// `Memory`.
pub(crate) fn anchor_upgraded(alloc: Global, value: Doc) -> Result<Doc, Memory>
    ensures { IfOk result (λ d. value_of d ≡ anchor_upgraded (value_of value)) }
{
    match value {
        Doc::Text(text) => Ok(Doc::Text(name_upgraded(alloc, text)?)),
        other => Ok(other),
    }
}

fn name_upgraded(alloc: Global, text: Text) -> Result<Text, Memory>
    ensures { IfOk result (λ t. t ≡ (if is_name_of_2019 text then anchor_name text else text)) }
{
    if is_name_of_2019(text.as_str().as_bytes()) {
        anchor_name(alloc, text.as_str().as_bytes())
    } else {
        Ok(text)
    }
}

/// The name in 2020-12.
///
/// # Errors
/// `Memory`.
pub(crate) fn anchor_name(alloc: Global, name: &[u8]) -> Result<Text, Memory>
    ensures { IfOk result (λ t. t ≡ anchor_name name.now) }
{
    if is_settled(name) {
        Text::from_str(alloc, ascii_str(name))
    } else {
        spelled_text(alloc, name)
    }
}

/// The name, spelled with bytes that `$anchor` can have.
///
/// # Errors
/// `Memory`.
pub(crate) fn spelled_text(alloc: Global, name: &[u8]) -> Result<Text, Memory>
    ensures { IfOk result (λ t. t ≡ spelled name.now) }
{
    let spelled = spelled(alloc, name)?;
    Text::from_str(alloc, ascii_str(spelled.as_slice()))
}

/// Whether the name stays as it is.
pub(crate) fn is_settled(name: &[u8]) -> bool
    ensures { result ≡ is_settled name.now }
{
    is_plain_name(name) && !is_spelled(name)
}

fn spelled(alloc: Global, name: &[u8]) -> Result<Vec<u8>, Memory>
    ensures { IfOk result (λ v. v.items ≡ spelled name.now) }
{
    let mut out = Vec::with_capacity(alloc, name.len())?;
    out.push(b'_')?;
    out.push(b'-')?;
    for byte in name {
        push_spelled(&mut out, *byte)?;
    }
    Ok(out)
}

fn push_spelled(out: &mut Vec<u8>, byte: u8) -> Result<(), Memory>
    ensures { OnOk result (out.new.items ≡ out.old.items ++ spelled_byte byte) }
{
    if is_kept_byte(byte) {
        out.push(byte)?;
    } else {
        out.push(b'-')?;
        out.push(hex_digit(byte / 16 % 16))?;
        out.push(hex_digit(byte % 16))?;
    }
    Ok(())
}

fn hex_digit(digit: u8) -> u8
    requires { digit < 16 }
    ensures { result ≡ digit_glyph true digit }
{
    if digit < 10 {
        b'0' + digit
    } else {
        b'A' - 10 + digit
    }
}

// Whether it begins as a spelled name does.
fn is_spelled(name: &[u8]) -> bool
    ensures { result ≡ is_spelled name.now }
{
    name.starts_with(b"_-")
}

fn is_kept_byte(byte: u8) -> bool
    ensures { result ≡ is_kept_byte byte }
{
    byte.is_ascii_alphanumeric() || (byte == b'.' || byte == b'_')
}

// What `$anchor` may be.
fn is_plain_name(name: &[u8]) -> bool
    ensures { result ≡ is_plain_name name.now }
{
    match name.split_first() {
        Some((first, others)) => is_name_start(*first) && are_name_parts(others),
        None => false,
    }
}

fn is_name_of_2019(name: &[u8]) -> bool
    ensures { result ≡ is_name_of_2019 name.now }
{
    match name.split_first() {
        Some((first, others)) => is_name_start(*first) && are_parts_of_2019(others),
        None => false,
    }
}

fn is_name_start(byte: u8) -> bool
    ensures { result ≡ is_name_start byte }
{
    byte.is_ascii_alphabetic() || byte == b'_'
}

fn are_name_parts(bytes: &[u8]) -> bool
    ensures { result ≡ list_all is_name_part bytes.now }
{
    bytes.iter().all(|byte| is_name_part(*byte))
}

fn is_name_part(byte: u8) -> bool
    ensures { result ≡ is_name_part byte }
{
    byte.is_ascii_alphanumeric() || (byte == b'-' || (byte == b'.' || byte == b'_'))
}

fn are_parts_of_2019(bytes: &[u8]) -> bool
    ensures { result ≡ list_all is_part_of_2019 bytes.now }
{
    bytes.iter().all(|byte| is_part_of_2019(*byte))
}

fn is_part_of_2019(byte: u8) -> bool
    ensures { result ≡ is_part_of_2019 byte }
{
    is_name_part(byte) || byte == b':'
}

//! Texts as JSON strings (RFC 8259, section 7): the escapes are those that `serde_json` writes.
ghost use Rattle.std.specs.Prelude.{◌≡◌, ◌<◌, ◌≤◌, ◌++◌, take, OnErr, OnOk, string_bytes};
ghost use Rattle.std.specs.Char.{digit_char};
ghost use Rattle.json.specs.Print.{escape, escape_byte, escape_letter};
ghost use Rattle.js_doc.specs.BytesOut.{Puts};
ghost use Rattle.js_doc.specs.Compact.{quoted};

use crate::bytes_out::{Out, Stopped};
use crate::memory::Memory;
use crate::runs::run_end;

/// Puts the text between quotation marks, with its escapes. Bytes that stand as they are go out in runs. It takes
/// no memory.
///
/// # Errors
/// `Stopped`; then a prefix has gone out.
pub fn put_string<O: Out>(text: &str, out: &mut O) -> Result<(), Stopped>
    ensures { Puts (O.progress out.old) (O.progress out.new) (quoted text.now) result }
{
    put_quoted(text.as_bytes(), out)
}

/// Puts the text at the end of another, between quotation marks, with its escapes.
///
/// # Errors
/// `Memory`; the other text is then as it was.
pub fn push_string(out: &mut String, text: &str) -> Result<(), Memory>
    ensures ok { OnOk result (string_bytes out.new ≡ string_bytes out.old ++ quoted text.now) }
    ensures stays { OnErr result (string_bytes out.new ≡ string_bytes out.old) }
{
    let len = out.len();
    let put = put_string(text, out);
    if put.is_err() {
        out.truncate(len);
    }
    put?;
    Ok(())
}

/// Writes the text with these bytes between quotation marks, with its escapes. It allocates nothing.
///
/// # Errors
/// `Stopped`; then a prefix has gone out.
pub fn put_quoted<O: Out>(bytes: &[u8], out: &mut O) -> Result<(), Stopped>
    ensures { Puts (O.progress out.old) (O.progress out.new) (quoted bytes.now) result }
{
    out.put(b"\"")?;
    put_escaped(bytes, out)?;
    out.put(b"\"")
}

/// Writes these bytes of a text with their escapes, but without quotation marks: a string can be written in parts. It
/// allocates nothing.
///
/// # Errors
/// `Stopped`; then a prefix has gone out.
pub fn put_escaped<O: Out>(bytes: &[u8], out: &mut O) -> Result<(), Stopped>
    ensures { Puts (O.progress out.old) (O.progress out.new) (escape bytes.now) result }
{
    let mut start = 0;
    loop {
        let end = run_end(bytes, start);
        out.put(&bytes[start..end])?;
        if end == bytes.len() {
            return Ok(());
        }
        put_escape(bytes[end], out)?;
        start = end + 1;
    }
}

fn put_escape<O: Out>(byte: u8, out: &mut O) -> Result<(), Stopped>
    ensures { Puts (O.progress out.old) (O.progress out.new) (escape_byte byte) result }
{
    let (escape, len) = escape_of(byte);
    out.put(&escape[..len])
}

// The escape's bytes, and how many of them there are.
fn escape_of(byte: u8) -> ([u8; 6], usize)
    ensures value { take result.1 result.0 ≡ escape_byte byte }
    ensures bound { result.1 ≤ 6 }
{
    let letter = short_escape(byte);
    if letter > 0 {
        return ([b'\\', letter, 0, 0, 0, 0], 2);
    }
    if byte < 0x20 {
        return (
            [
                b'\\',
                b'u',
                b'0',
                b'0',
                hex_digit(byte / 16),
                hex_digit(byte % 16),
            ],
            6,
        );
    }
    ([byte, 0, 0, 0, 0, 0], 1)
}

// The letter of the short escape, or 0 where there is none.
fn short_escape(byte: u8) -> u8
    ensures { result ≡ escape_letter byte }
{
    match byte {
        b'"' | b'\\' => byte,
        8 => b'b',
        12 => b'f',
        b'\n' => b'n',
        b'\r' => b'r',
        b'\t' => b't',
        _ => 0,
    }
}

fn hex_digit(digit: u8) -> u8
    requires { digit < 16 }
    ensures { result ≡ digit_char digit }
{
    if digit < 10 {
        b'0' + digit
    } else {
        b'a' - 10 + digit
    }
}

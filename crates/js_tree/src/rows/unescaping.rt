//! Texts from parts of locations, which have JSON escapes (RFC 8259, section 7).
ghost use Rattle.std.specs.Prelude.{◌≡◌, ◌++◌, IfOk, List, ℕ, option_map};
ghost use Rattle.json.specs.Print.{escape, quoted};
ghost use Rattle.json.specs.Reads.{token_of};
ghost use Rattle.js_tree.specs.Rows.RelativeState.{IsEscaped, part};
ghost use Rattle.js_tree.specs.code.Strings.{string_in};

use crate::rows::locations::put_part;
use js_doc::{Memory, Out, Text, put_escaped, stand_as_they_are};
use json::{Reader, Scratch, Token};
use std::alloc::Global;

/// The text `plain`, then a slash if there is one, and then what `escaped` is the escaped form of. Most parts have no
/// escapes.
///
/// # Errors
/// `Memory` if an allocation fails.
pub(crate) fn text_of(
    alloc: Global,
    plain: &str,
    slash: bool,
    escaped: &[u8],
) -> Result<Text, Memory>
    requires { IsEscaped (escape plain.now ++ part slash escaped.now) }
    ensures { IfOk result (λ t. (text : List ℕ) → escape plain.now ++ part slash escaped.now ≡ escape text
        → t ≡ text) }
{
    if !stand_as_they_are(escaped) {
        return read_text(alloc, plain, slash, escaped);
    }
    let room = plain
        .len()
        .saturating_add(escaped.len())
        .saturating_add(usize::from(slash));
    let mut text = String::with_capacity(alloc, room)?;
    text.push_str(plain)?;
    put_part(slash, escaped, &mut text)?;
    Ok(Text::new(text))
}

// The same where there are escapes: the reader of JSON undoes them, also those of `plain`, which are put in here.
fn read_text(alloc: Global, plain: &str, slash: bool, escaped: &[u8]) -> Result<Text, Memory>
    requires { IsEscaped (escape plain.now ++ part slash escaped.now) }
    ensures { IfOk result (λ t. (text : List ℕ) → escape plain.now ++ part slash escaped.now ≡ escape text
        → t ≡ text) }
{
    let mut json = String::new(alloc);
    json.put(b"\"")?;
    put_escaped(plain.as_bytes(), &mut json)?;
    put_part(slash, escaped, &mut json)?;
    json.put(b"\"")?;
    read_string(alloc, json.as_str())
}

// The text of a JSON string. It isn't inlined, since the reader's scratch space is large and lies on the stack.
#[inline(never)]
fn read_string(alloc: Global, json: &str) -> Result<Text, Memory>
    requires { (text : List ℕ) × (json.now ≡ quoted text) }
    ensures { IfOk result (λ t. (text : List ℕ) → json.now ≡ quoted text → t ≡ text) }
{
    let mut scratch = Scratch::new(alloc);
    let mut reader = Reader::new(json, &mut scratch)?;
    let Some(token) = reader.next() else {
        unreachable!()
    };
    let Some(text) = string_in(token) else {
        unreachable!()
    };
    Text::from_str(alloc, text)
}

// The text of the token, if it is a string.
fn string_in<'a>(token: Token<'a>) -> Option<&'a str>
    ensures { option_map (λ s. s.now) result ≡ string_in (token_of token.entry) }
{
    match token {
        Token::String(text) => Some(text),
        _ => None,
    }
}

//! A pointer's tokens, and how they stand in its text and in a fragment, one at a time.
ghost use Rattle.std.specs.Prelude.{◌≡◌, ◌∷◌, ◌++◌, IfOk, IsTrue, OnErr, OnOk, flat_map, string_bytes, true};
ghost use Rattle.std.specs.List.{list_all};
ghost use Rattle.js_doc.specs.Escapes.{stands};
ghost use Rattle.js_doc.specs.Pointer.{escape, token_text};
ghost use Rattle.js_doc.specs.Fragment.{fragment_byte, fragment_token};
ghost use Rattle.js_doc.specs.Notation.{token_written, written};
ghost use Rattle.js_doc.specs.Plain.{is_kept, is_plain};
ghost use Rattle.js_doc.specs.code.Extends.{Extends};

use crate::fragment::ESCAPED;
use crate::memory::Memory;
use percent_encoding::utf8_percent_encode;
use std::alloc::Global;
use std::marker::Model;
use std::sync::ArcStr;

/// A token of a pointer, which the pointers that are copied from it share. Contracts see it as the bytes of its UTF-8.
#[derive(Debug, Drop)]
pub struct Token {
    text: ArcStr,
}

impl Model for Token {
    ghost use Rattle.std.specs.Prelude.{ℕ, List};
    ghost use Rattle.std.specs.Arc.{arc_str_bytes};

    ghost Value = { List ℕ };

    ghost view = { λ t. arc_str_bytes t.text };
}

impl Token {
    /// The token of this text.
    ///
    /// # Errors
    /// `Memory`.
    pub fn new(alloc: Global, text: &str) -> Result<Token, Memory>
        ensures { IfOk result (λ t. t ≡ text.now) }
    {
        Ok(Token {
            text: ArcStr::from_str(alloc, text)?,
        })
    }

    pub(crate) fn from_string(text: String) -> Result<Token, Memory>
        ensures { IfOk result (λ t. t ≡ string_bytes text) }
    {
        Ok(Token {
            text: ArcStr::from_string(text)?,
        })
    }

    /// The token's text, lent.
    pub fn as_str(&self) -> &str
        ensures { result.now ≡ self.now }
    {
        self.text.as_str()
    }

    // The same token, shared.
    pub(crate) fn shared(&self) -> Result<Token, Memory>
        ensures { IfOk result (λ t. t ≡ self.now) }
    {
        Ok(Token {
            text: self.text.clone()?,
        })
    }
}

impl PartialEq for Token {
    ghost use Rattle.std.specs.Prelude.{nat_eq};
    ghost use Rattle.std.specs.Cmp.{partial_equiv_from_equiv};
    ghost use Rattle.std.specs.Cmp.Lexicographic.{pointwise, nat_list_eq_equiv};

    ghost eq = { pointwise nat_eq };

    ghost laws = { partial_equiv_from_equiv nat_list_eq_equiv };

    fn eq(&self, other: &Token) -> bool {
        self.as_str() == other.as_str()
    }
}

impl Eq for Token {
    ghost use Rattle.std.specs.Cmp.Lexicographic.{nat_list_eq_equiv};

    ghost laws = { nat_list_eq_equiv };
}

/// How a token is written (RFC 6901, sections 5 and 6).
#[derive(Clone, Copy)]
pub enum Notation {
    /// As in a pointer's text.
    Plain,
    /// As in a fragment of a URI.
    Fragment,
}

/// Puts a `/` and the token at the end of a pointer's text, with `~` written `~0` and `/` written `~1` (RFC 6901,
/// section 3).
///
/// # Errors
/// `Memory`; the text is then as it was.
pub fn push_token(out: &mut String, token: &str) -> Result<(), Memory>
    ensures ok { OnOk result (string_bytes out.new ≡ string_bytes out.old ++ token_text token.now) }
    ensures stays { OnErr result (string_bytes out.new ≡ string_bytes out.old) }
{
    push_token_in(out, Notation::Plain, token)
}

/// The same in a fragment of a URI: each byte of it but ASCII letters, digits and ``-._~!$&'()*+,;=:@/?`` is a `%`
/// and two upper-case hexadecimal digits (RFC 6901, section 6).
///
/// # Errors
/// `Memory`; the text is then as it was.
pub fn push_fragment_token(out: &mut String, token: &str) -> Result<(), Memory>
    ensures ok { OnOk result (string_bytes out.new ≡ string_bytes out.old ++ fragment_token token.now) }
    ensures stays { OnErr result (string_bytes out.new ≡ string_bytes out.old) }
{
    push_token_in(out, Notation::Fragment, token)
}

/// Either of the two, by the notation. It is inlined: callers that name a notation don't ask which it is.
///
/// # Errors
/// `Memory`; the text is then as it was.
#[inline(always)]
pub fn push_token_in(out: &mut String, notation: Notation, token: &str) -> Result<(), Memory>
    ensures ok { OnOk result (string_bytes out.new ≡ string_bytes out.old ++ token_written notation token.now) }
    ensures stays { OnErr result (string_bytes out.new ≡ string_bytes out.old) }
{
    let len = out.len();
    out.push('/')?;
    let pushed = push_written(out, notation, token);
    if pushed.is_err() {
        out.truncate(len);
    }
    pushed
}

#[inline(always)]
fn push_written(out: &mut String, notation: Notation, token: &str) -> Result<(), Memory>
    ensures ok { OnOk result (string_bytes out.new ≡ string_bytes out.old ++ written notation token.now) }
    ensures grows { Extends (string_bytes out.old) (string_bytes out.new) }
{
    match notation {
        Notation::Plain => push_escaped(out, token),
        Notation::Fragment => push_pieces(out, token),
    }
}

// The token's escapes in a pointer, each in turn percent-encoded. What stood there stays at the front.
fn push_pieces(out: &mut String, token: &str) -> Result<(), Memory>
    ensures ok { OnOk result (string_bytes out.new
        ≡ string_bytes out.old ++ flat_map fragment_byte (escape token.now)) }
    ensures grows { Extends (string_bytes out.old) (string_bytes out.new) }
{
    if is_plain(token.as_bytes()) {
        out.push_str(token)?;
        return Ok(());
    }
    push_encoded(out, token)
}

fn push_encoded(out: &mut String, token: &str) -> Result<(), Memory>
    ensures ok { OnOk result (string_bytes out.new
        ≡ string_bytes out.old ++ flat_map fragment_byte (escape token.now)) }
    ensures grows { Extends (string_bytes out.old) (string_bytes out.new) }
{
    for piece in utf8_percent_encode(token, ESCAPED) {
        push_escaped(out, piece)?;
    }
    Ok(())
}

/// Whether the token is known to be written as it is: in a pointer's text (RFC 6901, section 3), in a fragment of a URI
/// (section 6) and in a JSON string (RFC 8259, section 7). That is true of ASCII letters, digits, `$`, `-`, `.` and
/// `_`, of which most names consist. It allocates nothing.
pub fn is_plain_token(token: &str) -> bool
    ensures exact { result ≡ list_all is_plain token.now }
    ensures pointer { IsTrue result → escape token.now ≡ token.now }
    ensures fragment { IsTrue result → fragment_token token.now ≡ 47 ∷ token.now }
    ensures string { IsTrue result → list_all stands token.now ≡ true }
{
    is_plain(token.as_bytes())
}

// Whether the token is sure to be written as it is: most names have only letters and digits.
fn is_plain(token: &[u8]) -> bool
    ensures { result ≡ list_all is_plain token.now }
{
    token.iter().all(|byte| is_plain_byte(*byte))
}

fn is_plain_byte(byte: u8) -> bool
    ensures { result ≡ is_plain byte }
{
    byte.is_ascii_alphanumeric()
        || (byte == b'$' || (byte == b'-' || (byte == b'.' || byte == b'_')))
}

fn push_escaped(out: &mut String, token: &str) -> Result<(), Memory>
    ensures ok { OnOk result (string_bytes out.new ≡ string_bytes out.old ++ escape token.now) }
    ensures grows { Extends (string_bytes out.old) (string_bytes out.new) }
{
    if has_no_escape(token.as_bytes()) {
        out.push_str(token)?;
        return Ok(());
    }
    push_characters(out, token)
}

// Whether nothing in it is escaped: most tokens are written in one piece.
fn has_no_escape(token: &[u8]) -> bool
    ensures { result ≡ list_all is_kept token.now }
{
    token.iter().all(|byte| is_kept(*byte))
}

fn is_kept(byte: u8) -> bool
    ensures { result ≡ is_kept byte }
{
    byte != b'~' && byte != b'/'
}

fn push_characters(out: &mut String, token: &str) -> Result<(), Memory>
    ensures ok { OnOk result (string_bytes out.new ≡ string_bytes out.old ++ escape token.now) }
    ensures grows { Extends (string_bytes out.old) (string_bytes out.new) }
{
    for c in token.chars() {
        match c {
            '~' => out.push_str("~0")?,
            '/' => out.push_str("~1")?,
            _ => out.push(c)?,
        }
    }
    Ok(())
}

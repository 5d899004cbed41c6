//! Instances whose integers are written as people write numbers.
ghost use Rattle.std.specs.Prelude.{◌≡◌, ◌++◌, map, Some, None, OnOk, IfOk, IfErr, ◌⊎◌, IfSome};
ghost use Rattle.std.specs.Fmt.{signed_decimal};
ghost use Rattle.std.specs.Str.{IsUtf8};
ghost use Rattle.js_numbers.specs.Decimal.{IsInRange};
ghost use Rattle.json.specs.Print.{IsNumber, IsPrintable, ArePrintable};
ghost use Rattle.json.specs.Reads.{token_of};
ghost use Rattle.json.specs.Token.{number};
ghost use Rattle.json.specs.Written.{Writes};
ghost use Rattle.js_numbers.specs.declared.error.TextError.TheVariants.{Memory, NotJson};
ghost use Rattle.js_numbers.specs.Instance.{exact_instance, exact_number, exact_token, integer_written};

use crate::decimal::Decimal;
use crate::error::TextError;
use json::{Reader, Scratch, Token, Writer, is_valid};
use std::alloc::{AllocError, Allocator};

// The integer that a number's text is.
fn integer_written(text: &str) -> Option<i128>
    ensures same { result ≡ integer_written text.now }
    ensures range { IfSome result IsInRange }
{
    Decimal::of_text(text)?.integer_value()
}

pub(crate) fn put_whole<A: Allocator>(writer: &mut Writer<A>, value: i128) -> Result<(), AllocError>
    requires { IsInRange value }
    ensures { Writes result writer.old writer.new (number (signed_decimal value)) }
{
    if value < 0 {
        writer.i64(value as i64)
    } else {
        writer.u64(value as u64)
    }
}

fn put_number<A: Allocator>(writer: &mut Writer<A>, text: &str) -> Result<(), AllocError>
    requires { IsNumber text.now }
    ensures { Writes result writer.old writer.new (number (exact_number text.now)) }
{
    match integer_written(text) {
        None => writer.number(text),
        Some(value) => put_whole(writer, value),
    }
}

fn put<A: Allocator>(writer: &mut Writer<A>, token: Token<'_>) -> Result<(), AllocError>
    requires { IsPrintable (token_of token) }
    ensures { Writes result writer.old writer.new (exact_token (token_of token.entry)) }
{
    match token {
        Token::Number(text) => put_number(writer, text),
        _ => writer.token(token),
    }
}

fn put_all<A: Allocator>(writer: &mut Writer<A>, reader: &mut Reader<'_>) -> Result<(), AllocError>
    requires { ArePrintable reader.old }
    ensures before { writer.new.before ≡ writer.old.before }
    ensures ok { OnOk result (writer.new.tokens ≡ writer.old.tokens ++ map exact_token reader.old) }
{
    while let Some(token) = reader.next() {
        put(writer, token)?;
    }
    Ok(())
}

/// The instance's text with each integer from -2^63 to 2^64 - 1 in it written in digits alone, as `1` for `1.0`, and
/// without space between the tokens. Other numbers stay as they are.
///
/// # Errors
///
/// `NotJson`: the text isn't JSON. `Memory` may come at any point, also for such a text.
pub fn exact_instance<A: Allocator + Copy>(alloc: A, text: &str) -> Result<Vec<u8, A>, TextError>
    ensures ok { IfOk result (λ exact. exact_instance text.now ≡ Some exact.items) }
    ensures utf8 { IfOk result (λ exact. IsUtf8 exact.items) }
    ensures err { IfErr result
        (λ e. (e ≡ Memory) ⊎ ((e ≡ NotJson) × (exact_instance text.now ≡ None))) }
{
    let mut scratch = Scratch::new(alloc);
    if !is_valid(text, &mut scratch)? {
        return Err(TextError::NotJson);
    }
    let mut writer = Writer::new(Vec::with_capacity(alloc, text.len())?);
    let mut reader = Reader::new(text, &mut scratch)?;
    put_all(&mut writer, &mut reader)?;
    Ok(writer.into_inner())
}

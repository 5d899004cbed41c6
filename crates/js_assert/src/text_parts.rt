//! Texts with numbers, as errors have them.
ghost use Rattle.std.specs.Prelude.{◌≡◌, ◌++◌, IfOk, OnOk, string_bytes, pos};
ghost use Rattle.js_assert.specs.TextParts.{at_least, at_most, before_number, counted};

use itoa::{Buffer, Integer};
use js_doc::Memory;
use std::alloc::Global;

pub(crate) fn words(alloc: Global, words: &str) -> Result<String, Memory>
    ensures { IfOk result (λ s. string_bytes s ≡ words.now) }
{
    Ok(String::from_str(alloc, words)?)
}

/// Words before a number.
pub(crate) fn before_number(alloc: Global, words: &str, number: i128) -> Result<String, Memory>
    ensures { IfOk result (λ s. string_bytes s ≡ before_number words.now number) }
{
    let mut text = String::from_str(alloc, words)?;
    put_number(&mut text, number)?;
    Ok(text)
}

/// How many things there are, and how many there may be, as `3 items, at most 2`. The things begin with a space.
pub(crate) fn at_most(alloc: Global, count: u64, things: &str, limit: u64) -> Result<String, Memory>
    ensures { IfOk result (λ s. string_bytes s ≡ at_most count things.now (pos limit)) }
{
    counted(alloc, count, things, ", at most ", limit)
}

/// How many things there are, and how many there must be, as `1 items, at least 2`. The things begin with a space.
pub(crate) fn at_least(
    alloc: Global,
    count: u64,
    things: &str,
    limit: u64,
) -> Result<String, Memory>
    ensures { IfOk result (λ s. string_bytes s ≡ at_least count things.now (pos limit)) }
{
    counted(alloc, count, things, ", at least ", limit)
}

fn counted(
    alloc: Global,
    count: u64,
    things: &str,
    bound: &str,
    limit: u64,
) -> Result<String, Memory>
    ensures { IfOk result (λ s. string_bytes s ≡ counted count (things.now ++ bound.now) (pos limit)) }
{
    let mut text = String::new(alloc);
    put_number(&mut text, count)?;
    text.push_str(things)?;
    text.push_str(bound)?;
    put_number(&mut text, limit)?;
    Ok(text)
}

pub(crate) fn put_number<I: Integer>(out: &mut String, number: I) -> Result<(), Memory>
    ensures { OnOk result (string_bytes out.new ≡ string_bytes out.old ++ I.text number) }
{
    let mut buffer = Buffer::new();
    out.push_str(buffer.format(number))?;
    Ok(())
}

//! Where what stands in a copy comes from.
ghost use Rattle.std.specs.Prelude.{◌≡◌, ◌∷◌, IfOk, option_and_then, option_map, string_bytes};
ghost use Rattle.js_doc.specs.Seen.{value_of};
ghost use Rattle.js_upgrade.specs.Apart.{if_schema, under_name};
ghost use Rattle.js_upgrade.specs.CopyName.{free_name, place_named};
ghost use Rattle.js_upgrade.specs.Originals.{copied_original, copied_part, copy_original, if_named};
ghost use Rattle.js_upgrade.specs.Seen.{copies_seen};

use crate::apart::{apart, may_be_schema};
use crate::copy_name::{free_name, place_named};
use crate::copying::{definitions, takes_copies};
use crate::dialect::Dialect;
use crate::originals::original_at;
use js_doc::{Doc, Members, Memory, Pointer, Token};
use std::alloc::Global;

/// Where what stands in a copy, or is one, comes from; None where there is no copy.
///
/// # Errors
/// `Memory`.
pub(crate) fn copied_original(
    alloc: Global,
    dialect: Dialect,
    root: &Doc,
    tokens: &[Token],
) -> Result<Option<Pointer>, Memory>
    ensures { IfOk result (λ p. p ≡ copied_original dialect (value_of root.now) tokens.now) }
{
    match tokens.split_first() {
        Some((keyword, below)) => original_below(alloc, dialect, root, keyword.as_str(), below),
        None => Ok(None),
    }
}

fn original_below(
    alloc: Global,
    dialect: Dialect,
    root: &Doc,
    keyword: &str,
    below: &[Token],
) -> Result<Option<Pointer>, Memory>
    ensures { IfOk result (λ p. p ≡ copied_original dialect (value_of root.now) (keyword.now ∷ below.now)) }
{
    match below.split_first() {
        Some((name, rest)) => {
            if keyword == "$defs" {
                original_named(alloc, dialect, root, name.as_str(), rest)
            } else {
                Ok(None)
            }
        }
        None => Ok(None),
    }
}

fn original_named(
    alloc: Global,
    dialect: Dialect,
    root: &Doc,
    name: &str,
    rest: &[Token],
) -> Result<Option<Pointer>, Memory>
    ensures { IfOk result (λ p. p
        ≡ option_and_then (copy_original dialect (value_of root.now) name.now rest.now) (place_named name.now)) }
{
    match place_named(alloc, name)? {
        Some(place) => copy_original(alloc, dialect, root, name, rest, place),
        None => Ok(None),
    }
}

fn copy_original(
    alloc: Global,
    dialect: Dialect,
    root: &Doc,
    name: &str,
    rest: &[Token],
    place: Pointer,
) -> Result<Option<Pointer>, Memory>
    ensures { IfOk result (λ p. p ≡ copy_original dialect (value_of root.now) name.now rest.now place) }
{
    match copied_part(alloc, dialect, root, name, &place)? {
        Some(value) => original_at(alloc, place, dialect, value, rest),
        None => Ok(None),
    }
}

// What stands there, if it is copied under the name.
fn copied_part<'d>(
    alloc: Global,
    dialect: Dialect,
    root: &'d Doc,
    name: &str,
    place: &Pointer,
) -> Result<Option<&'d Doc>, Memory>
    ensures { IfOk result (λ v. option_map (λ d. value_of d.now) v
        ≡ copied_part dialect (value_of root.now) name.now place.now) }
{
    if !takes_copies(dialect, root) {
        return Ok(None);
    }
    match apart(alloc, dialect, root, place.tokens())? {
        Some(value) => named_part(alloc, definitions(dialect, root), value, name, place),
        None => Ok(None),
    }
}

fn named_part<'d>(
    alloc: Global,
    definitions: Option<&Members>,
    value: &'d Doc,
    name: &str,
    place: &Pointer,
) -> Result<Option<&'d Doc>, Memory>
    ensures { IfOk result (λ v. option_map (λ d. value_of d.now) v ≡ option_and_then (if_named name.now)
        (option_and_then (λ v. option_map (under_name v) (free_name (copies_seen definitions.entry) place.now))
        (if_schema (value_of value.now)))) }
{
    if may_be_schema(value) {
        let free = free_name(alloc, definitions, place)?;
        Ok(if_named(name, &free, value))
    } else {
        Ok(None)
    }
}

fn if_named<'d>(name: &str, free: &Option<String>, value: &'d Doc) -> Option<&'d Doc>
    ensures { option_map (λ d. value_of d.now) result ≡ option_and_then (if_named name.now)
        (option_map (under_name (value_of value.now)) (option_map string_bytes free.now)) }
{
    match free {
        Some(free) => {
            if name == free.as_str() {
                Some(value)
            } else {
                None
            }
        }
        None => None,
    }
}

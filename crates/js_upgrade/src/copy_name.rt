//! The name of a copy among the definitions of its document.
ghost use Rattle.std.specs.Prelude.{◌≡◌, ◌∷◌, IfOk, option_map, string_bytes, unwrap_or};
ghost use Rattle.js_doc.specs.Members.{has_name};
ghost use Rattle.js_doc.specs.PointerReading.{pointer_of};
ghost use Rattle.js_upgrade.specs.CopyName.{copied_name, definitions_name, free_name, is_rooted, kept_name};
ghost use Rattle.js_upgrade.specs.CopyName.{place_named, redirected};
ghost use Rattle.js_upgrade.specs.Seen.{copies_seen};

use crate::dialect::Dialect;
use js_doc::{Members, Memory, Pointer, PointerFault, Token};
use std::alloc::Global;

/// The keyword that holds definitions.
pub(crate) fn definitions_name(dialect: Dialect) -> &'static str
    ensures { result.now ≡ definitions_name dialect }
{
    if dialect.is_before(Dialect::Draft2019) {
        "definitions"
    } else {
        "$defs"
    }
}

/// Whether it begins as the text of a pointer does, which isn't the root's.
pub(crate) fn is_rooted(text: &str) -> bool
    ensures { result ≡ is_rooted text.now }
{
    let bytes = text.as_bytes();
    !bytes.is_empty() && bytes[0] == b'/'
}

// The name of what stands under `$defs`.
fn kept_name(tokens: &[Token]) -> Option<&str>
    ensures { option_map (λ n. n.now) result ≡ kept_name tokens.now }
{
    match tokens.split_first() {
        Some((keyword, below)) => name_below(keyword.as_str(), below),
        None => None,
    }
}

fn name_below<'t>(keyword: &str, below: &'t [Token]) -> Option<&'t str>
    ensures { option_map (λ n. n.now) result ≡ kept_name (keyword.now ∷ below.now) }
{
    match below.split_first() {
        Some((name, further)) => only_name(keyword, name.as_str(), further),
        None => None,
    }
}

fn only_name<'t>(keyword: &str, name: &'t str, further: &[Token]) -> Option<&'t str>
    ensures { option_map (λ n. n.now) result ≡ kept_name (keyword.now ∷ name.now ∷ further.now) }
{
    if further.is_empty() && keyword == "$defs" && !is_rooted(name) {
        Some(name)
    } else {
        None
    }
}

/// Of what stands at the tokens, a name that the definitions don't have, if there is one.
///
/// # Errors
/// `Memory`.
pub(crate) fn free_name(
    alloc: Global,
    definitions: Option<&Members>,
    pointer: &Pointer,
) -> Result<Option<String>, Memory>
    ensures { IfOk result (λ n. option_map string_bytes n
        ≡ free_name (copies_seen definitions.entry) pointer.now) }
{
    if let Some(name) = kept_name(pointer.tokens()) {
        if !has_member_named(definitions, name) {
            return Ok(Some(String::from_str(alloc, name)?));
        }
    }
    let text = pointer.text(alloc)?;
    if has_member_named(definitions, text.as_str()) {
        Ok(None)
    } else {
        Ok(Some(text))
    }
}

// Of what stands at the tokens, the name that its copy has, if there is one.
fn copied_name(alloc: Global, copies: &Members, pointer: &Pointer) -> Result<Option<String>, Memory>
    ensures { IfOk result (λ n. option_map string_bytes n ≡ copied_name copies.now pointer.now) }
{
    if copies.is_empty() {
        return Ok(None);
    }
    if let Some(name) = kept_name(pointer.tokens()) {
        if copies.get(name).is_some() {
            return Ok(Some(String::from_str(alloc, name)?));
        }
    }
    let text = pointer.text(alloc)?;
    if copies.get(text.as_str()).is_some() {
        Ok(Some(text))
    } else {
        Ok(None)
    }
}

pub(crate) fn has_member_named(members: Option<&Members>, name: &str) -> bool
    ensures { result ≡ has_name name.now (copies_seen members.entry) }
{
    match members {
        Some(members) => members.get(name).is_some(),
        None => false,
    }
}

/// Where the copy stands of what stands at the tokens, if it was copied.
///
/// # Errors
/// `Memory`.
pub(crate) fn redirected(
    alloc: Global,
    dialect: Dialect,
    copies: Option<&Members>,
    pointer: &Pointer,
) -> Result<Option<Pointer>, Memory>
    ensures { IfOk result (λ p. unwrap_or p pointer.now
        ≡ redirected dialect (copies_seen copies.entry) pointer.now) }
{
    match copies {
        Some(copies) => redirected_among(alloc, dialect, copies, pointer),
        None => Ok(None),
    }
}

fn redirected_among(
    alloc: Global,
    dialect: Dialect,
    copies: &Members,
    pointer: &Pointer,
) -> Result<Option<Pointer>, Memory>
    ensures { IfOk result (λ p. unwrap_or p pointer.now ≡ redirected dialect copies.now pointer.now) }
{
    match copied_name(alloc, copies, pointer)? {
        Some(name) => {
            let mut place = Pointer::new(alloc);
            place.push(definitions_name(dialect))?;
            place.push(name.as_str())?;
            Ok(Some(place))
        }
        None => Ok(None),
    }
}

/// Of what stands where, by the name of the copy.
///
/// # Errors
/// `Memory`.
pub(crate) fn place_named(alloc: Global, name: &str) -> Result<Option<Pointer>, Memory>
    ensures { IfOk result (λ p. p ≡ place_named name.now) }
{
    if is_rooted(name) {
        return pointer_of(alloc, name);
    }
    let mut place = Pointer::new(alloc);
    place.push("$defs")?;
    place.push(name)?;
    Ok(Some(place))
}

fn pointer_of(alloc: Global, text: &str) -> Result<Option<Pointer>, Memory>
    ensures { IfOk result (λ p. p ≡ pointer_of text.now) }
{
    match Pointer::parse(alloc, text) {
        Ok(pointer) => Ok(Some(pointer)),
        Err(PointerFault::BadPointer) => Ok(None),
        Err(PointerFault::Memory) => Err(Memory),
    }
}

//! The keywords of a schema, beside one another.
ghost use Rattle.std.specs.Prelude.{◌≡◌, option_map, if◌then◌else◌};
ghost use Rattle.js_doc.specs.Seen.{value_of};
ghost use Rattle.js_upgrade.specs.Keyword.{change_in};
ghost use Rattle.js_upgrade.specs.Schema.{beside_reference, change_of, hides, is_identifier, is_uri};
ghost use Rattle.js_upgrade.specs.Upgrade.{dialect_in, dialect_or, identifier, identifies, own_dialect};
ghost use Rattle.js_upgrade.specs.code.UsualUri.{has_usual_uri};

use crate::dialect::Dialect;
use crate::keyword::{Change, change_in};
use crate::lookup::found;
use js_doc::{Doc, Members};

/// What becomes of a keyword among its siblings.
pub fn change_of(dialect: Dialect, siblings: &Members, name: &str) -> Change
    ensures { result ≡ change_of dialect siblings.now name.now }
{
    change_beside(hides(dialect, siblings), dialect, name)
}

/// The same, where it is known whether a reference hides it.
pub(crate) fn change_beside(hidden: bool, dialect: Dialect, name: &str) -> Change
    ensures { result ≡ (if hidden then beside_reference (change_in dialect name.now) else change_in dialect name.now) }
{
    let change = change_in(dialect, name);
    if hidden {
        beside_reference(change)
    } else {
        change
    }
}

// Whether a reference hides its siblings.
pub(crate) fn hides(dialect: Dialect, siblings: &Members) -> bool
    ensures { result ≡ hides dialect siblings.now }
{
    dialect.is_before(Dialect::Draft2019) && found(siblings, "$ref").is_some()
}

fn beside_reference(change: Change) -> Change
    ensures { result ≡ beside_reference change }
{
    match change {
        Change::Refers => Change::Refers,
        Change::Definitions => Change::Definitions,
        Change::Stays => Change::Stays,
        _ => Change::Goes,
    }
}

/// The dialect of a schema that stands in one of the dialect given.
pub fn own_dialect(dialect: Dialect, siblings: &Members) -> Dialect
    ensures { result ≡ own_dialect dialect siblings.now }
{
    match found(siblings, "$schema") {
        Some(uri) => declared_dialect(dialect, siblings, uri),
        None => dialect,
    }
}

// Of a schema with this `$schema`. Most name the dialect around them: then it isn't asked where they count.
fn declared_dialect(dialect: Dialect, siblings: &Members, uri: &Doc) -> Dialect
    ensures { result ≡ dialect_or dialect siblings.now (dialect_in (value_of uri.now)) }
{
    if has_usual_uri(dialect, uri) {
        return dialect;
    }
    match dialect_in(uri) {
        Some(own) => {
            if identifies(own, siblings) {
                own
            } else {
                dialect
            }
        }
        None => dialect,
    }
}

// Whether it is a URI that most schemas of the dialect have. Then it names the dialect.
fn has_usual_uri(dialect: Dialect, uri: &Doc) -> bool
    ensures { result ≡ has_usual_uri dialect (value_of uri.now) }
{
    match uri {
        Doc::Text(text) => dialect.is_usual_uri(text.as_str()),
        _ => false,
    }
}

pub(crate) fn dialect_in(uri: &Doc) -> Option<Dialect>
    ensures { result ≡ dialect_in (value_of uri.now) }
{
    match uri {
        Doc::Text(text) => Dialect::of_uri(text.as_str()),
        _ => None,
    }
}

pub(crate) fn identifies(dialect: Dialect, siblings: &Members) -> bool
    ensures { result ≡ identifies dialect siblings.now }
{
    is_identifier(found(siblings, identifier(dialect))) && !hides(dialect, siblings)
}

pub(crate) fn identifier(dialect: Dialect) -> &'static str
    ensures { result.now ≡ identifier dialect }
{
    if dialect.is_before(Dialect::Draft06) {
        "id"
    } else {
        "$id"
    }
}

pub(crate) fn is_identifier(found: Option<&Doc>) -> bool
    ensures { result ≡ is_identifier (option_map (λ d. value_of d.now) found.entry) }
{
    match found {
        Some(Doc::Text(uri)) => is_uri(uri.as_str()),
        _ => false,
    }
}

pub(crate) fn is_uri(uri: &str) -> bool
    ensures { result ≡ is_uri uri.now }
{
    let bytes = uri.as_bytes();
    !bytes.is_empty() && bytes[0] != b'#'
}

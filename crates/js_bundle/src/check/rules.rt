//! The rules of the first pass, each by itself.
ghost use Rattle.std.specs.Prelude.{◌≡◌, ◌&&◌, ◌||◌, [], ◌∷◌, Some, true, false, not, nat_le, codes, length, map, OnOk};
ghost use Rattle.std.specs.Prelude.{IfOk, IfErr};
ghost use Rattle.std.specs.List.{list_all};
ghost use Rattle.js_doc.specs.Seen.{value_of};
ghost use Rattle.js_doc.specs.Value as spec;
ghost use Rattle.js_bundle.specs.declared.refusal.RefusalKind.TheVariants.{TooManyPlaces, NotASchema, DuplicateUri};
ghost use Rattle.js_bundle.specs.Candidate.{IsClear, IsStopped};
ghost use Rattle.js_bundle.specs.Shape.{has_form, is_filled_list, is_schema};
ghost use Rattle.js_bundle.specs.code.Index.{IsIndexOf};
ghost use Rattle.js_bundle.specs.Keyword.{argument};
ghost use Rattle.js_bundle.specs.Names.{is_root, is_anchor_name, begins_name, continues_name};
ghost use Rattle.js_bundle.specs.Refusals.{when, decided, is_taken, is_made, is_dialect, at_dialect, at_id, at_anchor};
ghost use Rattle.js_bundle.specs.Refusals.{at_place, assertion_rules};
ghost use Rattle.js_assert.specs.Assertion.{asserted};
ghost use Rattle.js_bundle.specs.code.Scan.{site_of};

use crate::check::fault::{CheckFault, refuse, refuse_keyword};
use crate::check::lookup::{Lookup, SiteKeyword};
use crate::index::keys::name_key;
use crate::index::place_by_uri::is_root;
use crate::keyword::as_text;
use crate::refusal::RefusalKind;
use crate::scan::site::Site;
use crate::uri::{self, LONGEST};
use js_assert::{Assertion, KeywordFault};
use js_doc::{Doc, Members, Memory};
use js_keyword::ArgumentForm;
use std::alloc::Global;
use url::Url;

/// A bundle has no more places.
const MOST_PLACES: usize = 100_000;

// Whether a resource before has the URI.
fn is_taken(known: Lookup<'_>, uri: &Url) -> bool
    requires { IsIndexOf known.index.now (map site_of known.sites.now) }
    ensures { result ≡ is_taken (map site_of known.entry.sites.now) uri.now }
{
    known.index.known.number_of(uri::printed(uri)).is_some()
}

// Whether a place before makes the name in the same resource.
fn is_made(known: Lookup<'_>, place: &Site<'_>, name: &str) -> Result<bool, Memory>
    requires { IsIndexOf known.index.now (map site_of known.sites.now) }
    ensures { IfOk result (λ b. b ≡ is_made (map site_of known.entry.sites.now) (site_of place.now) name.now) }
{
    let key = name_key(known.alloc, place.document, &place.own.resource, name)?;
    Ok(known.index.names.number_of(key.as_str()).is_some())
}

fn begins_name(b: u8) -> bool
    ensures { result ≡ begins_name b }
{
    b'A' <= b && b <= b'Z' || (b'a' <= b && b <= b'z' || b == b'_')
}

fn continues_name(b: u8) -> bool
    ensures { result ≡ continues_name b }
{
    begins_name(b) || (b'0' <= b && b <= b'9' || (b == b'-' || b == b'.'))
}

// Whether the bytes are an anchor's name (JSON Schema Core, section 8.2.2).
fn is_anchor_name(bytes: &[u8]) -> bool
    ensures { result ≡ is_anchor_name bytes.now }
{
    match bytes.split_first() {
        Some((first, rest)) => begins_name(*first) && all_continue(rest),
        None => false,
    }
}

fn all_continue(bytes: &[u8]) -> bool
    ensures { result ≡ list_all continues_name bytes.now }
{
    bytes.iter().all(|b| continues_name(*b))
}

fn is_filled(docs: &[Doc]) -> bool
    ensures { result ≡ is_filled_list (spec.list (spec.items (map value_of docs.now))) }
{
    match docs.first() {
        Some(_) => true,
        None => false,
    }
}

/// Whether the argument has the shape that the keyword asks for, assertions aside.
pub(crate) fn has_form(form: ArgumentForm, argument: &Doc) -> bool
    ensures { result ≡ has_form form (value_of argument.now) }
{
    match form {
        ArgumentForm::Text => matches!(argument, Doc::Text(_)),
        ArgumentForm::ListedSchemas => match argument {
            Doc::List(items) => is_filled(items.as_slice()),
            _ => false,
        },
        ArgumentForm::NamedSchemas => matches!(argument, Doc::Members(_)),
        ArgumentForm::OneSchema | ArgumentForm::Anything => true,
    }
}

fn is_schema(value: &Doc) -> bool
    ensures { result ≡ is_schema (value_of value.now) }
{
    match value {
        Doc::Truth(_) => true,
        Doc::Members(_) => true,
        _ => false,
    }
}

// One dialect is served (JSON Schema Core, section 8.1.1).
fn is_dialect(text: &str) -> bool
    ensures { result ≡ is_dialect text.now }
{
    text == "https://json-schema.org/draft/2020-12/schema"
        || text == "https://json-schema.org/draft/2020-12/schema#"
}

/// The rule of `$schema`.
pub(crate) fn check_dialect(
    alloc: Global,
    at: SiteKeyword<'_>,
    text: &str,
) -> Result<(), CheckFault>
    ensures ok { OnOk result (IsClear
        (at_dialect (site_of at.entry.site.now) (at.entry.keyword.now ∷ []) text.now)) }
    ensures err { IfErr result (IsStopped
        (at_dialect (site_of at.entry.site.now) (at.entry.keyword.now ∷ []) text.now)) }
{
    if is_dialect(text) {
        Ok(())
    } else {
        Err(refuse_keyword(alloc, at, RefusalKind::UnknownDialect))
    }
}

/// The rules of `$id` (JSON Schema Core, section 8.2.1). The scan joined it.
pub(crate) fn check_id(known: Lookup<'_>, at: SiteKeyword<'_>, text: &str) -> Result<(), CheckFault>
    requires index { IsIndexOf known.index.now (map site_of known.sites.now) }
    requires id { argument (codes "$id") (value_of at.site.now.schema.now) ≡ Some (spec.text text.now) }
    ensures ok { OnOk result (IsClear
        (at_id (map site_of known.entry.sites.now) (site_of at.entry.site.now) (at.entry.keyword.now ∷ []) text.now)) }
    ensures err { IfErr result (IsStopped
        (at_id (map site_of known.entry.sites.now) (site_of at.entry.site.now) (at.entry.keyword.now ∷ []) text.now)) }
{
    if LONGEST < text.len() {
        return Err(refuse_keyword(known.alloc, at, RefusalKind::UriTooLong));
    }
    if !at.site.bare {
        return Err(refuse_keyword(known.alloc, at, RefusalKind::BadId));
    }
    if is_taken(known, &at.site.own.base) {
        return Err(refuse_keyword(known.alloc, at, RefusalKind::DuplicateUri));
    }
    Ok(())
}

/// The rules of `$anchor` and of `$dynamicAnchor` (JSON Schema Core, section 8.2.2).
pub(crate) fn check_anchor(
    known: Lookup<'_>,
    at: SiteKeyword<'_>,
    name: &str,
) -> Result<(), CheckFault>
    requires { IsIndexOf known.index.now (map site_of known.sites.now) }
    ensures ok { OnOk result (IsClear
        (at_anchor (map site_of known.entry.sites.now) (site_of at.entry.site.now)
        (at.entry.keyword.now ∷ []) name.now)) }
    ensures err { IfErr result (IsStopped
        (at_anchor (map site_of known.entry.sites.now) (site_of at.entry.site.now)
        (at.entry.keyword.now ∷ []) name.now)) }
{
    if !is_anchor_name(name.as_bytes()) {
        return Err(refuse_keyword(known.alloc, at, RefusalKind::BadAnchor));
    }
    if is_made(known, at.site, name)? {
        return Err(refuse_keyword(known.alloc, at, RefusalKind::DuplicateAnchor));
    }
    Ok(())
}

fn check_count(alloc: Global, before: &[Site<'_>], site: &Site<'_>) -> Result<(), CheckFault>
    ensures ok { OnOk result (IsClear
        (when (nat_le 100000 (length (map site_of before.now))) (decided (site_of site.now) [] TooManyPlaces))) }
    ensures err { IfErr result (IsStopped
        (when (nat_le 100000 (length (map site_of before.now))) (decided (site_of site.now) [] TooManyPlaces))) }
{
    if MOST_PLACES <= before.len() {
        return Err(refuse(alloc, site, None, RefusalKind::TooManyPlaces));
    }
    Ok(())
}

fn check_shape(alloc: Global, site: &Site<'_>) -> Result<(), CheckFault>
    ensures ok { OnOk result (IsClear
        (when (not (is_schema (value_of site.now.schema.now))) (decided (site_of site.now) [] NotASchema))) }
    ensures err { IfErr result (IsStopped
        (when (not (is_schema (value_of site.now.schema.now))) (decided (site_of site.now) [] NotASchema))) }
{
    if is_schema(site.schema) {
        Ok(())
    } else {
        Err(refuse(alloc, site, None, RefusalKind::NotASchema))
    }
}

fn check_root(known: Lookup<'_>, site: &Site<'_>) -> Result<(), CheckFault>
    requires { IsIndexOf known.index.now (map site_of known.sites.now) }
    ensures ok { OnOk result (IsClear
        (when (is_root (site_of site.now) && is_taken (map site_of known.entry.sites.now) site.now.above.value.base)
        (decided (site_of site.now) [] DuplicateUri))) }
    ensures err { IfErr result (IsStopped
        (when (is_root (site_of site.now) && is_taken (map site_of known.entry.sites.now) site.now.above.value.base)
        (decided (site_of site.now) [] DuplicateUri))) }
{
    if is_root(&site.pointer) && is_taken(known, &site.above.base) {
        return Err(refuse(known.alloc, site, None, RefusalKind::DuplicateUri));
    }
    Ok(())
}

/// The rules of a place itself.
pub(crate) fn check_place(known: Lookup<'_>, site: &Site<'_>) -> Result<(), CheckFault>
    requires { IsIndexOf known.index.now (map site_of known.sites.now) }
    ensures ok { OnOk result (IsClear (at_place (map site_of known.entry.sites.now) (site_of site.now))) }
    ensures err { IfErr result (IsStopped (at_place (map site_of known.entry.sites.now) (site_of site.now))) }
{
    check_count(known.alloc, known.sites, site)?;
    check_shape(known.alloc, site)?;
    check_root(known, site)
}

/// Reads a keyword's argument as an assertion's. None where the keyword is no assertion.
pub(crate) fn read_assertion(
    alloc: Global,
    at: SiteKeyword<'_>,
    argument: &Doc,
    siblings: &Members,
) -> Result<Option<Assertion>, CheckFault>
    ensures clear { OnOk result (IsClear
        (assertion_rules (site_of at.entry.site.now) at.entry.keyword.now (value_of argument.now))) }
    ensures built { IfOk result (λ a. a ≡ asserted at.entry.keyword.now (value_of argument.now) siblings.now) }
    ensures err { IfErr result (IsStopped
        (assertion_rules (site_of at.entry.site.now) at.entry.keyword.now (value_of argument.now))) }
{
    match Assertion::read(alloc, at.keyword, argument, siblings) {
        Ok(assertion) => Ok(assertion),
        Err(KeywordFault::Memory) => Err(CheckFault::Memory),
        Err(KeywordFault::BadKeyword) => { Err(refuse_keyword(alloc, at, RefusalKind::BadKeyword)) }
        Err(KeywordFault::NotAPattern) => {
            Err(refuse_keyword(alloc, at, RefusalKind::BadPattern))
        }
        Err(KeywordFault::PatternTooLarge) => {
            Err(refuse_keyword(alloc, at, RefusalKind::PatternTooLarge))
        }
    }
}

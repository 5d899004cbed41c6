//! A document, whose root names its dialect.
ghost use Rattle.std.specs.Prelude.{◌≡◌, [], ◌∷◌, IfErr, IfOk, Some, codes, option_map, if◌then◌else◌};
ghost use Rattle.js_doc.specs.Seen.{value_of};
ghost use Rattle.js_upgrade.specs.Fault.{dialect_kind, document_fault, root_kind, IsUpgradeFault, IsStoppedBy};
ghost use Rattle.js_upgrade.specs.Upgrade.{dialect_found, document_dialect, document_upgraded, root_upgraded};
ghost use Rattle.js_upgrade.specs.Upgrade.{schema_uri, with_schema_uri};
ghost use Rattle.js_upgrade.specs.Dialect.{is_before};
ghost use Rattle.js_upgrade.specs.declared.dialect.Dialect.TheVariants.{Draft2020};

use crate::dialect::Dialect;
use crate::fault::{Stop, UpgradeFault, UpgradeFaultKind, fault_of};
use crate::gathering::put_one;
use crate::holding::SchemaHolding;
use crate::kinds::no_dialect;
use crate::schema::dialect_in;
use crate::walking::upgraded;
use js_doc::{Doc, Memory, Pointer, Text};
use std::alloc::Global;

/// The document as one of 2020-12. Where it names no dialect, the one given is assumed. Its references stay as they
/// are; a `$recursiveRef` leads to the root of its resource, whatever the dynamic scope.
///
/// # Errors
/// `UnknownDialect` or `BadKeyword`, at the root's `$schema`; else `Memory`. The fault's document is 0.
pub fn upgrade(alloc: Global, assumed: Dialect, document: &Doc) -> Result<Doc, UpgradeFault>
    ensures ok { IfOk result (λ d. document_upgraded assumed (value_of document.now) ≡ Some (value_of d)) }
    ensures err { IfErr result (IsUpgradeFault (document_fault (value_of document.now))) }
{
    match document_upgraded(alloc, assumed, document) {
        Ok(upgraded) => Ok(upgraded),
        Err(stop) => Err(fault_of(alloc, stop)),
    }
}

fn document_upgraded(alloc: Global, assumed: Dialect, document: &Doc) -> Result<Doc, Stop>
    ensures ok { IfOk result (λ d. document_upgraded assumed (value_of document.now) ≡ Some (value_of d)) }
    ensures err { IfErr result (IsStoppedBy (document_fault (value_of document.now))) }
{
    match known_dialect(assumed, document) {
        Ok(dialect) => Ok(root_upgraded(alloc, dialect, document)?),
        Err(kind) => Err(dialect_stop(alloc, kind)),
    }
}

// At the root's `$schema`.
fn dialect_stop(alloc: Global, kind: UpgradeFaultKind) -> Stop
    ensures { IsStoppedBy (Some (record { document = 0; place = codes "$schema" ∷ []; kind = kind })) result }
{
    let mut place = Pointer::new(alloc);
    match place.push("$schema") {
        Ok(()) => Stop::Fault(UpgradeFault {
            document: 0,
            place,
            kind,
        }),
        Err(_) => Stop::Memory,
    }
}

#[tactic(auto, using(crate::proofs::Gathered::gathering_rules))]
fn known_dialect(assumed: Dialect, document: &Doc) -> Result<Dialect, UpgradeFaultKind>
    ensures ok { IfOk result (λ d. document_dialect assumed (value_of document.now) ≡ Some d) }
    ensures err { IfErr result (λ k. root_kind (value_of document.now) ≡ Some k) }
{
    match document {
        Doc::Members(members) => dialect_or_kind(assumed, members.get("$schema")),
        _ => Ok(assumed),
    }
}

fn dialect_or_kind(assumed: Dialect, found: Option<&Doc>) -> Result<Dialect, UpgradeFaultKind>
    ensures ok { IfOk result (λ d. dialect_found assumed (option_map (λ d. value_of d.now) found.entry) ≡ Some d) }
    ensures err { IfErr result (λ k. dialect_kind (option_map (λ d. value_of d.now) found.entry) ≡ Some k) }
{
    match found {
        Some(uri) => match dialect_in(uri) {
            Some(dialect) => Ok(dialect),
            None => Err(no_dialect(uri)),
        },
        None => Ok(assumed),
    }
}

#[tactic(auto, using(crate::proofs::Gathered::gathering_rules))]
pub(crate) fn document_dialect(assumed: Dialect, document: &Doc) -> Option<Dialect>
    ensures { result ≡ document_dialect assumed (value_of document.now) }
{
    match document {
        Doc::Members(members) => dialect_found(assumed, members.get("$schema")),
        _ => Some(assumed),
    }
}

fn dialect_found(assumed: Dialect, found: Option<&Doc>) -> Option<Dialect>
    ensures { result ≡ dialect_found assumed (option_map (λ d. value_of d.now) found.entry) }
{
    match found {
        Some(uri) => dialect_in(uri),
        None => Some(assumed),
    }
}

fn root_upgraded(alloc: Global, dialect: Dialect, root: &Doc) -> Result<Doc, Memory>
    ensures { IfOk result (λ d. value_of d ≡ root_upgraded dialect (value_of root.now)) }
{
    let value = upgraded(alloc, SchemaHolding::One, dialect, root)?;
    declaring(alloc, dialect, value)
}

/// The upgraded root of a document of this dialect, with what it says of its dialect now.
///
/// # Errors
/// `Memory`.
pub(crate) fn declaring(alloc: Global, dialect: Dialect, value: Doc) -> Result<Doc, Memory>
    ensures { IfOk result (λ d. value_of d
        ≡ (if is_before dialect Draft2020 then with_schema_uri (value_of value) else value_of value)) }
{
    if dialect.is_before(Dialect::Draft2020) {
        with_schema_uri(alloc, value)
    } else {
        Ok(value)
    }
}

#[tactic(auto, using(crate::proofs::Gathered::gathering_rules))]
fn with_schema_uri(alloc: Global, value: Doc) -> Result<Doc, Memory>
    ensures { IfOk result (λ d. value_of d ≡ with_schema_uri (value_of value)) }
{
    match value {
        Doc::Members(members) => {
            let mut members = members;
            put_one(alloc, &mut members, "$schema", schema_uri(alloc)?)?;
            Ok(Doc::Members(members))
        }
        other => Ok(other),
    }
}

fn schema_uri(alloc: Global) -> Result<Doc, Memory>
    ensures { IfOk result (λ d. value_of d ≡ schema_uri) }
{
    let uri = Text::from_str(alloc, "https://json-schema.org/draft/2020-12/schema")?;
    Ok(Doc::Text(uri))
}

//! The first fault of documents that are upgraded together.
ghost use Rattle.std.specs.Prelude.{◌≡◌, [], IfOk, None, map, option_map};
ghost use Rattle.js_doc.specs.Seen.{value_of};
ghost use Rattle.js_upgrade.specs.Fault.{contained_fault, documents_fault, fault_among, in_document, names_fault};
ghost use Rattle.js_upgrade.specs.Fault.{number_fault, references_fault, repeated_fault, root_fault, source_fault};
ghost use Rattle.js_upgrade.specs.Fault.{uris_fault};
ghost use Rattle.js_upgrade.specs.Seen.{found_of, source_of};
ghost use Rattle.js_upgrade.specs.code.Table.{all_of};
ghost use Rattle.js_upgrade.specs.declared.fault.Pass.TheVariants.{AnyOfThese};

use crate::documents::{SourceDocument, source_dialect};
use crate::fault::{Pass, UpgradeFault, UpgradeFaultKind, of_document};
use crate::finding::{FoundFault, at_keyword, fault_in};
use crate::holding::SchemaHolding;
use crate::kinds::dialect_kind;
use crate::resource_table::ResourceTable;
use crate::scope::{Scope, number_here};
use crate::uri::uri_printed;
use js_doc::{Doc, Memory, Pointer};
use std::alloc::Global;
use std::collections::BTreeSet;

/// No more documents are upgraded together.
const DOCUMENT_LIMIT: usize = 1_000;

/// The first fault.
///
/// # Errors
/// `Memory`.
pub(crate) fn fault_among(
    alloc: Global,
    resources: &ResourceTable<'_>,
    sources: &[SourceDocument],
) -> Result<Option<UpgradeFault>, Memory>
    ensures { IfOk result (λ f. f ≡ fault_among (all_of resources.now) (map source_of sources.now)) }
{
    match number_fault(alloc, sources.len()) {
        Some(fault) => Ok(Some(fault)),
        None => names_fault(alloc, resources, sources),
    }
}

/// The same, where it is known that the first three passes find nothing.
///
/// # Errors
/// `Memory`.
pub(crate) fn clear_fault(
    alloc: Global,
    resources: &ResourceTable<'_>,
    sources: &[SourceDocument],
) -> Result<Option<UpgradeFault>, Memory>
    requires { documents_fault AnyOfThese (all_of resources.now) 0 (map source_of sources.now) ≡ None }
    ensures { IfOk result (λ f. f ≡ fault_among (all_of resources.now) (map source_of sources.now)) }
{
    match number_fault(alloc, sources.len()) {
        Some(fault) => Ok(Some(fault)),
        None => repeated_fault(alloc, sources),
    }
}

fn names_fault(
    alloc: Global,
    resources: &ResourceTable<'_>,
    sources: &[SourceDocument],
) -> Result<Option<UpgradeFault>, Memory>
    ensures { IfOk result (λ f. f ≡ names_fault (all_of resources.now) (map source_of sources.now)) }
{
    let any = documents_fault(alloc, Pass::AnyOfThese, resources, sources)?;
    if any.is_none() {
        return repeated_fault(alloc, sources);
    }
    pass_by_pass(alloc, resources, sources)
}

fn pass_by_pass(
    alloc: Global,
    resources: &ResourceTable<'_>,
    sources: &[SourceDocument],
) -> Result<Option<UpgradeFault>, Memory>
    ensures { IfOk result (λ f. f ≡ names_fault (all_of resources.now) (map source_of sources.now)) }
{
    match documents_fault(alloc, Pass::Names, resources, sources)? {
        Some(fault) => Ok(Some(fault)),
        None => uris_fault(alloc, resources, sources),
    }
}

fn uris_fault(
    alloc: Global,
    resources: &ResourceTable<'_>,
    sources: &[SourceDocument],
) -> Result<Option<UpgradeFault>, Memory>
    ensures { IfOk result (λ f. f ≡ uris_fault (all_of resources.now) (map source_of sources.now)) }
{
    match repeated_fault(alloc, sources)? {
        Some(fault) => Ok(Some(fault)),
        None => references_fault(alloc, resources, sources),
    }
}

fn references_fault(
    alloc: Global,
    resources: &ResourceTable<'_>,
    sources: &[SourceDocument],
) -> Result<Option<UpgradeFault>, Memory>
    ensures { IfOk result (λ f. f ≡ references_fault (all_of resources.now) (map source_of sources.now)) }
{
    match documents_fault(alloc, Pass::References, resources, sources)? {
        Some(fault) => Ok(Some(fault)),
        None => contained_fault(alloc, resources, sources),
    }
}

// Of each `contains` that would evaluate, where a schema has `unevaluatedItems`.
fn contained_fault(
    alloc: Global,
    resources: &ResourceTable<'_>,
    sources: &[SourceDocument],
) -> Result<Option<UpgradeFault>, Memory>
    ensures { IfOk result (λ f. f ≡ contained_fault (all_of resources.now) (map source_of sources.now)) }
{
    match documents_fault(alloc, Pass::Unevaluated, resources, sources)? {
        Some(_) => documents_fault(alloc, Pass::Contained, resources, sources),
        None => Ok(None),
    }
}

fn number_fault(alloc: Global, documents: usize) -> Option<UpgradeFault>
    ensures { result ≡ number_fault documents }
{
    if DOCUMENT_LIMIT < documents {
        Some(of_document(alloc, DOCUMENT_LIMIT, UpgradeFaultKind::TooManyDocuments))
    } else {
        None
    }
}

fn repeated_fault(alloc: Global, sources: &[SourceDocument]) -> Result<Option<UpgradeFault>, Memory>
    ensures { IfOk result (λ f. f ≡ repeated_fault [] 0 (map source_of sources.now)) }
{
    let mut seen: BTreeSet<&str> = BTreeSet::new(alloc);
    for i in 0..sources.len() {
        if !seen.insert(uri_printed(&sources[i].uri))? {
            return Ok(Some(of_document(alloc, i, UpgradeFaultKind::DuplicateUri)));
        }
    }
    Ok(None)
}

fn documents_fault(
    alloc: Global,
    pass: Pass,
    resources: &ResourceTable<'_>,
    sources: &[SourceDocument],
) -> Result<Option<UpgradeFault>, Memory>
    ensures { IfOk result
        (λ f. f ≡ documents_fault pass (all_of resources.now) 0 (map source_of sources.now)) }
{
    for i in 0..sources.len() {
        if let Some(found) = source_fault(alloc, pass, resources, &sources[i])? {
            return Ok(Some(in_document(alloc, i, &found)?));
        }
    }
    Ok(None)
}

fn source_fault(
    alloc: Global,
    pass: Pass,
    resources: &ResourceTable<'_>,
    source: &SourceDocument,
) -> Result<Option<FoundFault>, Memory>
    ensures { IfOk result (λ f. option_map found_of f
        ≡ source_fault pass (all_of resources.now) (source_of source.now)) }
{
    match source_dialect(source) {
        Some(dialect) => {
            let scope = Scope {
                resources,
                base: &source.uri,
                here: number_here(resources, &source.uri)?,
            };
            fault_in(
                alloc,
                pass,
                &scope,
                SchemaHolding::One,
                dialect,
                &source.root,
            )
        }
        None => root_fault(alloc, &source.root),
    }
}

// Of a document whose dialect isn't known.
#[tactic(auto, using(crate::proofs::Gathered::gathering_rules))]
fn root_fault(alloc: Global, root: &Doc) -> Result<Option<FoundFault>, Memory>
    ensures { IfOk result (λ f. option_map found_of f ≡ root_fault (value_of root.now)) }
{
    match root {
        Doc::Members(members) => at_keyword(alloc, "$schema", dialect_kind(members.get("$schema"))),
        _ => Ok(None),
    }
}

// The way back, from its end on.
fn in_document(alloc: Global, document: usize, found: &FoundFault) -> Result<UpgradeFault, Memory>
    ensures { IfOk result (λ f. f ≡ in_document document (found_of found.now)) }
{
    let tokens = found.back.tokens();
    let mut place = Pointer::new(alloc);
    for i in (0..tokens.len()).rev() {
        let token = &tokens[i];
        place.push(token.as_str())?;
    }
    Ok(UpgradeFault {
        document,
        place,
        kind: found.kind,
    })
}

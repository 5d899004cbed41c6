//! Upgrading the documents of a session from older drafts.
ghost use Rattle.std.specs.Prelude.{◌≡◌, None, Some, IfErr, IfNone, IfOk, IfSome, drop, map};
ghost use Rattle.std.specs.Str.{IsUtf8};
ghost use Rattle.js_doc.specs.Seen.{value_of};
ghost use Rattle.js_bundle.specs.Seen.{document_of};
ghost use Rattle.js_upgrade.specs.Seen.{source_of};
ghost use Rattle.jschema_c.specs.Upgrading.{AreUpgraded, RefusesSources, Upgrades, assumed_in};
ghost use Rattle.jschema_c.specs.Upgrading.{session_refusal, session_refusal_kind, source, sources, with_roots};

use crate::session::Phase;
use crate::status::Status;
use js_bundle::{Bundle, Document, Refusal, RefusalKind};
use js_doc::{Doc, Memory};
use js_output::Fault;
use js_upgrade::{Dialect, SourceDocument, UpgradeFault, UpgradeFaultKind, upgrade_all};
use std::alloc::Global;

/// Upgrades the documents. One that names no dialect is of the one whose URI this is, or of 2020-12 if it is empty.
pub(crate) fn upgrade_phase(alloc: Global, phase: &mut Phase, uri: &[u8]) -> Result<Status, Fault>
    ensures { Upgrades uri.now phase.old phase.new result }
{
    let Phase::Adding(bundle) = phase else {
        return Ok(Status::Misused);
    };
    let Some(assumed) = assumed_in(uri) else {
        return Ok(Status::Misused);
    };
    let after = upgraded_bundle(alloc, assumed, bundle)?;
    *bundle = after;
    Ok(Status::Done)
}

/// The dialect that the URI names; 2020-12 if it is empty.
pub(crate) fn assumed_in(uri: &[u8]) -> Option<Dialect>
    ensures some { IfSome result (λ d. assumed_in uri.now ≡ Some d) }
    ensures none { IfNone result (IsUtf8 uri.now → assumed_in uri.now ≡ None) }
{
    if uri.is_empty() {
        return Some(Dialect::Draft2020);
    }
    match str::from_utf8(uri) {
        Ok(uri) => Dialect::of_uri(uri),
        Err(_) => None,
    }
}

fn upgraded_bundle(alloc: Global, assumed: Dialect, bundle: &Bundle) -> Result<Bundle, Fault>
    ensures ok { IfOk result (AreUpgraded assumed bundle.now) }
    ensures err { IfErr result (RefusesSources (sources assumed bundle.now)) }
{
    let documents = bundle.documents();
    let sources = sources(alloc, assumed, documents)?;
    match upgrade_all(alloc, sources.as_slice()) {
        Ok(roots) => Ok(with_roots(alloc, documents, roots)?),
        Err(fault) => Err(Fault::from(session_refusal(fault))),
    }
}

fn sources(
    alloc: Global,
    assumed: Dialect,
    documents: &[Document],
) -> Result<Vec<SourceDocument>, Memory>
    ensures { IfOk result (λ v. map source_of v.items ≡ sources assumed (map document_of documents.now)) }
{
    let mut sources = Vec::with_capacity(alloc, documents.len())?;
    for document in documents {
        sources.push(source(alloc, assumed, document)?)?;
    }
    Ok(sources)
}

fn source(alloc: Global, assumed: Dialect, document: &Document) -> Result<SourceDocument, Memory>
    ensures { IfOk result (λ s. source_of s ≡ source assumed (document_of document.now)) }
{
    let uri = document.uri.clone()?;
    let root = document.root.copy(alloc)?;
    Ok(SourceDocument { uri, assumed, root })
}

fn with_roots(alloc: Global, documents: &[Document], roots: Vec<Doc>) -> Result<Bundle, Memory>
    ensures { IfOk result (λ b. b ≡ with_roots (map document_of documents.now) (map value_of roots.items)) }
{
    let mut bundle = Bundle::new(alloc);
    let mut number = 0;
    for root in roots {
        if number < documents.len() {
            let uri = documents[number].uri.clone()?;
            bundle.add_document(Document { uri, root })?;
            number += 1;
        }
    }
    Ok(bundle)
}

fn session_refusal(fault: UpgradeFault) -> Refusal
    ensures { result ≡ session_refusal fault }
{
    let UpgradeFault {
        document,
        place,
        kind,
    } = fault;
    Refusal {
        document,
        place,
        kind: session_refusal_kind(kind),
    }
}

fn session_refusal_kind(kind: UpgradeFaultKind) -> RefusalKind
    ensures { result ≡ session_refusal_kind kind }
{
    match kind {
        UpgradeFaultKind::Memory => RefusalKind::Memory,
        UpgradeFaultKind::TooManyDocuments => RefusalKind::TooManyDocuments,
        UpgradeFaultKind::UnknownDialect => RefusalKind::UnknownDialect,
        UpgradeFaultKind::BadKeyword => RefusalKind::BadKeyword,
        UpgradeFaultKind::UriTooLong => RefusalKind::UriTooLong,
        UpgradeFaultKind::BadId => RefusalKind::BadId,
        UpgradeFaultKind::DuplicateUri => RefusalKind::DuplicateUri,
        UpgradeFaultKind::BadReference => RefusalKind::BadReference,
        UpgradeFaultKind::Unresolved => RefusalKind::Unresolved,
    }
}

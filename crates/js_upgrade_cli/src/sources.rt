//! Documents, as their texts are read.
ghost use Rattle.std.specs.Prelude.{◌≡◌, [], Ok, IfOk, IfErr, map};
ghost use Rattle.js_doc.specs.Seen.{value_of};
ghost use Rattle.js_output.specs.Documents.{unfragmented};
ghost use Rattle.js_upgrade.specs.Seen.{source_of};
ghost use Rattle.js_upgrade_cli.specs.Numbers.{exact_text};
ghost use Rattle.js_upgrade_cli.specs.Outcome.{refused_whole, root_read, source_read, sources_after};
ghost use Rattle.js_upgrade_cli.specs.Outcome.{uri_or, uri_read};
ghost use Rattle.js_upgrade_cli.specs.code.Seen.{RefusesWith, taken_seen, texts_seen};
ghost use Rattle.js_output.specs.declared.fault.Fault.TheVariants as fault;

use crate::documents::DocumentText;
use crate::numbers::{Numbers, exact_text};
use js_bundle::uri::{LONGEST, has_no_fragment, without_fragment};
use js_command::append;
use js_doc::{Doc, Pointer, read};
use js_output::{Fault, Refusal, RefusalKind, unread_document};
use js_upgrade::{Dialect, SourceDocument};
use std::alloc::Global;
use url::{ParseError, Url};

/// The documents, each under its URI.
///
/// # Errors
/// The first refusal: of each document `UriTooLong`, `BadUri`, `NotJson`, `NotWhole`; `Memory` at any point.
pub(crate) fn sources_of(
    alloc: Global,
    numbers: Numbers,
    assumed: Dialect,
    documents: &[DocumentText],
) -> Result<Vec<SourceDocument>, Fault>
    ensures ok { IfOk result (λ v. sources_after numbers assumed [] 0 (texts_seen documents.now)
        ≡ Ok (map source_of v.items)) }
    ensures err { IfErr result (RefusesWith (sources_after numbers assumed [] 0 (texts_seen documents.now))) }
{
    let mut sources = Vec::new(alloc);
    for number in 0..documents.len() {
        let source = source_of(alloc, numbers, assumed, number, &documents[number])?;
        append(&mut sources, source)?;
    }
    Ok(sources)
}

fn source_of(
    alloc: Global,
    numbers: Numbers,
    assumed: Dialect,
    number: usize,
    document: &DocumentText,
) -> Result<SourceDocument, Fault>
    ensures ok { IfOk result (λ s. source_read numbers assumed number (taken_seen document.now) ≡ Ok (source_of s)) }
    ensures err { IfErr result (RefusesWith (source_read numbers assumed number (taken_seen document.now))) }
{
    let uri = uri_of(alloc, number, document.uri)?;
    let text = document.text.as_slice();
    let root = match numbers {
        Numbers::Whole => root_of(alloc, number, text)?,
        Numbers::Exact => exact_root_of(alloc, assumed, number, text)?,
    };
    Ok(SourceDocument { uri, assumed, root })
}

fn exact_root_of(alloc: Global, assumed: Dialect, number: usize, text: &[u8]) -> Result<Doc, Fault>
    ensures ok { IfOk result (λ d. root_read number (exact_text assumed text.now) ≡ Ok (value_of d)) }
    ensures err { IfErr result (RefusesWith (root_read number (exact_text assumed text.now))) }
{
    match exact_text(alloc, assumed, text)? {
        Some(exact) => root_of(alloc, number, exact.as_slice()),
        None => root_of(alloc, number, text),
    }
}

fn root_of(alloc: Global, number: usize, text: &[u8]) -> Result<Doc, Fault>
    ensures ok { IfOk result (λ d. root_read number text.now ≡ Ok (value_of d)) }
    ensures err { IfErr result (RefusesWith (root_read number text.now)) }
{
    match read(alloc, text) {
        Ok(root) => Ok(root),
        Err(fault) => Err(unread_document(alloc, number, fault)),
    }
}

// The document with this number is refused as a whole.
fn refused_whole(alloc: Global, document: usize, kind: RefusalKind) -> Fault
    ensures { result ≡ fault.Refused (refused_whole document kind) }
{
    Fault::Refused(Refusal {
        document,
        place: Pointer::new(alloc),
        kind,
    })
}

fn uri_of(alloc: Global, number: usize, uri: &str) -> Result<Url, Fault>
    ensures ok { IfOk result (λ u. uri_read number uri.now ≡ Ok u) }
    ensures err { IfErr result (RefusesWith (uri_read number uri.now)) }
{
    if LONGEST < uri.len() {
        return Err(refused_whole(alloc, number, RefusalKind::UriTooLong));
    }
    match Url::parse(alloc, uri) {
        Ok(url) => unfragmented(alloc, number, url),
        Err(ParseError::OutOfMemory) => Err(Fault::Memory),
        Err(ParseError::Overflow) => Err(Fault::Memory),
        Err(_) => Err(refused_whole(alloc, number, RefusalKind::BadUri)),
    }
}

// The URL without its fragment, which is to be empty.
fn unfragmented(alloc: Global, number: usize, url: Url) -> Result<Url, Fault>
    ensures ok { IfOk result (λ u. uri_or number (unfragmented url) ≡ Ok u) }
    ensures err { IfErr result (RefusesWith (uri_or number (unfragmented url))) }
{
    if !has_no_fragment(&url) {
        return Err(refused_whole(alloc, number, RefusalKind::BadUri));
    }
    Ok(without_fragment(url)?)
}

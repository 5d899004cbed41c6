//! From the documents that are passed in to finished schemas.
ghost use Rattle.std.specs.Prelude.{◌≡◌, length, OnOk, IfOk, IfErr};
ghost use Rattle.js_bundle.specs.Adding.{IsAdded};
ghost use Rattle.js_output.specs.Cause.{MayGoOn, FailsBy};
ghost use Rattle.js_output.specs.Documents.{documents_of, bundle_of, document_causes, adding_causes, bundle_causes};
ghost use Rattle.js_output.specs.Documents.{documents_causes, unread_document};
ghost use Rattle.js_output.specs.Outcome.{IsEarlyOrMemory};

use crate::fault::Fault;
use js_bundle::{Bundle, Refusal, RefusalKind, Schemas};
use js_doc::{Pointer, ReadFault};
use std::alloc::Global;

/// The documents' schemas, finished, or the first refusal of a document, and then of all.
pub(crate) fn finished(alloc: Global, docs: &[(&str, &[u8])]) -> Result<Schemas, Fault>
    ensures ok { IfOk result (λ s. s ≡ bundle_of (documents_of docs.now)) }
    ensures clear { OnOk result (MayGoOn (documents_causes (documents_of docs.now))) }
    ensures err { IfErr result (FailsBy (documents_causes (documents_of docs.now))) }
    ensures early { IfErr result IsEarlyOrMemory }
{
    let bundle = bundled(alloc, docs)?;
    finish_bundle(alloc, bundle)
}

// The documents in a bundle, or the first refusal of one.
fn bundled(alloc: Global, docs: &[(&str, &[u8])]) -> Result<Bundle, Fault>
    ensures ok { IfOk result (λ b. b ≡ bundle_of (documents_of docs.now)) }
    ensures clear { OnOk result (MayGoOn (adding_causes 0 (documents_of docs.now))) }
    ensures err { IfErr result (FailsBy (adding_causes 0 (documents_of docs.now))) }
    ensures early { IfErr result IsEarlyOrMemory }
{
    let mut bundle = Bundle::new(alloc);
    for document in docs {
        add_document_text(&mut bundle, document.0, document.1)?;
    }
    Ok(bundle)
}

/// Adds the document that the bytes are the text of, under the URI, after the others: [`Bundle::add`].
///
/// # Errors
/// `Refused` or `Memory`.
pub fn add_document_text(bundle: &mut Bundle, uri: &str, bytes: &[u8]) -> Result<(), Fault>
    ensures ok { OnOk result (IsAdded bundle.old uri.now bytes.now bundle.new) }
    ensures err { IfErr result
        (FailsBy (document_causes (length bundle.old) (uri.now, bytes.now))) }
    ensures early { IfErr result IsEarlyOrMemory }
{
    bundle.add(uri, bytes)?;
    Ok(())
}

/// The schemas of a bundle: [`Bundle::finish`].
///
/// # Errors
/// `Refused` or `Memory`.
pub fn finish_bundle(alloc: Global, bundle: Bundle) -> Result<Schemas, Fault>
    ensures ok { IfOk result (λ s. s ≡ bundle) }
    ensures clear { OnOk result (MayGoOn (bundle_causes bundle)) }
    ensures err { IfErr result (FailsBy (bundle_causes bundle)) }
    ensures early { IfErr result IsEarlyOrMemory }
{
    match bundle.finish(alloc) {
        Ok(schemas) => Ok(schemas),
        Err((refusal, _bundle)) => Err(Fault::from(refusal)),
    }
}

/// The fault of the document with this number whose text isn't read.
pub fn unread_document(alloc: Global, document: usize, fault: ReadFault) -> Fault
    ensures { result ≡ unread_document document fault }
{
    match fault {
        ReadFault::Memory => Fault::Memory,
        ReadFault::NotJson => Fault::Refused(Refusal {
            document,
            place: Pointer::new(alloc),
            kind: RefusalKind::NotJson,
        }),
        ReadFault::NotWhole(place) => Fault::Refused(Refusal {
            document,
            place,
            kind: RefusalKind::NotWhole,
        }),
    }
}

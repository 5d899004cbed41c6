//! Bundles: schema documents, each under its URI.
ghost use Rattle.std.specs.Prelude.{◌≡◌, ◌++◌, [], ◌∷◌, None, Ok, OnOk, OnErr, IfOk, IfErr, length, map};
ghost use Rattle.url.specs.Parser.{parse_url};
ghost use Rattle.js_doc.specs.Members.{NamesAscend};
ghost use Rattle.js_doc.specs.Seen.{value_of};
ghost use Rattle.js_doc.specs.Short.{IsShort};
ghost use Rattle.js_bundle.specs.declared.refusal.RefusalKind.TheVariants.{Memory};
ghost use Rattle.js_bundle.specs.Adding.{IsAdded, IsAddedAs, IsTaken, IsUnder, IsRefusedBy, IsUriRefusedBy, IsUriOf};
ghost use Rattle.js_bundle.specs.Adding.{IsUriFault, refusal_of_read};
ghost use Rattle.js_bundle.specs.Candidate.{IsClear};
ghost use Rattle.js_bundle.specs.Depth.{NoneTooDeep};
ghost use Rattle.js_bundle.specs.Refusals.{candidates, refusals, IsRefusalOf, refusal_of};
ghost use Rattle.js_bundle.specs.Seen.{document_of};
ghost use Rattle.js_bundle.specs.Url as spec;

use crate::check::check_whole;
use crate::check::fault::CheckFault;
use crate::document::Document;
use crate::refusal::{Refusal, RefusalKind};
use crate::schemas::Schemas;
use crate::uri::{LONGEST, has_no_fragment, without_fragment};
use js_doc::{Doc, Pointer, ReadFault, read};
use std::alloc::Global;
use std::marker::Model;
use std::sync::Arc;
use url::{ParseError, Url};

/// A bundle has no more documents.
const MOST_DOCUMENTS: usize = 1_000;

/// Schema documents, each under the URI that it was added with (JSON Schema Core, section 9.1.1). Contracts see
/// it as the list of its documents.
pub struct Bundle {
    pub(crate) documents: Vec<Document>,
}

// By hand, so that it is proved here alone, and crates that own bundles call it.
impl Drop for Bundle {
    fn drop(self) {
        let Bundle { documents } = self;
    }
}

impl Model for Bundle {
    ghost use Rattle.std.specs.Prelude.{map};
    ghost use Rattle.js_bundle.specs.Document.{Documents, documents_code};

    ghost Value = { Documents };

    ghost coded = { documents_code };

    ghost use Rattle.js_bundle.specs.Seen.{document_of, AreRead};

    ghost view = { λ b. map document_of b.documents.items };

    ghost invariant = { λ b. AreRead (map document_of b.documents.items) };
}

impl Bundle {
    /// A bundle without documents. `add` takes its memory from `alloc`.
    pub fn new(alloc: Global) -> Bundle
        ensures { result ≡ [] }
    {
        Bundle {
            documents: Vec::new(alloc),
        }
    }

    /// Adds the document with this JSON text under the URI, after the others. An empty fragment of
    /// the URI is dropped.
    ///
    /// # Errors
    /// In this order: `TooManyDocuments`, if there are 1,000 already; `UriTooLong`, if the URI has more than
    /// 65,536 bytes; `BadUri`, if it is no absolute URL, or has a fragment that isn't empty; `NotJson`;
    /// `NotWhole`, at the first number that isn't taken; `Memory` at any point. The refusal's document is the
    /// number of documents added before. The bundle is as it was.
    pub fn add(&mut self, uri: &str, bytes: &[u8]) -> Result<(), Refusal>
        ensures ok { OnOk result (IsAdded self.old uri.now bytes.now self.new) }
        ensures refused { IfErr result (IsRefusedBy (length self.old) uri.now bytes.now) }
        ensures err { OnErr result (self.new ≡ self.old) }
    {
        let alloc = *self.documents.allocator();
        let document = read_document(alloc, self.documents.len(), uri, bytes)?;
        if let Err((refusal, _)) = append(&mut self.documents, document) {
            return Err(refusal);
        }
        Ok(())
    }

    /// Adds a document that was read, under the URI, after the others.
    ///
    /// # Errors
    /// In this order: `TooManyDocuments`, `UriTooLong` and `BadUri`, as of `add`; `Memory` at any point. The value is
    /// returned, and the bundle is as it was.
    pub fn add_doc(&mut self, uri: &str, root: Doc) -> Result<(), (Refusal, Doc)>
        ensures ok { OnOk result (IsAddedAs self.old uri.now (value_of root) self.new) }
        ensures refused { IfErr result (λ p. IsUriRefusedBy (length self.old) uri.now p.0) }
        ensures back { IfErr result (λ p. p.1 ≡ root) }
        ensures err { OnErr result (self.new ≡ self.old) }
    {
        root.lawful();
        let alloc = *self.documents.allocator();
        let uri = match checked_uri(alloc, self.documents.len(), uri) {
            Ok(uri) => uri,
            Err(refusal) => return Err((refusal, root)),
        };
        if let Err((refusal, document)) = append(&mut self.documents, Document { uri, root }) {
            return Err((refusal, document.root));
        }
        Ok(())
    }

    /// Adds a document whose URI has been read, after the others.
    ///
    /// # Errors
    /// `Memory`. The bundle is as it was.
    pub fn add_document(&mut self, document: Document) -> Result<(), js_doc::Memory>
        ensures ok { OnOk result (self.new ≡ self.old ++ document_of document ∷ []) }
        ensures err { OnErr result (self.new ≡ self.old) }
    {
        document.root.lawful();
        match append(&mut self.documents, document) {
            Ok(()) => Ok(()),
            Err(_) => Err(js_doc::Memory),
        }
    }

    /// The documents, in order.
    pub fn documents(&self) -> &[Document]
        ensures { map document_of result.now ≡ self.now }
    {
        self.documents.as_slice()
    }
}

impl Bundle {
    /// Checks the documents whole: each place with its keywords, then each reference (JSON Schema Core, sections 4.3,
    /// 8 and 9.1).
    ///
    /// # Errors
    /// The first refusal, with the bundle as it was. Places come in scan order: document by document, a schema
    /// before those that it holds, by keyword ascending, then by index or name ascending. Of a place:
    /// `TooManyPlaces`, where it is the 100,001st; `NotASchema`; `DuplicateUri` for a document's URI. Then of its
    /// keywords, ascending: `BadKeyword`; `BadPattern` and `PatternTooLarge`; `UnknownDialect` (`$schema`);
    /// `UriTooLong`, `BadId` and `DuplicateUri` (`$id`); `BadAnchor` and `DuplicateAnchor`. After all places, of each
    /// the `$dynamicRef` and then the `$ref`: `UriTooLong`, `BadReference`, `Unresolved`. `Memory` may come at any
    /// point; its document is 0, and its place the empty pointer. A pattern that nests too deep for `regex` is always
    /// refused, as `BadPattern`; no definition says when one is too large.
    pub fn finish(self, alloc: Global) -> Result<Schemas, (Refusal, Bundle)>
        ensures ok { IfOk result (λ s. s ≡ self) }
        ensures clear { OnOk result (IsClear (candidates self)) }
        ensures none { OnOk result (refusals self ≡ []) }
        ensures shallow { OnOk result (NoneTooDeep self) }
        ensures refused { IfErr result (λ p. IsRefusalOf self p.0) }
        ensures back { IfErr result (λ p. p.1 ≡ self) }
    {
        match check_whole(alloc, self.documents.as_slice()) {
            Ok(checked) => Ok(Schemas {
                documents: self.into_documents(),
                checked,
            }),
            Err(fault) => Err((refusal_of(alloc, fault), self)),
        }
    }

    /// The same, for several owners: threads too can share the schemas (`sharing_laws`).
    ///
    /// # Errors
    /// As for [`Bundle::finish`].
    pub fn finish_shared(self, alloc: Global) -> Result<Arc<Schemas>, (Refusal, Bundle)>
        ensures ok { IfOk result (λ s. s.value ≡ self) }
        ensures clear { OnOk result (IsClear (candidates self)) }
        ensures none { OnOk result (refusals self ≡ []) }
        ensures shallow { OnOk result (NoneTooDeep self) }
        ensures refused { IfErr result (λ p. IsRefusalOf self p.0) }
        ensures back { IfErr result (λ p. p.1 ≡ self) }
    {
        match Arc::new(alloc, self.finish(alloc)?) {
            Ok(schemas) => Ok(schemas),
            Err(refused) => Err((
                refusal_of(alloc, CheckFault::Memory),
                unfinished(refused.value),
            )),
        }
    }

    fn into_documents(self) -> Vec<Document>
        ensures { map document_of result.items ≡ self }
    {
        let Bundle { documents } = self;
        documents
    }
}

// What was finished.
fn unfinished(schemas: Schemas) -> Bundle
    ensures { result ≡ schemas }
{
    Bundle {
        documents: schemas.into_documents(),
    }
}

fn refusal_of(alloc: Global, fault: CheckFault) -> Refusal
    ensures { result ≡ refusal_of fault }
{
    match fault {
        CheckFault::Memory => refusal_with(alloc, 0, RefusalKind::Memory),
        CheckFault::Refused(refusal) => refusal,
    }
}

// A refused document is returned.
fn append(documents: &mut Vec<Document>, document: Document) -> Result<(), (Refusal, Document)>
    ensures ok { OnOk result (documents.new.items ≡ documents.old.items ++ document ∷ []) }
    ensures err { OnErr result (documents.new.items ≡ documents.old.items) }
    ensures refused { IfErr result
        (λ p. p.0 ≡ record { document = length documents.old.items; place = []; kind = Memory }) }
    ensures back { IfErr result (λ p. p.1 ≡ document) }
{
    let earlier = documents.len();
    let alloc = *documents.allocator();
    match documents.push(document) {
        Ok(()) => Ok(()),
        Err(failed) => Err((
            refusal_with(alloc, earlier, RefusalKind::Memory),
            failed.value,
        )),
    }
}

// The document, unless there are too many already.
fn read_document(
    alloc: Global,
    earlier: usize,
    uri: &str,
    bytes: &[u8],
) -> Result<Document, Refusal>
    ensures ok { IfOk result (λ d. IsTaken earlier uri.now bytes.now (document_of d)) }
    ensures ascends { IfOk result (λ d. NamesAscend (value_of d.root)) }
    ensures short { IfOk result (λ d. IsShort (value_of d.root)) }
    ensures err { IfErr result (IsRefusedBy earlier uri.now bytes.now) }
{
    let uri = checked_uri(alloc, earlier, uri)?;
    match read(alloc, bytes) {
        Ok(root) => Ok(Document { uri, root }),
        Err(fault) => Err(unread(alloc, earlier, fault)),
    }
}

// A document's URI, unless there are too many documents already.
fn checked_uri(alloc: Global, earlier: usize, uri: &str) -> Result<Url, Refusal>
    ensures ok { IfOk result (λ u. IsUnder earlier uri.now u) }
    ensures err { IfErr result (IsUriRefusedBy earlier uri.now) }
{
    if MOST_DOCUMENTS <= earlier {
        return Err(refusal_with(alloc, earlier, RefusalKind::TooManyDocuments));
    }
    if LONGEST < uri.len() {
        return Err(refusal_with(alloc, earlier, RefusalKind::UriTooLong));
    }
    match parsed_uri(alloc, uri) {
        Ok(uri) => Ok(uri),
        Err(UriFault::Memory) => Err(refusal_with(alloc, earlier, RefusalKind::Memory)),
        Err(UriFault::Bad) => Err(refusal_with(alloc, earlier, RefusalKind::BadUri)),
    }
}

fn refusal_with(alloc: Global, document: usize, kind: RefusalKind) -> Refusal
    ensures { result ≡ record { document = document; place = []; kind = kind } }
{
    Refusal {
        document,
        place: Pointer::new(alloc),
        kind,
    }
}

fn unread(alloc: Global, document: usize, fault: ReadFault) -> Refusal
    ensures { result ≡ refusal_of_read document fault }
{
    match fault {
        ReadFault::Memory => refusal_with(alloc, document, RefusalKind::Memory),
        ReadFault::NotJson => refusal_with(alloc, document, RefusalKind::NotJson),
        ReadFault::NotWhole(place) => Refusal {
            document,
            place,
            kind: RefusalKind::NotWhole,
        },
    }
}

/// Why a text isn't a document's URI.
#[derive(Clone, Copy)]
pub(crate) enum UriFault {
    Memory,
    Bad,
}

// The URI under which a document is added.
fn parsed_uri(alloc: Global, text: &str) -> Result<Url, UriFault>
    ensures ok { IfOk result (λ u. IsUriOf text.now u) }
    ensures err { IfErr result (IsUriFault (parse_url None text.now)) }
{
    match Url::parse(alloc, text) {
        Ok(url) => without_empty_fragment(url),
        Err(ParseError::OutOfMemory) => Err(UriFault::Memory),
        Err(ParseError::Overflow) => Err(UriFault::Memory),
        Err(_) => Err(UriFault::Bad),
    }
}

// The URL without its fragment, which is to be empty.
fn without_empty_fragment(url: Url) -> Result<Url, UriFault>
    ensures ok { IfOk result (λ u. (spec.raw_fragment url ≡ []) × (u ≡ spec.without_fragment url)) }
    ensures err { IfErr result (IsUriFault (Ok url)) }
{
    if !has_no_fragment(&url) {
        return Err(UriFault::Bad);
    }
    match without_fragment(url) {
        Ok(url) => Ok(url),
        Err(_) => Err(UriFault::Memory),
    }
}

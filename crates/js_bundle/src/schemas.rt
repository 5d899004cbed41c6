//! Finished schemas: places, and what stands there.
ghost use Rattle.std.specs.Prelude.{◌≡◌, ◌++◌, Some, true, map, option_map, IfOk, string_bytes};
ghost use Rattle.js_doc.specs.Seen.{value_of};
ghost use Rattle.js_bundle.specs.code.PlaceNumbers.{tokens_of};
ghost use Rattle.js_bundle.specs.Location.{absolute_location, canonical, location};
ghost use Rattle.js_bundle.specs.PlaceNumber.{is_place, place_at};
ghost use Rattle.js_bundle.specs.Schemas.{place_numbers};
ghost use Rattle.js_bundle.specs.Seen.{document_of};
ghost use Rattle.js_bundle.specs.code.CheckedSite.{checked_site, checked_site_of};

use crate::bundle::Bundle;
use crate::check::Checked;
use crate::check::checked_site::CheckedSite;
use crate::document::Document;
use crate::index::location::absolute_location;
use crate::place::Place;
use crate::uri;
use js_doc::{Doc, Memory, Pointer};
use std::alloc::Global;
use std::marker::Model;

/// Schema documents that are checked: every keyword takes its argument, and every reference has its target. Contracts
/// see them as their documents, and a place as its number in scan order.
pub struct Schemas {
    pub(crate) documents: Vec<Document>,
    pub(crate) checked: Checked,
}

// By hand, so that it is proved here alone, and crates that own schemas call it.
impl Drop for Schemas {
    fn drop(self) {
        let Schemas { documents, checked } = self;
    }
}

impl Model for Schemas {
    ghost use Rattle.std.specs.Prelude.{map};
    ghost use Rattle.js_bundle.specs.Document.{Documents, documents_code};

    ghost Value = { Documents };

    ghost coded = { documents_code };

    ghost use Rattle.js_bundle.specs.Finished.{IsCheckOf};
    ghost use Rattle.js_bundle.specs.Seen.{document_of};

    ghost view = { λ s. map document_of s.documents.items };

    ghost invariant = { λ s. IsCheckOf (map document_of s.documents.items) s.checked };
}

impl Schemas {
    /// Whether the place is in these schemas. Each place that a call of these schemas returns is.
    pub fn has(&self, place: Place) -> bool
        ensures { result ≡ is_place self.now place }
    {
        place.number < self.checked.sites.len()
    }

    /// A bundle with the same documents, each a copy.
    ///
    /// # Errors
    /// `Memory`.
    pub fn to_bundle(&self, alloc: Global) -> Result<Bundle, Memory>
        ensures { IfOk result (λ b. b ≡ self.now) }
    {
        let documents = copies(alloc, self.documents.as_slice())?;
        Ok(Bundle { documents })
    }

    // The documents alone.
    pub(crate) fn into_documents(self) -> Vec<Document>
        ensures { map document_of result.items ≡ self }
    {
        let Schemas {
            documents,
            checked: _,
        } = self;
        documents
    }

    // What is kept of a place.
    pub(crate) fn checked_site(&self, place: Place) -> &CheckedSite
        requires { is_place self.now place ≡ true }
        ensures { option_map checked_site (place_at self.now place) ≡ Some (checked_site_of result.now) }
    {
        &self.checked.sites[place.number]
    }

    /// The number of the place's document, the first one's 0.
    pub fn document(&self, place: Place) -> usize
        requires { is_place self.now place ≡ true }
        ensures { option_map (λ s. s.document) (place_at self.now place) ≡ Some result }
    {
        self.checked_site(place).document
    }

    /// Where in its document the place stands.
    pub fn pointer(&self, place: Place) -> &Pointer
        requires { is_place self.now place ≡ true }
        ensures { option_map (λ s. s.pointer) (place_at self.now place) ≡ Some result.now }
    {
        &self.checked_site(place).pointer
    }

    /// The schema that stands at the place.
    pub fn schema(&self, place: Place) -> &Doc
        requires { is_place self.now place ≡ true }
        ensures { option_map (λ s. s.schema) (place_at self.now place) ≡ Some (value_of result.now) }
    {
        let site = self.checked_site(place);
        let root = &self.documents[site.document].root;
        match root.at_with_hint(&site.pointer, site.rank as usize) {
            Some(schema) => schema,
            None => root, // never: a place stands in its document
        }
    }

    /// The canonical URI of the place's resource (JSON Schema Core, section 8.2.1).
    pub fn resource(&self, place: Place) -> &str
        requires { is_place self.now place ≡ true }
        ensures { option_map canonical (place_at self.now place) ≡ Some result.now }
    {
        uri::printed(&self.checked_site(place).own.base)
    }

    /// The absolute location of the place, or of a keyword of it (JSON Schema Core, section 12.3.2): the canonical URI
    /// of its resource, `#`, and the way from the resource's root as a fragment. A root's ends in a bare `#`.
    ///
    /// # Errors
    /// `Memory`.
    pub fn absolute(
        &self,
        alloc: Global,
        place: Place,
        keyword: Option<&str>,
    ) -> Result<String, Memory>
        requires { is_place self.now place ≡ true }
        ensures { IfOk result (λ t. option_map (λ s. absolute_location s (tokens_of keyword.entry))
            (place_at self.now place) ≡ Some (string_bytes t)) }
    {
        let site = self.checked_site(place);
        absolute_location(alloc, &site.own, &site.pointer, keyword)
    }

    /// The absolute location of the place, lent in two pieces, one behind the other. Mostly the second one is empty. If
    /// the URI of the place's resource is long, the first one is that URI.
    pub fn location_of(&self, place: Place) -> (&str, &str)
        requires { is_place self.now place ≡ true }
        ensures { option_map location (place_at self.now place) ≡ Some (result.0.now ++ result.1.now) }
    {
        let location = &self.checked.locations[place.number];
        let text = location.text.as_str();
        if location.is_fragment {
            (self.resource(place), text)
        } else {
            (text, "")
        }
    }

    /// All places, in scan order: document by document, a schema before those that it holds, these by keyword ascending
    /// and then by index or by name ascending.
    ///
    /// # Errors
    /// `Memory`.
    pub fn places(&self, alloc: Global) -> Result<Vec<Place>, Memory>
        ensures { IfOk result (λ v. v.items ≡ place_numbers self.now) }
    {
        let mut places = Vec::new(alloc);
        for number in 0..self.checked.sites.len() {
            places.push(Place { number })?;
        }
        Ok(places)
    }
}

fn copies(alloc: Global, documents: &[Document]) -> Result<Vec<Document>, Memory>
    ensures { IfOk result (λ ds. map document_of ds.items ≡ map document_of documents.now) }
{
    let mut all = Vec::new(alloc);
    for document in documents {
        let copy = copy_of(alloc, document)?;
        all.push(copy)?;
    }
    Ok(all)
}

fn copy_of(alloc: Global, document: &Document) -> Result<Document, Memory>
    ensures { IfOk result (λ d. document_of d ≡ document_of document.now) }
{
    let uri = document.uri.clone()?;
    let root = document.root.copy(alloc)?;
    Ok(Document { uri, root })
}

//! Entries: the URI of the schema with which a judgement begins.
ghost use Rattle.std.specs.Prelude.{◌≡◌, ◌≤◌, true, None, OnOk, IfOk, IfErr, find, length, map, option_map, slice_get};
ghost use Rattle.url.specs.Parser.{parse_url};
ghost use Rattle.js_bundle.specs.code.Index.{standing, standing_of};
ghost use Rattle.js_bundle.specs.code.CheckedSite.{checked_standing};
ghost use Rattle.js_bundle.specs.code.CheckedSite.{checked_site_of};
ghost use Rattle.js_bundle.specs.Names.{is_known_as, is_read, named};
ghost use Rattle.js_bundle.specs.Resource.{sites};
ghost use Rattle.js_bundle.specs.Schemas.{entry, StandsFor, IsEntryFault, IsNameFault, IsReadEntry};
ghost use Rattle.js_bundle.specs.PlaceNumber.{is_place};
ghost use Rattle.js_bundle.specs.Url.{decoded_fragment, longest_uri};

use crate::check::checked_site::CheckedSite;
use crate::index::place_by_uri::{NameFault, Root, number_by_fragment};
use crate::place::Place;
use crate::refusal::EntryFault;
use crate::schemas::Schemas;
use crate::uri::{self, LONGEST};
use std::alloc::Global;
use url::{ParseError, Url};

impl Schemas {
    /// The place that the URI names (JSON Schema Core, sections 8.2.1, 8.2.2 and 9.2.1).
    ///
    /// # Errors
    /// In this order: `UriTooLong`, if it has more than 65,536 bytes; `BadUri`, if it is no absolute URL, or its
    /// fragment isn't read; `Unresolved`, if it names no place; `Memory` at any point.
    pub fn entry(&self, alloc: Global, uri: &str) -> Result<Place, EntryFault>
        ensures ok { IfOk result (λ p. StandsFor self.now p (entry self.now (parse_url None uri.now))) }
        ensures place { IfOk result (λ p. is_place self.now p ≡ true) }
        ensures short { OnOk result (length uri.now ≤ longest_uri) }
        ensures read { OnOk result (IsReadEntry (parse_url None uri.now)) }
        ensures err { IfErr result (IsEntryFault self.now uri.now) }
    {
        if LONGEST < uri.len() {
            return Err(EntryFault::UriTooLong);
        }
        match Url::parse(alloc, uri) {
            Ok(url) => self.place_by_url(alloc, url),
            Err(ParseError::OutOfMemory) => Err(EntryFault::Memory),
            Err(ParseError::Overflow) => Err(EntryFault::Memory),
            Err(_) => Err(EntryFault::BadUri),
        }
    }

    // The place that a URL names.
    fn place_by_url(&self, alloc: Global, url: Url) -> Result<Place, EntryFault>
        ensures ok { IfOk result (λ p. StandsFor self.now p (named (sites self.now) url)) }
        ensures place { IfOk result (λ p. is_place self.now p ≡ true) }
        ensures read { OnOk result (is_read (decoded_fragment url) ≡ true) }
        ensures err { IfErr result (IsNameFault self.now url) }
    {
        let fragment = uri::decoded_fragment(alloc, &url)?;
        let bare = uri::without_fragment(url)?;
        let root = self.checked_root_named(uri::printed(&bare));
        match number_by_fragment(alloc, &self.checked.index, root, fragment.as_slice()) {
            Ok(Some(number)) => Ok(Place { number }),
            Ok(None) => Err(EntryFault::Unresolved),
            Err(NameFault::NotRead) => Err(EntryFault::BadUri),
            Err(NameFault::Memory) => Err(EntryFault::Memory),
        }
    }

    // The root of the resource that has the URI.
    fn checked_root_named(&self, uri: &str) -> Option<Root<'_>>
        ensures { option_map standing_of result ≡ option_map standing (find (is_known_as uri.now) (sites self.now)) }
    {
        match self.checked.index.known.number_of(uri) {
            Some(number) => checked_root_at(self.checked.sites.as_slice(), number),
            None => None,
        }
    }
}

fn checked_root_at(sites: &[CheckedSite], number: usize) -> Option<Root<'_>>
    ensures { option_map standing_of result
        ≡ option_map checked_standing (slice_get (map checked_site_of sites.now) number) }
{
    match sites.get(number) {
        Some(site) => Some(Root::new(site.document, &site.pointer)),
        None => None,
    }
}

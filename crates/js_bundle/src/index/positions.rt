//! What the first pass finds out about where places stand.
ghost use Rattle.std.specs.Prelude.{[], map, option_map, MatchOption, OnOk, IfOk};
ghost use Rattle.js_bundle.specs.code.Positions.{BeginTexts, IsLast, ArePositionsOf, HasPositionAdded};
ghost use Rattle.js_bundle.specs.code.Scan.{site_of};

use crate::index::Index;
use crate::index::keys::next_key;
use crate::index::location::next_location;
use crate::index::resource_table::begins_resource;
use crate::index::stored_location::StoredLocation;
use crate::index::text_prefix::{Neighbours, TextPrefix, shared_with};
use crate::scan::site::Site;
use js_doc::Memory;
use std::alloc::Global;

/// Where places stand, one after another.
#[derive(Drop)]
pub(crate) struct Positions {
    pub(crate) index: Index,
    /// Of each place, whether it is the root of its resource.
    pub(crate) roots: Vec<bool>,
    /// The absolute location of each.
    pub(crate) locations: Vec<StoredLocation>,
}

/// How the texts of a place begin. Those of the next one continue from there.
pub(crate) struct TextPrefixes {
    /// Of the key of where it stands.
    pub(crate) key: TextPrefix,
    pub(crate) location: TextPrefix,
}

// By hand, so that it is proved here alone, and crates that own prefixes call it.
impl Drop for TextPrefixes {
    fn drop(self) {
        let TextPrefixes { key, location } = self;
    }
}

impl TextPrefixes {
    /// Empty ones, for the first place.
    pub(crate) fn new(alloc: Global) -> TextPrefixes {
        TextPrefixes {
            key: TextPrefix::new(alloc),
            location: TextPrefix::new(alloc),
        }
    }
}

impl Positions {
    /// The positions of no places, with memory for this many.
    ///
    /// # Errors
    /// `Memory`.
    pub(crate) fn with_capacity(alloc: Global, places: usize) -> Result<Positions, Memory>
        ensures { IfOk result (λ l. ArePositionsOf l []) }
    {
        Ok(Positions {
            roots: Vec::with_capacity(alloc, places)?,
            locations: Vec::with_capacity(alloc, places)?,
            index: Index::new(alloc),
        })
    }

    /// Adds a place. Its texts are made from the prefixes of those of the place before it.
    ///
    /// # Errors
    /// `Memory`.
    pub(crate) fn add_position(
        &mut self,
        alloc: Global,
        prefixes: &mut TextPrefixes,
        earlier: &[Site<'_>],
        before: Option<&Site<'_>>,
        site: &Site<'_>,
    ) -> Result<(), Memory>
        requires begin { MatchOption before (Unit {0}) (λ b. BeginTexts prefixes.old (site_of b.now)) }
        requires before { IsLast (map site_of earlier.now) (option_map (λ b. site_of b.now) before) }
        ensures begin { OnOk result (BeginTexts prefixes.new (site_of site.now)) }
        ensures positions { OnOk result
            (HasPositionAdded self.old (map site_of earlier.now) (site_of site.now) self.new) }
    {
        let pair = Neighbours {
            alloc,
            before,
            site,
            shared: shared_with(before, site),
        };
        self.roots.push(begins_resource(site))?;
        let key = next_key(&mut prefixes.key, pair)?;
        self.index.add_place(alloc, site, earlier.len(), key)?;
        let location = next_location(&mut prefixes.location, pair)?;
        self.locations.push(location)?;
        Ok(())
    }
}

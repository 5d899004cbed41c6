//! What finds places without a search: by the URI of a resource, by where they stand, by the names that they make.
ghost use Rattle.std.specs.Prelude.{◌≡◌, [], OnOk, string_bytes, option_copied, option_to_list};
ghost use Rattle.js_bundle.specs.code.Index.{AreInserted, HasPlaceAdded, IsIndexOf, place_key, name_keys_by, name_keys};
ghost use Rattle.js_bundle.specs.code.Index.{root_uris, made_uris};
ghost use Rattle.js_bundle.specs.code.Scan.{site_of};

pub(crate) mod edges;
pub(crate) mod keys;
pub(crate) mod keyword_table;
pub(crate) mod location;
pub(crate) mod numbering;
pub(crate) mod parts_by_place;
pub(crate) mod place_by_uri;
pub(crate) mod positions;
pub(crate) mod resource_table;
pub(crate) mod sparse_list;
pub(crate) mod stored_location;
pub(crate) mod text_prefix;

use crate::index::keys::name_key;
use crate::index::numbering::Numbering;
use crate::index::place_by_uri::is_root;
use crate::keyword::text_argument;
use crate::scan::site::Site;
use crate::uri;
use js_doc::Memory;
use js_keyword::OtherKeyword;
use std::alloc::Global;

/// The numbers of places in scan order, under their keys. Of the places with one key the first is found.
pub(crate) struct Index {
    /// The roots of resources, under their URIs.
    pub(crate) known: Numbering,
    /// Under the document's number and the pointer.
    pub(crate) places: Numbering,
    /// Those that make names, under their resource and the name.
    pub(crate) names: Numbering,
}

// By hand, so that it is proved here alone, and crates that own an index call it.
impl Drop for Index {
    fn drop(self) {
        let Index {
            known,
            places,
            names,
        } = self;
    }
}

impl Index {
    /// The index of no places.
    pub(crate) fn new(alloc: Global) -> Index
        ensures { IsIndexOf result [] }
    {
        Index {
            known: Numbering::new(alloc),
            places: Numbering::new(alloc),
            names: Numbering::new(alloc),
        }
    }

    /// Adds the next place, which stands under this key.
    pub(crate) fn add_place(
        &mut self,
        alloc: Global,
        site: &Site<'_>,
        number: usize,
        key: String,
    ) -> Result<(), Memory>
        requires { string_bytes key ≡ place_key site.now.document site.now.pointer.value }
        ensures { OnOk result (HasPlaceAdded self.old (site_of site.now) number self.new) }
    {
        // read, so that it is known to be small: keys of different documents then differ
        let _document = site.document;
        self.places.insert_first(key, number)?;
        self.known
            .insert_first_given(alloc, root_uri(site), number)?;
        self.known
            .insert_first_given(alloc, made_uri(site), number)?;
        insert_names(alloc, &mut self.names, site, number)
    }
}

// The document's URI, at its root.
fn root_uri<'s>(site: &'s Site<'_>) -> Option<&'s str>
    ensures { option_to_list (option_copied result) ≡ root_uris (site_of site.now) }
{
    if is_root(&site.pointer) {
        Some(uri::printed(&site.above.base))
    } else {
        None
    }
}

// What the `$id` makes.
fn made_uri<'s>(site: &'s Site<'_>) -> Option<&'s str>
    ensures { option_to_list (option_copied result) ≡ made_uris (site_of site.now) }
{
    if site.identifies {
        Some(uri::printed(&site.own.base))
    } else {
        None
    }
}

fn insert_name(
    alloc: Global,
    names: &mut Numbering,
    site: &Site<'_>,
    keyword: &str,
    number: usize,
) -> Result<(), Memory>
    ensures { OnOk result (AreInserted names.old (name_keys_by keyword.now (site_of site.now)) number names.new) }
{
    match text_argument(site.schema, keyword) {
        Some(name) => {
            let key = name_key(alloc, site.document, &site.own.resource, name)?;
            names.insert_first(key, number)
        }
        None => Ok(()),
    }
}

fn insert_names(
    alloc: Global,
    names: &mut Numbering,
    site: &Site<'_>,
    number: usize,
) -> Result<(), Memory>
    ensures { OnOk result (AreInserted names.old (name_keys (site_of site.now)) number names.new) }
{
    insert_name(alloc, names, site, OtherKeyword::Anchor.name(), number)?;
    insert_name(
        alloc,
        names,
        site,
        OtherKeyword::DynamicAnchor.name(),
        number,
    )
}

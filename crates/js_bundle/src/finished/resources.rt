//! The resources of finished schemas (JSON Schema Core, sections 4.3.5 and 8.2.1).
ghost use Rattle.std.specs.Prelude.{◌≡◌, ◌++◌, ◌&&◌, [], ◌∷◌, Some, true, map, bytes_eq, option_copied};
ghost use Rattle.std.specs.Prelude.{option_and_then, IfOk, OnOk};
ghost use Rattle.js_bundle.specs.Resource.{sites};
ghost use Rattle.js_bundle.specs.ResourceNumber.{count_of_resources, number_of_resource};
ghost use Rattle.js_bundle.specs.PlaceNumber.{is_place, place_at};
ghost use Rattle.js_bundle.specs.Schemas.{resources, lent};
ghost use Rattle.js_bundle.specs.code.CheckedSite.{checked_site_of, document_uri, base_made, resource_listed};
ghost use Rattle.js_bundle.specs.Url as spec;

use crate::check::checked_site::CheckedSite;
use crate::index::place_by_uri::is_root;
use crate::place::Place;
use crate::schemas::Schemas;
use crate::uri;
use js_doc::Memory;
use std::alloc::Global;

impl Schemas {
    /// The URIs by which resources are known, each with the root of its resource, in scan order. A document's URI comes
    /// before its root's base; where they are the same, it is listed once.
    ///
    /// # Errors
    /// `Memory`.
    pub fn resources(&self, alloc: Global) -> Result<Vec<(&str, Place)>, Memory>
        ensures { IfOk result (λ v. map lent v.items ≡ resources self.now) }
    {
        let mut resources = Vec::new(alloc);
        for number in 0..self.checked.sites.len() {
            let place = Place { number };
            let site = self.checked_site(place);
            push_listed(&mut resources, document_uri(site), place)?;
            push_listed(&mut resources, base_made(site), place)?;
        }
        Ok(resources)
    }

    /// The number of the place's resource: how many resources have their root before its own in scan order.
    pub fn resource_number(&self, place: Place) -> usize
        requires { is_place self.now place ≡ true }
        ensures { option_and_then (number_of_resource (sites self.now)) (place_at self.now place) ≡ Some result }
    {
        self.checked.resources.numbers[place.number]
    }

    /// How many resources there are. The number of each is less than this.
    pub fn resource_count(&self) -> usize
        ensures { result ≡ count_of_resources (sites self.now) }
    {
        self.checked.resources.anchors.len()
    }
}

fn push_listed<'s>(
    out: &mut Vec<(&'s str, Place)>,
    uri: Option<&'s str>,
    place: Place,
) -> Result<(), Memory>
    ensures { OnOk result (map lent out.new.items
        ≡ map lent out.old.items ++ resource_listed place (option_copied uri.entry)) }
{
    match uri {
        Some(uri) => push_pair(out, (uri, place)),
        None => Ok(()),
    }
}

fn push_pair<T: Drop>(out: &mut Vec<T>, one: T) -> Result<(), Memory>
    ensures { OnOk result (out.new.items ≡ out.old.items ++ one ∷ []) }
{
    match out.push(one) {
        Ok(()) => Ok(()),
        Err(_) => Err(Memory),
    }
}

// The document's URI, at its root.
fn document_uri(site: &CheckedSite) -> Option<&str>
    ensures { option_copied result ≡ document_uri (checked_site_of site.now) }
{
    if is_root(&site.pointer) {
        Some(uri::printed(&site.above.base))
    } else {
        None
    }
}

// What the `$id` makes, unless it is the document's URI at its root.
fn base_made(site: &CheckedSite) -> Option<&str>
    ensures { option_copied result ≡ base_made (checked_site_of site.now) }
{
    let recorded = is_root(&site.pointer) && keeps_base(site);
    if site.identifies && !recorded {
        Some(uri::printed(&site.own.base))
    } else {
        None
    }
}

// Whether the place's base is that of the scope it is in.
fn keeps_base(site: &CheckedSite) -> bool
    ensures { result ≡ bytes_eq (spec.printed site.now.above.value.base) (spec.printed site.now.own.value.base) }
{
    uri::printed(&site.above.base) == uri::printed(&site.own.base)
}

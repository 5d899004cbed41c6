//! The resources of all documents, and which of them a URI names.
ghost use Rattle.std.specs.Prelude.{◌≡◌, IfOk, map, option_and_then, option_map, slice_get};
ghost use Rattle.std.specs.List.{list_any, position_from};
ghost use Rattle.js_upgrade.specs.Resource.{recurses, resource_named};
ghost use Rattle.js_upgrade.specs.Seen.{resource_seen};
ghost use Rattle.js_upgrade.specs.Url.{uri_printed, uri_without_fragment};
ghost use Rattle.js_upgrade.specs.code.First.{FindsFirstResource, has_uri};

use crate::recursion::recurses;
use crate::resource::Resource;
use crate::uri::{printed_bare, uri_printed, uri_without_fragment};
use js_doc::Memory;
use std::alloc::Global;
use std::collections::BTreeMap;
use url::Url;

/// Resources, and the number of the first under each URI.
///
/// The URIs come from schemas, so they are kept in order, not hashed: they could be chosen to have one hash.
#[derive(Drop)]
pub(crate) struct ResourceTable<'d> {
    pub resources: Vec<Resource<'d>>,
    numbers: BTreeMap<String, usize>,
    /// Whether one of them has `$recursiveAnchor`.
    pub recursive: bool,
    ghost first: { FindsFirstResource 0 numbers (map resource_seen resources.items) },
    ghost recurs: { recursive ≡ list_any recurses (map resource_seen resources.items) },
}

/// The table of these resources.
///
/// # Errors
/// `Memory`.
pub(crate) fn table_of(
    alloc: Global,
    resources: Vec<Resource<'_>>,
) -> Result<ResourceTable<'_>, Memory>
    ensures { IfOk result (λ t. map resource_seen t.resources.items ≡ map resource_seen resources.entry.items) }
{
    let numbers = numbers_of(alloc, resources.as_slice())?;
    let recursive = has_recursive(resources.as_slice());
    Ok(ResourceTable {
        resources,
        numbers,
        recursive,
    })
}

// The number of the first resource under each URI.
fn numbers_of(alloc: Global, resources: &[Resource<'_>]) -> Result<BTreeMap<String, usize>, Memory>
    ensures { IfOk result (λ m. FindsFirstResource 0 m (map resource_seen resources.now)) }
{
    let mut numbers = BTreeMap::new(alloc);
    for i in (0..resources.len()).rev() {
        let uri = resources[i].uri.clone()?;
        numbers.insert(uri, i)?;
    }
    Ok(numbers)
}

fn has_recursive(resources: &[Resource<'_>]) -> bool
    ensures { result ≡ list_any recurses (map resource_seen resources.now) }
{
    any_recurses(resources)
}

fn any_recurses(resources: &[Resource<'_>]) -> bool
    ensures { result ≡ list_any (λ r. recurses (resource_seen r)) resources.now }
{
    resources.iter().any(|resource| recurses(resource))
}

/// The number of the first of the resources that has the URI.
pub(crate) fn number_by_uri(table: &ResourceTable<'_>, uri: &str) -> Option<usize>
    ensures { result ≡ position_from (has_uri uri.now) 0 (map resource_seen table.now.resources.items) }
{
    table.numbers.get(uri).copied()
}

/// The resource with the number, if there is one.
pub(crate) fn resource_numbered<'r>(
    table: &'r ResourceTable<'_>,
    number: Option<usize>,
) -> Option<&'r Resource<'r>>
    ensures { option_map (λ r. resource_seen r.now) result
        ≡ option_and_then (slice_get (map resource_seen table.now.resources.items)) number }
{
    match number {
        Some(number) => resource_at(table.resources.as_slice(), number),
        None => None,
    }
}

fn resource_at<'r>(resources: &'r [Resource<'_>], number: usize) -> Option<&'r Resource<'r>>
    ensures { option_map (λ r. resource_seen r.now) result ≡ slice_get (map resource_seen resources.now) number }
{
    match resources.get(number) {
        Some(resource) => Some(resource),
        None => None,
    }
}

/// The first of the resources that has the URI.
pub(crate) fn resource_named<'r>(
    table: &'r ResourceTable<'_>,
    uri: &str,
) -> Option<&'r Resource<'r>>
    ensures { option_map (λ r. resource_seen r.now) result
        ≡ resource_named (map resource_seen table.now.resources.items) uri.now }
{
    resource_numbered(table, number_by_uri(table, uri))
}

/// The first of the resources that has the URI without its fragment.
///
/// # Errors
/// `Memory`.
pub(crate) fn resource_of<'r>(
    table: &'r ResourceTable<'_>,
    uri: &Url,
) -> Result<Option<&'r Resource<'r>>, Memory>
    ensures { IfOk result (λ r. option_map (λ r. resource_seen r.now) r
        ≡ resource_named (map resource_seen table.now.resources.items)
        (uri_printed (uri_without_fragment uri.now))) }
{
    match printed_bare(uri) {
        Some(bare) => Ok(resource_named(table, bare)),
        None => {
            let bare = uri_without_fragment(uri.clone()?)?;
            Ok(resource_named(table, uri_printed(&bare)))
        }
    }
}

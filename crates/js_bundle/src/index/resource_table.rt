//! What is kept of resources, by their numbers (JSON Schema Core, sections 4.3.5 and 8.2.1).
ghost use Rattle.std.specs.Prelude.{◌≡◌, ◌<◌, Some, map, length, codes, slice_get, unwrap_or, option_and_then};
ghost use Rattle.std.specs.Prelude.{option_copied, option_to_list, OnOk, IfOk, MatchOption};
ghost use Rattle.js_bundle.specs.code.PartsByPlace.{ArePartsByPlace};
ghost use Rattle.js_bundle.specs.code.Index.{IsIndexOf};
ghost use Rattle.js_bundle.specs.code.Positions.{ArePositionsOf};
ghost use Rattle.js_bundle.specs.Keyword.{text_argument};
ghost use Rattle.js_bundle.specs.MemberKeywords.{member_keywords};
ghost use Rattle.js_bundle.specs.Names.{belongs_to, same_tokens};
ghost use Rattle.js_bundle.specs.ResourceNumber.{begins_resource, roots, number_of_resource};
ghost use Rattle.js_bundle.specs.ResourceTable.{AreAnchors, AreEmpty, AreNamed, AreRooted, IsOpened, IsResourceTable};
ghost use Rattle.js_bundle.specs.ResourceTable.{StandApart, count_begun, rank_of_root, ranks_by, ranks_from};
ghost use Rattle.js_bundle.specs.code.Scan.{site_of};

use crate::index::Index;
use crate::index::keyword_table::KeywordTable;
use crate::index::numbering::Numbering;
use crate::index::parts_by_place::part_of_place;
use crate::index::place_by_uri::number_at;
use crate::index::positions::Positions;
use crate::index::sparse_list::mark_at;
use crate::keyword::text_argument;
use crate::scan::site::Site;
use js_doc::{Memory, Pointer};
use js_keyword::{Keyword, OtherKeyword};
use std::alloc::Global;

/// What is kept of resources.
pub(crate) struct Resources {
    /// The number of each place's resource, in scan order.
    pub(crate) numbers: Vec<usize>,
    /// Of each resource, the places to which `$dynamicAnchor` gives names.
    pub(crate) anchors: Vec<Numbering>,
}

// By hand, so that it is proved here alone, and crates that own resources call it.
impl Drop for Resources {
    fn drop(self) {
        let Resources { numbers, anchors } = self;
    }
}

// The roots of resources, counted.
struct Roots {
    // How many stand before each place.
    ranks: Vec<usize>,
    // Of each, the names in its resource: none yet.
    anchors: Vec<Numbering>,
}

// Which places are roots of resources, and how many roots stand before each.
#[derive(Clone, Copy)]
struct CountedRoots<'s> {
    begins: &'s [bool],
    ranks: &'s [usize],
}

// A place with the number of its resource.
#[derive(Clone, Copy)]
struct Numbered<'s> {
    site: &'s Site<'s>,
    resource: usize,
}

/// Whether the place is the root of its own resource.
pub(crate) fn begins_resource(site: &Site<'_>) -> bool
    ensures { result ≡ begins_resource (site_of site.now) }
{
    is_same_pointer(&site.pointer, &site.own.resource)
}

fn is_same_pointer(first: &Pointer, second: &Pointer) -> bool
    ensures { result ≡ same_tokens first.now second.now }
{
    *first == *second
}

// Opens the resource of a root.
fn open_resource(alloc: Global, anchors: &mut Vec<Numbering>, begins: bool) -> Result<(), Memory>
    ensures { OnOk result (IsOpened begins anchors.old.items anchors.new.items) }
{
    if begins {
        anchors.push(Numbering::new(alloc))?;
    }
    Ok(())
}

// The roots, where it is known of each place whether it is one.
fn roots_of(alloc: Global, begins: &[bool]) -> Result<Roots, Memory>
    ensures ranks { IfOk result (λ r. r.ranks.items ≡ ranks_by 0 begins.now) }
    ensures many { IfOk result (λ r. length r.anchors.items ≡ count_begun begins.now) }
    ensures empty { IfOk result (λ r. AreEmpty r.anchors.items) }
{
    let mut ranks = Vec::with_capacity(alloc, begins.len())?;
    let mut anchors = Vec::new(alloc);
    for i in 0..begins.len() {
        ranks.push_reserved(anchors.len());
        open_resource(alloc, &mut anchors, begins[i])?;
    }
    Ok(Roots { ranks, anchors })
}

fn rank_under(ranks: &[usize], root: Option<usize>) -> usize
    ensures { result ≡ unwrap_or (option_and_then (slice_get ranks.now) root) 0 }
{
    let Some(root) = root else {
        return 0; // never: each resource has its root
    };
    match ranks.get(root) {
        Some(rank) => *rank,
        None => 0,
    }
}

// Whether the place before is of the same resource.
fn is_of_one(before: &Site<'_>, site: &Site<'_>) -> bool
    ensures { result ≡ belongs_to site.now.document site.now.own.value.resource (site_of before.now) }
{
    before.document == site.document && is_same_pointer(&before.own.resource, &site.own.resource)
}

// The number of a place's resource. That of a root is known, and most other places are of the resource of the one
// before.
fn number_after(
    alloc: Global,
    index: &Index,
    sites: &[Site<'_>],
    roots: CountedRoots<'_>,
    before: Option<Numbered<'_>>,
    site: &Site<'_>,
    number: usize,
) -> Result<usize, Memory>
    requires index { IsIndexOf index.now (map site_of sites.now) }
    requires apart { StandApart (map site_of sites.now) }
    requires begins { roots.begins.now ≡ map begins_resource (map site_of sites.now) }
    requires ranks { roots.ranks.now ≡ ranks_from 0 (map site_of sites.now) }
    requires before { MatchOption before (Unit {0})
        (λ b. b.resource ≡ rank_of_root (map site_of sites.now) (site_of b.site.now)) }
    requires site { slice_get (map site_of sites.now) number ≡ Some (site_of site.now) }
    ensures { IfOk result (λ n. n ≡ rank_of_root (map site_of sites.now) (site_of site.now)) }
{
    if mark_at(roots.begins, number) {
        return Ok(rank_under(roots.ranks, Some(number)));
    }
    match before {
        Some(before) if is_of_one(before.site, site) => Ok(before.resource),
        _ => number_by_root(alloc, index, sites, roots.ranks, site),
    }
}

// The same, by the root of the resource.
fn number_by_root(
    alloc: Global,
    index: &Index,
    sites: &[Site<'_>],
    ranks: &[usize],
    site: &Site<'_>,
) -> Result<usize, Memory>
    requires index { IsIndexOf index.now (map site_of sites.now) }
    requires ranks { ranks.now ≡ ranks_from 0 (map site_of sites.now) }
    ensures { IfOk result (λ n. n ≡ rank_of_root (map site_of sites.now) (site_of site.now)) }
{
    let root = number_at(alloc, index, site.document, &site.own.resource)?;
    Ok(rank_under(ranks, root))
}

// The number of each place's resource.
fn numbers_of(
    alloc: Global,
    index: &Index,
    sites: &[Site<'_>],
    roots: CountedRoots<'_>,
) -> Result<Vec<usize>, Memory>
    requires index { IsIndexOf index.now (map site_of sites.now) }
    requires apart { StandApart (map site_of sites.now) }
    requires begins { roots.begins.now ≡ map begins_resource (map site_of sites.now) }
    requires ranks { roots.ranks.now ≡ ranks_from 0 (map site_of sites.now) }
    ensures { IfOk result (λ v. v.items ≡ map (rank_of_root (map site_of sites.now)) (map site_of sites.now)) }
{
    let mut numbers = Vec::with_capacity(alloc, sites.len())?;
    let mut before = None;
    for i in 0..sites.len() {
        let site = &sites[i];
        let resource = number_after(alloc, index, sites, roots, before, site, i)?;
        numbers.push_reserved(resource);
        before = Some(Numbered { site, resource });
    }
    Ok(numbers)
}

// The name that a place with these keywords makes by `$dynamicAnchor`. Few do: nothing is looked up for the others.
fn dynamic_name<'s>(site: &'s Site<'_>, names: &[Keyword]) -> Option<&'s str>
    requires { names.now ≡ member_keywords (site_of site.now) }
    ensures { option_copied result ≡ text_argument (codes "$dynamicAnchor") (site_of site.now).schema }
{
    if names.contains(&Keyword::Other(OtherKeyword::DynamicAnchor)) {
        return text_argument(site.schema, OtherKeyword::DynamicAnchor.name());
    }
    None
}

// Keeps the name that the place makes in its resource, if it makes one.
fn name(
    alloc: Global,
    anchors: &mut Vec<Numbering>,
    resource: usize,
    site: &Site<'_>,
    names: &[Keyword],
    number: usize,
) -> Result<(), Memory>
    requires resource { resource < length anchors.now.items }
    requires names { names.now ≡ member_keywords (site_of site.now) }
    ensures { OnOk result (AreNamed anchors.old.items resource
        (option_to_list (text_argument (codes "$dynamicAnchor") (site_of site.now).schema)) number anchors.new.items) }
{
    let name = dynamic_name(site, names);
    anchors[resource].insert_first_given(alloc, name, number)
}

fn name_all(
    alloc: Global,
    anchors: &mut Vec<Numbering>,
    sites: &[Site<'_>],
    keywords: &KeywordTable,
    numbers: &[usize],
) -> Result<(), Memory>
    requires keywords { ArePartsByPlace member_keywords (map site_of sites.now)
        keywords.now.names.items keywords.now.ends.items }
    requires rooted { AreRooted (map site_of sites.now) }
    requires numbers { map Some numbers.now ≡ map (number_of_resource (map site_of sites.now)) (map site_of sites.now) }
    requires many { length anchors.now.items ≡ length (roots (map site_of sites.now)) }
    requires empty { AreEmpty anchors.now.items }
    ensures { OnOk result (AreAnchors (roots (map site_of sites.now)) anchors.new.items (map site_of sites.now)) }
{
    for i in 0..sites.len() {
        let names = part_of_place(keywords.names.as_slice(), keywords.ends.as_slice(), i);
        name(alloc, anchors, numbers[i], &sites[i], names, i)?;
    }
    Ok(())
}

/// The table of the resources of all places.
///
/// # Errors
/// `Memory`.
pub(crate) fn resources_of(
    alloc: Global,
    positions: &Positions,
    sites: &[Site<'_>],
    keywords: &KeywordTable,
) -> Result<Resources, Memory>
    requires positions { ArePositionsOf positions.now (map site_of sites.now) }
    requires keywords { ArePartsByPlace member_keywords (map site_of sites.now)
        keywords.now.names.items keywords.now.ends.items }
    requires rooted { AreRooted (map site_of sites.now) }
    ensures { IfOk result (λ r. IsResourceTable r (map site_of sites.now)) }
{
    let begins = positions.roots.as_slice();
    let Roots { ranks, mut anchors } = roots_of(alloc, begins)?;
    let roots = CountedRoots {
        begins,
        ranks: ranks.as_slice(),
    };
    let numbers = numbers_of(alloc, &positions.index, sites, roots)?;
    name_all(alloc, &mut anchors, sites, keywords, numbers.as_slice())?;
    Ok(Resources { numbers, anchors })
}

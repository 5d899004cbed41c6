//! The second pass: what references lead to.
ghost use Rattle.std.specs.Prelude.{◌≡◌, List, [], ◌∷◌, None, Some, Ok, false, nat_eq, nat_lt, length, OnOk, IfOk};
ghost use Rattle.std.specs.Prelude.{IfErr, codes, map, slice_get};
ghost use Rattle.indexmap.specs.IndexMap.{get};
ghost use Rattle.js_bundle.specs.Candidate.{IsClear, IsStopped};
ghost use Rattle.std.specs.Option.{option_map_or};
ghost use Rattle.js_bundle.specs.code.PlaceNumbers.{number_named};
ghost use Rattle.js_bundle.specs.Finding.{number_of_target, dynamic_as, dynamic_by, dynamic_at};
ghost use Rattle.js_bundle.specs.code.PlaceNumbers.{under_number};
ghost use Rattle.js_bundle.specs.code.SparseList.{IsSparseList, HasEntryAdded};
ghost use Rattle.js_bundle.specs.code.PartsByPlace.{ArePartsByPlace};
ghost use Rattle.js_bundle.specs.code.Index.{IsIndexOf};
ghost use Rattle.js_bundle.specs.MemberKeywords.{member_keywords};
ghost use Rattle.js_bundle.specs.Names.{makes};
ghost use Rattle.js_bundle.specs.Refusals.{at_joined_reference, at_reference_text, at_reference, at_references};
ghost use Rattle.js_bundle.specs.Refusals.{second_pass};
ghost use Rattle.js_bundle.specs.Resource as spec;
ghost use Rattle.js_bundle.specs.code.Scan.{site_of};
ghost use Rattle.js_bundle.specs.Url.{longest_uri};
ghost use Rattle.url.specs.Parser.{parse_url};

use crate::check::fault::{CheckFault, refuse_keyword};
use crate::check::lookup::{Lookup, SiteKeyword};
use crate::index::keyword_table::KeywordTable;
use crate::index::parts_by_place::part_of_place;
use crate::index::place_by_uri::{NameFault, number_named};
use crate::index::sparse_list::add_entry;
use crate::keyword::text_argument;
use crate::refusal::RefusalKind;
use crate::scan::site::Site;
use crate::uri::{self, LONGEST};
use indexmap::IndexMap;
use js_doc::Memory;
use js_keyword::{Keyword, OtherKeyword};
use std::alloc::Global;
use url::{ParseError, Url};

fn resolve_url(
    known: Lookup<'_>,
    at: SiteKeyword<'_>,
    url: Url,
) -> Result<Option<usize>, CheckFault>
    requires { IsIndexOf known.index.now (map site_of known.sites.now) }
    ensures clear { OnOk result (IsClear
        (at_joined_reference (map site_of known.entry.sites.now) (site_of at.entry.site.now)
        (at.entry.keyword.now ∷ []) (Ok url))) }
    ensures target { IfOk result (λ t. t ≡ number_named (map site_of known.entry.sites.now) url) }
    ensures err { IfErr result (IsStopped
        (at_joined_reference (map site_of known.entry.sites.now) (site_of at.entry.site.now)
        (at.entry.keyword.now ∷ []) (Ok url))) }
{
    match number_named(known.alloc, known.index, known.sites, url) {
        Ok(Some(place)) => Ok(Some(place)),
        Ok(None) => Err(refuse_keyword(known.alloc, at, RefusalKind::Unresolved)),
        Err(NameFault::NotRead) => {
            Err(refuse_keyword(known.alloc, at, RefusalKind::BadReference))
        }
        Err(NameFault::Memory) => Err(CheckFault::Memory),
    }
}

// The URL that a reference is, joined with the base of its place.
fn joined_reference(alloc: Global, at: SiteKeyword<'_>, text: &str) -> Result<Url, CheckFault>
    ensures short { OnOk result (nat_lt longest_uri (length text.now) ≡ false) }
    ensures url { IfOk result (λ u. parse_url (Some at.entry.site.now.own.value.base) text.now ≡ Ok u) }
    ensures err { IfErr result (λ e. (all : List spec.Site) → IsStopped
        (at_reference_text all (site_of at.entry.site.now) (at.entry.keyword.now ∷ []) (Some text.now)) e) }
{
    if LONGEST < text.len() {
        return Err(refuse_keyword(alloc, at, RefusalKind::UriTooLong));
    }
    match at.site.own.base.join(text) {
        Ok(url) => Ok(url),
        Err(ParseError::OutOfMemory) => Err(CheckFault::Memory),
        Err(ParseError::Overflow) => Err(CheckFault::Memory),
        Err(_) => Err(refuse_keyword(alloc, at, RefusalKind::BadReference)),
    }
}

// The number of the place that a reference names. None where the place has no such reference.
fn resolve_plain(known: Lookup<'_>, at: SiteKeyword<'_>) -> Result<Option<usize>, CheckFault>
    requires { IsIndexOf known.index.now (map site_of known.sites.now) }
    ensures clear { OnOk result (IsClear
        (at_reference (map site_of known.entry.sites.now) at.entry.keyword.now (site_of at.entry.site.now))) }
    ensures target { IfOk result (λ t. t
        ≡ number_of_target (map site_of known.entry.sites.now) at.entry.keyword.now (site_of at.entry.site.now)) }
    ensures err { IfErr result (IsStopped
        (at_reference (map site_of known.entry.sites.now) at.entry.keyword.now (site_of at.entry.site.now))) }
{
    let Some(text) = text_argument(at.site.schema, at.keyword) else {
        return Ok(None);
    };
    let url = joined_reference(known.alloc, at, text)?;
    resolve_url(known, at, url)
}

// Whether the place makes the name by `$dynamicAnchor`.
fn makes_dynamically(site: &Site<'_>, name: &[u8]) -> bool
    ensures { result ≡ makes (codes "$dynamicAnchor") name.now (site_of site.now) }
{
    match text_argument(site.schema, OtherKeyword::DynamicAnchor.name()) {
        Some(text) => name == text.as_bytes(),
        None => false,
    }
}

// The reference to the place with this number. It goes by name if the place makes the name by `$dynamicAnchor`.
fn reference_to(sites: &[Site<'_>], target: usize, name: &[u8]) -> DynamicReference
    ensures { result ≡ dynamic_as (option_map_or (makes (codes "$dynamicAnchor") name.now)
        (slice_get (map site_of sites.now) target) false) target }
{
    let by_name = match sites.get(target) {
        Some(first) => makes_dynamically(first, name),
        None => false,
    };
    DynamicReference { target, by_name }
}

// What a `$dynamicRef` that is this URL leads to. None where it names no place.
fn resolve_dynamic_url(
    known: Lookup<'_>,
    site: &Site<'_>,
    url: Url,
) -> Result<Option<DynamicReference>, CheckFault>
    requires { IsIndexOf known.index.now (map site_of known.sites.now) }
    ensures clear { OnOk result (IsClear
        (at_joined_reference (map site_of known.entry.sites.now) (site_of site.now)
        (codes "$dynamicRef" ∷ []) (Ok url))) }
    ensures reference { IfOk result (λ r. r ≡ dynamic_by (map site_of known.entry.sites.now) (Some url)) }
    ensures err { IfErr result (IsStopped
        (at_joined_reference (map site_of known.entry.sites.now) (site_of site.now)
        (codes "$dynamicRef" ∷ []) (Ok url))) }
{
    let name = uri::decoded_fragment(known.alloc, &url)?;
    let at = SiteKeyword {
        site,
        keyword: Keyword::DynamicRef.name(),
    };
    match resolve_url(known, at, url)? {
        Some(target) => Ok(Some(reference_to(known.sites, target, name.as_slice()))),
        None => Ok(None),
    }
}

// What the `$dynamicRef` of a place leads to. None where the place has no `$dynamicRef`.
fn resolve_dynamic(
    known: Lookup<'_>,
    site: &Site<'_>,
) -> Result<Option<DynamicReference>, CheckFault>
    requires { IsIndexOf known.index.now (map site_of known.sites.now) }
    ensures clear { OnOk result (IsClear
        (at_reference (map site_of known.entry.sites.now) (codes "$dynamicRef") (site_of site.now))) }
    ensures reference { IfOk result (λ r. r ≡ dynamic_at (map site_of known.entry.sites.now) (site_of site.now)) }
    ensures err { IfErr result (IsStopped
        (at_reference (map site_of known.entry.sites.now) (codes "$dynamicRef") (site_of site.now))) }
{
    let keyword = Keyword::DynamicRef.name();
    let Some(text) = text_argument(site.schema, keyword) else {
        return Ok(None);
    };
    let at = SiteKeyword { site, keyword };
    let url = joined_reference(known.alloc, at, text)?;
    resolve_dynamic_url(known, site, url)
}

/// What the two references of a place name.
#[derive(Clone, Copy)]
struct Targets {
    dynamic: Option<DynamicReference>,
    plain: Option<usize>,
}

fn resolve_both(known: Lookup<'_>, site: &Site<'_>) -> Result<Targets, CheckFault>
    requires { IsIndexOf known.index.now (map site_of known.sites.now) }
    ensures clear { OnOk result (IsClear (at_references (map site_of known.entry.sites.now) (site_of site.now))) }
    ensures dynamic { IfOk result (λ t. t.dynamic ≡ dynamic_at (map site_of known.entry.sites.now) (site_of site.now)) }
    ensures plain { IfOk result
        (λ t. t.plain ≡ number_of_target (map site_of known.entry.sites.now) (codes "$ref") (site_of site.now)) }
    ensures err { IfErr result (IsStopped (at_references (map site_of known.entry.sites.now) (site_of site.now))) }
{
    let dynamic = resolve_dynamic(known, site)?;
    let at = SiteKeyword {
        site,
        keyword: Keyword::Ref.name(),
    };
    let plain = resolve_plain(known, at)?;
    Ok(Targets { dynamic, plain })
}

// The same for a place whose keywords are these. Most have no reference: nothing is looked up for them.
fn targets_of(known: Lookup<'_>, site: &Site<'_>, names: &[Keyword]) -> Result<Targets, CheckFault>
    requires index { IsIndexOf known.index.now (map site_of known.sites.now) }
    requires names { names.now ≡ member_keywords (site_of site.now) }
    ensures clear { OnOk result (IsClear (at_references (map site_of known.entry.sites.now) (site_of site.now))) }
    ensures dynamic { IfOk result (λ t. t.dynamic ≡ dynamic_at (map site_of known.entry.sites.now) (site_of site.now)) }
    ensures plain { IfOk result
        (λ t. t.plain ≡ number_of_target (map site_of known.entry.sites.now) (codes "$ref") (site_of site.now)) }
    ensures err { IfErr result (IsStopped (at_references (map site_of known.entry.sites.now) (site_of site.now))) }
{
    if names.contains(&Keyword::Ref) {
        return resolve_both(known, site);
    }
    if names.contains(&Keyword::DynamicRef) {
        return resolve_both(known, site);
    }
    Ok(Targets {
        dynamic: None,
        plain: None,
    })
}

/// The first target of a `$dynamicRef`, by its number in scan order.
#[derive(Clone, Copy, Drop)]
pub(crate) struct DynamicReference {
    pub(crate) target: usize,
    /// Whether its fragment is a name that `$dynamicAnchor` makes at the target: then the dynamic scope decides.
    pub(crate) by_name: bool,
}

/// What the references of places name.
#[derive(Drop)]
pub(crate) struct References {
    /// The first targets of `$dynamicRef`, under the numbers of the places that have one. These are few.
    pub(crate) dynamic: IndexMap<usize, DynamicReference>,
    /// The number of the target of each place's `$ref`, in scan order. It ends with the last place that has one.
    pub(crate) plain: Vec<Option<usize>>,
}

// Keeps the reference of a place, if it has one.
fn keep_dynamic(
    dynamic: &mut IndexMap<usize, DynamicReference>,
    place: usize,
    reference: Option<DynamicReference>,
) -> Result<(), Memory>
    requires { get nat_eq dynamic.old place ≡ None }
    ensures { OnOk result (HasEntryAdded (get nat_eq dynamic.old) place reference (get nat_eq dynamic.new)) }
{
    if let Some(reference) = reference {
        dynamic.insert(place, reference)?;
    }
    Ok(())
}

/// Resolves all references.
pub(crate) fn resolve_all(
    known: Lookup<'_>,
    keywords: &KeywordTable,
) -> Result<References, CheckFault>
    requires index { IsIndexOf known.index.now (map site_of known.sites.now) }
    requires keywords { ArePartsByPlace member_keywords (map site_of known.sites.now)
        keywords.now.names.items keywords.now.ends.items }
    ensures clear { OnOk result (IsClear (second_pass (map site_of known.entry.sites.now))) }
    ensures dynamic { IfOk result (λ r. IsSparseList (get nat_eq r.dynamic)
        (dynamic_at (map site_of known.entry.sites.now)) (map site_of known.entry.sites.now)) }
    ensures plain { IfOk result (λ r. IsSparseList (under_number r.plain.items)
        (number_of_target (map site_of known.entry.sites.now) (codes "$ref")) (map site_of known.entry.sites.now)) }
    ensures err { IfErr result (IsStopped (second_pass (map site_of known.entry.sites.now))) }
{
    let mut dynamic = IndexMap::new(known.alloc);
    let mut plain = Vec::new(known.alloc);
    for i in 0..known.sites.len() {
        let names = part_of_place(keywords.names.as_slice(), keywords.ends.as_slice(), i);
        let targets = targets_of(known, &known.sites[i], names)?;
        keep_dynamic(&mut dynamic, i, targets.dynamic)?;
        add_entry(&mut plain, i, targets.plain)?;
    }
    Ok(References { dynamic, plain })
}

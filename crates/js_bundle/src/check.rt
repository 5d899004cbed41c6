//! The check of documents as a whole.
ghost use Rattle.std.specs.Prelude.{◌≡◌, codes, map, nat_eq, OnOk, IfOk, IfErr};
ghost use Rattle.indexmap.specs.IndexMap.{get};
ghost use Rattle.js_bundle.specs.AssertionsAndPatterns.{assertions_at, patterns_at};
ghost use Rattle.js_bundle.specs.Candidate.{IsClear, IsStopped};
ghost use Rattle.js_bundle.specs.code.SparseList.{IsSparseList};
ghost use Rattle.js_bundle.specs.code.Edges.{edges_from, edges_of};
ghost use Rattle.js_bundle.specs.Finding.{dynamic_at, number_of_target};
ghost use Rattle.js_bundle.specs.code.PlaceNumbers.{under_number};
ghost use Rattle.js_bundle.specs.code.PartsByPlace.{ArePartsByPlace};
ghost use Rattle.js_bundle.specs.code.Index.{IsIndexOf};
ghost use Rattle.js_bundle.specs.code.Positions.{ArePositionsOf};
ghost use Rattle.js_bundle.specs.MemberKeywords.{member_keywords};
ghost use Rattle.js_bundle.specs.Refusals.{candidates, second_pass};
ghost use Rattle.js_bundle.specs.Resource.{sites};
ghost use Rattle.js_bundle.specs.ResourceTable.{AreRooted, IsResourceTable};
ghost use Rattle.js_bundle.specs.code.Scan.{site_of};
ghost use Rattle.js_bundle.specs.Seen.{document_of, AreRead};
ghost use Rattle.js_bundle.specs.code.StoredLocation.{stored_location};
ghost use Rattle.js_bundle.specs.code.CheckedSite.{checked_site, checked_site_of};

pub(crate) mod assertions_and_patterns;
pub(crate) mod checked_site;
pub(crate) mod fault;
pub(crate) mod first_pass;
pub(crate) mod lookup;
pub(crate) mod references;
pub(crate) mod rules;

use crate::check::assertions_and_patterns::BuiltTable;
use crate::check::checked_site::{CheckedSite, checked_sites_of};
use crate::check::fault::CheckFault;
use crate::check::first_pass::{Passed, first_pass};
use crate::check::lookup::Lookup;
use crate::check::references::{References, resolve_all};
use crate::document::Document;
use crate::index::Index;
use crate::index::edges::{Edges, edges_in};
use crate::index::keyword_table::KeywordTable;
use crate::index::resource_table::{Resources, resources_of};
use crate::index::stored_location::StoredLocation;
use crate::scan::scan_all;
use crate::scan::site::Site;
use std::alloc::Global;

/// What is kept of checked documents, place by place.
pub(crate) struct Checked {
    pub(crate) sites: Vec<CheckedSite>,
    pub(crate) built: BuiltTable,
    pub(crate) keywords: KeywordTable,
    pub(crate) references: References,
    /// The absolute location of each.
    pub(crate) locations: Vec<StoredLocation>,
    pub(crate) index: Index,
    pub(crate) resources: Resources,
    /// What each place holds.
    pub(crate) edges: Vec<Edges>,
}

// By hand, so that what owns it proves one call.
impl Drop for Checked {
    fn drop(self) {
        let Checked {
            sites,
            built,
            keywords,
            references,
            locations,
            index,
            resources,
            edges,
        } = self;
    }
}

/// What is looked up once all places are in the index.
#[derive(Drop)]
struct LookedUp {
    references: References,
    resources: Resources,
    edges: Vec<Edges>,
}

// What references lead to, the resources, and what each place holds.
fn look_up(
    alloc: Global,
    documents: &[Document],
    sites: &[Site<'_>],
    passed: &Passed,
) -> Result<LookedUp, CheckFault>
    requires positions { ArePositionsOf passed.now.positions (map site_of sites.now) }
    requires keywords { ArePartsByPlace member_keywords (map site_of sites.now)
        passed.now.keywords.names.items passed.now.keywords.ends.items }
    requires rooted { AreRooted (map site_of sites.now) }
    ensures clear { OnOk result (IsClear (second_pass (map site_of sites.now))) }
    ensures dynamic { IfOk result (λ l. IsSparseList (get nat_eq l.references.dynamic)
        (dynamic_at (map site_of sites.now)) (map site_of sites.now)) }
    ensures plain { IfOk result (λ l. IsSparseList (under_number l.references.plain.items)
        (number_of_target (map site_of sites.now) (codes "$ref")) (map site_of sites.now)) }
    ensures resources { IfOk result (λ l. IsResourceTable l.resources (map site_of sites.now)) }
    ensures edges { IfOk result (λ l. map edges_of l.edges.items ≡ edges_from 0 (map document_of documents.now)) }
    ensures err { IfErr result (IsStopped (second_pass (map site_of sites.now))) }
{
    let known = Lookup {
        alloc,
        index: &passed.positions.index,
        sites,
    };
    let references = resolve_all(known, &passed.keywords)?;
    let resources = resources_of(alloc, &passed.positions, sites, &passed.keywords)?;
    Ok(LookedUp {
        references,
        resources,
        edges: edges_in(alloc, documents)?,
    })
}

/// Checks documents whole: each place with its keywords, and then each reference.
pub(crate) fn check_whole(alloc: Global, documents: &[Document]) -> Result<Checked, CheckFault>
    requires { AreRead (map document_of documents.now) }
    ensures clear { OnOk result (IsClear (candidates (map document_of documents.now))) }
    ensures checked_sites { IfOk result
        (λ c. map checked_site_of c.sites.items ≡ map checked_site (sites (map document_of documents.now))) }
    ensures assertions { IfOk result (λ c. ArePartsByPlace assertions_at (sites (map document_of documents.now))
        c.built.all.assertions.items c.built.assertion_ends.items) }
    ensures patterns { IfOk result (λ c. ArePartsByPlace patterns_at (sites (map document_of documents.now))
        c.built.all.patterns.items c.built.pattern_ends.items) }
    ensures keywords { IfOk result (λ c. ArePartsByPlace member_keywords (sites (map document_of documents.now))
        c.keywords.names.items c.keywords.ends.items) }
    ensures dynamic { IfOk result (λ c. IsSparseList (get nat_eq c.references.dynamic)
        (dynamic_at (sites (map document_of documents.now))) (sites (map document_of documents.now))) }
    ensures plain { IfOk result (λ c. IsSparseList (under_number c.references.plain.items)
        (number_of_target (sites (map document_of documents.now)) (codes "$ref"))
        (sites (map document_of documents.now))) }
    ensures locations { IfOk result (λ c. c.locations.items
        ≡ map stored_location (sites (map document_of documents.now))) }
    ensures index { IfOk result (λ c. IsIndexOf c.index (sites (map document_of documents.now))) }
    ensures resources { IfOk result
        (λ c. IsResourceTable c.resources (sites (map document_of documents.now))) }
    ensures edges { IfOk result (λ c. map edges_of c.edges.items ≡ edges_from 0 (map document_of documents.now)) }
    ensures err { IfErr result (IsStopped (candidates (map document_of documents.now))) }
{
    let sites = scan_all(alloc, documents)?;
    let passed = first_pass(alloc, sites.as_slice())?;
    let found = look_up(alloc, documents, sites.as_slice(), &passed)?;
    Ok(Checked {
        sites: checked_sites_of(alloc, sites)?,
        built: passed.built,
        keywords: passed.keywords,
        references: found.references,
        locations: passed.positions.locations,
        index: passed.positions.index,
        resources: found.resources,
        edges: found.edges,
    })
}

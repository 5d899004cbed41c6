//! The first pass: each place and its keywords, in scan order.
ghost use Rattle.std.specs.Prelude.{◌≡◌, ◌++◌, [], ◌∷◌, Some, length, not, map, option_map, MatchOption, OnOk, IfOk};
ghost use Rattle.std.specs.Prelude.{IfErr};
ghost use Rattle.std.specs.List.{flat_map};
ghost use Rattle.js_doc.specs.Seen.{value_of};
ghost use Rattle.js_doc.specs.Value as spec;
ghost use Rattle.js_doc.specs.Parts.{members_of};
ghost use Rattle.js_bundle.specs.declared.refusal.RefusalKind.TheVariants.{BadKeyword};
ghost use Rattle.js_bundle.specs.AssertionsAndPatterns.{assertion_at, assertions_at, patterns_of, patterns_at};
ghost use Rattle.js_bundle.specs.Candidate.{IsClear, IsStopped};
ghost use Rattle.js_bundle.specs.Shape.{is_shaped};
ghost use Rattle.js_bundle.specs.code.PartsByPlace.{ArePartsByPlace};
ghost use Rattle.js_bundle.specs.code.Index.{IsIndexOf};
ghost use Rattle.js_bundle.specs.code.Positions.{BeginTexts, IsLast, ArePositionsOf, HasPositionAdded};
ghost use Rattle.js_bundle.specs.Keyword as words;
ghost use Rattle.js_keyword.specs.Keyword.{which_keyword};
ghost use Rattle.js_bundle.specs.MemberKeywords.{member_keywords};
ghost use Rattle.js_bundle.specs.Refusals.{when, decided, on_text, text_rules, at_member, at_site, first_pass};
ghost use Rattle.js_bundle.specs.code.Scan.{site_of};

use crate::check::assertions_and_patterns::{Built, BuiltTable, keep_assertion, read_names};
use crate::check::fault::{CheckFault, refuse_keyword};
use crate::check::lookup::{Lookup, SiteKeyword};
use crate::check::rules::{
    check_anchor, check_dialect, check_id, check_place, has_form, read_assertion,
};
use crate::index::keyword_table::KeywordTable;
use crate::index::positions::{Positions, TextPrefixes};
use crate::refusal::RefusalKind;
use crate::scan::site::Site;
use js_doc::{Doc, Members, Memory};
use js_keyword::{Keyword, OtherKeyword};
use std::alloc::Global;

fn check_shape(
    alloc: Global,
    at: SiteKeyword<'_>,
    which: Keyword,
    argument: &Doc,
) -> Result<(), CheckFault>
    requires { which ≡ which_keyword at.keyword.now }
    ensures ok { OnOk result (IsClear (when (not (is_shaped at.entry.keyword.now (value_of argument.now)))
        (decided (site_of at.entry.site.now) (at.entry.keyword.now ∷ []) BadKeyword))) }
    ensures err { IfErr result (IsStopped (when (not (is_shaped at.entry.keyword.now (value_of argument.now)))
        (decided (site_of at.entry.site.now) (at.entry.keyword.now ∷ []) BadKeyword))) }
{
    if has_form(which.form(), argument) {
        Ok(())
    } else {
        Err(refuse_keyword(alloc, at, RefusalKind::BadKeyword))
    }
}

// The rules of a keyword whose argument is a text.
fn check_text(
    known: Lookup<'_>,
    at: SiteKeyword<'_>,
    which: Keyword,
    text: &str,
) -> Result<(), CheckFault>
    requires which { which ≡ which_keyword at.keyword.now }
    requires index { IsIndexOf known.index.now (map site_of known.sites.now) }
    requires argument { words.argument at.keyword.now (value_of at.site.now.schema.now) ≡ Some (spec.text text.now) }
    ensures ok { OnOk result (IsClear
        (text_rules (map site_of known.entry.sites.now) (site_of at.entry.site.now) at.entry.keyword.now text.now)) }
    ensures err { IfErr result (IsStopped
        (text_rules (map site_of known.entry.sites.now) (site_of at.entry.site.now) at.entry.keyword.now text.now)) }
{
    match which {
        Keyword::Other(other) => match other {
            OtherKeyword::Schema => check_dialect(known.alloc, at, text),
            OtherKeyword::Id => check_id(known, at, text),
            OtherKeyword::Anchor => check_anchor(known, at, text),
            OtherKeyword::DynamicAnchor => check_anchor(known, at, text),
            _ => Ok(()),
        },
        _ => Ok(()),
    }
}

fn check_argument(
    known: Lookup<'_>,
    at: SiteKeyword<'_>,
    which: Keyword,
    argument: &Doc,
) -> Result<(), CheckFault>
    requires which { which ≡ which_keyword at.keyword.now }
    requires index { IsIndexOf known.index.now (map site_of known.sites.now) }
    requires argument { words.argument at.keyword.now (value_of at.site.now.schema.now) ≡ Some (value_of argument.now) }
    ensures ok { OnOk result (IsClear (on_text
        (text_rules (map site_of known.entry.sites.now) (site_of at.entry.site.now) at.entry.keyword.now)
        (value_of argument.now))) }
    ensures err { IfErr result (IsStopped (on_text
        (text_rules (map site_of known.entry.sites.now) (site_of at.entry.site.now) at.entry.keyword.now)
        (value_of argument.now))) }
{
    match argument {
        Doc::Text(text) => check_text(known, at, which, text.as_str()),
        _ => Ok(()),
    }
}

// The rules of a keyword, its shape first.
fn check_keyword(
    built: &mut Built,
    known: Lookup<'_>,
    at: SiteKeyword<'_>,
    which: Keyword,
    argument: &Doc,
    siblings: &Members,
) -> Result<(), CheckFault>
    requires which { which ≡ which_keyword at.keyword.now }
    requires index { IsIndexOf known.index.now (map site_of known.sites.now) }
    requires argument { words.argument at.keyword.now (value_of at.site.now.schema.now) ≡ Some (value_of argument.now) }
    ensures clear { OnOk result (IsClear
        (at_member (map site_of known.entry.sites.now) (site_of at.entry.site.now)
        (at.entry.keyword.now, value_of argument.now))) }
    ensures assertions { OnOk result (built.new.assertions.items ≡ built.old.assertions.items
        ++ assertion_at siblings.now (at.entry.keyword.now, value_of argument.now)) }
    ensures patterns { OnOk result (built.new.patterns.items ≡ built.old.patterns.items
        ++ patterns_of (at.entry.keyword.now, value_of argument.now)) }
    ensures err { IfErr result (IsStopped
        (at_member (map site_of known.entry.sites.now) (site_of at.entry.site.now)
        (at.entry.keyword.now, value_of argument.now))) }
{
    check_shape(known.alloc, at, which, argument)?;
    let assertion = read_assertion(known.alloc, at, argument, siblings)?;
    keep_assertion(&mut built.assertions, assertion)?;
    check_argument(known, at, which, argument)?;
    read_names(&mut built.patterns, at, argument)
}

// The rules of all of a place's keywords, by name ascending.
fn check_keywords(
    built: &mut Built,
    known: Lookup<'_>,
    site: &Site<'_>,
    members: &Members,
) -> Result<(), CheckFault>
    requires index { IsIndexOf known.index.now (map site_of known.sites.now) }
    requires members { value_of site.now.schema.now ≡ spec.object (spec.members members.now) }
    ensures clear { OnOk result (IsClear
        (flat_map (at_member (map site_of known.entry.sites.now) (site_of site.now)) members.now)) }
    ensures assertions { OnOk result (built.new.assertions.items ≡ built.old.assertions.items
        ++ flat_map (assertion_at members.now) members.now) }
    ensures patterns { OnOk result (built.new.patterns.items ≡ built.old.patterns.items
        ++ flat_map patterns_of members.now) }
    ensures err { IfErr result (IsStopped
        (flat_map (at_member (map site_of known.entry.sites.now) (site_of site.now)) members.now)) }
{
    for (keyword, argument) in members.pairs() {
        let at = SiteKeyword {
            site: &*site, // lent again, for as long as the name is
            keyword: keyword.as_str(),
        };
        let which = Keyword::of(at.keyword);
        check_keyword(built, known, at, which, argument, members)?;
    }
    Ok(())
}

#[tactic(auto, using(crate::proofs::Checking::MembersByName::listed_members))]
fn check_schema(built: &mut Built, known: Lookup<'_>, site: &Site<'_>) -> Result<(), CheckFault>
    requires { IsIndexOf known.index.now (map site_of known.sites.now) }
    ensures clear { OnOk result (IsClear (flat_map
        (at_member (map site_of known.entry.sites.now) (site_of site.now)) (members_of (site_of site.now).schema))) }
    ensures assertions { OnOk result (built.new.assertions.items ≡ built.old.assertions.items
        ++ assertions_at (site_of site.now)) }
    ensures patterns { OnOk result (built.new.patterns.items ≡ built.old.patterns.items
        ++ patterns_at (site_of site.now)) }
    ensures err { IfErr result (IsStopped (flat_map
        (at_member (map site_of known.entry.sites.now) (site_of site.now)) (members_of (site_of site.now).schema))) }
{
    match site.schema {
        Doc::Members(members) => check_keywords(built, known, site, members),
        _ => Ok(()),
    }
}

// The rules of a place, and of its keywords.
fn check_site(built: &mut Built, known: Lookup<'_>, site: &Site<'_>) -> Result<(), CheckFault>
    requires { IsIndexOf known.index.now (map site_of known.sites.now) }
    ensures clear { OnOk result (IsClear (at_site (map site_of known.entry.sites.now) (site_of site.now))) }
    ensures assertions { OnOk result (built.new.assertions.items ≡ built.old.assertions.items
        ++ assertions_at (site_of site.now)) }
    ensures patterns { OnOk result (built.new.patterns.items ≡ built.old.patterns.items
        ++ patterns_at (site_of site.now)) }
    ensures err { IfErr result (IsStopped (at_site (map site_of known.entry.sites.now) (site_of site.now))) }
{
    check_place(known, site)?;
    check_schema(built, known, site)
}

/// What the first pass has of the places.
#[derive(Drop)]
pub(crate) struct Passed {
    pub(crate) built: BuiltTable,
    pub(crate) positions: Positions,
    pub(crate) keywords: KeywordTable,
}

impl Passed {
    // What the pass has of no places, with memory for this many.
    fn with_capacity(alloc: Global, places: usize) -> Result<Passed, Memory>
        ensures assertions { IfOk result (λ p. p.built.all.assertions.items ≡ []) }
        ensures assertion_ends { IfOk result (λ p. p.built.assertion_ends.items ≡ []) }
        ensures patterns { IfOk result (λ p. p.built.all.patterns.items ≡ []) }
        ensures pattern_ends { IfOk result (λ p. p.built.pattern_ends.items ≡ []) }
        ensures positions { IfOk result (λ p. ArePositionsOf p.positions []) }
        ensures names { IfOk result (λ p. p.keywords.names.items ≡ []) }
        ensures ends { IfOk result (λ p. p.keywords.ends.items ≡ []) }
    {
        Ok(Passed {
            keywords: KeywordTable::with_capacity(alloc, places)?,
            built: BuiltTable::with_capacity(alloc, places)?,
            positions: Positions::with_capacity(alloc, places)?,
        })
    }

    // Adds a place. Its texts are made from the prefixes of those of the place before it.
    fn pass(
        &mut self,
        alloc: Global,
        earlier: &[Site<'_>],
        prefixes: &mut TextPrefixes,
        before: Option<&Site<'_>>,
        site: &Site<'_>,
    ) -> Result<(), CheckFault>
        requires index { IsIndexOf self.old.positions.index (map site_of earlier.now) }
        requires begin { MatchOption before (Unit {0}) (λ b. BeginTexts prefixes.old (site_of b.now)) }
        requires before { IsLast (map site_of earlier.now) (option_map (λ b. site_of b.now) before) }
        ensures clear { OnOk result (IsClear (at_site (map site_of earlier.now) (site_of site.now))) }
        ensures begin { OnOk result (BeginTexts prefixes.new (site_of site.now)) }
        ensures assertions { OnOk result (self.new.built.all.assertions.items
            ≡ self.old.built.all.assertions.items ++ assertions_at (site_of site.now)) }
        ensures assertion_ends { OnOk result (self.new.built.assertion_ends.items
            ≡ self.old.built.assertion_ends.items ++ length self.new.built.all.assertions.items ∷ []) }
        ensures patterns { OnOk result (self.new.built.all.patterns.items
            ≡ self.old.built.all.patterns.items ++ patterns_at (site_of site.now)) }
        ensures pattern_ends { OnOk result (self.new.built.pattern_ends.items
            ≡ self.old.built.pattern_ends.items ++ length self.new.built.all.patterns.items ∷ []) }
        ensures positions { OnOk result
            (HasPositionAdded self.old.positions (map site_of earlier.now) (site_of site.now) self.new.positions) }
        ensures names { OnOk result (self.new.keywords.names.items
            ≡ self.old.keywords.names.items ++ member_keywords (site_of site.now)) }
        ensures ends { OnOk result (self.new.keywords.ends.items
            ≡ self.old.keywords.ends.items ++ length self.new.keywords.names.items ∷ []) }
        ensures err { IfErr result (IsStopped (at_site (map site_of earlier.now) (site_of site.now))) }
    {
        self.keywords.add_names(site)?;
        let known = Lookup {
            alloc,
            index: &self.positions.index,
            sites: &*earlier, // lent again, for as long as the index is
        };
        check_site(&mut self.built.all, known, site)?;
        self.built.end_place()?;
        self.positions
            .add_position(alloc, prefixes, earlier, before, site)?;
        Ok(())
    }
}

/// The first pass.
pub(crate) fn first_pass(alloc: Global, sites: &[Site<'_>]) -> Result<Passed, CheckFault>
    ensures clear { OnOk result (IsClear (first_pass [] (map site_of sites.now))) }
    ensures assertions { IfOk result (λ p. ArePartsByPlace assertions_at (map site_of sites.now)
        p.built.all.assertions.items p.built.assertion_ends.items) }
    ensures patterns { IfOk result (λ p. ArePartsByPlace patterns_at (map site_of sites.now)
        p.built.all.patterns.items p.built.pattern_ends.items) }
    ensures positions { IfOk result (λ p. ArePositionsOf p.positions (map site_of sites.now)) }
    ensures keywords { IfOk result
        (λ p. ArePartsByPlace member_keywords (map site_of sites.now) p.keywords.names.items p.keywords.ends.items) }
    ensures err { IfErr result (IsStopped (first_pass [] (map site_of sites.now))) }
{
    let mut passed = Passed::with_capacity(alloc, sites.len())?;
    let mut prefixes = TextPrefixes::new(alloc);
    let mut before = None;
    for i in 0..sites.len() {
        let site = &sites[i];
        passed.pass(alloc, &sites[..i], &mut prefixes, before, site)?;
        before = Some(site);
    }
    Ok(passed)
}

//! What is built from keywords: assertions, and the patterns of `patternProperties`.
ghost use Rattle.std.specs.Prelude.{◌≡◌, [], ◌∷◌, ◌++◌, length, map, flat_map, option_to_list, OnOk, IfOk, IfErr};
ghost use Rattle.js_doc.specs.Seen.{value_of};
ghost use Rattle.js_doc.specs.Parts.{members_of};
ghost use Rattle.js_bundle.specs.code.Scan.{site_of};
ghost use Rattle.js_bundle.specs.AssertionsAndPatterns.{pattern_at, patterns_of};
ghost use Rattle.js_bundle.specs.Candidate.{IsClear, IsStopped};
ghost use Rattle.js_bundle.specs.Refusals.{at_pattern, name_rules};

use crate::check::fault::{CheckFault, refuse_member};
use crate::check::lookup::SiteKeyword;
use crate::refusal::RefusalKind;
use crate::scan::site::Site;
use js_assert::{Assertion, Pattern, PatternFault};
use js_doc::{Doc, Members, Memory, Text};
use js_keyword::Keyword;
use std::alloc::Global;

/// What is built from the keywords of places, place by place.
#[derive(Drop)]
pub(crate) struct Built {
    pub(crate) assertions: Vec<Assertion>,
    pub(crate) patterns: Vec<BuiltPattern>,
}

impl Built {
    pub(crate) fn new(alloc: Global) -> Built
        ensures assertions { result.assertions.items ≡ [] }
        ensures patterns { result.patterns.items ≡ [] }
    {
        Built {
            assertions: Vec::new(alloc),
            patterns: Vec::new(alloc),
        }
    }
}

/// The same for all places.
#[derive(Drop)]
pub(crate) struct BuiltTable {
    pub(crate) all: Built,
    /// Where the assertions of each place end.
    pub(crate) assertion_ends: Vec<usize>,
    /// Where its patterns do.
    pub(crate) pattern_ends: Vec<usize>,
}

impl BuiltTable {
    /// The table of no places, with room for this many.
    pub(crate) fn with_capacity(alloc: Global, places: usize) -> Result<BuiltTable, Memory>
        ensures assertions { IfOk result (λ t. t.all.assertions.items ≡ []) }
        ensures assertion_ends { IfOk result (λ t. t.assertion_ends.items ≡ []) }
        ensures patterns { IfOk result (λ t. t.all.patterns.items ≡ []) }
        ensures pattern_ends { IfOk result (λ t. t.pattern_ends.items ≡ []) }
    {
        Ok(BuiltTable {
            assertion_ends: Vec::with_capacity(alloc, places)?,
            pattern_ends: Vec::with_capacity(alloc, places)?,
            all: Built::new(alloc),
        })
    }

    /// Ends a place: what is built next is of the next one.
    pub(crate) fn end_place(&mut self) -> Result<(), Memory>
        ensures all { OnOk result (self.new.all ≡ self.old.all) }
        ensures assertion_ends { OnOk result (self.new.assertion_ends.items
            ≡ self.old.assertion_ends.items ++ length self.old.all.assertions.items ∷ []) }
        ensures pattern_ends { OnOk result (self.new.pattern_ends.items
            ≡ self.old.pattern_ends.items ++ length self.old.all.patterns.items ∷ []) }
    {
        self.assertion_ends.push(self.all.assertions.len())?;
        self.pattern_ends.push(self.all.patterns.len())?;
        Ok(())
    }
}

/// A pattern among the `patternProperties`, under its name.
#[derive(Drop)]
pub(crate) struct BuiltPattern {
    pub(crate) name: Text,
    pub(crate) pattern: Pattern,
}

/// Keeps a keyword's assertion, if it is one.
pub(crate) fn keep_assertion(
    out: &mut Vec<Assertion>,
    assertion: Option<Assertion>,
) -> Result<(), Memory>
    ensures { OnOk result (out.new.items ≡ out.old.items ++ option_to_list assertion) }
{
    if let Some(assertion) = assertion {
        out.push(assertion)?;
    }
    Ok(())
}

fn read_pattern(alloc: Global, at: SiteKeyword<'_>, name: &str) -> Result<Pattern, CheckFault>
    ensures clear { OnOk result (IsClear
        (at_pattern (site_of at.entry.site.now) (at.entry.keyword.now ∷ name.now ∷ []) name.now)) }
    ensures built { IfOk result (λ p. p ≡ name.now) }
    ensures err { IfErr result (IsStopped
        (at_pattern (site_of at.entry.site.now) (at.entry.keyword.now ∷ name.now ∷ []) name.now)) }
{
    match Pattern::new(alloc, name) {
        Ok(pattern) => Ok(pattern),
        Err(PatternFault::Memory) => Err(CheckFault::Memory),
        Err(PatternFault::NotAPattern) => {
            Err(refuse_member(alloc, at.site, at.keyword, name, RefusalKind::BadPattern))
        }
        Err(PatternFault::PatternTooLarge) => {
            Err(refuse_member(
                alloc,
                at.site,
                at.keyword,
                name,
                RefusalKind::PatternTooLarge,
            ))
        }
    }
}

// Reads the names of `patternProperties` as patterns.
fn read_patterns(
    out: &mut Vec<BuiltPattern>,
    at: SiteKeyword<'_>,
    members: &Members,
) -> Result<(), CheckFault>
    ensures clear { OnOk result (IsClear
        (flat_map (λ n. at_pattern (site_of at.entry.site.now) (at.entry.keyword.now ∷ n.0 ∷ []) n.0) members.now)) }
    ensures built { OnOk result (out.new.items ≡ out.old.items ++ map pattern_at members.now) }
    ensures err { IfErr result (IsStopped
        (flat_map (λ n. at_pattern (site_of at.entry.site.now) (at.entry.keyword.now ∷ n.0 ∷ []) n.0) members.now)) }
{
    for (name, _) in members.pairs() {
        let copied = name.copy()?;
        let pattern = read_pattern(*out.allocator(), at, name.as_str())?;
        out.push(BuiltPattern {
            name: copied,
            pattern,
        })?;
    }
    Ok(())
}

/// Reads the names of an argument as patterns, where the keyword is `patternProperties`.
pub(crate) fn read_names(
    out: &mut Vec<BuiltPattern>,
    at: SiteKeyword<'_>,
    argument: &Doc,
) -> Result<(), CheckFault>
    ensures clear { OnOk result (IsClear
        (name_rules (site_of at.entry.site.now) at.entry.keyword.now (value_of argument.now))) }
    ensures built { OnOk result (out.new.items
        ≡ out.old.items ++ patterns_of (at.entry.keyword.now, value_of argument.now)) }
    ensures err { IfErr result (IsStopped
        (name_rules (site_of at.entry.site.now) at.entry.keyword.now (value_of argument.now))) }
{
    if at.keyword != Keyword::PatternProperties.name() {
        return Ok(());
    }
    match argument {
        Doc::Members(members) => read_patterns(out, at, members),
        _ => Ok(()),
    }
}

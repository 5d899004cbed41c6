//! Applications member by member (Core, sections 10.2.2.4, 10.3.2 and 11.3): a schema on each member that the keyword
//! chooses by name, or on the value itself for each of the keyword's names that a member has.
ghost use Rattle.std.specs.Prelude.{◌≡◌, ◌∷◌, [], IfOk, MatchOption, true};
ghost use Rattle.std.specs.List.{list_any};
ghost use Rattle.js_assert.specs.Pattern.{matches};
ghost use Rattle.js_bundle.specs.Schemas.{is_place};
ghost use Rattle.js_eval.specs.code.Applied.{IsHeld};
ghost use Rattle.js_eval.specs.code.Asked.{IsApplied, IsNext};
ghost use Rattle.js_eval.specs.code.Cursors.{is_chosen, is_named, members_asked, chosen_members};
ghost use Rattle.js_eval.specs.code.Patterns.{ArePatternsAt};
ghost use Rattle.js_eval.specs.code.Terms.{value_of};

use crate::cursors::adjacent::Adjacent;
use crate::cursors::application::{AppliedTo, Subschemas, apply_to_part};
use crate::instance::Applied;
use crate::searching::name_set::is_in;
use crate::searching::searchers::{PatternSearch, pattern_of};
use js_bundle::{Place, Schemas, Step};
use js_doc::{Doc, Members, Memory, Pairs};
use std::collections::BTreeSet;

/// Which members a keyword chooses, by their names.
#[derive(Drop)]
pub(crate) enum Choice<'a> {
    All,
    /// Those whose name is also a name of these.
    Named(&'a Members),
    /// Those that the adjacent `properties` and `patternProperties` don't cover.
    Additional(Adjacent<'a>),
    /// Those whose name isn't in this set.
    Except(BTreeSet<&'a str>),
}

/// The applications that a keyword still has to ask for, one for each chosen member.
#[derive(Drop)]
pub(crate) struct MemberCursor<'a> {
    pub held: Subschemas<'a>,
    pub to: AppliedTo<'a>,
    pub members: Pairs<'a>,
    pub choice: Choice<'a>,
}

impl<'a> MemberCursor<'a> {
    /// The next application, or None after the last.
    ///
    /// # Errors
    /// `Memory` if an allocation fails; a search with a pattern may need one.
    pub fn next_on_member(
        &mut self,
        search: &PatternSearch<'_, 'a>,
    ) -> Result<Option<Applied<'a>>, Memory>
        requires { IsHeld search.now.schemas.now self.old.held }
        ensures next { IfOk result (λ o. IsNext search.now.schemas.now
            (members_asked search.now.schemas.now self.old) o (members_asked search.now.schemas.now self.new)) }
        ensures is { IfOk result (λ o. MatchOption o (Unit {0}) (λ a. IsApplied search.now.schemas.now a)) }
        ensures held { self.new.held ≡ self.old.held }
    {
        match next_member(search, &self.choice, &mut self.members)? {
            Some((name, member)) => {
                let step = Step::Name(name);
                Ok(Some(apply_to_part(search.schemas, &self.held, &self.to, step, member)))
            }
            None => Ok(None),
        }
    }
}

// The next chosen member.
fn next_member<'a>(
    search: &PatternSearch<'_, 'a>,
    choice: &Choice<'a>,
    members: &mut Pairs<'a>,
) -> Result<Option<(&'a str, &'a Doc)>, Memory>
    ensures { IfOk result (λ o. MatchOption o (chosen_members choice.now members.old ≡ [])
        (λ m. chosen_members choice.now members.old
        ≡ (m.0.now, value_of m.1.now) ∷ chosen_members choice.now members.new)) }
{
    while let Some((name, member)) = members.next() {
        let name = name.as_str();
        if is_chosen(search, choice, name)? {
            return Ok(Some((name, member)));
        }
    }
    Ok(None)
}

fn is_chosen<'a>(
    search: &PatternSearch<'_, 'a>,
    choice: &Choice<'a>,
    name: &'a str,
) -> Result<bool, Memory>
    ensures { IfOk result (λ b. b ≡ is_chosen choice.now name.now) }
{
    match choice {
        Choice::All => Ok(true),
        Choice::Named(named) => Ok(named.get(name).is_some()),
        Choice::Additional(adjacent) => {
            if is_named(adjacent.properties, name) {
                return Ok(false);
            }
            let Some(patterns) = adjacent.patterns else {
                return Ok(true);
            };
            if adjacent.is_kept {
                if let Some(answer) = search.searchers.any_kept(patterns, name) {
                    return Ok(!answer);
                }
            }
            let place = adjacent.place;
            Ok(!matches_any(search, adjacent.schemas, place, patterns, name)?)
        }
        Choice::Except(names) => Ok(!is_in(names, name)),
    }
}

fn is_named(properties: Option<&Members>, name: &str) -> bool
    ensures { result ≡ is_named properties.entry name.now }
{
    match properties {
        Some(named) => named.get(name).is_some(),
        None => false,
    }
}

// Whether one of the patterns of `patternProperties` at the place matches the name, by searches.
fn matches_any<'a>(
    search: &PatternSearch<'_, 'a>,
    schemas: &'a Schemas,
    place: Place,
    patterns: &'a Members,
    name: &'a str,
) -> Result<bool, Memory>
    requires place { is_place schemas.now place ≡ true }
    requires patterns { ArePatternsAt schemas.now place patterns.now }
    ensures { IfOk result (λ b. b ≡ list_any (λ p. matches p.0 name.now) patterns.now) }
{
    let searchers = search.searchers;
    for (pattern, _) in patterns.pairs() {
        let built = pattern_of(schemas, place, pattern.as_str());
        if searchers.matches_name(search.alloc, built, name)? {
            return Ok(true);
        }
    }
    Ok(false)
}

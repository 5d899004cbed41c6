//! Whether a keyword that chooses members by their names has none to apply a schema to. That is so of most objects, and
//! then no cursor is made: no member is additional, or unevaluated, or matched by a pattern.
ghost use Rattle.std.specs.Prelude.{◌≡◌, IfOk, not, true};
ghost use Rattle.std.specs.List.{list_all};
ghost use Rattle.js_assert.specs.Pattern.{matches};
ghost use Rattle.js_bundle.specs.Schemas.{is_place};
ghost use Rattle.js_eval.specs.Applications.{among_names};
ghost use Rattle.js_eval.specs.code.Cursors.{is_named};
ghost use Rattle.js_eval.specs.code.Patterns.{ArePatternsAt};
ghost use Rattle.js_eval.specs.code.Terms.{has, texts_of};

use crate::searching::searchers::{NamedPattern, Searchers, pattern_of};
use js_bundle::{Place, Schemas};
use js_doc::{Members, Memory, name_order};
use std::alloc::Global;
use std::cmp::Ordering;

/// Names and members are gone through side by side, unless there are more names than this number times the members.
const NAMES_PER_MEMBER: usize = 4;

/// The names of more members than this, or more evaluated names than four times as many, are put into a set.
const FEW_TO_SEARCH: usize = 32;

/// Whether each member is named in the adjacent `properties`. Without such a keyword the answer is no.
pub(crate) fn are_all_named(properties: Option<&Members>, members: &Members) -> bool
    ensures { result ≡ true → list_all (λ m. is_named properties.entry m.0) members.now ≡ true }
{
    match properties {
        Some(named) => each_is_named(named, members),
        None => false,
    }
}

fn each_is_named(named: &Members, members: &Members) -> bool
    ensures { result ≡ list_all (λ m. has m.0 named.now) members.now }
{
    let mut near = first_rank(named, members);
    for (name, _) in members.pairs() {
        if !is_named_near(named, name.as_str(), &mut near) {
            return false;
        }
    }
    true
}

// The rank to begin with: the first, or none where a step through all names would take too long.
fn first_rank(named: &Members, members: &Members) -> usize {
    if named.len() / NAMES_PER_MEMBER > members.len() {
        named.len()
    } else {
        0
    }
}

// Whether one of them has the name. Names are asked for in ascending order, and so `near` is the rank to begin at: the
// one behind the name that was found last.
fn is_named_near(named: &Members, name: &str, near: &mut usize) -> bool
    ensures { result ≡ has name.now named.now }
{
    let rank = *near;
    if is_at_rank(named, name, rank) {
        *near = rank.wrapping_add(1);
        return true;
    }
    let rank = rank_near(named, name, rank);
    *near = rank;
    named.get_with_hint(name, rank).is_some()
}

fn is_at_rank(named: &Members, name: &str, rank: usize) -> bool
    ensures { result ≡ true → has name.now named.now ≡ true }
{
    match named.nth(rank) {
        Some((other, _)) => name == other,
        None => false,
    }
}

// The first rank from `start` on whose name isn't before this one.
fn rank_near(named: &Members, name: &str, start: usize) -> usize {
    for rank in start..named.len() {
        if let Some((other, _)) = named.nth(rank) {
            if !matches!(name_order(other, name), Ordering::Less) {
                return rank;
            }
        }
    }
    named.len()
}

/// Whether the name of each member is among those that are evaluated. The answer is no, too, where there are many.
pub(crate) fn are_all_evaluated(members: &Members, evaluated: &[&str]) -> bool
    ensures { result ≡ true → list_all (λ m. among_names m.0 (texts_of evaluated.now)) members.now ≡ true }
{
    if members.len() > FEW_TO_SEARCH || evaluated.len() > 4 * FEW_TO_SEARCH {
        return false;
    }
    let mut near = 0;
    for (name, _) in members.pairs() {
        if !is_evaluated_near(evaluated, name.as_str(), &mut near) {
            return false;
        }
    }
    true
}

// Whether the name is one of these. Each keyword has evaluated names in ascending order, and so `near` is the index to
// begin at.
fn is_evaluated_near(evaluated: &[&str], name: &str, near: &mut usize) -> bool
    ensures { result ≡ true → among_names name.now (texts_of evaluated.now) ≡ true }
{
    let index = index_near(evaluated, name, *near);
    *near = index.wrapping_add(1);
    is_at(evaluated, name, index)
}

// The index of the name: the first from `start` on, or else the first of all.
fn index_near(names: &[&str], name: &str, start: usize) -> usize {
    for index in start..names.len() {
        if name == names[index] {
            return index;
        }
    }
    for index in 0..names.len() {
        if name == names[index] {
            return index;
        }
    }
    names.len()
}

fn is_at(names: &[&str], name: &str, index: usize) -> bool
    ensures { result ≡ true → among_names name.now (texts_of names.now) ≡ true }
{
    match names.get(index) {
        Some(other) => name == *other,
        None => false,
    }
}

/// Whether none of the patterns of `patternProperties` at the place matches the name of a member.
///
/// # Errors
/// `Memory` if an allocation fails.
pub(crate) fn match_none<'a>(
    alloc: Global,
    schemas: &'a Schemas,
    searchers: &Searchers<'a>,
    place: Place,
    patterns: &'a Members,
    members: &'a Members,
) -> Result<bool, Memory>
    requires place { is_place schemas.now place ≡ true }
    requires patterns { ArePatternsAt schemas.now place patterns.now }
    ensures { IfOk result (λ b. b
        ≡ list_all (λ p. list_all (λ m. not (matches p.0 m.0)) members.now) patterns.now) }
{
    for (pattern, _) in patterns.pairs() {
        let built = pattern_of(schemas, place, pattern.as_str());
        if !matches_none(alloc, searchers, built, members)? {
            return Ok(false);
        }
    }
    Ok(true)
}

fn matches_none<'a>(
    alloc: Global,
    searchers: &Searchers<'a>,
    pattern: NamedPattern<'a>,
    members: &'a Members,
) -> Result<bool, Memory>
    ensures { IfOk result (λ b. b ≡ list_all (λ m. not (matches pattern.entry.text.now m.0)) members.now) }
{
    for (name, _) in members.pairs() {
        if searchers.matches_name(alloc, pattern, name.as_str())? {
            return Ok(false);
        }
    }
    Ok(true)
}

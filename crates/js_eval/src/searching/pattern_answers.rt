//! Which names of a large object the patterns of `patternProperties` match. `additionalProperties` needs this first,
//! and `patternProperties` of the same schema reuses it.
ghost use Rattle.std.specs.Prelude.{◌≡◌, IfOk, MatchOption, drop, map};
ghost use Rattle.std.specs.List.{list_any};
ghost use Rattle.js_assert.specs.Pattern.{matches};
ghost use Rattle.js_doc.specs.Seen.{pair_of, value_of};
ghost use Rattle.js_eval.specs.code.Standing.{IsSchemaAt};

use crate::instance::Instance;
use crate::marks::is_marked;
use crate::schema::patterns_in;
use crate::schema_lookup::names_at;
use crate::searching::searchers::{NamedPattern, Searchers, pattern_of};
use js_bundle::{Place, Schemas};
use js_doc::{Doc, Members, Memory, Pairs};
use js_keyword::Keyword;
use std::alloc::Global;

/// Where an object has no more members than this, and a schema no more patterns than `FEW_PATTERNS`, what the patterns
/// match isn't stored: recent answers are remembered anyway.
const FEW_MEMBERS: usize = 16;

const FEW_PATTERNS: usize = 4;

/// Whether there are so few patterns and members that what they match isn't stored.
pub(crate) fn are_few(patterns: &Members, members: &Members) -> bool {
    patterns.len() <= FEW_PATTERNS && members.len() <= FEW_MEMBERS
}

/// For one pattern: whether it matches each name of an object. Names are asked for in ascending order, and some may be
/// skipped.
#[derive(Drop)]
pub(crate) struct PatternAnswers<'p> {
    pub pattern: &'p str,
    members: &'p Members,
    /// Whether the pattern matches, for each member.
    all: Vec<bool>,
    /// The members that haven't been asked for.
    left: Pairs<'p>,
    /// The index of the first of them.
    next: usize,
    ghost right: { all.items ≡ map (λ m. matches pattern.now m.0) members.now },
    ghost in_step: { drop next all.items ≡ map (λ m. matches pattern.now m.0) (map pair_of left) },
}

impl<'p> PatternAnswers<'p> {
    /// Tries the pattern on each name.
    ///
    /// # Errors
    /// `Memory` if an allocation fails.
    pub fn new(
        alloc: Global,
        searchers: &Searchers<'p>,
        pattern: NamedPattern<'p>,
        members: &'p Members,
    ) -> Result<PatternAnswers<'p>, Memory>
        ensures { IfOk result (λ a. a.pattern.now ≡ pattern.entry.text.now) }
    {
        Ok(PatternAnswers {
            pattern: pattern.text,
            members,
            all: asked_of_each(alloc, searchers, pattern, members)?,
            left: members.pairs(),
            next: 0,
        })
    }

    /// Goes back to the first name.
    pub fn rewind(&mut self)
        ensures { self.new.pattern ≡ self.old.pattern }
    {
        self.left = self.members.pairs();
        self.next = 0;
    }

    /// Whether the pattern matches the name, or None if the name isn't among those left. Skips the names before it.
    pub fn find_name(&mut self, name: &str) -> Option<bool>
        ensures answer { MatchOption result (Unit {0}) (λ b. b ≡ matches self.old.pattern.now name.now) }
        ensures same { self.new.pattern ≡ self.old.pattern }
    {
        while let Some((own, _)) = self.left.next() {
            let is_match = is_marked(self.all.as_slice(), self.next);
            self.next += 1;
            if own.as_str() == name {
                return Some(is_match);
            }
        }
        None
    }
}

/// For each pattern of a schema: which names of one object it matches.
#[derive(Drop)]
pub(crate) struct AllAnswers<'p> {
    each: Vec<PatternAnswers<'p>>,
    /// The index of the pattern that `find` asks.
    present: usize,
    /// The index of the pattern that `find` asks next.
    next: usize,
}

impl<'p> AllAnswers<'p> {
    /// Whether one of the patterns matches the name, or None if that isn't known. `patterns`: all patterns of the
    /// schema.
    pub fn find_any(&mut self, patterns: &Members, name: &str) -> Option<bool>
        ensures { MatchOption result (Unit {0}) (λ b. b ≡ list_any (λ p. matches p.0 name.now) patterns.now) }
    {
        for (index, (pattern, _)) in patterns.pairs().enumerate() {
            if self.find_at(index, pattern.as_str(), name)? {
                return Some(true);
            }
        }
        Some(false)
    }

    /// Makes `find` ask the next pattern, the first at first, and goes back to the first name.
    pub fn begin_next(&mut self) {
        self.present = self.next;
        self.next = self.present.saturating_add(1);
        if let Some(answers) = self.each.get_mut(self.present) {
            answers.rewind();
        }
    }

    /// Whether the pattern matches the name, or None if it isn't the selected one.
    pub fn find(&mut self, pattern: &str, name: &str) -> Option<bool>
        ensures { MatchOption result (Unit {0}) (λ b. b ≡ matches pattern.now name.now) }
    {
        self.find_at(self.present, pattern, name)
    }

    fn find_at(&mut self, index: usize, pattern: &str, name: &str) -> Option<bool>
        ensures { MatchOption result (Unit {0}) (λ b. b ≡ matches pattern.now name.now) }
    {
        let answers = self.each.get_mut(index)?;
        if answers.pattern == pattern {
            answers.find_name(name)
        } else {
            None
        }
    }
}

/// Tries each pattern of a schema's `patternProperties` on each name of the value, if it is an object, and stores the
/// answers in `searchers`, unless they are few.
///
/// # Errors
/// `Memory` if an allocation fails.
#[inline(never)]
pub(crate) fn keep_all<'p>(
    alloc: Global,
    schemas: &'p Schemas,
    searchers: &Searchers<'p>,
    place: Place,
    schema: &'p Doc,
    value: Instance<'p>,
) -> Result<(), Memory>
    requires { IsSchemaAt schemas.now place (value_of schema.now) }
{
    if !has_patterns(names_at(schemas, place)) {
        return Ok(());
    }
    let Some(patterns) = patterns_in(schema) else {
        return Ok(());
    };
    let Some(members) = value.object() else {
        return Ok(());
    };
    if are_few(patterns, members) {
        return Ok(());
    }
    let mut each = Vec::with_capacity(alloc, patterns.len())?;
    for (text, _) in patterns.pairs() {
        let pattern = pattern_of(schemas, place, text.as_str());
        each.push(PatternAnswers::new(alloc, searchers, pattern, members)?)?;
    }
    searchers.keep_answers(AllAnswers {
        each,
        present: 0,
        next: 0,
    })
}

// Whether a schema with these keywords has `patternProperties`.
fn has_patterns(names: &[Keyword]) -> bool {
    for name in names {
        if matches!(*name, Keyword::PatternProperties) {
            return true;
        }
    }
    false
}

// Whether the pattern matches each of the names.
fn asked_of_each<'p>(
    alloc: Global,
    searchers: &Searchers<'p>,
    pattern: NamedPattern<'p>,
    members: &'p Members,
) -> Result<Vec<bool>, Memory>
    ensures { IfOk result (λ v. v.items ≡ map (λ m. matches pattern.entry.text.now m.0) members.now) }
{
    let mut all = Vec::with_capacity(alloc, members.len())?;
    for (name, _) in members.pairs() {
        all.push(searchers.matches_name(alloc, pattern, name.as_str())?)?;
    }
    Ok(all)
}

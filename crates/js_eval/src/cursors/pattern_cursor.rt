//! The applications of `patternProperties` (Core, section 10.3.2.2): for each pattern, its schema on each member whose
//! name it matches.
ghost use Rattle.std.specs.Prelude.{◌≡◌, ◌∷◌, [], IfOk, MatchOption, filter, map};
ghost use Rattle.std.specs.List.{flat_map};
ghost use Rattle.js_assert.specs.Pattern.{matches};
ghost use Rattle.js_eval.specs.code.Asked.{ArePatterns, IsApplied, IsNext};
ghost use Rattle.js_eval.specs.code.Cursors.{IsBegun, on_matched_member, patterns_asked};
ghost use Rattle.js_eval.specs.code.Patterns.{ArePatternsAt, IsPatternAt};
ghost use Rattle.js_eval.specs.SchemaSet as spec;
ghost use Rattle.js_eval.specs.code.Starting.{IsAtPlace, by_keyword};
ghost use Rattle.js_eval.specs.code.Terms.{Documents, IsSchemaAt, pair_of, value_of};

use crate::instance::{Applied, Instance};
use crate::order::keyword::KeywordAt;
use crate::schema::argument_in;
use crate::schema_lookup::subschema_at;
use crate::searching::pattern_answers::are_few;
use crate::searching::searchers::{NamedPattern, PatternSearch, pattern_of};
use js_bundle::{Place, Step};
use js_doc::{Doc, Members, Memory, Pairs};
use js_keyword::Keyword;

/// The patterns that are still to come, and the members that are left for the present one.
#[derive(Drop)]
pub(crate) struct PatternCursor<'a> {
    pub place: Place,
    pub schema: &'a Doc,
    pub keyword: &'a str,
    pub patterns: Pairs<'a>,
    pub members: &'a Members,
    /// The present pattern, or None at the start. Then come its text, the place of its schema, and that schema.
    pub present: Option<NamedPattern<'a>>,
    pub name: &'a str,
    pub below: Place,
    pub schema_below: &'a Doc,
    pub left: Pairs<'a>,
    /// Whether the matches of the patterns are stored, because `additionalProperties` of the same schema has needed
    /// them, and they aren't few.
    pub is_kept: bool,
}

impl<'a> PatternCursor<'a> {
    /// The schema of each of the patterns, applied to each of the members whose names it matches.
    #[inline(always)]
    pub fn new(at: &KeywordAt<'a>, patterns: &'a Members, members: &'a Members) -> PatternCursor<'a>
        ensures asked { (documents : Documents) → patterns_asked documents result
            ≡ flat_map (λ p. map (λ m. by_keyword documents at.now (spec.Name p.0) (spec.Name m.0) m.1)
            (filter (λ m. matches p.0 m.0) members.now)) patterns.now }
        ensures are { (documents : Documents) → IsAtPlace documents at.now
            → ArePatternsAt documents at.now.place patterns.now → ArePatterns documents result }
    {
        let schema = at.schema;
        let keyword = at.keyword;
        PatternCursor {
            place: at.place,
            schema,
            keyword: keyword.name,
            patterns: patterns.pairs(),
            members,
            present: None,
            name: keyword.name,
            below: at.place,
            schema_below: schema,
            left: members.pairs(),
            is_kept: !are_few(patterns, members)
                && argument_in(schema, Keyword::AdditionalProperties.name()).is_some(),
        }
    }

    /// The next application, or None after the last.
    ///
    /// # Errors
    /// `Memory` if an allocation fails; a search with a pattern may need one.
    pub fn next_matching(
        &mut self,
        search: &PatternSearch<'_, 'a>,
    ) -> Result<Option<Applied<'a>>, Memory>
        requires { ArePatterns search.now.schemas.now self.old }
        ensures next { IfOk result (λ o. IsNext search.now.schemas.now
            (patterns_asked search.now.schemas.now self.old) o (patterns_asked search.now.schemas.now self.new)) }
        ensures is { IfOk result (λ o. MatchOption o (Unit {0}) (λ a. IsApplied search.now.schemas.now a)) }
        ensures are { IfOk result (λ _. ArePatterns search.now.schemas.now self.new) }
    {
        match next_match(search, self)? {
            Some((name, member)) => Ok(Some(Applied {
                place: self.below,
                schema: self.schema_below,
                step: Step::Name(self.name),
                at: Step::Name(name),
                value: Instance::Doc(member),
            })),
            None => {
                if self.is_kept {
                    search.searchers.drop_answers();
                }
                Ok(None)
            }
        }
    }
}

// The next member that a pattern matches. That pattern is then the present one.
fn next_match<'a>(
    search: &PatternSearch<'_, 'a>,
    cursor: &mut PatternCursor<'a>,
) -> Result<Option<(&'a str, &'a Doc)>, Memory>
    requires { ArePatterns search.now.schemas.now cursor.old }
    ensures next { IfOk result (λ o. MatchOption o (patterns_asked search.now.schemas.now cursor.old ≡ [])
        (λ m. patterns_asked search.now.schemas.now cursor.old
        ≡ on_matched_member search.now.schemas.now cursor.new.below cursor.new.name.now
        (m.0.now, value_of m.1.now) ∷ patterns_asked search.now.schemas.now cursor.new)) }
    ensures are { IfOk result (λ _. ArePatterns search.now.schemas.now cursor.new) }
{
    if let Some(pattern) = cursor.present {
        let is_kept = cursor.is_kept;
        if let Some(found) = next_member(search, pattern, is_kept, &mut cursor.left)? {
            return Ok(Some(found));
        }
    }
    while let Some((name, _)) = cursor.patterns.next() {
        let pattern = begin(search, cursor, name.as_str())?;
        let is_kept = cursor.is_kept;
        if let Some(found) = next_member(search, pattern, is_kept, &mut cursor.left)? {
            return Ok(Some(found));
        }
    }
    Ok(None)
}

// Makes a pattern the present one.
fn begin<'a>(
    search: &PatternSearch<'_, 'a>,
    cursor: &mut PatternCursor<'a>,
    name: &'a str,
) -> Result<NamedPattern<'a>, Memory>
    requires schema { IsSchemaAt search.now.schemas.now cursor.old.place (value_of cursor.old.schema.now) }
    requires pattern { IsPatternAt search.now.schemas.now cursor.old.place name.now }
    ensures { IfOk result (λ p. IsBegun search.now.schemas.now name.now p cursor.old cursor.new) }
{
    let schemas = search.schemas;
    let pattern = pattern_of(schemas, cursor.place, name);
    cursor.present = Some(pattern);
    cursor.name = name;
    let step = Step::Name(name);
    let (place, schema) = subschema_at(schemas, cursor.place, cursor.schema, cursor.keyword, step);
    cursor.below = place;
    cursor.schema_below = schema;
    cursor.left = cursor.members.pairs();
    if cursor.is_kept {
        search.searchers.begin_kept();
    }
    Ok(pattern)
}

// The next member whose name the pattern matches.
fn next_member<'a>(
    search: &PatternSearch<'_, 'a>,
    pattern: NamedPattern<'a>,
    is_kept: bool,
    members: &mut Pairs<'a>,
) -> Result<Option<(&'a str, &'a Doc)>, Memory>
    ensures { IfOk result (λ o. MatchOption o
        (filter (λ m. matches pattern.entry.text.now m.0) (map pair_of members.old) ≡ [])
        (λ m. filter (λ m. matches pattern.entry.text.now m.0) (map pair_of members.old)
        ≡ (m.0.now, value_of m.1.now) ∷ filter (λ m. matches pattern.entry.text.now m.0)
        (map pair_of members.new))) }
{
    while let Some((name, member)) = members.next() {
        let name = name.as_str();
        if is_match(search, pattern, is_kept, name)? {
            return Ok(Some((name, member)));
        }
    }
    Ok(None)
}

fn is_match<'a>(
    search: &PatternSearch<'_, 'a>,
    pattern: NamedPattern<'a>,
    is_kept: bool,
    name: &'a str,
) -> Result<bool, Memory>
    ensures { IfOk result (λ b. b ≡ matches pattern.entry.text.now name.now) }
{
    let searchers = search.searchers;
    if is_kept {
        if let Some(answer) = searchers.kept_answer(pattern.text, name) {
            return Ok(answer);
        }
    }
    searchers.matches_name(search.alloc, pattern, name)
}

//! Assertions: whether a value satisfies one, and its error (Validation, section 6).
ghost use Rattle.js_assert.specs.Argument.{entries, on_string};
ghost use Rattle.js_assert.specs.Assertion.{asserted};
ghost use Rattle.js_assert.specs.Pattern.{matches};
ghost use Rattle.js_eval.specs.Walk.Progress.{IsKeywordAt};
ghost use Rattle.js_eval.specs.code.Terms.{instance_of, is_place, keyword_of, numbered_site, schemas_of, value_of};
ghost use Rattle.js_tree.specs.Seen.{note_of};
ghost use Rattle.std.specs.Option.{option_map_or};
ghost use Rattle.std.specs.Prelude.{IfOk, None, option_map, string_bytes, true, ◌≡◌};
ghost use Rattle.js_assert.specs.Assertion as spec;
ghost use Rattle.js_assert.specs.ErrorText as texts;
ghost use Rattle.js_eval.specs.Note as notes;

use crate::instance::Instance;
use crate::order::keyword::Member;
use crate::searching::searchers::{NamedPattern, Searchers};
use js_assert::{Assertion, Pattern};
use js_bundle::{Place, Schemas};
use js_doc::{Doc, Memory, Text};
use js_tree::Note;
use std::alloc::Global;

/// The keyword's assertion, if it makes one.
pub(crate) fn look_up_assertion<'a>(
    schemas: &'a Schemas,
    place: Place,
    keyword: Member<'_>,
) -> Option<&'a Assertion>
    requires place { is_place schemas.now place ≡ true }
    requires keyword { IsKeywordAt (schemas_of schemas.now) (numbered_site schemas.now place) (keyword_of keyword) }
    ensures { option_map (λ a. a.now) result ≡ asserted keyword.entry.name.now
        (value_of keyword.entry.argument.now) (entries (numbered_site schemas.now place).schema) }
{
    schemas.assertion(place, keyword.name)
}

/// Whether a value satisfies an assertion. A pattern uses a kept searcher, if there is one.
///
/// # Errors
/// `Memory` if an allocation fails.
pub(crate) fn satisfies<'a>(
    alloc: Global,
    searchers: &Searchers<'a>,
    assertion: &'a Assertion,
    value: Instance<'a>,
    matching: u64,
) -> Result<bool, Memory>
    ensures { IfOk result (λ b. b ≡ spec.says assertion.now (instance_of value.entry) matching) }
{
    match assertion.pattern_asked() {
        Some(pattern) => has_match(alloc, searchers, pattern, value),
        None => holds_alone(alloc, assertion, value, matching),
    }
}

// Whether the pattern matches the value; true if the value is no string.
fn has_match<'a>(
    alloc: Global,
    searchers: &Searchers<'a>,
    pattern: &'a Pattern,
    value: Instance<'a>,
) -> Result<bool, Memory>
    ensures { IfOk result (λ b. b ≡ on_string (instance_of value.entry) (λ s. matches pattern.now s)) }
{
    let named = NamedPattern {
        pattern,
        text: pattern.as_str(),
    };
    match value {
        Instance::Doc(Doc::Text(text)) => searchers.matches_name(alloc, named, text.as_str()),
        Instance::Doc(_) => Ok(true),
        Instance::Name(name) => searchers.matches_name(alloc, named, name),
    }
}

fn holds_alone(
    alloc: Global,
    assertion: &Assertion,
    value: Instance<'_>,
    matching: u64,
) -> Result<bool, Memory>
    ensures { IfOk result (λ b. b ≡ spec.says assertion.now (instance_of value.entry) matching) }
{
    match value {
        Instance::Doc(doc) => assertion.holds(alloc, doc, matching),
        Instance::Name(name) => {
            let name = Doc::Text(Text::from_str(alloc, name)?);
            assertion.holds(alloc, &name, matching)
        }
    }
}

/// The note with this error, or none without one.
pub(crate) fn error_or_none<'a>(error: Option<String>) -> Note<'a>
    ensures { note_of result ≡ notes.error_or_none (option_map string_bytes error) }
{
    match error {
        Some(text) => Note::Error(Text::new(text)),
        None => Note::Silent,
    }
}

/// The error of an assertion, if there is one and the value doesn't satisfy it. This repeats the check that gave the
/// verdict; with a kept searcher that costs little.
pub(crate) fn error_of<'a>(
    alloc: Global,
    searchers: &Searchers<'a>,
    assertion: Option<&'a Assertion>,
    value: Instance<'a>,
    matching: u64,
) -> Result<Option<String>, Memory>
    ensures { IfOk result (λ e. option_map string_bytes e
        ≡ option_map_or (λ a. texts.error a (instance_of value.entry) matching)
        (option_map (λ a. a.now) assertion.entry) None) }
{
    let Some(assertion) = assertion else {
        return Ok(None);
    };
    if satisfies(alloc, searchers, assertion, value, matching)? {
        return Ok(None);
    }
    match value {
        Instance::Doc(doc) => Ok(Some(assertion.error(alloc, doc, matching)?)),
        Instance::Name(name) => {
            let name = Doc::Text(Text::from_str(alloc, name)?);
            Ok(Some(assertion.error(alloc, &name, matching)?))
        }
    }
}

//! Whether a keyword passes, from the number of its applications and the number of those that succeed.
ghost use Rattle.js_assert.specs.Argument.{entries};
ghost use Rattle.js_assert.specs.Assertion.{asserted};
ghost use Rattle.js_eval.specs.Passes.{how_many, passes_of};
ghost use Rattle.js_eval.specs.Walk.Progress.{IsKeywordAt, passes_at};
ghost use Rattle.js_eval.specs.code.Terms.{IsSchemaAt, instance_of, keyword_of, numbered_site, schemas_of, value_of};
ghost use Rattle.js_keyword.specs.declared.assertion_keyword.AssertionKeyword.{AssertionKeyword};
ghost use Rattle.js_keyword.specs.declared.keyword.Keyword.TheVariants.{Assertion as AssertionKind};
ghost use Rattle.std.specs.Option.{option_map_or};
ghost use Rattle.std.specs.Prelude.{Bool, IfOk, List, length, true, ℕ, ◌≡◌};
ghost use Rattle.js_assert.specs.Assertion as spec;
ghost use Rattle.js_eval.specs.Keywords as table;

use crate::evaluation::Tally;
use crate::instance::Instance;
use crate::keywords::assertions::{look_up_assertion, satisfies};
use crate::keywords::contains::contains_passes;
use crate::keywords::in_place::{holds_all, holds_any};
use crate::order::keyword::Member;
use crate::searching::searchers::Searchers;
use js_assert::Assertion;
use js_bundle::{Place, Schemas};
use js_doc::{Doc, Memory};
use js_keyword::Keyword;
use std::alloc::Global;

/// Whether a keyword passes. `tally`: the number of its applications, and of those that succeed; `matching`: the number
/// of items that match the adjacent `contains`.
///
/// # Errors
/// `Memory` if an allocation fails.
#[tactic(auto, unfolding(crate::specs::Walk::Progress::passes_at))]
pub(crate) fn judge_keyword<'a>(
    alloc: Global,
    schemas: &'a Schemas,
    searchers: &Searchers<'a>,
    place: Place,
    schema: &Doc,
    value: Instance<'a>,
    keyword: Member<'_>,
    tally: Tally,
    matching: u64,
) -> Result<bool, Memory>
    requires schema { IsSchemaAt schemas.now place (value_of schema.now) }
    requires keyword { IsKeywordAt (schemas_of schemas.now) (numbered_site schemas.now place) (keyword_of keyword) }
    ensures { IfOk result (λ b. (verdicts : List Bool) → length verdicts ≡ tally.asked
        → how_many verdicts ≡ tally.succeeded
        → b ≡ passes_at (schemas_of schemas.now) (numbered_site schemas.now place) (instance_of value.entry) matching
        (keyword_of keyword.entry) verdicts) }
{
    let kind = keyword.which;
    let said = match kind {
        Keyword::Assertion(_) => match look_up_assertion(schemas, place, keyword) {
            Some(assertion) => satisfies(alloc, searchers, assertion, value, matching)?,
            None => true,
        },
        _ => true,
    };
    Ok(passes_by_count(kind, schema, value, said, tally))
}

/// Whether a keyword of this kind in `schema` passes. `said`: whether the value satisfies it, if it is an assertion.
pub(crate) fn passes_by_count(
    kind: Keyword,
    schema: &Doc,
    value: Instance<'_>,
    said: bool,
    tally: Tally,
) -> bool
    ensures { (matching : ℕ) (k : table.Member) (verdicts : List Bool)
        → ((which : AssertionKeyword) → kind ≡ AssertionKind which
        → option_map_or (λ a. spec.says a (instance_of value.entry) matching)
        (asserted k.0 k.1 (entries (value_of schema.now))) true ≡ said)
        → length verdicts ≡ tally.asked → how_many verdicts ≡ tally.succeeded
        → result ≡ passes_of (entries (value_of schema.now)) (instance_of value.entry) matching k verdicts kind }
{
    match kind {
        Keyword::AnyOf => holds_any(tally),
        Keyword::OneOf => tally.succeeded == 1,
        Keyword::Not => !holds_any(tally),
        Keyword::If => true,
        Keyword::Contains => contains_passes(schema, value, tally),
        Keyword::Assertion(_) => said,
        Keyword::Other(_) => true,
        _ => holds_all(tally),
    }
}

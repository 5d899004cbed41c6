//! The notes of keywords and of schemas: annotations and errors (Core, sections 7.7, 10, 11 and 12.3.4).
ghost use Rattle.js_assert.specs.Assertion.{asserted};
ghost use Rattle.js_doc.specs.Value.{Named, Value as JsonValue};
ghost use Rattle.js_eval.specs.SchemaSet.{Text as Bytes};
ghost use Rattle.js_eval.specs.Walk.Progress.{IsKeywordAt, says_at, schema_says};
ghost use Rattle.js_eval.specs.Walk.Said.{keyword_says};
ghost use Rattle.js_eval.specs.code.Terms.{IsSchemaAt, instance_of, is_place, keyword_of, numbered_site, schemas_of};
ghost use Rattle.js_eval.specs.code.Terms.{texts_of, value_of};
ghost use Rattle.js_tree.specs.Seen.{note_of};
ghost use Rattle.std.specs.Option.{option_map_or};
ghost use Rattle.std.specs.Prelude.{IfOk, List, None, [], false, option_map, string_bytes, true, ℕ, ◌≡◌};
ghost use Rattle.js_assert.specs.ErrorText as texts;
ghost use Rattle.js_eval.specs.Keywords as table;
ghost use Rattle.js_eval.specs.Note as notes;

use crate::evaluation::KeywordVerdict;
use crate::finished_world::FinishedSchemas;
use crate::instance::Instance;
use crate::keywords::arrays::{if_any, true_or_largest};
use crate::keywords::assertions::{error_of, error_or_none, look_up_assertion};
use crate::keywords::contains::matching_items;
use crate::keywords::in_place::branches_hold;
use crate::keywords::objects::{copies, member_names_among, names_on_object};
use crate::order::keyword::Member;
use js_assert::Assertion;
use js_bundle::Place;
use js_doc::{Doc, Memory, Text};
use js_keyword::Keyword;
use js_tree::Note;
use std::alloc::Global;

/// What the walk of a keyword has found.
#[derive(Clone, Copy)]
pub(crate) struct Findings<'n, 'a> {
    /// Whether the keyword passes, and how many of its applications succeed.
    pub judged: KeywordVerdict,
    /// The number of items that match the adjacent `contains`.
    pub matching: u64,
    /// The names of the members that the keyword has evaluated if it passes.
    pub names: &'n [&'a str],
    /// The indexes of the items that it has evaluated then.
    pub indexes: &'n [usize],
}

impl<'n, 'a> Findings<'n, 'a> {
    /// Those of a keyword that applies no schema.
    pub fn of_leaf(judged: KeywordVerdict, matching: u64) -> Findings<'n, 'a>
        ensures judged { result.judged ≡ judged }
        ensures matching { result.matching ≡ matching }
        ensures names { texts_of result.names.now ≡ [] }
        ensures indexes { result.indexes.now ≡ [] }
    {
        Findings {
            judged,
            matching,
            names: &[],
            indexes: &[],
        }
    }
}

/// The note of a keyword.
///
/// # Errors
/// `Memory` if an allocation fails.
#[tactic(auto, unfolding(crate::specs::Walk::Progress::says_at))]
pub(crate) fn make_keyword_note<'a>(
    alloc: Global,
    here: &FinishedSchemas<'a>,
    place: Place,
    value: Instance<'a>,
    keyword: Member<'a>,
    findings: Findings<'_, 'a>,
) -> Result<Note<'a>, Memory>
    requires place { is_place here.now.schemas.now place ≡ true }
    requires keyword { IsKeywordAt (schemas_of here.now.schemas.now) (numbered_site here.now.schemas.now place)
        (keyword_of keyword) }
    ensures { IfOk result (λ n. note_of n ≡ says_at (schemas_of here.now.schemas.now)
        (numbered_site here.now.schemas.now place) (instance_of value.entry) findings.entry.matching
        (keyword_of keyword.entry) findings.entry.judged.succeeded (texts_of findings.entry.names.now)
        findings.entry.indexes.now findings.entry.judged.passes) }
{
    let Findings {
        judged,
        matching,
        names,
        indexes,
    } = findings;
    let kind = keyword.which;
    if judged.passes {
        annotation_of(alloc, kind, keyword, value, names, indexes)
    } else {
        let assertion = look_up_assertion(here.schemas, place, keyword);
        let error = error_of(alloc, &here.searchers, assertion, value, matching)?;
        failure_of(alloc, kind, judged.succeeded, error)
    }
}

/// The note of the schema at a place: an error for the schema `false`, and none for any other.
///
/// # Errors
/// `Memory` if an allocation fails.
#[tactic(auto, unfolding(crate::specs::Walk::Progress::schema_says))]
pub(crate) fn make_schema_note<'a>(
    alloc: Global,
    _here: &FinishedSchemas<'_>,
    _place: Place,
    schema: &Doc,
) -> Result<Note<'a>, Memory>
    requires { IsSchemaAt _here.now.schemas.now _place (value_of schema.now) }
    ensures { IfOk result (λ n. note_of n
        ≡ schema_says (schemas_of _here.now.schemas.now) (numbered_site _here.now.schemas.now _place)) }
{
    match schema {
        Doc::Truth(false) => words(alloc, "false schema"),
        _ => Ok(Note::Silent),
    }
}

/// The annotation of a keyword that passes. `names`, `indexes`: the members and items that it has evaluated.
///
/// # Errors
/// `Memory` if an allocation fails.
fn annotation_of<'a>(
    alloc: Global,
    kind: Keyword,
    keyword: Member<'a>,
    value: Instance<'a>,
    names: &[&'a str],
    indexes: &[usize],
) -> Result<Note<'a>, Memory>
    ensures { (siblings : Named) (matching succeeded : ℕ)
        → IfOk result (λ n. note_of n ≡ keyword_says siblings (instance_of value.entry) matching
        (keyword_of keyword.entry) succeeded (texts_of names.now) indexes.now true kind) }
{
    match kind {
        Keyword::PrefixItems => Ok(true_or_largest(value, indexes)),
        Keyword::Items | Keyword::UnevaluatedItems => Ok(if_any(indexes)),
        Keyword::Contains => matching_items(alloc, value, indexes),
        Keyword::Properties | Keyword::AdditionalProperties | Keyword::UnevaluatedProperties => {
            Ok(names_on_object(value, copies(alloc, names)?))
        }
        Keyword::PatternProperties => {
            Ok(names_on_object(value, member_names_among(alloc, value, names)?))
        }
        Keyword::Other(_) => Ok(Note::Value(keyword.argument)),
        _ => Ok(Note::Silent),
    }
}

/// The note of a keyword that fails. `succeeded`: the number of its applications that succeed; `error`: the error of
/// its assertion, if it makes one and the value doesn't satisfy it.
///
/// # Errors
/// `Memory` if an allocation fails.
fn failure_of<'a>(
    alloc: Global,
    kind: Keyword,
    succeeded: usize,
    error: Option<String>,
) -> Result<Note<'a>, Memory>
    ensures { (siblings : Named) (v : JsonValue) (matching : ℕ) (k : table.Member) (names : List Bytes)
        (indexes : List ℕ)
        → option_map string_bytes error ≡ option_map_or (λ a. texts.error a v matching) (asserted k.0 k.1 siblings) None
        → IfOk result (λ n. note_of n ≡ keyword_says siblings v matching k succeeded names indexes false kind) }
{
    match kind {
        Keyword::AnyOf => words(alloc, "no branch holds"),
        Keyword::OneOf => branches_hold(alloc, succeeded),
        Keyword::Not => words(alloc, "the subschema holds"),
        Keyword::Contains => words(alloc, "no matching item"),
        Keyword::Assertion(_) => Ok(error_or_none(error)),
        _ => Ok(Note::Silent),
    }
}

fn words<'a>(alloc: Global, words: &str) -> Result<Note<'a>, Memory>
    ensures { IfOk result (λ n. note_of n ≡ notes.error words.now) }
{
    Ok(Note::Error(Text::from_str(alloc, words)?))
}

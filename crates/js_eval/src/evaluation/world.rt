//! What a walk needs to know of schemas and of an instance.
ghost use Rattle.std.specs.Prelude.{◌≡◌, ◌∷◌, [], List, ℕ, Bool, Option, false, true, filter, map, length, nat_eq};
ghost use Rattle.std.specs.Prelude.{option_to_list, IfOk, OnOk, MatchOption};
ghost use Rattle.std.specs.List.{dedup, list_all};
ghost use Rattle.js_doc.specs.Members.{IsAscending};
ghost use Rattle.js_doc.specs.Value.{Value as JsonValue};
ghost use Rattle.js_assert.specs.Argument.{entries};
ghost use Rattle.js_bundle.specs.Resource.{Site};
ghost use Rattle.js_eval.specs.Applications.{Application as Applied};
ghost use Rattle.js_eval.specs.Evaluated.{name_in_step, index_in_step};
ghost use Rattle.js_eval.specs.Keywords as table;
ghost use Rattle.js_eval.specs.Passes.{how_many};
ghost use Rattle.js_eval.specs.SchemaSet.{Text as Bytes, SchemaSet};
ghost use Rattle.js_eval.specs.Walk.Visited.{AppliesNone, AreJudged, is_visited};
ghost use Rattle.js_eval.specs.Walk.Progress.{IsKeywordAt, asked_by, accepts_at, keywords_at, kind_at, passes_at};
ghost use Rattle.js_eval.specs.Walk.Progress.{at_name, at_step};

use crate::evaluation::path::ScopedPath;
use crate::evaluation::pointer_text::PointerText;
use crate::evaluation::tally::{Others, Tally};
use crate::evaluation::trail::Trail;
use js_bundle::Place;
use js_doc::Memory;
use js_keyword::Keyword;
use std::alloc::Global;

/// What a walk needs to know of schemas and of an instance. No type names a lifetime, so that a walk over a `World` may
/// be recursive.
pub(crate) trait World {
    /// A value of the instance, or the name of a member.
    type Value: Copy;
    /// The name of a member.
    type Name: Copy;

    /// The schema at a place.
    type Schema: Copy;

    type Keyword: Copy;
    /// The keywords of a schema that are still to come.
    type Keywords: Drop;

    /// A subschema that a keyword applies to a value.
    type Application: Copy;
    /// The applications that a keyword still has to ask for.
    type Asking: Drop;

    /// The schemas, as the definitions see them: over the places of documents.
    ghost schemas: { Self → SchemaSet Site };

    /// Whether a number is that of a place.
    ghost is_place: { Self → ℕ → Bool };

    /// The place with this number.
    ghost site: { Self → ℕ → Site };

    /// Whether this is the schema at the place with this number.
    ghost stands_at: { Self → ℕ → Self.Schema → Type 0 };

    /// The number of the schema resource of the place with this number.
    ghost resource: { Self → ℕ → ℕ };

    ghost value_of: { Self.Value → JsonValue };

    ghost text_of: { Self.Name → Bytes };

    ghost keyword_of: { Self.Keyword → table.Member };

    ghost listed: { Self.Keywords → List table.Member };

    ghost application_of: { Self → Self.Application → Applied Site };

    ghost place_of: { Self.Application → ℕ };

    ghost schema_of: { Self.Application → Self.Schema };

    ghost asked: { Self → Self.Asking → List (Applied Site) };

    /// Whether what is asked for are applications of these schemas.
    ghost is_asking: { Self → Self.Asking → Type 0 };

    /// Whether the schema isn't `false`.
    fn accepts(&self, place: Place, schema: Self::Schema) -> bool
        requires place { is_place self.now place ≡ true }
        requires schema { stands_at self.now place schema }
        ensures { result ≡ accepts_at (schemas self.now) (site self.now place) };

    /// Whether a keyword of the schema may apply schemas. If none may, a quiet walk visits none.
    fn may_apply(&self, place: Place, schema: Self::Schema) -> bool
        requires place { is_place self.now place ≡ true }
        requires schema { stands_at self.now place schema }
        ensures none { result ≡ false → AppliesNone (schemas self.now) (site self.now place) }
        ensures ascending { IsAscending (entries ((schemas self.now).schema (site self.now place))) };

    /// The number of the schema resource that a place is in.
    fn resource(&self, place: Place) -> usize
        requires { is_place self.now place ≡ true }
        ensures { result ≡ resource self.now place };

    /// The keywords of a schema that a walk visits, in the order of their nodes: all that have a node, or, if it is
    /// quiet, those alone that may apply schemas.
    fn keywords(&self, place: Place, schema: Self::Schema, quiet: bool) -> Self::Keywords
        requires place { is_place self.now place ≡ true }
        requires schema { stands_at self.now place schema }
        ensures listed { listed result
            ≡ filter (is_visited quiet) (keywords_at (schemas self.now) (site self.now place)) }
        ensures ascending { IsAscending (entries ((schemas self.now).schema (site self.now place))) };

    /// Judges the keywords that a quiet walk doesn't visit. `matching`: the number of items that match the adjacent
    /// `contains`.
    fn others(
        &self,
        alloc: Global,
        place: Place,
        value: Self::Value,
        matching: u64,
    ) -> Result<Others, Memory>
        requires { is_place self.now place ≡ true }
        ensures { IfOk result (λ o. AreJudged (schemas self.now) (site self.now place) (value_of value) matching
            o.pass o.count) };

    fn next_keyword(&self, keywords: &mut Self::Keywords) -> Option<Self::Keyword>
        ensures { MatchOption result (listed keywords.old ≡ [])
            (λ k. listed keywords.old ≡ keyword_of k ∷ listed keywords.new) };

    fn kind(&self, keyword: Self::Keyword) -> Keyword
        ensures { result ≡ kind_at (keyword_of keyword) };

    /// Whether a keyword may ask for applications.
    fn asks(&self, keyword: Self::Keyword) -> bool
        ensures { (depth : ℕ) (path : List Site) (place : Site) (v : JsonValue) (condition : Option Bool)
            (names : List Bytes) (indexes : List ℕ)
            → result ≡ false → asked_by (schemas self.now) depth path place v
            (keyword_of keyword) condition names indexes ≡ [] };

    /// The applications that a keyword asks for. `condition`, `names`, `indexes`: what the keywords before it have
    /// shown, which is whether `if` succeeds, and the members and items evaluated.
    fn asking(
        &self,
        alloc: Global,
        scope: ScopedPath,
        place: Place,
        schema: Self::Schema,
        value: Self::Value,
        keyword: Self::Keyword,
        condition: Option<bool>,
        names: &[Self::Name],
        indexes: &[usize],
    ) -> Result<Self::Asking, Memory>
        requires path { list_all (is_place self.now) scope.path.now ≡ true }
        requires resources { scope.resources.now ≡ dedup nat_eq (map (resource self.now) scope.path.now) }
        requires place { is_place self.now place ≡ true }
        requires schema { stands_at self.now place schema }
        requires keyword { IsKeywordAt (schemas self.now) (site self.now place) (keyword_of keyword) }
        ensures asked { IfOk result (λ a. asked self.now a
            ≡ asked_by (schemas self.now) 0 (map (site self.now) scope.entry.path.now) (site self.now place)
            (value_of value) (keyword_of keyword) condition (map text_of names.now) indexes.now) }
        ensures is { IfOk result (λ a. is_asking self.now a) };

    /// The next application, or None after the last.
    fn next(
        &self,
        alloc: Global,
        asking: &mut Self::Asking,
    ) -> Result<Option<Self::Application>, Memory>
        requires { is_asking self.now asking.old }
        ensures next { IfOk result (λ o. MatchOption o (asked self.now asking.old ≡ [])
            (λ a. asked self.now asking.old ≡ application_of self.now a ∷ asked self.now asking.new)) }
        ensures is { IfOk result (λ o. MatchOption o (Unit {0}) (λ a. is_place self.now (place_of a) ≡ true)) }
        ensures schema { IfOk result (λ o. MatchOption o (Unit {0})
            (λ a. stands_at self.now (place_of a) (schema_of a))) }
        ensures asking { IfOk result (λ _. is_asking self.now asking.new) };

    /// The place of the applied schema.
    fn place(&self, application: Self::Application) -> Place
        ensures number { result ≡ place_of application }
        ensures site { site self.now result ≡ (application_of self.now application).place };

    /// The applied schema.
    fn schema(&self, application: Self::Application) -> Self::Schema
        ensures { result ≡ schema_of application };

    /// The value that it is applied to.
    fn value(&self, application: Self::Application) -> Self::Value
        ensures { value_of result ≡ (application_of self.now application).value };

    /// The name of the member that it is applied to, if it is applied to one.
    fn member(&self, application: Self::Application) -> Option<Self::Name>
        ensures { map text_of (option_to_list result) ≡ name_in_step (application_of self.now application).at };

    /// The index of the item that it is applied to, if it is applied to one.
    fn item(&self, application: Self::Application) -> Option<usize>
        ensures { option_to_list result ≡ index_in_step (application_of self.now application).at };

    /// Whether a keyword passes. `tally`: the number of its applications, and of those that succeed; `matching`: the
    /// number of items that match the adjacent `contains`.
    fn passes(
        &self,
        alloc: Global,
        place: Place,
        schema: Self::Schema,
        value: Self::Value,
        keyword: Self::Keyword,
        tally: Tally,
        matching: u64,
    ) -> Result<bool, Memory>
        requires place { is_place self.now place ≡ true }
        requires schema { stands_at self.now place schema }
        requires keyword { IsKeywordAt (schemas self.now) (site self.now place) (keyword_of keyword) }
        ensures { IfOk result (λ b. (verdicts : List Bool) → length verdicts ≡ tally.asked
            → how_many verdicts ≡ tally.succeeded
            → b ≡ passes_at (schemas self.now) (site self.now place) (value_of value) matching
            (keyword_of keyword) verdicts) };

    /// Moves a trail from a schema to its keyword.
    fn go_to_keyword<H: PointerText + Drop>(
        &self,
        keyword: Self::Keyword,
        trail: &mut Trail<H>,
    ) -> Result<(), Memory>
        ensures { OnOk result (trail.new ≡ at_name trail.old (keyword_of keyword)) };

    /// Moves both trails to an application: from the keyword to the schema that it applies, and from the keyword's
    /// value to the value that the schema is applied to.
    fn go_to_application<H: PointerText + Drop>(
        &self,
        application: Self::Application,
        keyword: &mut Trail<H>,
        instance: &mut Trail<H>,
    ) -> Result<(), Memory>
        ensures keyword { OnOk result (keyword.new ≡ at_step keyword.old (application_of self.now application).step) }
        ensures instance { OnOk result
            (instance.new ≡ at_step instance.old (application_of self.now application).at) };
}

//! The single steps of the recursion. Each that returns a `Result` fails with `Memory` if an allocation fails.
ghost use Rattle.std.specs.Prelude.{◌≡◌, ◌∷◌, [], ◌<◌, ◌≤◌, List, true, map, length, drop, nat_eq, IfOk, OnOk};
ghost use Rattle.std.specs.Prelude.{MatchOption, ℕ};
ghost use Rattle.std.specs.List.{dedup, list_all};
ghost use Rattle.std.specs.String.Boundary.{IsSplitPoint};
ghost use Rattle.js_bundle.specs.Resource.{Site};
ghost use Rattle.js_eval.specs.Walk.Steps.{SchemaOpened, SchemaClosed, IsJudged, KeywordOpened, KeywordClosed};
ghost use Rattle.js_eval.specs.Walk.Steps.{KeywordDone, WentDown, CameBack};
ghost use Rattle.js_doc.specs.Value.{Value as JsonValue};
ghost use Rattle.js_eval.specs.SchemaSet.{Text as Bytes};
ghost use Rattle.js_eval.specs.Walk.Reported.{DropsSilent};
ghost use Rattle.js_eval.specs.Walk.Progress.{IsKeywordAt, asked_by, kind_at, says_at};
ghost use Rattle.js_tree.specs.Note.{silent};
ghost use Rattle.js_eval.specs.Walk.Visited.{AreJudged, AreJudgedIf, AreTogether, IsListed};
ghost use Rattle.js_eval.specs.code.Leaves.{is_assertion};

use crate::evaluation::keeping::{cut_unless, keep, origins_of};
use crate::evaluation::path::ScopedPath;
use crate::evaluation::pointer_text::PointerText;
use crate::evaluation::reporter::Reporter;
use crate::evaluation::tally::{Case, KeywordProgress, KeywordVerdict, Others, Tally, Together};
use crate::evaluation::walk_state::{Mark, Start, WalkState};
use crate::evaluation::world::World;
use js_bundle::Place;
use js_doc::Memory;
use js_keyword::Keyword;
use std::alloc::Global;

/// Opens the node of a schema. The limit must allow one more node.
pub(crate) fn open_schema<W: World, H: PointerText + Drop, R: Reporter<W, H>>(
    alloc: Global,
    world: &W,
    state: &mut WalkState<W::Name, H>,
    into: &mut R,
    place: Place,
) -> Result<(), Memory>
    requires place { W.is_place world.now place ≡ true }
    requires left { 0 < state.old.left }
    ensures { OnOk result (SchemaOpened (W.schemas world.now) W.text_of R.takes (W.site world.now place) place
        (W.resource world.now place) state.old state.new into.old into.new) }
{
    state.left -= 1;
    into.open_schema(alloc, world, place, &state.keyword, &state.instance)?;
    state.path.push(place);
    state.scope.push(world.resource(place))?;
    Ok(())
}

/// Closes the node of a schema. If it fails, drops what it has evaluated.
pub(crate) fn close_schema<W: World, H: PointerText + Drop, R: Reporter<W, H>>(
    alloc: Global,
    world: &W,
    state: &mut WalkState<W::Name, H>,
    into: &mut R,
    place: Place,
    schema: W::Schema,
    start: Start,
    valid: bool,
) -> Result<(), Memory>
    requires place { W.is_place world.now place ≡ true }
    requires schema { W.stands_at world.now place schema }
    ensures { OnOk result (SchemaClosed (W.schemas world.now) W.text_of R.takes
        (W.site world.now place) start valid state.old state.new into.old into.new) }
{
    into.close_schema(alloc, world, place, schema, valid)?;
    state.path.leave_place();
    state.scope.go_back_to(start.scope);
    cut_unless(&mut state.names, start.names, valid);
    cut_unless(&mut state.indexes, start.indexes, valid);
    Ok(())
}

/// The next keyword of a schema. Keywords are evaluated even if one before them has failed.
pub(crate) fn next_keyword<W: World>(
    world: &W,
    judging: &mut KeywordProgress<W::Keywords>,
) -> Option<W::Keyword>
    ensures next { MatchOption result (W.listed judging.old.keywords ≡ [])
        (λ k. W.listed judging.old.keywords ≡ W.keyword_of k ∷ W.listed judging.new.keywords) }
    ensures known { judging.new.known ≡ judging.old.known }
{
    world.next_keyword(&mut judging.keywords)
}

/// Opens the node of a keyword. The limit must allow one more node.
#[inline(always)]
pub(crate) fn open_keyword<W: World, H: PointerText + Drop, R: Reporter<W, H>>(
    alloc: Global,
    world: &W,
    state: &mut WalkState<W::Name, H>,
    into: &mut R,
    place: Place,
    keyword: W::Keyword,
) -> Result<(), Memory>
    requires place { W.is_place world.now place ≡ true }
    requires left { 0 < state.old.left }
    ensures { OnOk result (KeywordOpened (W.schemas world.now) W.text_of R.takes (W.site world.now place)
        (W.keyword_of keyword) state.old state.new into.old into.new) }
{
    state.left -= 1;
    world.go_to_keyword(keyword, &mut state.keyword)?;
    into.open_keyword(
        alloc,
        world,
        place,
        keyword,
        &state.keyword,
        &state.instance,
    )
}

/// The applications that a keyword asks for, given what has been evaluated since the schema's node opened.
pub(crate) fn begin_asking<W: World, H: PointerText + Drop>(
    alloc: Global,
    world: &W,
    state: &WalkState<W::Name, H>,
    case: Case<W::Schema, W::Value, W::Keyword>,
    start: Start,
    condition: Option<bool>,
) -> Result<W::Asking, Memory>
    requires path { list_all (W.is_place world.now) state.now.path ≡ true }
    requires scope { state.now.scope ≡ dedup nat_eq (map (W.resource world.now) state.now.path) }
    requires place { W.is_place world.now case.place ≡ true }
    requires schema { W.stands_at world.now case.place case.schema }
    requires keyword { IsKeywordAt (W.schemas world.now) (W.site world.now case.place) (W.keyword_of case.keyword) }
    requires names { start.names ≤ length state.now.names.items }
    requires indexes { start.indexes ≤ length state.now.indexes.items }
    ensures asked { IfOk result (λ a. W.asked world.now a
        ≡ asked_by (W.schemas world.now) 0 (map (W.site world.now) state.now.path) (W.site world.now case.place)
        (W.value_of case.value) (W.keyword_of case.keyword) condition
        (map W.text_of (drop start.names state.now.names.items)) (drop start.indexes state.now.indexes.items)) }
    ensures is { IfOk result (λ a. W.is_asking world.now a) }
{
    let scope = ScopedPath {
        path: &state.path,
        resources: state.scope.resource_numbers(),
    };
    let names = &state.names[start.names..];
    let indexes = &state.indexes[start.indexes..];
    world.asking(
        alloc,
        scope,
        case.place,
        case.schema,
        case.value,
        case.keyword,
        condition,
        names,
        indexes,
    )
}

/// Closes the node of a keyword, and returns whether it passes. If it fails, drops what it has evaluated.
pub(crate) fn close_keyword<W: World, H: PointerText + Drop, R: Reporter<W, H>>(
    alloc: Global,
    world: &W,
    state: &mut WalkState<W::Name, H>,
    into: &mut R,
    case: Case<W::Schema, W::Value, W::Keyword>,
    here: Mark<H::Mark>,
    tally: Tally,
    matching: u64,
) -> Result<bool, Memory>
    requires place { W.is_place world.now case.place ≡ true }
    requires schema { W.stands_at world.now case.place case.schema }
    requires names { here.names ≤ length state.old.names.items }
    requires indexes { here.indexes ≤ length state.old.indexes.items }
    requires trail { IsSplitPoint state.old.keyword (H.length_at here.keyword) }
    requires keyword { IsKeywordAt (W.schemas world.now) (W.site world.now case.place) (W.keyword_of case.keyword) }
    ensures { IfOk result (λ passes. KeywordClosed (W.schemas world.now) W.text_of R.takes H.length_at
        (W.site world.now case.place) (W.value_of case.value)
        (W.keyword_of case.keyword) matching tally here passes state.old state.new into.old into.new) }
{
    let Case {
        place,
        schema,
        value,
        keyword,
    } = case;
    let passes = world.passes(alloc, place, schema, value, keyword, tally, matching)?;
    let judged = KeywordVerdict {
        passes,
        succeeded: tally.succeeded,
    };
    let names = &state.names[here.names..];
    let indexes = &state.indexes[here.indexes..];
    into.close_keyword(
        alloc, world, place, value, keyword, judged, matching, names, indexes,
    )?;
    cut_unless(&mut state.names, here.names, passes);
    cut_unless(&mut state.indexes, here.indexes, passes);
    state.keyword.cut(here.keyword);
    Ok(passes)
}

/// Evaluates a keyword that applies no schema, and reports its node, unless the reporter would keep nothing of it. It
/// isn't inlined, to keep its locals out of the recursive function's stack frame.
#[inline(never)]
pub(crate) fn childless_node<W: World, H: PointerText + Drop, R: Reporter<W, H>>(
    alloc: Global,
    world: &W,
    state: &mut WalkState<W::Name, H>,
    into: &mut R,
    case: Case<W::Schema, W::Value, W::Keyword>,
    matching: u64,
) -> Result<KeywordVerdict, Memory>
    requires place { W.is_place world.now case.place ≡ true }
    requires schema { W.stands_at world.now case.place case.schema }
    requires keyword { IsKeywordAt (W.schemas world.now) (W.site world.now case.place) (W.keyword_of case.keyword) }
    requires left { 0 < state.old.left }
    ensures { IfOk result (λ j. (depth : ℕ) (path : List Site)
        → KeywordDone (W.schemas world.now) W.text_of R.takes depth path (W.site world.now case.place)
        (W.value_of case.value) (W.keyword_of case.keyword) matching [] j
        state.old state.new into.old into.new) }
{
    let passes = passes_alone(alloc, world, case, matching)?;
    let judged = KeywordVerdict {
        passes,
        succeeded: 0,
    };
    state.left -= 1;
    if passes && may_drop(world, into, case.keyword) {
        return Ok(judged);
    }
    let Case {
        place,
        schema: _,
        value,
        keyword,
    } = case;
    into.leaf_keyword(
        alloc,
        world,
        place,
        value,
        keyword,
        judged,
        matching,
        &mut state.keyword,
        &state.instance,
    )?;
    Ok(judged)
}

/// The same as `childless_node`. If all assertions pass, and the reporter keeps nothing of one that does, they are
/// judged together.
#[inline(always)]
pub(crate) fn leaf_node<W: World, H: PointerText + Drop, R: Reporter<W, H>>(
    alloc: Global,
    world: &W,
    state: &mut WalkState<W::Name, H>,
    into: &mut R,
    case: Case<W::Schema, W::Value, W::Keyword>,
    together: &mut Together,
    matching: u64,
) -> Result<KeywordVerdict, Memory>
    requires place { W.is_place world.now case.place ≡ true }
    requires schema { W.stands_at world.now case.place case.schema }
    requires keyword { IsKeywordAt (W.schemas world.now) (W.site world.now case.place) (W.keyword_of case.keyword) }
    requires listed { IsListed (W.schemas world.now) (W.site world.now case.place) (W.keyword_of case.keyword) }
    requires left { 0 < state.old.left }
    requires together { AreTogether (W.schemas world.now) (W.site world.now case.place) (W.value_of case.value)
        together.old }
    ensures done { IfOk result (λ j. (depth : ℕ) (path : List Site)
        → KeywordDone (W.schemas world.now) W.text_of R.takes depth path (W.site world.now case.place)
        (W.value_of case.value) (W.keyword_of case.keyword) matching [] j
        state.old state.new into.old into.new) }
    ensures together { OnOk result (AreTogether (W.schemas world.now) (W.site world.now case.place)
        (W.value_of case.value) together.new) }
{
    let over = is_passed_over(alloc, world, into, case, together, matching)?;
    if over {
        state.left -= 1;
        return Ok(KeywordVerdict {
            passes: true,
            succeeded: 0,
        });
    }
    childless_node(alloc, world, state, into, case, matching)
}

// Whether the reporter would keep nothing of a keyword's leaf, as all assertions pass.
#[inline(always)]
fn is_passed_over<W: World, H: PointerText + Drop, R: Reporter<W, H>>(
    alloc: Global,
    world: &W,
    into: &R,
    case: Case<W::Schema, W::Value, W::Keyword>,
    together: &mut Together,
    matching: u64,
) -> Result<bool, Memory>
    requires place { W.is_place world.now case.place ≡ true }
    requires listed { IsListed (W.schemas world.now) (W.site world.now case.place) (W.keyword_of case.keyword) }
    requires together { AreTogether (W.schemas world.now) (W.site world.now case.place) (W.value_of case.value)
        together.old }
    ensures together { OnOk result (AreTogether (W.schemas world.now) (W.site world.now case.place)
        (W.value_of case.value) together.new) }
    ensures passes { IfOk result (λ b. b ≡ true → IsJudged (W.schemas world.now) (W.site world.now case.place)
        (W.value_of case.value) (W.keyword_of case.keyword) matching (record { asked = 0; succeeded = 0 }) true) }
    ensures silent { IfOk result (λ b. (place : Site) (v : JsonValue) (matching succeeded : ℕ) (names : List Bytes)
        (indexes : List ℕ) → b ≡ true → says_at (W.schemas world.now) place v matching (W.keyword_of case.keyword)
        succeeded names indexes true ≡ silent) }
    ensures drops { IfOk result (λ b. b ≡ true → DropsSilent R.takes into.now) }
{
    if !may_drop(world, into, case.keyword) {
        return Ok(false);
    }
    all_pass(alloc, world, case.place, case.value, together, matching)
}

// Whether the reporter keeps nothing of a keyword's leaf that passes: it is an assertion, so that it has no note then.
#[inline(always)]
#[tactic(auto, using(crate::proofs::SaysThere::assertion_is_silent))]
fn may_drop<W: World, H: PointerText + Drop, R: Reporter<W, H>>(
    world: &W,
    into: &R,
    keyword: W::Keyword,
) -> bool
    ensures assertion { result ≡ true → is_assertion (kind_at (W.keyword_of keyword)) ≡ true }
    ensures silent { (place : Site) (v : JsonValue) (matching succeeded : ℕ) (names : List Bytes) (indexes : List ℕ)
        → result ≡ true → says_at (W.schemas world.now) place v matching (W.keyword_of keyword) succeeded names indexes
        true ≡ silent }
    ensures drops { result ≡ true → DropsSilent R.takes into.now }
{
    is_assertion(world.kind(keyword)) && into.drops_silent()
}

// Whether it judges a value by itself.
#[inline(always)]
fn is_assertion(kind: Keyword) -> bool
    ensures { result ≡ is_assertion kind }
{
    matches!(kind, Keyword::Assertion(_))
}

// Whether all keywords of the place pass that apply no schemas. They are judged if they aren't yet, for
// `matching` matches.
#[inline(always)]
fn all_pass<W: World>(
    alloc: Global,
    world: &W,
    place: Place,
    value: W::Value,
    together: &mut Together,
    matching: u64,
) -> Result<bool, Memory>
    requires place { W.is_place world.now place ≡ true }
    requires together { AreTogether (W.schemas world.now) (W.site world.now place) (W.value_of value) together.old }
    ensures together { OnOk result (AreTogether (W.schemas world.now) (W.site world.now place) (W.value_of value)
        together.new) }
    ensures pass { IfOk result (λ b. b ≡ true → (count : ℕ)
        × AreJudged (W.schemas world.now) (W.site world.now place) (W.value_of value) matching true count) }
{
    if !together.known || together.matching != matching {
        let others = world.others(alloc, place, value, matching)?;
        *together = Together {
            known: true,
            matching,
            pass: others.pass,
        };
    }
    Ok(together.pass)
}

// Whether a keyword passes that applies no schema.
#[inline(always)]
fn passes_alone<W: World>(
    alloc: Global,
    world: &W,
    case: Case<W::Schema, W::Value, W::Keyword>,
    matching: u64,
) -> Result<bool, Memory>
    requires place { W.is_place world.now case.place ≡ true }
    requires schema { W.stands_at world.now case.place case.schema }
    requires keyword { IsKeywordAt (W.schemas world.now) (W.site world.now case.place) (W.keyword_of case.keyword) }
    ensures { IfOk result (λ passes. IsJudged (W.schemas world.now) (W.site world.now case.place)
        (W.value_of case.value) (W.keyword_of case.keyword) matching (record { asked = 0; succeeded = 0 }) passes) }
{
    let Case {
        place,
        schema,
        value,
        keyword,
    } = case;
    let none = Tally {
        asked: 0,
        succeeded: 0,
    };
    world.passes(alloc, place, schema, value, keyword, none, matching)
}

/// Moves both trails down to an application.
pub(crate) fn go_down<W: World, H: PointerText + Drop>(
    world: &W,
    state: &mut WalkState<W::Name, H>,
    application: W::Application,
) -> Result<(), Memory>
    ensures { OnOk result (WentDown (W.application_of world.now application) state.old state.new) }
{
    world.go_to_application(application, &mut state.keyword, &mut state.instance)
}

/// Moves both trails back up, and replaces what the applied schema has evaluated by what the keyword has.
pub(crate) fn come_back<W: World, H: PointerText + Drop>(
    world: &W,
    state: &mut WalkState<W::Name, H>,
    application: W::Application,
    kind: Keyword,
    here: Mark<H::Mark>,
    holds: bool,
) -> Result<(), Memory>
    requires keyword { IsSplitPoint state.old.keyword (H.length_at here.keyword) }
    requires instance { IsSplitPoint state.old.instance (H.length_at here.instance) }
    ensures { OnOk result (CameBack W.text_of H.length_at kind
        (W.application_of world.now application) here holds state.old state.new) }
{
    state.keyword.cut(here.keyword);
    state.instance.cut(here.instance);
    let (names, indexes) = origins_of(kind);
    let member = world.member(application);
    let item = world.item(application);
    keep(&mut state.names, here.names, names, holds, member)?;
    keep(&mut state.indexes, here.indexes, indexes, holds, item)
}

/// What the keywords show that the walk doesn't visit: all those that apply no schemas, if it is quiet. `matching`:
/// the number of items that match the adjacent `contains`.
#[inline(always)]
pub(crate) fn others_of<W: World>(
    alloc: Global,
    world: &W,
    quiet: bool,
    place: Place,
    value: W::Value,
    matching: u64,
) -> Result<Others, Memory>
    requires { W.is_place world.now place ≡ true }
    ensures { IfOk result (λ o. AreJudgedIf (W.schemas world.now) (W.site world.now place) quiet (W.value_of value)
        matching o) }
{
    if quiet {
        world.others(alloc, place, value, matching)
    } else {
        Ok(Others {
            pass: true,
            count: 0,
        })
    }
}

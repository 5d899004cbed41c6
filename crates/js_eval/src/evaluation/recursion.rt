//! The recursion of a walk. Its functions evaluate a schema, a keyword, and the applications of a keyword.
//!
//! No bound names a lifetime, so that they may be recursive. A nested schema application takes one call of each.
ghost use Rattle.std.specs.Prelude.{◌≡◌, ◌≤◌, ◌<◌, true, map, length, nat_eq, MatchResult, OnOk};
ghost use Rattle.std.specs.List.{dedup, list_all};
ghost use Rattle.js_eval.specs.Walk.Ended.{KeywordEnds, NodeEnds};
ghost use Rattle.js_eval.specs.Walk.Steps.{EachDone};
ghost use Rattle.js_eval.specs.Walk.Progress.{IsKeywordAt, SomeHasNone};
ghost use Rattle.js_eval.specs.Walk.Visited.{AreTogether, IsListed};
ghost use Rattle.js_eval.specs.Fault.{OnTooLarge};

use crate::evaluation::fault::WalkFault;
use crate::evaluation::leaf::leaf_schema;
use crate::evaluation::pointer_text::PointerText;
use crate::evaluation::reporter::Reporter;
use crate::evaluation::steps::{
    begin_asking, close_keyword, close_schema, come_back, go_down, leaf_node, next_keyword,
    open_keyword, open_schema, others_of,
};
use crate::evaluation::tally::{Case, KeywordProgress, KeywordVerdict, Known, Tally, Together};
use crate::evaluation::walk_state::{Start, WalkState};
use crate::evaluation::world::World;
use js_bundle::Place;
use js_keyword::Keyword;
use std::alloc::Global;

/// Evaluates a value against the schema at a place, and reports the schema's node and the nodes below it. Returns the
/// verdict.
///
/// # Errors
/// `Memory` if an allocation fails; `TooLarge` if no result is within the limits that are left.
#[cycle(walk)]
pub(crate) fn node<W: World, H: PointerText + Drop, R: Reporter<W, H>>(
    alloc: Global,
    world: &W,
    state: &mut WalkState<W::Name, H>,
    into: &mut R,
    depth: usize,
    place: Place,
    schema: W::Schema,
    value: W::Value,
) -> Result<bool, WalkFault>
    requires path { list_all (W.is_place world.now) state.old.path ≡ true }
    requires scope { state.old.scope ≡ dedup nat_eq (map (W.resource world.now) state.old.path) }
    requires place { W.is_place world.now place ≡ true }
    requires schema { W.stands_at world.now place schema }
    ensures { NodeEnds (W.schemas world.now) W.text_of R.takes depth (map (W.site world.now) state.old.path)
        (W.site world.now place) (W.value_of value) result state.old state.new into.old into.new }
{
    if depth == 0 {
        return Err(WalkFault::TooLarge);
    }
    if state.left == 0 {
        return Err(WalkFault::TooLarge);
    }
    let start = state.start();
    open_schema(alloc, world, state, into, place)?;
    let known = Known {
        valid: world.accepts(place, schema),
        condition: None,
        matching: 0,
    };
    let quiet = into.is_quiet();
    let keywords = world.keywords(place, schema, quiet);
    let known = {
        let mut judging = KeywordProgress { keywords, known };
        let mut together = Together::unknown();
        'keywords: while let Some(keyword) = next_keyword(world, &mut judging) {
            let case = Case {
                place,
                schema,
                value,
                keyword,
            };
            let judged = keyword_node(
                alloc,
                world,
                state,
                into,
                depth - 1,
                case,
                start,
                judging.known,
                &mut together,
            )?;
            let known = judging.known;
            judging.known = known.with_keyword(
                world.kind(keyword),
                judged.passes,
                judged.succeeded,
            );
        }
        judging.known
    };
    let others = others_of(alloc, world, quiet, place, value, known.matching)?;
    if state.left < others.count {
        return Err(WalkFault::TooLarge);
    }
    state.left -= others.count;
    let valid = known.valid & others.pass;
    close_schema(alloc, world, state, into, place, schema, start, valid)?;
    Ok(valid)
}

/// The same, without a visit where nothing would be reported and no keyword of the schema may apply schemas.
///
/// # Errors
/// As for `node`.
#[cycle(walk)]
#[inline(always)]
fn applied_node<W: World, H: PointerText + Drop, R: Reporter<W, H>>(
    alloc: Global,
    world: &W,
    state: &mut WalkState<W::Name, H>,
    into: &mut R,
    depth: usize,
    place: Place,
    schema: W::Schema,
    value: W::Value,
) -> Result<bool, WalkFault>
    requires path { list_all (W.is_place world.now) state.old.path ≡ true }
    requires scope { state.old.scope ≡ dedup nat_eq (map (W.resource world.now) state.old.path) }
    requires place { W.is_place world.now place ≡ true }
    requires schema { W.stands_at world.now place schema }
    ensures { NodeEnds (W.schemas world.now) W.text_of R.takes depth (map (W.site world.now) state.old.path)
        (W.site world.now place) (W.value_of value) result state.old state.new into.old into.new }
{
    if into.is_quiet() {
        if !world.may_apply(place, schema) {
            return leaf_schema::<W, H, R>(alloc, world, state, depth, place, schema, value);
        }
    }
    node(alloc, world, state, into, depth, place, schema, value)
}

/// Evaluates a keyword, and reports its node and the nodes below it. `start`: how much was evaluated when the schema's
/// node opened; `known`: what the keywords before have shown.
///
/// # Errors
/// `Memory` if an allocation fails; `TooLarge` if no result is within the limits that are left.
#[cycle(walk)]
pub(crate) fn keyword_node<W: World, H: PointerText + Drop, R: Reporter<W, H>>(
    alloc: Global,
    world: &W,
    state: &mut WalkState<W::Name, H>,
    into: &mut R,
    depth: usize,
    case: Case<W::Schema, W::Value, W::Keyword>,
    start: Start,
    known: Known,
    together: &mut Together,
) -> Result<KeywordVerdict, WalkFault>
    requires path { list_all (W.is_place world.now) state.old.path ≡ true }
    requires scope { state.old.scope ≡ dedup nat_eq (map (W.resource world.now) state.old.path) }
    requires place { W.is_place world.now case.place ≡ true }
    requires schema { W.stands_at world.now case.place case.schema }
    requires names { start.names ≤ length state.old.names.items }
    requires indexes { start.indexes ≤ length state.old.indexes.items }
    requires keyword { IsKeywordAt (W.schemas world.now) (W.site world.now case.place) (W.keyword_of case.keyword) }
    requires listed { IsListed (W.schemas world.now) (W.site world.now case.place) (W.keyword_of case.keyword) }
    requires together { AreTogether (W.schemas world.now) (W.site world.now case.place) (W.value_of case.value)
        together.old }
    ensures together { OnOk result (AreTogether (W.schemas world.now) (W.site world.now case.place)
        (W.value_of case.value) together.new) }
    ensures done { KeywordEnds (W.schemas world.now) W.text_of R.takes depth (map (W.site world.now) state.old.path)
        (W.site world.now case.place) (W.value_of case.value) (W.keyword_of case.keyword) known start result
        state.old state.new into.old into.new }
{
    if state.left == 0 {
        return Err(WalkFault::TooLarge);
    }
    if !world.asks(case.keyword) {
        let judged = leaf_node(alloc, world, state, into, case, together, known.matching)?;
        return Ok(judged);
    }
    applicator_node(alloc, world, state, into, depth, case, start, known)
}

/// The same of a keyword that may apply schemas. Apart from `keyword_node`, so that a leaf doesn't pay for its locals.
/// The limit must allow one more node.
///
/// # Errors
/// As for `keyword_node`.
#[cycle(walk)]
fn applicator_node<W: World, H: PointerText + Drop, R: Reporter<W, H>>(
    alloc: Global,
    world: &W,
    state: &mut WalkState<W::Name, H>,
    into: &mut R,
    depth: usize,
    case: Case<W::Schema, W::Value, W::Keyword>,
    start: Start,
    known: Known,
) -> Result<KeywordVerdict, WalkFault>
    requires path { list_all (W.is_place world.now) state.old.path ≡ true }
    requires scope { state.old.scope ≡ dedup nat_eq (map (W.resource world.now) state.old.path) }
    requires place { W.is_place world.now case.place ≡ true }
    requires schema { W.stands_at world.now case.place case.schema }
    requires names { start.names ≤ length state.old.names.items }
    requires indexes { start.indexes ≤ length state.old.indexes.items }
    requires left { 0 < state.old.left }
    requires keyword { IsKeywordAt (W.schemas world.now) (W.site world.now case.place) (W.keyword_of case.keyword) }
    ensures { KeywordEnds (W.schemas world.now) W.text_of R.takes depth (map (W.site world.now) state.old.path)
        (W.site world.now case.place) (W.value_of case.value) (W.keyword_of case.keyword) known start result
        state.old state.new into.old into.new }
{
    let mut asking = begin_asking(alloc, world, state, case, start, known.condition)?;
    let here = state.current_marks();
    open_keyword(alloc, world, state, into, case.place, case.keyword)?;
    let tally = applications(
        alloc,
        world,
        state,
        into,
        depth,
        world.kind(case.keyword),
        &mut asking,
    )?;
    let passes = close_keyword(alloc, world, state, into, case, here, tally, known.matching)?;
    Ok(KeywordVerdict {
        passes,
        succeeded: tally.succeeded,
    })
}

/// Evaluates the applications that a keyword asks for, in order, and reports their nodes. Returns how many there are,
/// and how many succeed.
///
/// # Errors
/// `Memory` if an allocation fails; `TooLarge` if no result is within the limits that are left.
#[cycle(walk)]
pub(crate) fn applications<W: World, H: PointerText + Drop, R: Reporter<W, H>>(
    alloc: Global,
    world: &W,
    state: &mut WalkState<W::Name, H>,
    into: &mut R,
    depth: usize,
    kind: Keyword,
    asking: &mut W::Asking,
) -> Result<Tally, WalkFault>
    requires path { list_all (W.is_place world.now) state.old.path ≡ true }
    requires scope { state.old.scope ≡ dedup nat_eq (map (W.resource world.now) state.old.path) }
    requires asking { W.is_asking world.now asking.old }
    ensures { MatchResult result
        (λ t. EachDone (W.schemas world.now) W.text_of R.takes depth (map (W.site world.now) state.old.path) kind
        (W.asked world.now asking.old) t state.old state.new into.old into.new)
        (λ e. OnTooLarge e (SomeHasNone (W.schemas world.now) depth (map (W.site world.now) state.old.path)
        (W.asked world.now asking.old) state.old.left)) }
{
    let _left = state.left;
    let mut tally = Tally {
        asked: 0,
        succeeded: 0,
    };
    'each: while let Some(application) = world.next(alloc, asking)? {
        let here = state.current_marks();
        go_down(world, state, application)?;
        let holds = applied_node(
            alloc,
            world,
            state,
            into,
            depth,
            world.place(application),
            world.schema(application),
            world.value(application),
        )?;
        come_back(world, state, application, kind, here, holds)?;
        tally = tally.with_application(holds);
    }
    Ok(tally)
}

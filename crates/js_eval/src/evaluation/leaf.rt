//! The leaves of a quiet walk: schemas none of whose keywords may apply schemas.
ghost use Rattle.std.specs.Prelude.{◌≡◌, List, true};
ghost use Rattle.js_bundle.specs.Resource.{Site};
ghost use Rattle.js_doc.specs.Members.{IsAscending};
ghost use Rattle.js_tree.specs.Events.{Event};
ghost use Rattle.js_eval.specs.Walk.Ended.{NodeEnds};
ghost use Rattle.js_eval.specs.Walk.Visited.{AppliesNone};
ghost use Rattle.js_eval.specs.code.Terms.{entries};

use crate::evaluation::fault::WalkFault;
use crate::evaluation::pointer_text::PointerText;
use crate::evaluation::reporter::Reporter;
use crate::evaluation::walk_state::WalkState;
use crate::evaluation::world::World;
use js_bundle::Place;
use std::alloc::Global;

/// Evaluates a value against the schema at a place, none of whose keywords may apply schemas, for a reporter that
/// ignores all events. Returns the verdict. Of the state only the number of nodes that are left changes.
///
/// # Errors
/// `Memory` if an allocation fails; `TooLarge` if no result is within the limits that are left.
#[inline(never)]
pub(crate) fn leaf_schema<W: World, H: PointerText + Drop, R: Reporter<W, H>>(
    alloc: Global,
    world: &W,
    state: &mut WalkState<W::Name, H>,
    depth: usize,
    place: Place,
    schema: W::Schema,
    value: W::Value,
) -> Result<bool, WalkFault>
    requires ignores { (c d : R) (e : Event) → R.takes c e d }
    requires place { W.is_place world.now place ≡ true }
    requires schema { W.stands_at world.now place schema }
    requires ascending { IsAscending (entries ((W.schemas world.now).schema (W.site world.now place))) }
    requires applies { AppliesNone (W.schemas world.now) (W.site world.now place) }
    ensures { (above : List Site) (c : R) → NodeEnds (W.schemas world.now) W.text_of R.takes depth above
        (W.site world.now place) (W.value_of value) result state.old state.new c c }
{
    if depth == 0 {
        return Err(WalkFault::TooLarge);
    }
    if state.left == 0 {
        return Err(WalkFault::TooLarge);
    }
    let accepted = world.accepts(place, schema);
    let others = world.others(alloc, place, value, 0)?;
    let left = state.left - 1;
    if left < others.count {
        return Err(WalkFault::TooLarge);
    }
    state.left = left - others.count;
    Ok(accepted & others.pass)
}

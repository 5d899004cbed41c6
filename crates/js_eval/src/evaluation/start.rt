//! The start of a walk.
ghost use Rattle.std.specs.Prelude.{◌≡◌, [], true, MatchResult};
ghost use Rattle.js_eval.specs.Location.{at_root};
ghost use Rattle.js_eval.specs.Result.{ResultTree, IsResult, IsWithinLimits};
ghost use Rattle.js_eval.specs.Fault.{OnTooLarge};
ghost use Rattle.js_eval.specs.Walk.Reported.{Reported};

use crate::evaluation::dynamic_scope::DynamicScope;
use crate::evaluation::fault::WalkFault;
use crate::evaluation::limits::Limits;
use crate::evaluation::path::Path;
use crate::evaluation::pointer_text::PointerText;
use crate::evaluation::recursion::node;
use crate::evaluation::reporter::Reporter;
use crate::evaluation::trail::Trail;
use crate::evaluation::walk_state::WalkState;
use crate::evaluation::world::World;
use js_bundle::Place;
use std::alloc::Global;

/// Evaluates a value against the schema at a place, and reports the result node by node. Returns the verdict.
///
/// # Errors
/// `Memory` if an allocation fails; `TooLarge` if no result is within the limits.
pub(crate) fn walk_from<W: World, H: PointerText + Drop, R: Reporter<W, H>>(
    alloc: Global,
    world: &W,
    into: &mut R,
    place: Place,
    schema: W::Schema,
    value: W::Value,
    limits: Limits,
) -> Result<bool, WalkFault>
    requires place { W.is_place world.now place ≡ true }
    requires schema { W.stands_at world.now place schema }
    ensures { MatchResult result
        (λ valid. Reported limits (W.schemas world.now) (W.site world.now place) (W.value_of value)
        R.takes valid into.old into.new)
        (λ e. OnTooLarge e ((t : ResultTree)
        → IsResult (W.schemas world.now) [] (W.site world.now place) at_root (W.value_of value) t
        → IsWithinLimits limits t → ⊥)) }
{
    let mut state: WalkState<W::Name, H> = WalkState {
        path: Path::new(),
        keyword: Trail::new(alloc),
        instance: Trail::new(alloc),
        left: limits.nodes,
        names: Vec::new(alloc),
        indexes: Vec::new(alloc),
        scope: DynamicScope::new(alloc),
    };
    node(
        alloc,
        world,
        &mut state,
        into,
        limits.levels,
        place,
        schema,
        value,
    )
}

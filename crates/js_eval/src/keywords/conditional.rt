//! Keywords that apply schemas on a condition: `then`, `else` and `dependentSchemas` (Core, section 10.2.2).
ghost use Rattle.js_bundle.specs.Resource.{Site};
ghost use Rattle.js_eval.specs.Applications.{Application};
ghost use Rattle.js_eval.specs.code.Asked.{IsAsking, asked};
ghost use Rattle.js_eval.specs.code.Starting.{HoldsOne, IsAtPlace, applied_if, by_keyword};
ghost use Rattle.js_eval.specs.code.Terms.{entries, has, instance_of, value_of};
ghost use Rattle.std.specs.Prelude.{IfOk, List, [], filter, if◌then◌else◌, map, ◌∷◌, ◌≡◌};
ghost use Rattle.js_eval.specs.SchemaSet as spec;

use crate::cursors::application::{AppliedTo, Subschemas};
use crate::cursors::asking::{Asking, in_box};
use crate::cursors::member_cursor::{Choice, MemberCursor};
use crate::cursors::start::CursorStart;
use crate::keywords::in_place::held;
use js_doc::{Members, Memory};

/// Whether `then` (`wanted` is true) or `else` (it is false) applies its schema. `condition`: the verdict of the
/// adjacent `if`, or None without an `if`.
pub(crate) fn applies_after_if(condition: Option<bool>, wanted: bool) -> bool
    ensures { (applications : List (Application Site))
        → applied_if wanted condition applications ≡ (if result then applications else []) }
{
    match (condition, wanted) {
        (Some(true), true) => true,
        (Some(false), false) => true,
        _ => false,
    }
}

/// The keyword's schema, applied to the value itself if the adjacent `if` has the wanted verdict. `condition`: its
/// verdict, or None without an `if`.
pub(crate) fn held_if<'a>(
    start: &CursorStart<'_, 'a>,
    condition: Option<bool>,
    wanted: bool,
) -> Asking<'a>
    requires { HoldsOne start.now.schemas.now start.now.at.now }
    ensures asked { asked start.now.schemas.now result ≡ applied_if wanted condition
        (by_keyword start.now.schemas.now start.now.at.now spec.Alone spec.Alone (instance_of start.now.value) ∷ []) }
    ensures is { IsAsking start.now.schemas.now result }
{
    if applies_after_if(condition, wanted) {
        held(start)
    } else {
        Asking::One(None)
    }
}

/// The applications of `dependentSchemas`.
///
/// # Errors
/// `Memory` if an allocation fails.
pub(crate) fn dependent<'a>(start: &CursorStart<'_, 'a>) -> Result<Asking<'a>, Memory>
    requires { IsAtPlace start.now.schemas.now start.now.at.now }
    ensures asked { IfOk result (λ a. asked start.now.schemas.now a
        ≡ map (λ m. by_keyword start.now.schemas.now start.now.at.now (spec.Name m.0) spec.Alone
        (instance_of start.now.value))
        (filter (λ m. has m.0 (entries (instance_of start.now.value)))
        (entries (value_of start.now.at.now.keyword.argument.now)))) }
    ensures is { IfOk result (λ a. IsAsking start.now.schemas.now a) }
{
    let Some(named) = start.argument_members() else {
        return Ok(Asking::One(None));
    };
    match start.value.object() {
        Some(members) => {
            let at = start.at;
            let keyword = at.keyword;
            let cursor = MemberCursor {
                held: Subschemas::Each(at.place, at.schema, keyword.name),
                to: AppliedTo::Whole(start.value),
                members: named.pairs(),
                choice: Choice::Named(members),
            };
            Ok(Asking::Members(in_box(start.alloc, cursor)?))
        }
        None => Ok(Asking::One(None)),
    }
}

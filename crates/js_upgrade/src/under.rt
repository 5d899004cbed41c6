//! What stands in place of a keyword's name, on the way to what stands in its argument.
ghost use Rattle.std.specs.Prelude.{[], ◌∷◌, codes, IfOk, Some, option_map, if◌then◌else◌};
ghost use Rattle.js_doc.specs.Seen.{value_of};
ghost use Rattle.js_doc.specs.Members.{get};
ghost use Rattle.js_upgrade.specs.Schema.{is_true};
ghost use Rattle.js_upgrade.specs.Moved.{alternative_under, contains_under, dependencies_under, dependent_under};
ghost use Rattle.js_upgrade.specs.Moved.{first_item, just};
ghost use Rattle.js_upgrade.specs.Moved.{listed_under, negated, types_under, tokens_under};
ghost use Rattle.js_upgrade.specs.code.Pushed.{IsPushed};

use crate::containing::holder;
use crate::keyword::Change;
use crate::moving::part_by_token;
use crate::pieces::{has_list, has_true};
use crate::types::has_any;
use js_doc::{Doc, Members, Memory, Pointer, Token};
use std::alloc::Global;

/// Adds the tokens under which what stands at the rest of a keyword's argument is found. False if it goes.
///
/// # Errors
/// `Memory`.
pub(crate) fn push_under(
    alloc: Global,
    out: &mut Pointer,
    siblings: &Members,
    name: &str,
    value: &Doc,
    rest: &[Token],
    change: Change,
) -> Result<bool, Memory>
    ensures { IfOk result (IsPushed out.old out.new
        (tokens_under siblings.now name.now (value_of value.now) rest.now change)) }
{
    match change {
        Change::Goes | Change::Identifier | Change::Anchor | Change::RecursiveAnchor => Ok(false),
        Change::Definitions => push_just(out, "$defs"),
        Change::Items => push_items(out, value),
        Change::AdditionalItems => {
            if has_list(siblings, "items") {
                push_just(out, "items")
            } else {
                Ok(false)
            }
        }
        Change::Dependencies => push_dependencies(out, value, rest),
        Change::Minimum => push_limit(out, siblings, "minimum", "exclusiveMinimum"),
        Change::Maximum => push_limit(out, siblings, "maximum", "exclusiveMaximum"),
        Change::Divisor => push_just(out, "multipleOf"),
        Change::Types => push_types(alloc, out, value, rest),
        Change::Disallowed => push_disallowed(alloc, out, value, rest),
        Change::Extended => push_extended(out, value),
        Change::Properties => push_just(out, "properties"),
        Change::Contains => push_contains(out, siblings),
        Change::RecursiveReference => push_just(out, "$dynamicRef"),
        _ => push_just(out, name),
    }
}

fn push_just(out: &mut Pointer, name: &str) -> Result<bool, Memory>
    ensures { IfOk result (IsPushed out.old out.new (just name.now)) }
{
    out.push(name)?;
    Ok(true)
}

fn push_limit(
    out: &mut Pointer,
    siblings: &Members,
    name: &str,
    exclusive: &str,
) -> Result<bool, Memory>
    ensures { IfOk result (IsPushed out.old out.new
        (just (if is_true (get exclusive.now siblings.now) then exclusive.now else name.now))) }
{
    if has_true(siblings, exclusive) {
        push_just(out, exclusive)
    } else {
        push_just(out, name)
    }
}

fn push_items(out: &mut Pointer, value: &Doc) -> Result<bool, Memory>
    ensures { IfOk result (IsPushed out.old out.new
        (listed_under (codes "prefixItems") (codes "items" ∷ []) (value_of value.now))) }
{
    match value {
        Doc::List(items) => {
            if items.is_empty() {
                Ok(false)
            } else {
                push_just(out, "prefixItems")
            }
        }
        _ => push_just(out, "items"),
    }
}

fn push_extended(out: &mut Pointer, value: &Doc) -> Result<bool, Memory>
    ensures { IfOk result (IsPushed out.old out.new
        (listed_under (codes "allOf") (codes "allOf" ∷ first_item) (value_of value.now))) }
{
    match value {
        Doc::List(items) => {
            if items.is_empty() {
                Ok(false)
            } else {
                push_just(out, "allOf")
            }
        }
        _ => push_first(out, "allOf"),
    }
}

// A list's name, and the index of its first item.
fn push_first(out: &mut Pointer, name: &str) -> Result<bool, Memory>
    ensures { IfOk result (IsPushed out.old out.new (Some (name.now ∷ first_item))) }
{
    out.push(name)?;
    push_just(out, "0")
}

fn push_dependencies(out: &mut Pointer, value: &Doc, rest: &[Token]) -> Result<bool, Memory>
    ensures { IfOk result (IsPushed out.old out.new (dependencies_under (value_of value.now) rest.now)) }
{
    match value {
        Doc::Members(members) => match rest.split_first() {
            Some((name, _)) => push_dependent(out, members.get(name.as_str())),
            None => Ok(false),
        },
        _ => Ok(false),
    }
}

fn push_dependent(out: &mut Pointer, found: Option<&Doc>) -> Result<bool, Memory>
    ensures { IfOk result (IsPushed out.old out.new
        (dependent_under (option_map (λ d. value_of d.now) found.entry))) }
{
    match found {
        None | Some(Doc::List(_) | Doc::Text(_)) => Ok(false),
        Some(_) => push_just(out, "dependentSchemas"),
    }
}

fn push_types(alloc: Global, out: &mut Pointer, value: &Doc, rest: &[Token]) -> Result<bool, Memory>
    ensures { IfOk result (IsPushed out.old out.new (types_under (value_of value.now) rest.now)) }
{
    match value {
        Doc::Members(_) => push_first(out, "anyOf"),
        Doc::List(items) => {
            let Some((index, _)) = rest.split_first() else {
                return Ok(false);
            };
            if has_any(items.as_slice()) {
                return Ok(false);
            }
            push_alternative(out, part_by_token(alloc, value, index.as_str())?)
        }
        _ => Ok(false),
    }
}

fn push_alternative(out: &mut Pointer, found: Option<&Doc>) -> Result<bool, Memory>
    ensures { IfOk result (IsPushed out.old out.new
        (alternative_under (option_map (λ d. value_of d.now) found.entry))) }
{
    match found {
        Some(Doc::Members(_)) => push_just(out, "anyOf"),
        _ => Ok(false),
    }
}

fn push_disallowed(
    alloc: Global,
    out: &mut Pointer,
    value: &Doc,
    rest: &[Token],
) -> Result<bool, Memory>
    ensures { IfOk result (IsPushed out.old out.new (negated (types_under (value_of value.now) rest.now))) }
{
    out.push("not")?;
    push_types(alloc, out, value, rest)
}

fn push_contains(out: &mut Pointer, siblings: &Members) -> Result<bool, Memory>
    ensures { IfOk result (IsPushed out.old out.new (Some (contains_under siblings.now))) }
{
    out.push(holder(siblings))?;
    out.push("0")?;
    out.push("not")?;
    out.push("not")?;
    out.push("contains")?;
    Ok(true)
}

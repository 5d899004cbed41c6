//! What a keyword becomes.
ghost use Rattle.std.specs.Prelude.{◌≡◌, [], OnOk, codes};
ghost use Rattle.js_doc.specs.Seen.{value_of};
ghost use Rattle.js_doc.specs.Value as spec;
ghost use Rattle.js_upgrade.specs.Schema.{one, put_all, types_upgraded, upgraded_by};

use crate::anchor_name::anchor_upgraded;
use crate::containing::put_contains;
use crate::gathering::put_one;
use crate::identifier::put_identifier;
use crate::keyword::Change;
use crate::pieces::{
    put_behind_list, put_dependencies, put_extended, put_limit, put_list_or_schema,
};
use crate::recursion::put_recursive_anchor;
use crate::required::put_properties;
use crate::types::put_types;
use js_doc::{Doc, Members, Memory};
use std::alloc::Global;

/// Puts what becomes of a keyword among the keywords of its schema. Its argument comes with its schemas upgraded.
///
/// # Errors
/// `Memory`.
pub(crate) fn put_upgraded(
    alloc: Global,
    among: &mut Members,
    change: Change,
    siblings: &Members,
    name: &str,
    value: Doc,
) -> Result<(), Memory>
    ensures { OnOk result (among.new ≡ put_all (upgraded_by siblings.now name.now (value_of value) change) among.old) }
{
    match change {
        Change::Goes => Ok(()),
        Change::Identifier => put_identifier(alloc, among, value),
        Change::Definitions => put_one(alloc, among, "$defs", value),
        Change::Items => put_list_or_schema(alloc, among, value),
        Change::AdditionalItems => put_behind_list(alloc, among, siblings, value),
        Change::Dependencies => put_dependencies(alloc, among, value),
        Change::Minimum => put_limit(alloc, among, siblings, "minimum", "exclusiveMinimum", value),
        Change::Maximum => put_limit(alloc, among, siblings, "maximum", "exclusiveMaximum", value),
        Change::Divisor => put_one(alloc, among, "multipleOf", value),
        Change::Types => put_types(alloc, among, &value),
        Change::Disallowed => put_disallowed(alloc, among, &value),
        Change::Extended => put_extended(alloc, among, value),
        Change::Properties => put_properties(alloc, among, siblings, value),
        Change::Contains => put_contains(alloc, among, siblings, value),
        Change::Anchor => put_one(alloc, among, "$anchor", anchor_upgraded(alloc, value)?),
        Change::RecursiveReference => put_one(alloc, among, "$dynamicRef", value),
        Change::RecursiveAnchor => put_recursive_anchor(alloc, among, siblings, &value),
        _ => put_one(alloc, among, name, value),
    }
}

fn put_disallowed(alloc: Global, among: &mut Members, value: &Doc) -> Result<(), Memory>
    ensures { OnOk result (among.new ≡ put_all (one (codes "not")
        (spec.object (spec.members (put_all (types_upgraded (value_of value.now)) [])))) among.old) }
{
    let mut types = Members::new(alloc);
    put_types(alloc, &mut types, value)?;
    put_one(alloc, among, "not", Doc::Members(types))
}

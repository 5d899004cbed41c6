//! What a keyword becomes, put among the keywords of its schema. Its argument comes with the schemas that it holds
//! upgraded already.
ghost use Rattle.std.specs.Prelude.{◌≡◌, OnOk, IfOk, Some, [], codes, if◌then◌else◌};
ghost use Rattle.js_doc.specs.Members.{get};
ghost use Rattle.js_doc.specs.Seen.{value_of};
ghost use Rattle.js_doc.specs.Value as spec;
ghost use Rattle.js_upgrade.specs.Schema.{dependencies_upgraded, dependent_names, dependent_schema, extends_upgraded};
ghost use Rattle.js_upgrade.specs.Schema.{gathered_members, is_some_list, is_true, list_or_schema_upgraded, one};
ghost use Rattle.js_upgrade.specs.Schema.{put_all};

use crate::gathering::{put_one, put_some_items, put_some_members};
use crate::once::each_once;
use js_doc::{Doc, Items, Members, Memory};
use std::alloc::Global;

/// `items`: a list, or one schema.
#[tactic(auto, using(crate::proofs::Gathered::gathering_rules))]
pub(crate) fn put_list_or_schema(
    alloc: Global,
    among: &mut Members,
    value: Doc,
) -> Result<(), Memory>
    ensures { OnOk result (among.new ≡ put_all (list_or_schema_upgraded (value_of value)) among.old) }
{
    match value {
        Doc::List(items) => put_some_items(alloc, among, "prefixItems", items.into_vec()),
        schema => put_one(alloc, among, "items", schema),
    }
}

/// `extends`: a list, or one schema.
#[tactic(auto, using(crate::proofs::Gathered::gathering_rules))]
pub(crate) fn put_extended(alloc: Global, among: &mut Members, value: Doc) -> Result<(), Memory>
    ensures { OnOk result (among.new ≡ put_all (extends_upgraded (value_of value)) among.old) }
{
    match value {
        Doc::List(items) => put_some_items(alloc, among, "allOf", items.into_vec()),
        schema => {
            let mut schemas = Vec::new(alloc);
            schemas.push(schema)?;
            put_one(alloc, among, "allOf", Doc::List(Items::new(schemas)))
        }
    }
}

/// `additionalItems`: it acts beside a list.
pub(crate) fn put_behind_list(
    alloc: Global,
    among: &mut Members,
    siblings: &Members,
    value: Doc,
) -> Result<(), Memory>
    ensures { OnOk result (among.new
        ≡ put_all (if is_some_list (get (codes "items") siblings.now) then one (codes "items") (value_of value) else [])
        among.old) }
{
    if has_list(siblings, "items") {
        put_one(alloc, among, "items", value)
    } else {
        Ok(())
    }
}

pub(crate) fn has_list(siblings: &Members, name: &str) -> bool
    ensures { result ≡ is_some_list (get name.now siblings.now) }
{
    matches!(siblings.get(name), Some(Doc::List(_)))
}

pub(crate) fn has_true(siblings: &Members, name: &str) -> bool
    ensures { result ≡ is_true (get name.now siblings.now) }
{
    match siblings.get(name) {
        Some(Doc::Truth(b)) => *b,
        _ => false,
    }
}

pub(crate) fn is_truth(value: &Doc) -> bool
    ensures { result ≡ is_true (Some (value_of value.now)) }
{
    match value {
        Doc::Truth(b) => *b,
        _ => false,
    }
}

/// `minimum` or `maximum`: another keyword if the exclusive one is true beside it.
pub(crate) fn put_limit(
    alloc: Global,
    among: &mut Members,
    siblings: &Members,
    name: &str,
    exclusive: &str,
    value: Doc,
) -> Result<(), Memory>
    ensures { OnOk result (among.new
        ≡ put_all (one (if is_true (get exclusive.now siblings.now) then exclusive.now else name.now) (value_of value))
        among.old) }
{
    if has_true(siblings, exclusive) {
        put_one(alloc, among, exclusive, value)
    } else {
        put_one(alloc, among, name, value)
    }
}

/// `dependencies`: names, and schemas.
pub(crate) fn put_dependencies(alloc: Global, among: &mut Members, value: Doc) -> Result<(), Memory>
    ensures { OnOk result (among.new ≡ put_all (dependencies_upgraded (value_of value)) among.old) }
{
    match value {
        Doc::Members(members) => put_both_dependencies(alloc, among, &members),
        _ => Ok(()),
    }
}

#[tactic(auto, using(crate::proofs::Gathered::gathering_rules))]
fn put_both_dependencies(
    alloc: Global,
    among: &mut Members,
    members: &Members,
) -> Result<(), Memory>
    ensures { OnOk result (among.new
        ≡ put_all (dependencies_upgraded (spec.object (spec.members members.now))) among.old) }
{
    let names = dependent_names(alloc, members)?;
    let schemas = dependent_schemas(alloc, members)?;
    put_some_members(alloc, among, "dependentRequired", names)?;
    put_some_members(alloc, among, "dependentSchemas", schemas)
}

fn dependent_names(alloc: Global, members: &Members) -> Result<Members, Memory>
    ensures { IfOk result (λ m. m ≡ gathered_members dependent_names members.now []) }
{
    let mut found = Members::new(alloc);
    for (name, value) in members.pairs() {
        put_dependent_names(alloc, &mut found, name.as_str(), value)?;
    }
    Ok(found)
}

#[tactic(auto, using(crate::proofs::Gathered::gathering_rules))]
fn put_dependent_names(
    alloc: Global,
    among: &mut Members,
    name: &str,
    value: &Doc,
) -> Result<(), Memory>
    ensures { OnOk result (among.new ≡ put_all (dependent_names name.now (value_of value.now)) among.old) }
{
    match value {
        Doc::List(items) => {
            let names = each_once(alloc, items.as_slice())?;
            put_one(alloc, among, name, Doc::List(Items::new(names)))
        }
        Doc::Text(text) => {
            let mut names = Vec::new(alloc);
            names.push(Doc::Text(text.copy()?))?;
            put_one(alloc, among, name, Doc::List(Items::new(names)))
        }
        _ => Ok(()),
    }
}

fn dependent_schemas(alloc: Global, members: &Members) -> Result<Members, Memory>
    ensures { IfOk result (λ m. m ≡ gathered_members dependent_schema members.now []) }
{
    let mut found = Members::new(alloc);
    for (name, value) in members.pairs() {
        put_dependent_schema(alloc, &mut found, name.as_str(), value)?;
    }
    Ok(found)
}

fn put_dependent_schema(
    alloc: Global,
    among: &mut Members,
    name: &str,
    value: &Doc,
) -> Result<(), Memory>
    ensures { OnOk result (among.new ≡ put_all (dependent_schema name.now (value_of value.now)) among.old) }
{
    match value {
        Doc::List(_) | Doc::Text(_) => Ok(()),
        schema => put_one(alloc, among, name, schema.copy(alloc)?),
    }
}

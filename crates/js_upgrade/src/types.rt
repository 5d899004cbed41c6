//! `type` and `disallow` of draft-03: names of types, and schemas (sections 5.1 and 5.25).
ghost use Rattle.std.specs.Prelude.{◌≡◌, [], ◌∷◌, OnOk, IfOk, map};
ghost use Rattle.std.specs.List.{list_any};
ghost use Rattle.js_doc.specs.Seen.{value_of};
ghost use Rattle.js_upgrade.specs.Schema.{alternative, alternatives_upgraded, is_any, is_simple_type, put_all};
ghost use Rattle.js_upgrade.specs.Schema.{types_upgraded};

use crate::gathering::put_one;
use js_doc::{Doc, Items, Members, Memory};
use std::alloc::Global;

/// What `type` says, put among the keywords of its schema.
///
/// # Errors
/// `Memory`.
#[tactic(auto, using(crate::proofs::Gathered::gathering_rules))]
pub(crate) fn put_types(alloc: Global, among: &mut Members, value: &Doc) -> Result<(), Memory>
    ensures { OnOk result (among.new ≡ put_all (types_upgraded (value_of value.now)) among.old) }
{
    match value {
        Doc::Text(name) => {
            if is_simple_type(name.as_str()) {
                put_one(alloc, among, "type", Doc::Text(name.copy()?))
            } else {
                Ok(())
            }
        }
        Doc::List(items) => put_alternatives(alloc, among, items.as_slice()),
        Doc::Null | Doc::Truth(_) | Doc::Whole(_) => Ok(()),
        Doc::Members(_) => put_alone(alloc, among, value),
    }
}

fn put_alone(alloc: Global, among: &mut Members, value: &Doc) -> Result<(), Memory>
    ensures { OnOk result (among.new ≡ put_all (alternatives_upgraded (value_of value.now ∷ [])) among.old) }
{
    let mut alone = Vec::new(alloc);
    alone.push(value.copy(alloc)?)?;
    put_alternatives(alloc, among, alone.as_slice())
}

#[tactic(auto, unfolding(crate::specs::Schema::is_simple_type))]
fn is_simple_type(name: &str) -> bool
    ensures { result ≡ is_simple_type name.now }
{
    match name {
        "string" | "number" | "integer" | "boolean" | "object" | "array" | "null" => true,
        _ => false,
    }
}

fn is_any(value: &Doc) -> bool
    ensures { result ≡ is_any (value_of value.now) }
{
    match value {
        Doc::Text(name) => !is_simple_type(name.as_str()),
        Doc::Members(_) => false,
        _ => true,
    }
}

pub(crate) fn has_any(docs: &[Doc]) -> bool
    ensures { result ≡ list_any (λ d. is_any (value_of d)) docs.now }
{
    docs.iter().any(|doc| is_any(doc))
}

#[tactic(auto, using(crate::proofs::Alternatives::alternative_rules))]
fn put_alternatives(alloc: Global, among: &mut Members, docs: &[Doc]) -> Result<(), Memory>
    ensures { OnOk result (among.new ≡ put_all (alternatives_upgraded (map value_of docs.now)) among.old) }
{
    if docs.is_empty() {
        let mut never = Vec::new(alloc);
        never.push(Doc::Truth(false))?;
        return put_one(alloc, among, "anyOf", Doc::List(Items::new(never)));
    }
    if has_any(docs) {
        return Ok(());
    }
    let schemas = alternatives(alloc, docs)?;
    put_one(alloc, among, "anyOf", Doc::List(Items::new(schemas)))
}

fn alternatives(alloc: Global, docs: &[Doc]) -> Result<Vec<Doc>, Memory>
    ensures { IfOk result (λ v. map value_of v.items ≡ map alternative (map value_of docs.now)) }
{
    let mut schemas = Vec::new(alloc);
    for doc in docs {
        schemas.push(alternative(alloc, doc)?)?;
    }
    Ok(schemas)
}

fn alternative(alloc: Global, doc: &Doc) -> Result<Doc, Memory>
    ensures { IfOk result (λ d. value_of d ≡ alternative (value_of doc.now)) }
{
    match doc {
        Doc::Text(name) => {
            let mut schema = Members::new(alloc);
            put_one(alloc, &mut schema, "type", Doc::Text(name.copy()?))?;
            Ok(Doc::Members(schema))
        }
        _ => doc.copy(alloc),
    }
}

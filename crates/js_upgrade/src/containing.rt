//! `contains` of 2019-09, which evaluates no items for `unevaluatedItems` (Core, 9.3.1.4).
ghost use Rattle.std.specs.Prelude.{◌≡◌, OnOk, IfOk, option_map};
ghost use Rattle.js_doc.specs.Members.{has_name};
ghost use Rattle.js_doc.specs.Seen.{value_of};
ghost use Rattle.js_upgrade.specs.Schema.{contains_upgraded, contains_with_limits, holder, negation, put_all};
ghost use Rattle.js_upgrade.specs.Schema.{some_value};

use crate::gathering::put_one;
use js_doc::{Doc, Items, Members, Memory};
use std::alloc::Global;

/// `contains`, behind two `not`s in a list of schemas.
///
/// # Errors
/// `Memory`.
pub(crate) fn put_contains(
    alloc: Global,
    among: &mut Members,
    siblings: &Members,
    value: Doc,
) -> Result<(), Memory>
    ensures { OnOk result (among.new ≡ put_all (contains_upgraded siblings.now (value_of value)) among.old) }
{
    let contains_with_limits = contains_with_limits(alloc, siblings, value)?;
    let negated = negation(alloc, contains_with_limits)?;
    let mut schemas = Vec::new(alloc);
    schemas.push(negation(alloc, negated)?)?;
    put_one(
        alloc,
        among,
        holder(siblings),
        Doc::List(Items::new(schemas)),
    )
}

/// The first of the lists of schemas that the schema doesn't have; `contains` if it has all.
pub(crate) fn holder(siblings: &Members) -> &'static str
    ensures { result.now ≡ holder siblings.now }
{
    if !has(siblings, "allOf") {
        return "allOf";
    }
    if !has(siblings, "anyOf") {
        return "anyOf";
    }
    if has(siblings, "oneOf") {
        "contains"
    } else {
        "oneOf"
    }
}

fn has(siblings: &Members, name: &str) -> bool
    ensures { result ≡ has_name name.now siblings.now }
{
    siblings.get(name).is_some()
}

fn negation(alloc: Global, schema: Doc) -> Result<Doc, Memory>
    ensures { IfOk result (λ d. value_of d ≡ negation (value_of schema)) }
{
    let mut keywords = Members::new(alloc);
    put_one(alloc, &mut keywords, "not", schema)?;
    Ok(Doc::Members(keywords))
}

// With the limits beside it.
#[tactic(auto, using(crate::proofs::Gathered::gathering_rules))]
fn contains_with_limits(alloc: Global, siblings: &Members, value: Doc) -> Result<Doc, Memory>
    ensures { IfOk result (λ d. value_of d ≡ contains_with_limits siblings.now (value_of value)) }
{
    let mut keywords = Members::new(alloc);
    put_one(alloc, &mut keywords, "contains", value)?;
    put_some(
        alloc,
        &mut keywords,
        "maxContains",
        siblings.get("maxContains"),
    )?;
    put_some(
        alloc,
        &mut keywords,
        "minContains",
        siblings.get("minContains"),
    )?;
    Ok(Doc::Members(keywords))
}

fn put_some(
    alloc: Global,
    among: &mut Members,
    name: &str,
    found: Option<&Doc>,
) -> Result<(), Memory>
    ensures { OnOk result (among.new
        ≡ put_all (some_value name.now (option_map (λ d. value_of d.now) found.entry)) among.old) }
{
    match found {
        Some(value) => put_one(alloc, among, name, value.copy(alloc)?),
        None => Ok(()),
    }
}

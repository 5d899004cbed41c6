//! The first fault in a value that holds schemas.
ghost use Rattle.std.specs.Prelude.{◌≡◌, IfOk, decimal, map, option_map};
ghost use Rattle.js_doc.specs.Seen.{value_of};
ghost use Rattle.js_doc.specs.Value.{items, members, object};
ghost use Rattle.js_upgrade.specs.Fault.{at_keyword, deeper, fault_in, item_fault, member_fault, other_fault};
ghost use Rattle.js_upgrade.specs.Fault.{name_fault, reference_fault, schema_fault, unevaluated_fault};
ghost use Rattle.js_upgrade.specs.Resource.{own_base};
ghost use Rattle.js_upgrade.specs.Seen.{found_of};
ghost use Rattle.js_upgrade.specs.Upgrade.{holding_in};
ghost use Rattle.js_upgrade.specs.code.FaultBelow.{fault_below};
ghost use Rattle.js_upgrade.specs.code.Table.{all_of};
ghost use Rattle.js_upgrade.specs.declared.fault.Pass.TheVariants.{AnyOfThese};
ghost use Rattle.js_upgrade.specs.declared.holding.SchemaHolding.TheVariants.{One};

use crate::dialect::Dialect;
use crate::fault::{Pass, UpgradeFaultKind};
use crate::holding::{SchemaHolding, holding_by_change};
use crate::kinds::{
    anchor_kind, contained_kind, contains_kind, declared_kind, own_kind, recursive_kind,
    reference_kind, unevaluated_kind,
};
use crate::lookup::found;
use crate::resource_table::ResourceTable;
use crate::resources::identity;
use crate::schema::{change_beside, hides, identifier, own_dialect};
use crate::scope::{Scope, number_here};
use js_doc::{Doc, Items, Members, Memory, Pointer};
use std::alloc::Global;
use url::Url;

/// A fault in a document: the tokens on the way back from it, and its kind.
#[derive(Drop)]
pub(crate) struct FoundFault {
    pub back: Pointer,
    pub kind: UpgradeFaultKind,
}

/// A fault at a keyword of the schema, if there is one.
///
/// # Errors
/// `Memory`.
pub(crate) fn at_keyword(
    alloc: Global,
    keyword: &str,
    kind: Option<UpgradeFaultKind>,
) -> Result<Option<FoundFault>, Memory>
    ensures { IfOk result (λ f. option_map found_of f ≡ at_keyword keyword.now kind) }
{
    match kind {
        Some(kind) => {
            let mut back = Pointer::new(alloc);
            back.push(keyword)?;
            Ok(Some(FoundFault { back, kind }))
        }
        None => Ok(None),
    }
}

// The fault, behind one more token.
fn deeper(found: FoundFault, token: &str) -> Result<FoundFault, Memory>
    ensures { IfOk result (λ f. found_of f ≡ deeper token.now (found_of found)) }
{
    let mut found = found;
    found.back.push(token)?;
    Ok(found)
}

// The fault, if there is one, behind one more token.
fn deeper_by(found: Option<FoundFault>, token: &str) -> Result<Option<FoundFault>, Memory>
    ensures { IfOk result (λ f. option_map found_of f ≡ option_map (deeper token.now) (option_map found_of found)) }
{
    match found {
        Some(found) => Ok(Some(deeper(found, token)?)),
        None => Ok(None),
    }
}

// The fault, if there is one, behind the index of an item.
fn deeper_at(
    alloc: Global,
    found: Option<FoundFault>,
    index: usize,
) -> Result<Option<FoundFault>, Memory>
    ensures { IfOk result (λ f. option_map found_of f
        ≡ option_map (deeper (decimal index)) (option_map found_of found)) }
{
    let token = index.to_string(alloc)?;
    deeper_by(found, token.as_str())
}

// Of the schema itself. Its own base is that of the scope.
fn schema_fault(
    alloc: Global,
    pass: Pass,
    scope: &Scope<'_>,
    dialect: Dialect,
    own: Dialect,
    base: &Url,
    siblings: &Members,
) -> Result<Option<FoundFault>, Memory>
    requires { scope.now.base.now ≡ own_base own base.now siblings.now }
    ensures { IfOk result (λ f. option_map found_of f ≡ schema_fault pass (all_of scope.now.resources.now)
        dialect own base.now scope.now.base.now siblings.now) }
{
    match pass {
        Pass::Names => name_fault(alloc, dialect, own, base, scope.base, siblings),
        Pass::References => reference_fault(alloc, scope, own, siblings),
        Pass::Unevaluated => unevaluated_fault(alloc, own, siblings),
        Pass::Contained => at_keyword(alloc, "contains", contained_kind(own, siblings)),
        Pass::AnyOfThese => any_fault(alloc, scope, dialect, own, base, siblings),
    }
}

/// What the first three passes look for in a schema itself.
///
/// # Errors
/// `Memory`.
pub(crate) fn any_fault(
    alloc: Global,
    scope: &Scope<'_>,
    dialect: Dialect,
    own: Dialect,
    base: &Url,
    siblings: &Members,
) -> Result<Option<FoundFault>, Memory>
    requires { scope.now.base.now ≡ own_base own base.now siblings.now }
    ensures { IfOk result (λ f. option_map found_of f ≡ schema_fault AnyOfThese (all_of scope.now.resources.now)
        dialect own base.now scope.now.base.now siblings.now) }
{
    let name = name_fault(alloc, dialect, own, base, scope.base, siblings)?;
    if name.is_some() {
        return Ok(name);
    }
    let reference = reference_fault(alloc, scope, own, siblings)?;
    if reference.is_some() {
        return Ok(reference);
    }
    unevaluated_fault(alloc, own, siblings)
}

// `below` is the schema's own base.
fn name_fault(
    alloc: Global,
    dialect: Dialect,
    own: Dialect,
    base: &Url,
    below: &Url,
    siblings: &Members,
) -> Result<Option<FoundFault>, Memory>
    requires { below.now ≡ own_base own base.now siblings.now }
    ensures { IfOk result (λ f. option_map found_of f ≡ name_fault dialect own base.now siblings.now) }
{
    let declared = declared_kind(dialect, siblings);
    if declared.is_some() {
        return at_keyword(alloc, "$schema", declared);
    }
    let named = own_kind(own, base, below, siblings)?;
    at_keyword(alloc, identifier(own), named)
}

fn reference_fault(
    alloc: Global,
    scope: &Scope<'_>,
    own: Dialect,
    siblings: &Members,
) -> Result<Option<FoundFault>, Memory>
    ensures { IfOk result (λ f. option_map found_of f
        ≡ reference_fault (all_of scope.now.resources.now) own scope.now.base.now siblings.now) }
{
    let kind = reference_kind(alloc, scope, found(siblings, "$ref"))?;
    if kind.is_some() {
        return at_keyword(alloc, "$ref", kind);
    }
    other_fault(alloc, scope.resources, own, siblings)
}

fn unevaluated_fault(
    alloc: Global,
    own: Dialect,
    siblings: &Members,
) -> Result<Option<FoundFault>, Memory>
    ensures { IfOk result (λ f. option_map found_of f ≡ unevaluated_fault own siblings.now) }
{
    at_keyword(alloc, "unevaluatedItems", unevaluated_kind(own, siblings))
}

// Of what isn't `$ref`, in a schema of this dialect.
fn other_fault(
    alloc: Global,
    resources: &ResourceTable<'_>,
    own: Dialect,
    siblings: &Members,
) -> Result<Option<FoundFault>, Memory>
    ensures { IfOk result (λ f. option_map found_of f ≡ other_fault (all_of resources.now) own siblings.now) }
{
    let recursive = recursive_kind(own, siblings);
    if recursive.is_some() {
        return at_keyword(alloc, "$recursiveRef", recursive);
    }
    let contains = contains_kind(own, siblings);
    if contains.is_some() {
        return at_keyword(alloc, "contains", contains);
    }
    at_keyword(
        alloc,
        "$dynamicAnchor",
        anchor_kind(resources, own, siblings),
    )
}

/// The first fault in a value that holds schemas.
///
/// # Errors
/// `Memory`.
#[cycle(faults)]
pub(crate) fn fault_in(
    alloc: Global,
    pass: Pass,
    scope: &Scope<'_>,
    holding: SchemaHolding,
    dialect: Dialect,
    value: &Doc,
) -> Result<Option<FoundFault>, Memory>
    ensures { IfOk result (λ f. option_map found_of f
        ≡ fault_in pass (all_of scope.now.resources.now) holding dialect scope.now.base.now (value_of value.now)) }
{
    match value {
        Doc::Members(members) => match holding {
            SchemaHolding::One => fault_in_schema(alloc, pass, scope, dialect, members),
            SchemaHolding::OneOrListed => fault_in_schema(alloc, pass, scope, dialect, members),
            SchemaHolding::Named => fault_in_members(alloc, pass, scope, dialect, members),
            SchemaHolding::Listed => Ok(None),
            SchemaHolding::Nothing => Ok(None),
        },
        Doc::List(items) => match holding {
            SchemaHolding::Listed => fault_in_items(alloc, pass, scope, dialect, items),
            SchemaHolding::OneOrListed => fault_in_items(alloc, pass, scope, dialect, items),
            SchemaHolding::One => Ok(None),
            SchemaHolding::Named => Ok(None),
            SchemaHolding::Nothing => Ok(None),
        },
        _ => Ok(None),
    }
}

#[cycle(faults)]
fn fault_in_schema(
    alloc: Global,
    pass: Pass,
    scope: &Scope<'_>,
    dialect: Dialect,
    siblings: &Members,
) -> Result<Option<FoundFault>, Memory>
    ensures { IfOk result (λ f. option_map found_of f
        ≡ fault_in pass (all_of scope.now.resources.now) One dialect scope.now.base.now
        (object (members siblings.now))) }
{
    let own = own_dialect(dialect, siblings);
    let found = identity(own, scope.base, siblings)?;
    match found {
        Some(below) => {
            let inner = Scope {
                resources: scope.resources,
                base: &below,
                here: number_here(scope.resources, &below)?,
            };
            fault_below(alloc, pass, &inner, dialect, own, scope.base, siblings)
        }
        None => fault_below(alloc, pass, scope, dialect, own, scope.base, siblings),
    }
}

// In a schema whose own base is that of the scope.
#[cycle(faults)]
fn fault_below(
    alloc: Global,
    pass: Pass,
    scope: &Scope<'_>,
    dialect: Dialect,
    own: Dialect,
    base: &Url,
    siblings: &Members,
) -> Result<Option<FoundFault>, Memory>
    requires { scope.now.base.now ≡ own_base own base.now siblings.now }
    ensures { IfOk result (λ f. option_map found_of f ≡ fault_below pass (all_of scope.now.resources.now)
        dialect own base.now scope.now.base.now siblings.now) }
{
    let here = schema_fault(alloc, pass, scope, dialect, own, base, siblings)?;
    if here.is_some() {
        return Ok(here);
    }
    fault_in_keywords(alloc, pass, scope, own, siblings)
}

#[cycle(faults)]
fn fault_in_keywords(
    alloc: Global,
    pass: Pass,
    scope: &Scope<'_>,
    dialect: Dialect,
    siblings: &Members,
) -> Result<Option<FoundFault>, Memory>
    ensures { IfOk result (λ f. option_map found_of f ≡ member_fault pass (all_of scope.now.resources.now)
        (holding_in dialect siblings.now) dialect scope.now.base.now (members siblings.now)) }
{
    let hidden = hides(dialect, siblings);
    for (name, argument) in siblings.pairs() {
        let key = name.as_str();
        let holding = holding_by_change(change_beside(hidden, dialect, key));
        let found = fault_in(alloc, pass, scope, holding, dialect, argument)?;
        if found.is_some() {
            return deeper_by(found, key);
        }
    }
    Ok(None)
}

#[cycle(faults)]
fn fault_in_members(
    alloc: Global,
    pass: Pass,
    scope: &Scope<'_>,
    dialect: Dialect,
    schemas: &Members,
) -> Result<Option<FoundFault>, Memory>
    ensures { IfOk result (λ f. option_map found_of f
        ≡ member_fault pass (all_of scope.now.resources.now) (λ name. One) dialect scope.now.base.now
        (members schemas.now)) }
{
    for (name, schema) in schemas.pairs() {
        let found = fault_in(alloc, pass, scope, SchemaHolding::One, dialect, schema)?;
        if found.is_some() {
            return deeper_by(found, name.as_str());
        }
    }
    Ok(None)
}

#[cycle(faults)]
fn fault_in_items(
    alloc: Global,
    pass: Pass,
    scope: &Scope<'_>,
    dialect: Dialect,
    schemas: &Items,
) -> Result<Option<FoundFault>, Memory>
    ensures { IfOk result (λ f. option_map found_of f
        ≡ item_fault pass (all_of scope.now.resources.now) dialect scope.now.base.now 0 (items schemas.now)) }
{
    let docs = schemas.as_slice();
    for i in 0..docs.len() {
        let found = fault_in(alloc, pass, scope, SchemaHolding::One, dialect, &docs[i])?;
        if found.is_some() {
            return deeper_at(alloc, found, i);
        }
    }
    Ok(None)
}

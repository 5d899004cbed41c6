//! A value in which schemas are upgraded, and their references rewritten where it is known where they may lead.
ghost use Rattle.std.specs.Prelude.{◌≡◌, IfOk, Some, map};
ghost use Rattle.js_doc.specs.Seen.{value_of};
ghost use Rattle.js_doc.specs.Value.{items, members, object};
ghost use Rattle.js_upgrade.specs.Reference.{as_it_is, relocated};
ghost use Rattle.js_upgrade.specs.Upgrade.{holding_by_change, upgraded};
ghost use Rattle.js_upgrade.specs.code.Placed.{argument_at, items_placed, keywords_placed, members_placed, place_below};
ghost use Rattle.js_upgrade.specs.code.Placed.{placed, scope_at, scope_seen};
ghost use Rattle.js_upgrade.specs.code.Table.{all_of};
ghost use Rattle.js_upgrade.specs.declared.holding.SchemaHolding.TheVariants.{One};

use crate::becoming::put_upgraded;
use crate::dialect::Dialect;
use crate::gathering::put_one;
use crate::holding::{SchemaHolding, holding_by_change};
use crate::keyword::Change;
use crate::recursion::recursion_rewritten;
use crate::resources::identity;
use crate::schema::{change_beside, hides, own_dialect};
use crate::scope::{Scope, number_here};
use crate::target::rewritten;
use js_doc::{Doc, Items, Members, Memory};
use std::alloc::Global;

/// The value with the schemas that it holds upgraded.
///
/// # Errors
/// `Memory`.
pub fn upgraded(
    alloc: Global,
    holding: SchemaHolding,
    dialect: Dialect,
    value: &Doc,
) -> Result<Doc, Memory>
    ensures { IfOk result (λ d. value_of d ≡ upgraded holding dialect (value_of value.now)) }
{
    placed(alloc, None, holding, dialect, value)
}

/// A schema, upgraded with its references rewritten to where their targets stand.
///
/// # Errors
/// `Memory`.
pub(crate) fn upgraded_in(
    alloc: Global,
    scope: &Scope<'_>,
    dialect: Dialect,
    schema: &Doc,
) -> Result<Doc, Memory>
    ensures { IfOk result (λ d. value_of d ≡ upgraded One dialect
        (relocated (all_of scope.now.resources.now) One dialect scope.now.base.now (value_of schema.now))) }
{
    placed(alloc, Some(scope), SchemaHolding::One, dialect, schema)
}

#[cycle(upgrade)]
fn placed(
    alloc: Global,
    scope: Option<&Scope<'_>>,
    holding: SchemaHolding,
    dialect: Dialect,
    value: &Doc,
) -> Result<Doc, Memory>
    ensures { IfOk result
        (λ d. value_of d ≡ placed holding dialect (scope_at scope.entry) (value_of value.now)) }
{
    match value {
        Doc::Members(members) => match holding {
            SchemaHolding::One => Ok(Doc::Members(schema_placed(alloc, scope, dialect, members)?)),
            SchemaHolding::OneOrListed => Ok(Doc::Members(schema_placed(
                alloc, scope, dialect, members,
            )?)),
            SchemaHolding::Named => {
                Ok(Doc::Members(members_placed(alloc, scope, dialect, members)?))
            }
            SchemaHolding::Listed => value.copy(alloc),
            SchemaHolding::Nothing => value.copy(alloc),
        },
        Doc::List(items) => match holding {
            SchemaHolding::Listed => Ok(Doc::List(items_placed(alloc, scope, dialect, items)?)),
            SchemaHolding::OneOrListed => {
                Ok(Doc::List(items_placed(alloc, scope, dialect, items)?))
            }
            SchemaHolding::One => value.copy(alloc),
            SchemaHolding::Named => value.copy(alloc),
            SchemaHolding::Nothing => value.copy(alloc),
        },
        _ => value.copy(alloc),
    }
}

#[cycle(upgrade)]
fn schema_placed(
    alloc: Global,
    scope: Option<&Scope<'_>>,
    dialect: Dialect,
    siblings: &Members,
) -> Result<Members, Memory>
    ensures { IfOk result (λ m. object (members m)
        ≡ placed One dialect (scope_at scope.entry) (object (members siblings.now))) }
{
    let own = own_dialect(dialect, siblings);
    match scope {
        Some(scope) => schema_among(alloc, scope, own, siblings),
        None => keywords_placed(alloc, None, own, siblings),
    }
}

// The keywords of a schema of this dialect. The scope is that around it.
#[cycle(upgrade)]
fn schema_among(
    alloc: Global,
    scope: &Scope<'_>,
    own: Dialect,
    siblings: &Members,
) -> Result<Members, Memory>
    ensures { IfOk result
        (λ m. m ≡ keywords_placed own (place_below (Some (scope_seen scope.now)) own siblings.now) siblings.now) }
{
    let found = identity(own, scope.base, siblings)?;
    match found {
        Some(below) => {
            let inner = Scope {
                resources: scope.resources,
                base: &below,
                here: number_here(scope.resources, &below)?,
            };
            keywords_placed(alloc, Some(&inner), own, siblings)
        }
        None => keywords_placed(alloc, Some(scope), own, siblings),
    }
}

#[cycle(upgrade)]
fn keywords_placed(
    alloc: Global,
    scope: Option<&Scope<'_>>,
    own: Dialect,
    siblings: &Members,
) -> Result<Members, Memory>
    ensures { IfOk result
        (λ m. m ≡ keywords_placed own (scope_at scope.entry) siblings.now) }
{
    let hidden = hides(own, siblings);
    let mut keywords = Members::new(alloc);
    for (name, argument) in siblings.pairs() {
        let key = name.as_str();
        let change = change_beside(hidden, own, key);
        let value = argument_placed(alloc, scope, own, change, argument)?;
        put_upgraded(alloc, &mut keywords, change, siblings, key, value)?;
    }
    Ok(keywords)
}

#[cycle(upgrade)]
fn argument_placed(
    alloc: Global,
    scope: Option<&Scope<'_>>,
    dialect: Dialect,
    change: Change,
    argument: &Doc,
) -> Result<Doc, Memory>
    ensures { IfOk result (λ d. value_of d
        ≡ argument_at (scope_at scope.entry) change (value_of argument.now)
        (placed (holding_by_change change) dialect (scope_at scope.entry) (value_of argument.now))) }
{
    match scope {
        Some(scope) => match change {
            Change::Refers => rewritten(alloc, scope, argument),
            Change::RecursiveReference => recursion_rewritten(
                alloc,
                scope.resources,
                scope.base,
                argument,
            ),
            _ => placed(
                alloc,
                Some(scope),
                holding_by_change(change),
                dialect,
                argument,
            ),
        },
        None => placed(alloc, None, holding_by_change(change), dialect, argument),
    }
}

#[cycle(upgrade)]
fn members_placed(
    alloc: Global,
    scope: Option<&Scope<'_>>,
    dialect: Dialect,
    schemas: &Members,
) -> Result<Members, Memory>
    ensures { IfOk result (λ m. m ≡ members_placed (λ name. One) as_it_is dialect (scope_at scope.entry)
        (members schemas.now)) }
{
    let mut out = Members::new(alloc);
    for (name, schema) in schemas.pairs() {
        let schema = placed(alloc, scope, SchemaHolding::One, dialect, schema)?;
        put_one(alloc, &mut out, name.as_str(), schema)?;
    }
    Ok(out)
}

#[cycle(upgrade)]
fn items_placed(
    alloc: Global,
    scope: Option<&Scope<'_>>,
    dialect: Dialect,
    schemas: &Items,
) -> Result<Items, Memory>
    ensures { IfOk result
        (λ vs. vs ≡ items_placed dialect (scope_at scope.entry) (items schemas.now)) }
{
    let docs = schemas.as_slice();
    let mut out = Vec::with_capacity(alloc, docs.len())?;
    for i in 0..docs.len() {
        out.push(placed(alloc, scope, SchemaHolding::One, dialect, &docs[i])?)?;
    }
    Ok(Items::new(out))
}

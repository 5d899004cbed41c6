//! What stands apart: in 2020-12 it is no schema where it stands.
ghost use Rattle.std.specs.Prelude.{◌≡◌, IfOk, is_some, option_map};
ghost use Rattle.js_doc.specs.Pointer.{Tokens};
ghost use Rattle.js_doc.specs.Seen.{value_of};
ghost use Rattle.js_doc.specs.Value.{Value};
ghost use Rattle.js_upgrade.specs.Apart.{apart, if_schema, is_resource, holds_schema, onward};
ghost use Rattle.js_upgrade.specs.Moved.{keyword_step, step};
ghost use Rattle.js_upgrade.specs.Upgrade.{own_dialect};
ghost use Rattle.js_upgrade.specs.code.Onward.{kept_on};
ghost use Rattle.js_upgrade.specs.declared.holding.SchemaHolding.TheVariants.{One};

use crate::dialect::Dialect;
use crate::holding::{SchemaHolding, holding_by_change};
use crate::moving::{Held, part_by_token, push_step};
use crate::schema::{change_of, identifies, own_dialect};
use js_doc::{Doc, Members, Memory, Pointer, Token};
use std::alloc::Global;

/// What stands at the tokens, where it stands apart, and in no other resource.
///
/// # Errors
/// `Memory`.
pub(crate) fn apart<'d>(
    alloc: Global,
    dialect: Dialect,
    root: &'d Doc,
    tokens: &[Token],
) -> Result<Option<&'d Doc>, Memory>
    ensures { IfOk result (λ v. option_map (λ d. value_of d.now) v
        ≡ apart One dialect (value_of root.now) tokens.now) }
{
    let mut held = Held {
        holding: SchemaHolding::One,
        dialect,
    };
    let mut here = root;
    for i in 0..tokens.len() {
        let token = tokens[i].as_str();
        let Some(part) = part_by_token(alloc, here, token)? else {
            return Ok(None);
        };
        match onward(alloc, held, here, token, part, &tokens[i + 1..])? {
            Some(below) => held = below,
            None => return Ok(None),
        }
        here = part;
    }
    if holds_schema(held.holding) {
        Ok(None)
    } else {
        Ok(Some(here))
    }
}

// How the part is held; None where there is more to come, in another resource.
fn onward(
    alloc: Global,
    held: Held,
    value: &Doc,
    token: &str,
    part: &Doc,
    rest: &[Token],
) -> Result<Option<Held>, Memory>
    ensures { IfOk result (λ h. h ≡ onward (step held.holding held.dialect (value_of value.now) token.now
        (value_of part.now) rest.now) (value_of part.now) rest.now) }
{
    let mut out = Pointer::new(alloc);
    match push_step(alloc, &mut out, held, value, token, part, rest)? {
        Some(below) => Ok(kept_on(below, below.holding, part, rest)),
        None => Ok(kept_on(
            held_below(held, value, token),
            SchemaHolding::Nothing,
            part,
            rest,
        )),
    }
}

// How the part is held on, unless there is more to come, in another resource.
fn kept_on(below: Held, holding: SchemaHolding, part: &Doc, rest: &[Token]) -> Option<Held>
    ensures { result ≡ kept_on below.holding below.dialect holding (value_of part.now) rest.now }
{
    if !rest.is_empty() && is_resource(below.holding, below.dialect, part) {
        None
    } else {
        Some(Held {
            holding,
            dialect: below.dialect,
        })
    }
}

// How the part that the token names is held, whether it goes or not.
fn held_below(held: Held, value: &Doc, token: &str) -> Held
    ensures { (part : Value) → (rest : Tokens)
        → (result.holding ≡ (step held.holding held.dialect (value_of value.now) token.now part rest).holding)
        × (result.dialect ≡ (step held.holding held.dialect (value_of value.now) token.now part rest).dialect) }
{
    let dialect = held.dialect;
    match value {
        Doc::Members(siblings) => match held.holding {
            SchemaHolding::One => held_by_keyword(dialect, siblings, token),
            SchemaHolding::OneOrListed => held_by_keyword(dialect, siblings, token),
            SchemaHolding::Named => held_as(SchemaHolding::One, dialect),
            SchemaHolding::Listed => held_as(SchemaHolding::Nothing, dialect),
            SchemaHolding::Nothing => held_as(SchemaHolding::Nothing, dialect),
        },
        Doc::List(_) => match held.holding {
            SchemaHolding::Listed => held_as(SchemaHolding::One, dialect),
            SchemaHolding::OneOrListed => held_as(SchemaHolding::One, dialect),
            SchemaHolding::One => held_as(SchemaHolding::Nothing, dialect),
            SchemaHolding::Named => held_as(SchemaHolding::Nothing, dialect),
            SchemaHolding::Nothing => held_as(SchemaHolding::Nothing, dialect),
        },
        _ => held_as(SchemaHolding::Nothing, dialect),
    }
}

fn held_as(holding: SchemaHolding, dialect: Dialect) -> Held
    ensures holding { result.holding ≡ holding }
    ensures dialect { result.dialect ≡ dialect }
{
    Held { holding, dialect }
}

fn held_by_keyword(dialect: Dialect, siblings: &Members, token: &str) -> Held
    ensures holding { (part : Value) → (rest : Tokens) → result.holding
        ≡ (keyword_step (own_dialect dialect siblings.now) siblings.now token.now part rest).holding }
    ensures dialect { (part : Value) → (rest : Tokens) → result.dialect
        ≡ (keyword_step (own_dialect dialect siblings.now) siblings.now token.now part rest).dialect }
{
    let own = own_dialect(dialect, siblings);
    held_as(holding_by_change(change_of(own, siblings, token)), own)
}

// Whether it is a schema with an identifier.
#[tactic(auto, using(crate::proofs::Gathered::gathering_rules))]
fn is_resource(holding: SchemaHolding, dialect: Dialect, value: &Doc) -> bool
    ensures { result ≡ is_resource holding dialect (value_of value.now) }
{
    match value {
        Doc::Members(siblings) => {
            holds_schema(holding) && identifies(own_dialect(dialect, siblings), siblings)
        }
        _ => false,
    }
}

fn holds_schema(holding: SchemaHolding) -> bool
    ensures { result ≡ holds_schema holding }
{
    matches!(holding, SchemaHolding::One | SchemaHolding::OneOrListed)
}

/// Whether it is an object or a truth value.
pub(crate) fn may_be_schema(value: &Doc) -> bool
    ensures { result ≡ is_some (if_schema (value_of value.now)) }
{
    matches!(value, Doc::Members(_) | Doc::Truth(_))
}

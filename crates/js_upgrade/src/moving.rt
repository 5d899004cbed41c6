//! Where what stands in a value stands when the value is upgraded.
ghost use Rattle.std.specs.Prelude.{◌≡◌, IfOk, option_map};
ghost use Rattle.js_doc.specs.Lookup.{part_named};
ghost use Rattle.js_doc.specs.Seen.{value_of};
ghost use Rattle.js_upgrade.specs.Moved.{keyword_step, moved_tokens, step, step_to};
ghost use Rattle.js_upgrade.specs.Upgrade.{own_dialect};
ghost use Rattle.js_upgrade.specs.code.Pushed.{IsStepped};

use crate::dialect::Dialect;
use crate::holding::{SchemaHolding, holding_by_change};
use crate::schema::{change_of, own_dialect};
use crate::under::push_under;
use js_doc::{Doc, Members, Memory, Pointer, Token};
use std::alloc::Global;

/// Where what stands at the tokens in a value stands when the value is upgraded, or None if nothing stands there or if
/// it goes.
///
/// # Errors
/// `Memory`.
pub fn moved_tokens(
    alloc: Global,
    holding: SchemaHolding,
    dialect: Dialect,
    value: &Doc,
    tokens: &[Token],
) -> Result<Option<Pointer>, Memory>
    ensures { IfOk result (λ p. p ≡ moved_tokens holding dialect (value_of value.now) tokens.now) }
{
    let mut out = Pointer::new(alloc);
    let mut here = value;
    let mut held = Held { holding, dialect };
    for i in 0..tokens.len() {
        let token = tokens[i].as_str();
        let Some(part) = part_by_token(alloc, here, token)? else {
            return Ok(None);
        };
        match push_step(alloc, &mut out, held, here, token, part, &tokens[i + 1..])? {
            Some(below) => held = below,
            None => return Ok(None),
        }
        here = part;
    }
    Ok(Some(out))
}

/// How a value is held, and in which dialect.
#[derive(Clone, Copy)]
pub(crate) struct Held {
    pub holding: SchemaHolding,
    pub dialect: Dialect,
}

// The item or member that the token names.
#[tactic(auto, using(crate::proofs::OneStep::part_rules))]
pub(crate) fn part_by_token<'d>(
    alloc: Global,
    value: &'d Doc,
    token: &str,
) -> Result<Option<&'d Doc>, Memory>
    ensures { IfOk result (λ d. option_map (λ d. value_of d.now) d ≡ part_named token.now (value_of value.now)) }
{
    match value {
        Doc::Members(members) => Ok(members.get(token)),
        Doc::List(_) => {
            let mut pointer = Pointer::new(alloc);
            pointer.push(token)?;
            Ok(value.at(&pointer))
        }
        _ => Ok(None),
    }
}

/// Adds what stands in place of the token, and says how the part that it names is held; None where it goes.
///
/// # Errors
/// `Memory`.
pub(crate) fn push_step(
    alloc: Global,
    out: &mut Pointer,
    held: Held,
    value: &Doc,
    token: &str,
    part: &Doc,
    rest: &[Token],
) -> Result<Option<Held>, Memory>
    ensures { IfOk result (IsStepped out.old out.new
        (step held.holding held.dialect (value_of value.now) token.now (value_of part.now) rest.now)) }
{
    match value {
        Doc::Members(siblings) => match held.holding {
            SchemaHolding::One => push_keyword(
                alloc,
                out,
                held.dialect,
                siblings,
                token,
                part,
                rest,
            ),
            SchemaHolding::OneOrListed => {
                push_keyword(alloc, out, held.dialect, siblings, token, part, rest)
            }
            SchemaHolding::Named => push_token(out, SchemaHolding::One, held.dialect, token),
            SchemaHolding::Listed => push_token(out, SchemaHolding::Nothing, held.dialect, token),
            SchemaHolding::Nothing => push_token(out, SchemaHolding::Nothing, held.dialect, token),
        },
        Doc::List(_) => match held.holding {
            SchemaHolding::Listed => push_token(out, SchemaHolding::One, held.dialect, token),
            SchemaHolding::OneOrListed => push_token(out, SchemaHolding::One, held.dialect, token),
            SchemaHolding::One => push_token(out, SchemaHolding::Nothing, held.dialect, token),
            SchemaHolding::Named => push_token(out, SchemaHolding::Nothing, held.dialect, token),
            SchemaHolding::Nothing => push_token(out, SchemaHolding::Nothing, held.dialect, token),
        },
        _ => push_token(out, SchemaHolding::Nothing, held.dialect, token),
    }
}

fn push_token(
    out: &mut Pointer,
    holding: SchemaHolding,
    dialect: Dialect,
    token: &str,
) -> Result<Option<Held>, Memory>
    ensures { IfOk result (IsStepped out.old out.new (step_to holding dialect token.now)) }
{
    out.push(token)?;
    Ok(Some(Held { holding, dialect }))
}

fn push_keyword(
    alloc: Global,
    out: &mut Pointer,
    dialect: Dialect,
    siblings: &Members,
    token: &str,
    part: &Doc,
    rest: &[Token],
) -> Result<Option<Held>, Memory>
    ensures { IfOk result (IsStepped out.old out.new (keyword_step (own_dialect dialect siblings.now) siblings.now
        token.now (value_of part.now) rest.now)) }
{
    let dialect = own_dialect(dialect, siblings);
    let change = change_of(dialect, siblings, token);
    if push_under(alloc, out, siblings, token, part, rest, change)? {
        Ok(Some(Held {
            holding: holding_by_change(change),
            dialect,
        }))
    } else {
        Ok(None)
    }
}

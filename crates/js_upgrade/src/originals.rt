//! Where what stands in an upgraded value comes from in the value as it was.
ghost use Rattle.std.specs.Prelude.{◌≡◌, ◌++◌, IfOk, OnOk};
ghost use Rattle.js_doc.specs.Lookup.{part_named};
ghost use Rattle.js_doc.specs.Seen.{value_of};
ghost use Rattle.js_upgrade.specs.Originals.{at_end, held_back, is_wrapper, item_back, joined_tokens, keyword_back};
ghost use Rattle.js_upgrade.specs.Originals.{keyword_from, lead, original, original_from, original_in, stay};
ghost use Rattle.js_upgrade.specs.Originals.{step_back, way_of};
ghost use Rattle.js_upgrade.specs.Upgrade.{own_dialect};
ghost use Rattle.js_upgrade.specs.code.Back.{IsStepBack};
ghost use Rattle.js_upgrade.specs.declared.originals.Way.TheVariants.{Held};
ghost use Rattle.js_upgrade.specs.declared.holding.SchemaHolding.TheVariants.{One};

use crate::copied_original::copied_original;
use crate::dialect::Dialect;
use crate::document::document_dialect;
use crate::holding::{SchemaHolding, holding_by_change};
use crate::keyword::Change;
use crate::moving::part_by_token;
use crate::origin::origin;
use crate::schema::{change_of, own_dialect};
use js_doc::{Doc, Members, Memory, Pointer, Token};
use std::alloc::Global;

/// How a value is read on the way back.
#[derive(Clone, Copy, Debug, PartialEq, Eq)]
pub(crate) enum Way {
    /// As it is held.
    Held(SchemaHolding),
    /// By its items; if it is no list, as the only item.
    Alternatives,
    /// The same, behind `not`.
    Negated,
    /// As the schema of a `contains` that stands in another keyword.
    Wrapped,
    /// As an object of names that are required.
    Names,
    /// No further: what the upgrade made of it begins here.
    Within,
}

// Where the way back has led.
#[derive(Clone, Copy)]
pub(crate) struct At<'d> {
    pub way: Way,
    pub dialect: Dialect,
    pub value: &'d Doc,
}

/// Where what stands at the tokens in the upgraded document comes from in the document as it was, or None if nothing
/// stands there or the root's dialect isn't known. Where the document names no dialect, the one given is assumed.
/// What the upgrade wrote of a part by itself, as the names in `required` of a draft-03 schema, comes from that part.
///
/// # Errors
/// `Memory`.
pub fn original(
    alloc: Global,
    assumed: Dialect,
    root: &Doc,
    tokens: &[Token],
) -> Result<Option<Pointer>, Memory>
    ensures { IfOk result (λ p. p ≡ original_in assumed (value_of root.now) tokens.now) }
{
    match document_dialect(assumed, root) {
        Some(dialect) => original_from(alloc, dialect, root, tokens),
        None => Ok(None),
    }
}

fn original_from(
    alloc: Global,
    dialect: Dialect,
    root: &Doc,
    tokens: &[Token],
) -> Result<Option<Pointer>, Memory>
    ensures { IfOk result (λ p. p ≡ original_from dialect (value_of root.now) tokens.now) }
{
    match copied_original(alloc, dialect, root, tokens)? {
        Some(place) => Ok(Some(place)),
        None => original_at(alloc, Pointer::new(alloc), dialect, root, tokens),
    }
}

/// The same of what stands in a schema, whose place is given.
///
/// # Errors
/// `Memory`.
pub(crate) fn original_at(
    alloc: Global,
    place: Pointer,
    dialect: Dialect,
    schema: &Doc,
    tokens: &[Token],
) -> Result<Option<Pointer>, Memory>
    ensures { IfOk result (λ p. p
        ≡ joined_tokens place (original (Held One) dialect (value_of schema.now) tokens.now)) }
{
    let mut out = place;
    let mut at = At {
        way: Way::Held(SchemaHolding::One),
        dialect,
        value: schema,
    };
    for i in 0..tokens.len() {
        match step_back(alloc, &mut out, at, tokens[i].as_str())? {
            Some(next) => at = next,
            None => return Ok(None),
        }
    }
    push_end(&mut out, at.way)?;
    Ok(Some(out))
}

// What is around `contains` comes from it.
#[tactic(auto, using(crate::proofs::StepsBack::stay_rules))]
fn push_end(out: &mut Pointer, way: Way) -> Result<(), Memory>
    ensures { OnOk result (out.new ≡ out.old ++ at_end way) }
{
    match way {
        Way::Wrapped => {
            out.push("contains")?;
            Ok(())
        }
        _ => Ok(()),
    }
}

// Adds what stands in place of a token, and says where it leads.
fn step_back<'d>(
    alloc: Global,
    out: &mut Pointer,
    at: At<'d>,
    token: &str,
) -> Result<Option<At<'d>>, Memory>
    ensures { IfOk result (IsStepBack out.old out.new
        (step_back at.entry.way at.entry.dialect (value_of at.entry.value.now) token.now)) }
{
    let At {
        way,
        dialect,
        value,
    } = at;
    match way {
        Way::Held(holding) => held_back(alloc, out, holding, dialect, value, token),
        Way::Alternatives => item_back(alloc, out, dialect, value, token),
        Way::Negated => Ok(stay(out, Way::Alternatives, dialect, value)),
        Way::Wrapped => {
            if is_wrapper(token) {
                Ok(stay(out, Way::Wrapped, dialect, value))
            } else {
                lead(
                    alloc,
                    out,
                    Way::Held(SchemaHolding::One),
                    dialect,
                    value,
                    token,
                )
            }
        }
        Way::Names => lead(alloc, out, Way::Within, dialect, value, token),
        Way::Within => Ok(stay(out, Way::Within, dialect, value)),
    }
}

fn is_wrapper(token: &str) -> bool
    ensures { result ≡ is_wrapper token.now }
{
    token == "0" || token == "not"
}

#[tactic(auto, using(crate::proofs::StepsBack::stay_rules))]
fn stay<'d>(_out: &Pointer, way: Way, dialect: Dialect, value: &'d Doc) -> Option<At<'d>>
    ensures { IsStepBack _out.now _out.now (stay way dialect (value_of value.now)) result }
{
    Some(At {
        way,
        dialect,
        value,
    })
}

fn lead<'d>(
    alloc: Global,
    out: &mut Pointer,
    way: Way,
    dialect: Dialect,
    value: &'d Doc,
    token: &str,
) -> Result<Option<At<'d>>, Memory>
    ensures { IfOk result (IsStepBack out.old out.new
        (lead way dialect token.now (part_named token.now (value_of value.now)))) }
{
    match part_by_token(alloc, value, token)? {
        Some(part) => {
            out.push(token)?;
            Ok(Some(At {
                way,
                dialect,
                value: part,
            }))
        }
        None => Ok(None),
    }
}

fn item_back<'d>(
    alloc: Global,
    out: &mut Pointer,
    dialect: Dialect,
    value: &'d Doc,
    token: &str,
) -> Result<Option<At<'d>>, Memory>
    ensures { IfOk result (IsStepBack out.old out.new (item_back dialect (value_of value.now) token.now)) }
{
    match value {
        Doc::List(_) => lead(
            alloc,
            out,
            Way::Held(SchemaHolding::One),
            dialect,
            value,
            token,
        ),
        _ => Ok(stay(out, Way::Held(SchemaHolding::One), dialect, value)),
    }
}

fn held_back<'d>(
    alloc: Global,
    out: &mut Pointer,
    holding: SchemaHolding,
    dialect: Dialect,
    value: &'d Doc,
    token: &str,
) -> Result<Option<At<'d>>, Memory>
    ensures { IfOk result (IsStepBack out.old out.new (held_back holding dialect (value_of value.now) token.now)) }
{
    let schemas = Way::Held(SchemaHolding::One);
    let others = Way::Held(SchemaHolding::Nothing);
    match value {
        Doc::Members(siblings) => match holding {
            SchemaHolding::One => keyword_back(out, dialect, value, siblings, token),
            SchemaHolding::OneOrListed => keyword_back(out, dialect, value, siblings, token),
            SchemaHolding::Named => lead(alloc, out, schemas, dialect, value, token),
            SchemaHolding::Listed => lead(alloc, out, others, dialect, value, token),
            SchemaHolding::Nothing => lead(alloc, out, others, dialect, value, token),
        },
        Doc::List(_) => match holding {
            SchemaHolding::Listed => lead(alloc, out, schemas, dialect, value, token),
            SchemaHolding::OneOrListed => lead(alloc, out, schemas, dialect, value, token),
            SchemaHolding::One => lead(alloc, out, others, dialect, value, token),
            SchemaHolding::Named => lead(alloc, out, others, dialect, value, token),
            SchemaHolding::Nothing => lead(alloc, out, others, dialect, value, token),
        },
        Doc::Text(_) => match holding {
            SchemaHolding::One => Ok(stay(out, Way::Within, dialect, value)),
            SchemaHolding::Listed => lead(alloc, out, others, dialect, value, token),
            SchemaHolding::Named => lead(alloc, out, others, dialect, value, token),
            SchemaHolding::OneOrListed => lead(alloc, out, others, dialect, value, token),
            SchemaHolding::Nothing => lead(alloc, out, others, dialect, value, token),
        },
        _ => lead(alloc, out, others, dialect, value, token),
    }
}

fn keyword_back<'d>(
    out: &mut Pointer,
    dialect: Dialect,
    value: &'d Doc,
    siblings: &'d Members,
    token: &str,
) -> Result<Option<At<'d>>, Memory>
    ensures { IfOk result (IsStepBack out.old out.new
        (keyword_back (own_dialect dialect siblings.now) siblings.now (value_of value.now) token.now)) }
{
    let dialect = own_dialect(dialect, siblings);
    match origin(dialect, siblings, token) {
        Some(name) => keyword_from(out, dialect, value, siblings, token, name),
        None => keyword_from(out, dialect, value, siblings, token, token),
    }
}

fn keyword_from<'d>(
    out: &mut Pointer,
    dialect: Dialect,
    value: &'d Doc,
    siblings: &'d Members,
    new: &str,
    name: &str,
) -> Result<Option<At<'d>>, Memory>
    ensures { IfOk result (IsStepBack out.old out.new
        (keyword_from dialect siblings.now (value_of value.now) new.now name.now)) }
{
    let Some(argument) = siblings.get(name) else {
        return Ok(None);
    };
    let change = change_of(dialect, siblings, name);
    if let Change::Contains = change {
        return Ok(stay(out, Way::Wrapped, dialect, value));
    }
    out.push(name)?;
    Ok(Some(At {
        way: way_of(new, change),
        dialect,
        value: argument,
    }))
}

fn way_of(new: &str, change: Change) -> Way
    ensures { result ≡ way_of new.now change }
{
    match change {
        Change::Types | Change::Extended => Way::Alternatives,
        Change::Disallowed => Way::Negated,
        Change::Dependencies => {
            if new == "dependentRequired" {
                Way::Names
            } else {
                Way::Held(SchemaHolding::Named)
            }
        }
        Change::Properties => {
            if new == "required" {
                Way::Within
            } else {
                Way::Held(SchemaHolding::Named)
            }
        }
        _ => Way::Held(holding_by_change(change)),
    }
}

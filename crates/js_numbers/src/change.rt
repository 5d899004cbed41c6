//! What becomes of a keyword whose number is no integer in the range.
ghost use Rattle.std.specs.Prelude.{◌≡◌, is_some, option_and_then, option_map, IfSome, if◌then◌else◌};
ghost use Rattle.json.specs.Value.{items_view, members_view, value_view};
ghost use Rattle.js_numbers.specs.Decimal.{IsBoundInRange, decimal};
ghost use Rattle.js_numbers.specs.Change.{IsChangeInRange, change, limited_count, divided, fraction, goes_or};
ghost use Rattle.js_numbers.specs.Change.{has_impossible, has_impossible_member, has_no_constant, is_excluding};
ghost use Rattle.js_numbers.specs.Change.{is_impossible, is_replaced, is_boolean_true, limit_at};
ghost use Rattle.js_numbers.specs.Change.{limit_by, limited, old_limited, outside, positive_numerator};
ghost use Rattle.js_numbers.specs.Limit.{IsLimitInRange};
ghost use Rattle.js_numbers.specs.declared.change.NumberChange.TheVariants.{Impossible, Stays};

use crate::bound::Bound;
use crate::decimal::Decimal;
use crate::limit::{GREATEST, Limit};
use crate::number_keyword::{NumberKeyword, number_keyword};
use js_upgrade::Dialect;
use json::Value;

/// What becomes of a keyword.
#[derive(Clone, Copy)]
pub(crate) enum NumberChange {
    /// It stays, with the schemas in its argument rewritten.
    Stays,
    /// It goes.
    Goes,
    /// It becomes a bound.
    Limited(Limit),
    /// It becomes a bound of a dialect before draft-06.
    OldLimited(Limit),
    /// Its argument becomes an integer.
    Integer(i128),
    /// Its argument loses the items that no instance is equal to.
    Possible,
    /// It becomes an `enum` without items.
    Impossible,
}

// The number, if it is no integer in the range.
fn outside(text: &str) -> Option<Decimal>
    ensures { result ≡ outside (decimal text.now) }
{
    let number = Decimal::of_text(text)?;
    match number.integer_value() {
        Some(_) => None,
        None => Some(number),
    }
}

fn fraction(value: &Value<'_>) -> Option<Decimal>
    ensures { result ≡ fraction (value_view value.now) }
{
    match value {
        Value::Number(text) => outside(text),
        _ => None,
    }
}

/// Whether a number that no instance can have stands anywhere in the value.
#[cycle(impossible)]
pub(crate) fn is_impossible(value: &Value<'_>) -> bool
    ensures { result ≡ is_impossible (value_view value.now) }
{
    match value {
        Value::Number(text) => outside(text).is_some(),
        Value::Array(items) => has_impossible(items),
        Value::Object(members) => has_impossible_member(members),
        _ => false,
    }
}

#[cycle(impossible)]
fn has_impossible(items: &Vec<Value<'_>>) -> bool
    ensures { result ≡ has_impossible (items_view items.now.items) }
{
    for item in items {
        if is_impossible(item) {
            return true;
        }
    }
    false
}

#[cycle(impossible)]
fn has_impossible_member(members: &Vec<(&str, Value<'_>)>) -> bool
    ensures { result ≡ has_impossible_member (members_view members.now.items) }
{
    for member in members {
        if is_impossible(&member.1) {
            return true;
        }
    }
    false
}

fn limit_by(is_least: bool, is_exclusive: bool, number: Decimal) -> Limit
    ensures same { result ≡ limit_by is_least is_exclusive number }
    ensures range { IsLimitInRange result }
{
    if is_least {
        if is_exclusive {
            number.exclusive_minimum_limit()
        } else {
            number.minimum_limit()
        }
    } else if is_exclusive {
        number.exclusive_maximum_limit()
    } else {
        number.maximum_limit()
    }
}

fn limit_at(is_least: bool, is_exclusive: bool, value: &Value<'_>) -> Option<Limit>
    ensures same { result ≡ limit_at is_least is_exclusive (value_view value.now) }
    ensures range { IfSome result IsLimitInRange }
{
    match fraction(value) {
        Some(number) => Some(limit_by(is_least, is_exclusive, number)),
        None => None,
    }
}

fn limited(limit: Option<Limit>) -> NumberChange
    requires { IfSome limit IsLimitInRange }
    ensures same { result ≡ limited limit }
    ensures range { IsChangeInRange result }
{
    match limit {
        Some(limit) => NumberChange::Limited(limit),
        None => NumberChange::Stays,
    }
}

fn old_limited(limit: Option<Limit>) -> NumberChange
    requires { IfSome limit IsLimitInRange }
    ensures same { result ≡ old_limited limit }
    ensures range { IsChangeInRange result }
{
    match limit {
        Some(limit) => NumberChange::OldLimited(limit),
        None => NumberChange::Stays,
    }
}

fn is_excluding(limit: Option<Limit>) -> bool
    ensures { result ≡ is_excluding limit }
{
    matches!(
        limit,
        Some(Limit::ExclusiveMinimum(_) | Limit::ExclusiveMaximum(_))
    )
}

fn is_replaced(is_least: bool, found: Option<&Value<'_>>) -> bool
    ensures { result ≡ is_replaced is_least (option_map (λ v. value_view v.now) found.entry) }
{
    match found {
        Some(value) => is_excluding(limit_at(is_least, false, value)),
        None => false,
    }
}

fn is_boolean_true(found: Option<&Value<'_>>) -> bool
    ensures { result ≡ is_boolean_true (option_map (λ v. value_view v.now) found.entry) }
{
    match found {
        Some(Value::Bool(value)) => *value,
        _ => false,
    }
}

fn has_fraction(found: Option<&Value<'_>>) -> bool
    ensures { result ≡ is_some (option_and_then fraction (option_map (λ v. value_view v.now) found.entry)) }
{
    match found {
        Some(value) => fraction(value).is_some(),
        None => false,
    }
}

fn goes_or(is_gone: bool, change: NumberChange) -> NumberChange
    requires { IsChangeInRange change }
    ensures same { result ≡ goes_or is_gone change }
    ensures range { IsChangeInRange result }
{
    if is_gone { NumberChange::Goes } else { change }
}

fn limited_count(value: &Value<'_>) -> NumberChange
    ensures same { result ≡ limited_count (fraction (value_view value.now)) }
    ensures range { IsChangeInRange result }
{
    match fraction(value) {
        Some(number) => {
            if number.is_whole() && !number.is_negative {
                NumberChange::Integer(GREATEST)
            } else {
                NumberChange::Stays
            }
        }
        None => NumberChange::Stays,
    }
}

fn positive_numerator(number: Decimal) -> Option<Bound>
    ensures same { result ≡ positive_numerator number }
    ensures range { IfSome result IsBoundInRange }
{
    if number.is_negative {
        None
    } else {
        number.numerator()
    }
}

fn divided(value: &Value<'_>) -> NumberChange
    ensures same { result ≡ divided (option_and_then positive_numerator (fraction (value_view value.now))) }
    ensures range { IsChangeInRange result }
{
    match fraction(value) {
        Some(number) => match positive_numerator(number) {
            Some(Bound::Whole(value)) => NumberChange::Integer(value),
            _ => NumberChange::Stays,
        },
        None => NumberChange::Stays,
    }
}

fn has_no_constant(dialect: Dialect, schema: &Value<'_>) -> bool
    ensures { result ≡ has_no_constant dialect (value_view schema.now) }
{
    match number_keyword(dialect, "const") {
        NumberKeyword::Constant => match schema.get("const") {
            Some(value) => is_impossible(value),
            None => false,
        },
        _ => false,
    }
}

fn constant(value: &Value<'_>) -> NumberChange
    ensures same { result ≡ (if is_impossible (value_view value.now) then Impossible else Stays) }
    ensures range { IsChangeInRange result }
{
    if is_impossible(value) {
        NumberChange::Impossible
    } else {
        NumberChange::Stays
    }
}

/// What becomes of a keyword of the schema.
pub(crate) fn change(
    dialect: Dialect,
    schema: &Value<'_>,
    name: &str,
    value: &Value<'_>,
) -> NumberChange
    ensures same { result ≡ change dialect (value_view schema.now) name.now (value_view value.now) }
    ensures range { IsChangeInRange result }
{
    match number_keyword(dialect, name) {
        NumberKeyword::Minimum => limited(limit_at(true, false, value)),
        NumberKeyword::Maximum => limited(limit_at(false, false, value)),
        NumberKeyword::ExclusiveMinimum => goes_or(
            is_replaced(true, schema.get("minimum")),
            limited(limit_at(true, true, value)),
        ),
        NumberKeyword::ExclusiveMaximum => goes_or(
            is_replaced(false, schema.get("maximum")),
            limited(limit_at(false, true, value)),
        ),
        NumberKeyword::OldMinimum => {
            old_limited(limit_at(true, is_boolean_true(schema.get("exclusiveMinimum")), value))
        }
        NumberKeyword::OldMaximum => {
            old_limited(limit_at(
                false,
                is_boolean_true(schema.get("exclusiveMaximum")),
                value,
            ))
        }
        NumberKeyword::OldExclusiveMinimum => {
            goes_or(has_fraction(schema.get("minimum")), NumberChange::Stays)
        }
        NumberKeyword::OldExclusiveMaximum => {
            goes_or(has_fraction(schema.get("maximum")), NumberChange::Stays)
        }
        NumberKeyword::Count => limited_count(value),
        NumberKeyword::Divisor => divided(value),
        NumberKeyword::Enumeration => {
            goes_or(has_no_constant(dialect, schema), NumberChange::Possible)
        }
        NumberKeyword::Constant => constant(value),
        NumberKeyword::Other => NumberChange::Stays,
    }
}

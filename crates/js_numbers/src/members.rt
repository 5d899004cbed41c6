//! The members that a keyword becomes, written.
ghost use Rattle.std.specs.Prelude.{◌≢◌, [], ◌∷◌, codes, true};
ghost use Rattle.json.specs.Json.{Json, array, boolean, no_items};
ghost use Rattle.json.specs.Tree.{HasNumbers, ItemsHaveNumbers, items_tokens, json_tokens};
ghost use Rattle.json.specs.Value.{items_view, value_view};
ghost use Rattle.js_numbers.specs.Decimal.{IsInRange};
ghost use Rattle.js_numbers.specs.Change.{IsChangeInRange, members_made, integer, limit_members, old_limit_members};
ghost use Rattle.js_numbers.specs.Change.{possible, possible_items};
ghost use Rattle.js_numbers.specs.Limit.{IsLimitInRange};
ghost use Rattle.js_numbers.specs.declared.change.NumberChange.TheVariants.{Stays};
ghost use Rattle.js_numbers.specs.code.Appended.{Appends, named_tokens};

use crate::change::{NumberChange, is_impossible};
use crate::instance::put_whole;
use crate::limit::Limit;
use json::{Value, Writer};
use std::alloc::AllocError;

fn put_integer(writer: &mut Writer, name: &str, value: i128) -> Result<(), AllocError>
    requires { IsInRange value }
    ensures { Appends result writer.old writer.new (named_tokens ((name.now, integer value) ∷ [])) }
{
    writer.key(name)?;
    put_whole(writer, value)
}

fn put_limit(writer: &mut Writer, limit: Limit) -> Result<(), AllocError>
    requires { IsLimitInRange limit }
    ensures { Appends result writer.old writer.new (named_tokens (limit_members limit)) }
{
    match limit {
        Limit::Unlimited => Ok(()),
        Limit::Minimum(value) => put_integer(writer, "minimum", value),
        Limit::Maximum(value) => put_integer(writer, "maximum", value),
        Limit::ExclusiveMinimum(value) => put_integer(writer, "exclusiveMinimum", value),
        Limit::ExclusiveMaximum(value) => put_integer(writer, "exclusiveMaximum", value),
    }
}

// Before draft-06.
fn put_old_limit(writer: &mut Writer, limit: Limit) -> Result<(), AllocError>
    requires { IsLimitInRange limit }
    ensures { Appends result writer.old writer.new (named_tokens (old_limit_members limit)) }
{
    match limit {
        Limit::Unlimited => Ok(()),
        Limit::Minimum(value) => put_integer(writer, "minimum", value),
        Limit::Maximum(value) => put_integer(writer, "maximum", value),
        Limit::ExclusiveMinimum(value) => {
            put_exclusive(writer, "minimum", "exclusiveMinimum", value)
        }
        Limit::ExclusiveMaximum(value) => {
            put_exclusive(writer, "maximum", "exclusiveMaximum", value)
        }
    }
}

fn put_exclusive(
    writer: &mut Writer,
    name: &str,
    exclusive: &str,
    value: i128,
) -> Result<(), AllocError>
    requires { IsInRange value }
    ensures { Appends result writer.old writer.new
        (named_tokens ((name.now, integer value) ∷ (exclusive.now, boolean true) ∷ [])) }
{
    put_integer(writer, name, value)?;
    put_true(writer, exclusive)
}

fn put_true(writer: &mut Writer, name: &str) -> Result<(), AllocError>
    ensures { Appends result writer.old writer.new (named_tokens ((name.now, boolean true) ∷ [])) }
{
    writer.key(name)?;
    writer.boolean(true)
}

// The items that an instance can be equal to, and the closing bracket.
fn put_possible_items(writer: &mut Writer, items: &Vec<Value<'_>>) -> Result<(), AllocError>
    requires { ItemsHaveNumbers (items_view items.now.items) }
    ensures { Appends result writer.old writer.new (items_tokens (possible_items (items_view items.now.items))) }
{
    for item in items {
        if !is_impossible(item) {
            writer.value(item)?;
        }
    }
    writer.end_array()
}

fn put_possible(writer: &mut Writer, value: &Value<'_>) -> Result<(), AllocError>
    requires { HasNumbers (value_view value.now) }
    ensures { Appends result writer.old writer.new (json_tokens (possible (value_view value.now))) }
{
    match value {
        Value::Array(items) => {
            writer.begin_array()?;
            put_possible_items(writer, items)
        }
        _ => writer.value(value),
    }
}

fn put_named_possible(writer: &mut Writer, name: &str, value: &Value<'_>) -> Result<(), AllocError>
    requires { HasNumbers (value_view value.now) }
    ensures { Appends result writer.old writer.new
        (named_tokens ((name.now, possible (value_view value.now)) ∷ [])) }
{
    writer.key(name)?;
    put_possible(writer, value)
}

fn put_empty_enum(writer: &mut Writer) -> Result<(), AllocError>
    ensures { Appends result writer.old writer.new
        (named_tokens ((codes "enum", array no_items) ∷ [])) }
{
    writer.key("enum")?;
    writer.begin_array()?;
    writer.end_array()
}

/// What a keyword becomes that doesn't stay.
pub(crate) fn put_change(
    writer: &mut Writer,
    change: NumberChange,
    name: &str,
    value: &Value<'_>,
) -> Result<(), AllocError>
    requires range { IsChangeInRange change }
    requires other { change ≢ Stays }
    requires numbers { HasNumbers (value_view value.now) }
    ensures { (new : Json) → Appends result writer.old writer.new
        (named_tokens (members_made change name.now (value_view value.now) new)) }
{
    match change {
        NumberChange::Stays | NumberChange::Goes => Ok(()),
        NumberChange::Limited(limit) => put_limit(writer, limit),
        NumberChange::OldLimited(limit) => put_old_limit(writer, limit),
        NumberChange::Integer(integer) => put_integer(writer, name, integer),
        NumberChange::Possible => put_named_possible(writer, name, value),
        NumberChange::Impossible => put_empty_enum(writer),
    }
}

//! The schemas in a value, written with integers where numbers have other forms.
ghost use Rattle.json.specs.Json.{array, object};
ghost use Rattle.json.specs.Tree.{HasNumbers, ItemsHaveNumbers, MembersHaveNumbers, json_tokens};
ghost use Rattle.json.specs.Value.{items_view, members_view, value_view};
ghost use Rattle.js_upgrade.specs.Keyword.{change_in};
ghost use Rattle.js_upgrade.specs.Upgrade.{holding_by_change};
ghost use Rattle.js_numbers.specs.Change.{members_made, change};
ghost use Rattle.js_numbers.specs.Schema.{each_listed, each_named, keywords, rewritten};
ghost use Rattle.js_numbers.specs.code.Appended.{Appends, named_tokens};

use crate::change::{NumberChange, change};
use crate::members::put_change;
use crate::schema_dialect::{argument_holding, dialect_within};
use js_upgrade::{Dialect, SchemaHolding, change_in};
use json::{Value, Writer};
use std::alloc::AllocError;

/// The value, with the schemas that it holds rewritten.
#[cycle(rewriting)]
pub(crate) fn put_rewritten(
    writer: &mut Writer,
    holding: SchemaHolding,
    dialect: Dialect,
    value: &Value<'_>,
) -> Result<(), AllocError>
    requires { HasNumbers (value_view value.now) }
    ensures { Appends result writer.old writer.new (json_tokens (rewritten holding dialect (value_view value.now))) }
{
    match value {
        Value::Object(members) => match holding {
            SchemaHolding::One => put_schema(
                writer,
                dialect_within(dialect, value),
                value,
                members,
            ),
            SchemaHolding::OneOrListed => {
                put_schema(writer, dialect_within(dialect, value), value, members)
            }
            SchemaHolding::Named => put_named(writer, dialect, members),
            SchemaHolding::Listed => writer.value(value),
            SchemaHolding::Nothing => writer.value(value),
        },
        Value::Array(items) => match holding {
            SchemaHolding::Listed => put_listed(writer, dialect, items),
            SchemaHolding::OneOrListed => put_listed(writer, dialect, items),
            SchemaHolding::One => writer.value(value),
            SchemaHolding::Named => writer.value(value),
            SchemaHolding::Nothing => writer.value(value),
        },
        _ => writer.value(value),
    }
}

// A schema of this dialect, with these members.
#[cycle(rewriting)]
fn put_schema(
    writer: &mut Writer,
    dialect: Dialect,
    schema: &Value<'_>,
    members: &Vec<(&str, Value<'_>)>,
) -> Result<(), AllocError>
    requires { MembersHaveNumbers (members_view members.now.items) }
    ensures { Appends result writer.old writer.new
        (json_tokens (object (keywords dialect (value_view schema.now) (members_view members.now.items)))) }
{
    writer.begin_object()?;
    for member in members {
        put_keyword(writer, dialect, schema, member.0, &member.1)?;
    }
    writer.end_object()
}

#[cycle(rewriting)]
fn put_keyword(
    writer: &mut Writer,
    dialect: Dialect,
    schema: &Value<'_>,
    name: &str,
    value: &Value<'_>,
) -> Result<(), AllocError>
    requires { HasNumbers (value_view value.now) }
    ensures { Appends result writer.old writer.new
        (named_tokens (members_made (change dialect (value_view schema.now) name.now (value_view value.now))
        name.now (value_view value.now)
        (rewritten (holding_by_change (change_in dialect name.now)) dialect (value_view value.now)))) }
{
    let change = change(dialect, schema, name, value);
    match change {
        NumberChange::Stays => {
            writer.key(name)?;
            put_rewritten(
                writer,
                argument_holding(change_in(dialect, name)),
                dialect,
                value,
            )
        }
        _ => put_change(writer, change, name, value),
    }
}

#[cycle(rewriting)]
fn put_named(
    writer: &mut Writer,
    dialect: Dialect,
    members: &Vec<(&str, Value<'_>)>,
) -> Result<(), AllocError>
    requires { MembersHaveNumbers (members_view members.now.items) }
    ensures { Appends result writer.old writer.new
        (json_tokens (object (each_named dialect (members_view members.now.items)))) }
{
    writer.begin_object()?;
    for member in members {
        writer.key(member.0)?;
        put_rewritten(writer, SchemaHolding::One, dialect, &member.1)?;
    }
    writer.end_object()
}

#[cycle(rewriting)]
fn put_listed(
    writer: &mut Writer,
    dialect: Dialect,
    items: &Vec<Value<'_>>,
) -> Result<(), AllocError>
    requires { ItemsHaveNumbers (items_view items.now.items) }
    ensures { Appends result writer.old writer.new
        (json_tokens (array (each_listed dialect (items_view items.now.items)))) }
{
    writer.begin_array()?;
    for item in items {
        put_rewritten(writer, SchemaHolding::One, dialect, item)?;
    }
    writer.end_array()
}

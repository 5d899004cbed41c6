//! The dialect of a schema, and how its keywords hold schemas, of a value whose numbers are texts.
ghost use Rattle.std.specs.Prelude.{◌≡◌, option_map};
ghost use Rattle.json.specs.Value.{value_view};
ghost use Rattle.js_upgrade.specs.Schema.{is_uri};
ghost use Rattle.js_upgrade.specs.Upgrade.{holding_by_change, identifier};
ghost use Rattle.js_numbers.specs.Schema.{declared_dialect, dialect_of_uri, dialect_within, has_identifier};
ghost use Rattle.js_numbers.specs.Schema.{is_uri_text, reference_hides, root_dialect};

use js_upgrade::{Change, Dialect, SchemaHolding};
use json::Value;

fn dialect_of_uri(uri: &Value<'_>) -> Option<Dialect>
    ensures { result ≡ dialect_of_uri (value_view uri.now) }
{
    match uri {
        Value::String(uri) => Dialect::of_uri(uri),
        Value::Null | Value::Bool(_) | Value::Number(_) => None,
        Value::Array(_) | Value::Object(_) => None,
    }
}

// What the schema's `$schema` names.
fn declared_dialect(schema: &Value<'_>) -> Option<Dialect>
    ensures { result ≡ declared_dialect (value_view schema.now) }
{
    match schema.get("$schema") {
        Some(uri) => dialect_of_uri(uri),
        None => None,
    }
}

fn is_uri(uri: &str) -> bool
    ensures { result ≡ is_uri uri.now }
{
    let bytes = uri.as_bytes();
    !bytes.is_empty() && bytes[0] != b'#'
}

fn is_uri_text(found: Option<&Value<'_>>) -> bool
    ensures { result ≡ is_uri_text (option_map (λ v. value_view v.now) found.entry) }
{
    match found {
        Some(Value::String(uri)) => is_uri(uri),
        _ => false,
    }
}

fn identifier(dialect: Dialect) -> &'static str
    ensures { result.now ≡ identifier dialect }
{
    if dialect.is_before(Dialect::Draft06) {
        "id"
    } else {
        "$id"
    }
}

// Whether a reference hides its siblings.
fn reference_hides(dialect: Dialect, schema: &Value<'_>) -> bool
    ensures { result ≡ reference_hides dialect (value_view schema.now) }
{
    dialect.is_before(Dialect::Draft2019) && schema.get("$ref").is_some()
}

fn has_identifier(dialect: Dialect, schema: &Value<'_>) -> bool
    ensures { result ≡ has_identifier dialect (value_view schema.now) }
{
    is_uri_text(schema.get(identifier(dialect))) && !reference_hides(dialect, schema)
}

/// The dialect of a schema that stands in one of the dialect given.
pub(crate) fn dialect_within(dialect: Dialect, schema: &Value<'_>) -> Dialect
    ensures { result ≡ dialect_within dialect (value_view schema.now) }
{
    match declared_dialect(schema) {
        Some(own) => {
            if has_identifier(own, schema) {
                own
            } else {
                dialect
            }
        }
        None => dialect,
    }
}

/// The dialect of a document.
pub(crate) fn root_dialect(assumed: Dialect, root: &Value<'_>) -> Dialect
    ensures { result ≡ root_dialect assumed (value_view root.now) }
{
    match declared_dialect(root) {
        Some(dialect) => dialect,
        None => assumed,
    }
}

/// How the argument of a keyword with this change holds schemas.
pub(crate) fn argument_holding(change: Change) -> SchemaHolding
    ensures { result ≡ holding_by_change change }
{
    match change {
        Change::HoldsOne | Change::AdditionalItems | Change::Contains => SchemaHolding::One,
        Change::HoldsList => SchemaHolding::Listed,
        Change::HoldsNamed | Change::Definitions | Change::Dependencies | Change::Properties =>
            SchemaHolding::Named,
        Change::Items | Change::Types | Change::Disallowed | Change::Extended => {
            SchemaHolding::OneOrListed
        }
        _ => SchemaHolding::Nothing,
    }
}

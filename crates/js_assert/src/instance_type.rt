//! The types that `type` can name (JSON Schema Validation, section 6.1.1).
ghost use Rattle.std.specs.Prelude.{◌≡◌, IfSome, is_some};
ghost use Rattle.js_assert.specs.ArgumentShape.{is_type_name};
ghost use Rattle.std.specs.List.{list_any};
ghost use Rattle.js_doc.specs.Seen.{value_of};
ghost use Rattle.js_assert.specs.AnyType.{is_type_of};
ghost use Rattle.js_assert.specs.Types.{type_name};

use js_doc::Doc;

#[derive(Clone, Copy, PartialEq, Eq)]
pub(crate) enum InstanceType {
    Null,
    Boolean,
    Object,
    Array,
    Number,
    Text,
    Integer,
}

impl InstanceType {
    /// The type of this name.
    pub(crate) fn type_named(name: &str) -> Option<InstanceType>
        ensures some { IfSome result (λ t. type_name t ≡ name.now) }
        ensures exact { is_some result ≡ is_type_name name.now }
    {
        match name {
            "null" => Some(InstanceType::Null),
            "boolean" => Some(InstanceType::Boolean),
            "object" => Some(InstanceType::Object),
            "array" => Some(InstanceType::Array),
            "number" => Some(InstanceType::Number),
            "string" => Some(InstanceType::Text),
            "integer" => Some(InstanceType::Integer),
            _ => None,
        }
    }

    /// Whether the value is of the type. Each number is an integer.
    pub(crate) fn takes(self, value: &Doc) -> bool
        ensures { result ≡ is_type_of (value_of value.now) (type_name self) }
    {
        match self {
            InstanceType::Null => matches!(value, Doc::Null),
            InstanceType::Boolean => matches!(value, Doc::Truth(_)),
            InstanceType::Object => matches!(value, Doc::Members(_)),
            InstanceType::Array => matches!(value, Doc::List(_)),
            InstanceType::Number => matches!(value, Doc::Whole(_)),
            InstanceType::Text => matches!(value, Doc::Text(_)),
            InstanceType::Integer => matches!(value, Doc::Whole(_)),
        }
    }
}

/// Whether the value is of one of the types.
pub(crate) fn is_of_any(types: &[InstanceType], value: &Doc) -> bool
    ensures { result ≡ list_any (λ t. is_type_of (value_of value.now) (type_name t)) types.now }
{
    types.iter().any(|one| one.takes(value))
}

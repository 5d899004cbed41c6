//! The keywords that judge a value by themselves.
ghost use Rattle.std.specs.Prelude.{◌≡◌};
ghost use Rattle.js_keyword.specs.AssertionKeyword.{keyword_named, name_of};

/// A keyword that judges a value by itself (JSON Schema Validation, section 6), by what it judges.
#[derive(Clone, Copy, Debug, Drop, PartialEq, Eq)]
pub enum AssertionKeyword {
    /// One on values of each type (6.1)
    AnyType(AnyTypeKeyword),
    /// One on numbers (6.2)
    Number(NumberKeyword),
    /// One on strings (6.3)
    String(StringKeyword),
    /// One on arrays (6.4)
    Array(ArrayKeyword),
    /// One on objects (6.5)
    Object(ObjectKeyword),
}

/// A keyword that judges values of each type (JSON Schema Validation, section 6.1), in the standard's order.
#[derive(Clone, Copy, Debug, Drop, PartialEq, Eq)]
pub enum AnyTypeKeyword {
    /// `type`
    Type,
    /// `enum`
    Enum,
    /// `const`
    Const,
}

/// A keyword that judges numbers (JSON Schema Validation, section 6.2), in the standard's order.
#[derive(Clone, Copy, Debug, Drop, PartialEq, Eq)]
pub enum NumberKeyword {
    /// `multipleOf`
    MultipleOf,
    /// `maximum`
    Maximum,
    /// `exclusiveMaximum`
    ExclusiveMaximum,
    /// `minimum`
    Minimum,
    /// `exclusiveMinimum`
    ExclusiveMinimum,
}

/// A keyword that judges strings (JSON Schema Validation, section 6.3), in the standard's order.
#[derive(Clone, Copy, Debug, Drop, PartialEq, Eq)]
pub enum StringKeyword {
    /// `maxLength`
    MaxLength,
    /// `minLength`
    MinLength,
    /// `pattern`
    Pattern,
}

/// A keyword that judges arrays (JSON Schema Validation, section 6.4), in the standard's order.
#[derive(Clone, Copy, Debug, Drop, PartialEq, Eq)]
pub enum ArrayKeyword {
    /// `maxItems`
    MaxItems,
    /// `minItems`
    MinItems,
    /// `uniqueItems`
    UniqueItems,
    /// `maxContains`
    MaxContains,
    /// `minContains`
    MinContains,
}

/// A keyword that judges objects (JSON Schema Validation, section 6.5), in the standard's order.
#[derive(Clone, Copy, Debug, Drop, PartialEq, Eq)]
pub enum ObjectKeyword {
    /// `maxProperties`
    MaxProperties,
    /// `minProperties`
    MinProperties,
    /// `required`
    Required,
    /// `dependentRequired`
    DependentRequired,
}

impl AssertionKeyword {
    /// The keyword of this name, or None where it is none of the twenty.
    #[tactic(auto, unfolding(crate::specs::AssertionKeyword::keyword_named))]
    pub fn named(name: &str) -> Option<AssertionKeyword>
        ensures { result ≡ keyword_named name.now }
    {
        match name {
            "type" => Some(AssertionKeyword::AnyType(AnyTypeKeyword::Type)),
            "enum" => Some(AssertionKeyword::AnyType(AnyTypeKeyword::Enum)),
            "const" => Some(AssertionKeyword::AnyType(AnyTypeKeyword::Const)),
            "multipleOf" => Some(AssertionKeyword::Number(NumberKeyword::MultipleOf)),
            "maximum" => Some(AssertionKeyword::Number(NumberKeyword::Maximum)),
            "exclusiveMaximum" => Some(AssertionKeyword::Number(NumberKeyword::ExclusiveMaximum)),
            "minimum" => Some(AssertionKeyword::Number(NumberKeyword::Minimum)),
            "exclusiveMinimum" => Some(AssertionKeyword::Number(NumberKeyword::ExclusiveMinimum)),
            "maxLength" => Some(AssertionKeyword::String(StringKeyword::MaxLength)),
            "minLength" => Some(AssertionKeyword::String(StringKeyword::MinLength)),
            "pattern" => Some(AssertionKeyword::String(StringKeyword::Pattern)),
            "maxItems" => Some(AssertionKeyword::Array(ArrayKeyword::MaxItems)),
            "minItems" => Some(AssertionKeyword::Array(ArrayKeyword::MinItems)),
            "uniqueItems" => Some(AssertionKeyword::Array(ArrayKeyword::UniqueItems)),
            "maxContains" => Some(AssertionKeyword::Array(ArrayKeyword::MaxContains)),
            "minContains" => Some(AssertionKeyword::Array(ArrayKeyword::MinContains)),
            "maxProperties" => Some(AssertionKeyword::Object(ObjectKeyword::MaxProperties)),
            "minProperties" => Some(AssertionKeyword::Object(ObjectKeyword::MinProperties)),
            "required" => Some(AssertionKeyword::Object(ObjectKeyword::Required)),
            "dependentRequired" => Some(AssertionKeyword::Object(ObjectKeyword::DependentRequired)),
            _ => None,
        }
    }

    /// Its name.
    pub fn name(self) -> &'static str
        ensures { result.now ≡ name_of self }
    {
        match self {
            AssertionKeyword::AnyType(AnyTypeKeyword::Type) => "type",
            AssertionKeyword::AnyType(AnyTypeKeyword::Enum) => "enum",
            AssertionKeyword::AnyType(AnyTypeKeyword::Const) => "const",
            AssertionKeyword::Number(NumberKeyword::MultipleOf) => "multipleOf",
            AssertionKeyword::Number(NumberKeyword::Maximum) => "maximum",
            AssertionKeyword::Number(NumberKeyword::ExclusiveMaximum) => "exclusiveMaximum",
            AssertionKeyword::Number(NumberKeyword::Minimum) => "minimum",
            AssertionKeyword::Number(NumberKeyword::ExclusiveMinimum) => "exclusiveMinimum",
            AssertionKeyword::String(StringKeyword::MaxLength) => "maxLength",
            AssertionKeyword::String(StringKeyword::MinLength) => "minLength",
            AssertionKeyword::String(StringKeyword::Pattern) => "pattern",
            AssertionKeyword::Array(ArrayKeyword::MaxItems) => "maxItems",
            AssertionKeyword::Array(ArrayKeyword::MinItems) => "minItems",
            AssertionKeyword::Array(ArrayKeyword::UniqueItems) => "uniqueItems",
            AssertionKeyword::Array(ArrayKeyword::MaxContains) => "maxContains",
            AssertionKeyword::Array(ArrayKeyword::MinContains) => "minContains",
            AssertionKeyword::Object(ObjectKeyword::MaxProperties) => "maxProperties",
            AssertionKeyword::Object(ObjectKeyword::MinProperties) => "minProperties",
            AssertionKeyword::Object(ObjectKeyword::Required) => "required",
            AssertionKeyword::Object(ObjectKeyword::DependentRequired) => "dependentRequired",
        }
    }
}

//! The keywords of JSON Schema 2020-12.
ghost use Rattle.std.specs.Prelude.{◌≡◌};
ghost use Rattle.js_keyword.specs.Keyword.{among, applicators, applies, others, row_of, subschemas, which_keyword};

use crate::argument_form::{ArgumentForm, Holding};
use crate::assertion_keyword::AssertionKeyword;
use crate::other_keyword::OtherKeyword;

/// A keyword of the standard (JSON Schema Core, sections 8, 10 and 11; Validation, section 6), or any other name.
#[derive(Clone, Copy, Debug, Drop, PartialEq, Eq)]
pub enum Keyword {
    /// `$ref`
    Ref,
    /// `$dynamicRef`
    DynamicRef,
    /// `allOf`
    AllOf,
    /// `anyOf`
    AnyOf,
    /// `oneOf`
    OneOf,
    /// `not`
    Not,
    /// `if`
    If,
    /// `then`
    Then,
    /// `else`
    Else,
    /// `dependentSchemas`
    DependentSchemas,
    /// `prefixItems`
    PrefixItems,
    /// `items`
    Items,
    /// `contains`
    Contains,
    /// `properties`
    Properties,
    /// `patternProperties`
    PatternProperties,
    /// `additionalProperties`
    AdditionalProperties,
    /// `propertyNames`
    PropertyNames,
    /// `unevaluatedItems`
    UnevaluatedItems,
    /// `unevaluatedProperties`
    UnevaluatedProperties,
    /// One that judges a value by itself
    Assertion(AssertionKeyword),
    /// Each other name
    Other(OtherKeyword),
}

impl Keyword {
    /// The keyword with this name.
    pub fn of(name: &str) -> Keyword
        ensures { result ≡ which_keyword name.now }
    {
        if let Some(keyword) = applicator_named(name) {
            return keyword;
        }
        if let Some(keyword) = AssertionKeyword::named(name) {
            return Keyword::Assertion(keyword);
        }
        match other_named(name) {
            Some(keyword) => keyword,
            None => Keyword::Other(OtherKeyword::Unknown),
        }
    }

    /// Its name; the empty text, which is no keyword's name, for `Other(Unknown)`.
    pub fn name(self) -> &'static str
        ensures { result.now ≡ (row_of self).name }
    {
        match self {
            Keyword::Ref => "$ref",
            Keyword::DynamicRef => "$dynamicRef",
            Keyword::AllOf => "allOf",
            Keyword::AnyOf => "anyOf",
            Keyword::OneOf => "oneOf",
            Keyword::Not => "not",
            Keyword::If => "if",
            Keyword::Then => "then",
            Keyword::Else => "else",
            Keyword::DependentSchemas => "dependentSchemas",
            Keyword::PrefixItems => "prefixItems",
            Keyword::Items => "items",
            Keyword::Contains => "contains",
            Keyword::Properties => "properties",
            Keyword::PatternProperties => "patternProperties",
            Keyword::AdditionalProperties => "additionalProperties",
            Keyword::PropertyNames => "propertyNames",
            Keyword::UnevaluatedItems => "unevaluatedItems",
            Keyword::UnevaluatedProperties => "unevaluatedProperties",
            Keyword::Assertion(keyword) => keyword.name(),
            Keyword::Other(keyword) => keyword.name(),
        }
    }

    /// Whether it applies schemas (Core, sections 8.2.3, 10 and 11).
    pub fn applies(self) -> bool
        ensures { result ≡ applies self }
    {
        !matches!(self, Keyword::Assertion(_) | Keyword::Other(_))
    }

    /// What its argument has to be; `Anything` of an assertion, which says that itself.
    pub fn form(self) -> ArgumentForm
        ensures { result ≡ (row_of self).form }
    {
        match self {
            Keyword::Ref | Keyword::DynamicRef => ArgumentForm::Text,
            Keyword::AllOf | Keyword::AnyOf | Keyword::OneOf | Keyword::PrefixItems => {
                ArgumentForm::ListedSchemas
            }
            Keyword::Not
            | Keyword::If
            | Keyword::Then
            | Keyword::Else
            | Keyword::Items
            | Keyword::Contains
            | Keyword::AdditionalProperties
            | Keyword::PropertyNames
            | Keyword::UnevaluatedItems
            | Keyword::UnevaluatedProperties => ArgumentForm::OneSchema,
            Keyword::DependentSchemas | Keyword::Properties | Keyword::PatternProperties => {
                ArgumentForm::NamedSchemas
            }
            Keyword::Assertion(_) => ArgumentForm::Anything,
            Keyword::Other(keyword) => other_form(keyword),
        }
    }

    /// How the argument of the keyword with this name holds schemas. It needs fewer comparisons than `of`.
    pub fn subschemas_of(name: &str) -> Holding
        ensures { result ≡ subschemas (which_keyword name.now) }
    {
        if let Some(keyword) = applicator_named(name) {
            return keyword.subschemas();
        }
        match other_named(name) {
            Some(keyword) => keyword.subschemas(),
            None => Holding::Nothing,
        }
    }

    /// How its argument holds schemas.
    pub fn subschemas(self) -> Holding
        ensures { result ≡ subschemas self }
    {
        match self.form() {
            ArgumentForm::OneSchema => Holding::One,
            ArgumentForm::ListedSchemas => Holding::Listed,
            ArgumentForm::NamedSchemas => Holding::Named,
            ArgumentForm::Text | ArgumentForm::Anything => Holding::Nothing,
        }
    }
}

fn other_form(keyword: OtherKeyword) -> ArgumentForm
    ensures { result ≡ (row_of (Keyword.Other keyword)).form }
{
    match keyword {
        OtherKeyword::Schema
        | OtherKeyword::Id
        | OtherKeyword::Anchor
        | OtherKeyword::DynamicAnchor => ArgumentForm::Text,
        OtherKeyword::Defs | OtherKeyword::Definitions => ArgumentForm::NamedSchemas,
        OtherKeyword::Vocabulary | OtherKeyword::Comment | OtherKeyword::Unknown => {
            ArgumentForm::Anything
        }
    }
}

// The one that applies schemas, if the name is that of one.
fn applicator_named(name: &str) -> Option<Keyword>
    ensures { result ≡ among applicators name.now }
{
    match name {
        "$ref" => Some(Keyword::Ref),
        "$dynamicRef" => Some(Keyword::DynamicRef),
        "allOf" => Some(Keyword::AllOf),
        "anyOf" => Some(Keyword::AnyOf),
        "oneOf" => Some(Keyword::OneOf),
        "not" => Some(Keyword::Not),
        "if" => Some(Keyword::If),
        "then" => Some(Keyword::Then),
        "else" => Some(Keyword::Else),
        "dependentSchemas" => Some(Keyword::DependentSchemas),
        "prefixItems" => Some(Keyword::PrefixItems),
        "items" => Some(Keyword::Items),
        "contains" => Some(Keyword::Contains),
        "properties" => Some(Keyword::Properties),
        "patternProperties" => Some(Keyword::PatternProperties),
        "additionalProperties" => Some(Keyword::AdditionalProperties),
        "propertyNames" => Some(Keyword::PropertyNames),
        "unevaluatedItems" => Some(Keyword::UnevaluatedItems),
        "unevaluatedProperties" => Some(Keyword::UnevaluatedProperties),
        _ => None,
    }
}

// The one that neither applies schemas nor judges a value, if the name is that of one.
fn other_named(name: &str) -> Option<Keyword>
    ensures { result ≡ among others name.now }
{
    match name {
        "$schema" => Some(Keyword::Other(OtherKeyword::Schema)),
        "$id" => Some(Keyword::Other(OtherKeyword::Id)),
        "$anchor" => Some(Keyword::Other(OtherKeyword::Anchor)),
        "$dynamicAnchor" => Some(Keyword::Other(OtherKeyword::DynamicAnchor)),
        "$vocabulary" => Some(Keyword::Other(OtherKeyword::Vocabulary)),
        "$comment" => Some(Keyword::Other(OtherKeyword::Comment)),
        "$defs" => Some(Keyword::Other(OtherKeyword::Defs)),
        "definitions" => Some(Keyword::Other(OtherKeyword::Definitions)),
        _ => None,
    }
}

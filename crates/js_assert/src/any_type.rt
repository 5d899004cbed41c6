//! The assertions on values of each type (JSON Schema Validation, section 6.1).
ghost use Rattle.std.specs.Prelude.{◌≡◌, ◌++◌, IfOk, IfErr, codes, string_bytes};
ghost use Rattle.js_doc.specs.Seen.{value_of};
ghost use Rattle.js_doc.specs.Value.{list, items};
ghost use Rattle.js_assert.specs.AnyType.{any_type_argument, any_type_keyword, any_type_says, any_type_text, type_of};
ghost use Rattle.js_assert.specs.Seen.{IsTestOf};
ghost use Rattle.js_assert.specs.Shape.{IsFaultOf};

use crate::argument_shape::{choices, constant, types};
use crate::assertion::Test;
use crate::choices::Choices;
use crate::fault::KeywordFault;
use crate::instance_type::{InstanceType, is_of_any};
use crate::text_parts::words;
use js_doc::{Doc, Memory};
use js_keyword::{AnyTypeKeyword, AssertionKeyword};
use std::alloc::Global;

/// What a keyword tests, with its argument read. `type` names one type, or a list of them. What is larger than a list's
/// head is boxed: most keywords hold less.
#[derive(Drop)]
pub(crate) enum AnyTypeTest {
    Type(InstanceType),
    Types(Vec<InstanceType>),
    Enum(Box<Choices>),
    Const(Box<Doc>),
}

impl AnyTypeTest {
    pub(crate) fn read(
        alloc: Global,
        keyword: AnyTypeKeyword,
        argument: &Doc,
    ) -> Result<AnyTypeTest, KeywordFault>
        ensures ok { IfOk result
            (λ t. IsTestOf (AssertionKeyword.AnyType keyword) (value_of argument.now) (Test.AnyType t)) }
        ensures refused { IfErr result (IsFaultOf (AssertionKeyword.AnyType keyword) (value_of argument.now)) }
    {
        match keyword {
            AnyTypeKeyword::Type => Ok(types(alloc, argument)?),
            AnyTypeKeyword::Enum => Ok(AnyTypeTest::Enum(choices(alloc, argument)?)),
            AnyTypeKeyword::Const => Ok(AnyTypeTest::Const(constant(alloc, argument)?)),
        }
    }

    pub(crate) fn keyword(&self) -> AnyTypeKeyword
        ensures { result ≡ any_type_keyword self.now }
    {
        match self {
            AnyTypeTest::Type(_) => AnyTypeKeyword::Type,
            AnyTypeTest::Types(_) => AnyTypeKeyword::Type,
            AnyTypeTest::Enum(_) => AnyTypeKeyword::Enum,
            AnyTypeTest::Const(_) => AnyTypeKeyword::Const,
        }
    }

    /// Whether the value meets the test.
    pub(crate) fn holds(&self, value: &Doc) -> bool
        ensures { result
            ≡ any_type_says (any_type_argument self.now) (any_type_keyword self.now) (value_of value.now) }
    {
        match self {
            AnyTypeTest::Type(one) => one.takes(value),
            AnyTypeTest::Types(several) => is_of_any(several.as_slice(), value),
            AnyTypeTest::Enum(choices) => is_listed(choices, value),
            AnyTypeTest::Const(doc) => **doc == *value,
        }
    }

    /// The text of the error for a value that doesn't meet the test.
    pub(crate) fn error_text(&self, alloc: Global, value: &Doc) -> Result<String, Memory>
        ensures { IfOk result (λ s.
            string_bytes s ≡ any_type_text (value_of value.now) (any_type_keyword self.now)) }
    {
        match self {
            AnyTypeTest::Type(_) => words(alloc, type_text(value)),
            AnyTypeTest::Types(_) => words(alloc, type_text(value)),
            AnyTypeTest::Enum(_) => words(alloc, "not a listed value"),
            AnyTypeTest::Const(_) => words(alloc, "not the constant"),
        }
    }
}

fn is_listed(choices: &Choices, value: &Doc) -> bool
    ensures { result ≡ any_type_says (list (items choices.now)) AnyTypeKeyword.Enum (value_of value.now) }
{
    choices.contains(value)
}

fn type_text(value: &Doc) -> &'static str
    ensures { result.now ≡ codes "type is " ++ type_of (value_of value.now) }
{
    match value {
        Doc::Null => "type is null",
        Doc::Truth(_) => "type is boolean",
        Doc::Whole(_) => "type is integer",
        Doc::Text(_) => "type is string",
        Doc::List(_) => "type is array",
        Doc::Members(_) => "type is object",
    }
}

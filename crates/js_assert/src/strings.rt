//! The assertions on strings (JSON Schema Validation, section 6.3). A value of another type passes.
ghost use Rattle.std.specs.Prelude.{◌≡◌, IfOk, IfErr, string_bytes};
ghost use Rattle.js_doc.specs.Seen.{value_of};
ghost use Rattle.js_assert.specs.Argument.{on_string, string};
ghost use Rattle.js_assert.specs.Seen.{IsTestOf};
ghost use Rattle.js_assert.specs.Shape.{IsFaultOf};
ghost use Rattle.js_assert.specs.Strings.{characters, string_argument, string_keyword, string_says, string_text};

use crate::argument_shape::{count, pattern_argument};
use crate::assertion::Test;
use crate::fault::KeywordFault;
use crate::pattern::Pattern;
use crate::text_parts::{at_least, at_most, words};
use js_doc::{Doc, Memory, character_count};
use js_keyword::{AssertionKeyword, StringKeyword};
use std::alloc::Global;

/// What a keyword tests, with its argument read.
#[derive(Drop)]
pub(crate) enum StringTest {
    MaxLength(u64),
    MinLength(u64),
    Pattern(Pattern),
}

impl StringTest {
    pub(crate) fn read(
        alloc: Global,
        keyword: StringKeyword,
        argument: &Doc,
    ) -> Result<StringTest, KeywordFault>
        ensures ok { IfOk result
            (λ t. IsTestOf (AssertionKeyword.String keyword) (value_of argument.now) (Test.String t)) }
        ensures refused { IfErr result (IsFaultOf (AssertionKeyword.String keyword) (value_of argument.now)) }
    {
        match keyword {
            StringKeyword::MaxLength => Ok(StringTest::MaxLength(count(argument)?)),
            StringKeyword::MinLength => Ok(StringTest::MinLength(count(argument)?)),
            StringKeyword::Pattern => Ok(StringTest::Pattern(pattern_argument(alloc, argument)?)),
        }
    }

    pub(crate) fn keyword(&self) -> StringKeyword
        ensures { result ≡ string_keyword self.now }
    {
        match self {
            StringTest::MaxLength(_) => StringKeyword::MaxLength,
            StringTest::MinLength(_) => StringKeyword::MinLength,
            StringTest::Pattern(_) => StringKeyword::Pattern,
        }
    }

    /// Whether the value meets the test.
    ///
    /// # Errors
    /// `Memory`: a pattern needs some.
    pub(crate) fn holds(&self, alloc: Global, value: &Doc) -> Result<bool, Memory>
        ensures { IfOk result (λ b. b
            ≡ on_string (value_of value.now) (string_says (string_argument self.now) (string_keyword self.now))) }
    {
        match value {
            Doc::Text(text) => self.is_met_by(alloc, text.as_str()),
            _ => Ok(true),
        }
    }

    fn is_met_by(&self, alloc: Global, text: &str) -> Result<bool, Memory>
        ensures { IfOk result (λ b. b
            ≡ string_says (string_argument self.now) (string_keyword self.now) text.now) }
    {
        match self {
            StringTest::MaxLength(limit) => Ok(character_count(text) <= *limit),
            StringTest::MinLength(limit) => Ok(*limit <= character_count(text)),
            StringTest::Pattern(pattern) => pattern.holds(alloc, text),
        }
    }

    /// The text of the error for a value that doesn't meet the test.
    pub(crate) fn error_text(&self, alloc: Global, value: &Doc) -> Result<String, Memory>
        ensures { IfOk result (λ s. string_bytes s
            ≡ string_text (string_argument self.now) (value_of value.now) (string_keyword self.now)) }
    {
        match self {
            StringTest::MaxLength(limit) => at_most(alloc, length(value), " characters", *limit),
            StringTest::MinLength(limit) => at_least(alloc, length(value), " characters", *limit),
            StringTest::Pattern(_) => words(alloc, "no match"),
        }
    }
}

// How many characters the value has, if it is a string.
fn length(value: &Doc) -> u64
    ensures { result ≡ characters (string (value_of value.now)) }
{
    match value {
        Doc::Text(text) => character_count(text.as_str()),
        _ => 0,
    }
}

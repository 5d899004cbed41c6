//! The assertions on arrays (JSON Schema Validation, section 6.4). A value of another type passes.
#![tactic(auto, using(crate::proofs::ListedValues::array_rules))]

ghost use Rattle.std.specs.Prelude.{◌≡◌, IfOk, IfErr, length, map, string_bytes};
ghost use Rattle.js_doc.specs.Seen.{value_of};
ghost use Rattle.js_doc.specs.Parts.{items_of};
ghost use Rattle.js_assert.specs.Argument.{implies, on_array};
ghost use Rattle.js_assert.specs.Arrays.{array_argument, array_keyword, array_says, array_text, is_unique};
ghost use Rattle.js_assert.specs.Seen.{IsTestOf};
ghost use Rattle.js_assert.specs.Shape.{IsFaultOf};

use crate::argument_shape::{boolean, count};
use crate::assertion::Test;
use crate::fault::KeywordFault;
use crate::text_parts::{at_least, at_most};
use crate::unique::{equal_items, least_equal_pair};
use js_doc::{Doc, Memory};
use js_keyword::{ArrayKeyword, AssertionKeyword};
use std::alloc::Global;

/// What a keyword tests, with its argument read.
#[derive(Drop)]
pub(crate) enum ArrayTest {
    MaxItems(u64),
    MinItems(u64),
    UniqueItems(bool),
    MaxContains(u64),
    MinContains(u64),
}

impl ArrayTest {
    pub(crate) fn read(keyword: ArrayKeyword, argument: &Doc) -> Result<ArrayTest, KeywordFault>
        ensures ok { IfOk result
            (λ t. IsTestOf (AssertionKeyword.Array keyword) (value_of argument.now) (Test.Array t)) }
        ensures refused { IfErr result (IsFaultOf (AssertionKeyword.Array keyword) (value_of argument.now)) }
    {
        match keyword {
            ArrayKeyword::MaxItems => Ok(ArrayTest::MaxItems(count(argument)?)),
            ArrayKeyword::MinItems => Ok(ArrayTest::MinItems(count(argument)?)),
            ArrayKeyword::UniqueItems => Ok(ArrayTest::UniqueItems(boolean(argument)?)),
            ArrayKeyword::MaxContains => Ok(ArrayTest::MaxContains(count(argument)?)),
            ArrayKeyword::MinContains => Ok(ArrayTest::MinContains(count(argument)?)),
        }
    }

    pub(crate) fn keyword(&self) -> ArrayKeyword
        ensures { result ≡ array_keyword self.now }
    {
        match self {
            ArrayTest::MaxItems(_) => ArrayKeyword::MaxItems,
            ArrayTest::MinItems(_) => ArrayKeyword::MinItems,
            ArrayTest::UniqueItems(_) => ArrayKeyword::UniqueItems,
            ArrayTest::MaxContains(_) => ArrayKeyword::MaxContains,
            ArrayTest::MinContains(_) => ArrayKeyword::MinContains,
        }
    }

    /// Whether the value meets the test, beside `contains` or not; `matching` of its items match that `contains`.
    ///
    /// # Errors
    /// `Memory`: `uniqueItems` needs some.
    pub(crate) fn holds(
        &self,
        alloc: Global,
        beside_contains: bool,
        value: &Doc,
        matching: u64,
    ) -> Result<bool, Memory>
        ensures { IfOk result (λ b. b ≡ on_array (value_of value.now)
            (array_says (array_argument self.now) beside_contains matching (array_keyword self.now))) }
    {
        match value {
            Doc::List(items) => self.is_met_by(alloc, beside_contains, items.as_slice(), matching),
            _ => Ok(true),
        }
    }

    fn is_met_by(
        &self,
        alloc: Global,
        beside_contains: bool,
        items: &[Doc],
        matching: u64,
    ) -> Result<bool, Memory>
        ensures { IfOk result (λ b. b ≡ array_says (array_argument self.now) beside_contains matching
            (array_keyword self.now) (map value_of items.now)) }
    {
        match self {
            ArrayTest::MaxItems(limit) => Ok(items.len() as u64 <= *limit),
            ArrayTest::MinItems(limit) => Ok(*limit <= items.len() as u64),
            ArrayTest::UniqueItems(asked) => has_no_repeats(alloc, *asked, items),
            ArrayTest::MaxContains(limit) => Ok(!beside_contains || matching <= *limit),
            ArrayTest::MinContains(limit) => Ok(!beside_contains || *limit <= matching),
        }
    }

    /// The text of the error for a value that doesn't meet the test.
    pub(crate) fn error_text(
        &self,
        alloc: Global,
        value: &Doc,
        matching: u64,
    ) -> Result<String, Memory>
        ensures { IfOk result (λ s. string_bytes s
            ≡ array_text (array_argument self.now) (value_of value.now) matching (array_keyword self.now)) }
    {
        match self {
            ArrayTest::MaxItems(limit) => at_most(alloc, array_length(value), " items", *limit),
            ArrayTest::MinItems(limit) => at_least(alloc, array_length(value), " items", *limit),
            ArrayTest::UniqueItems(_) => equal_items(alloc, value),
            ArrayTest::MaxContains(limit) => at_most(alloc, matching, " matching items", *limit),
            ArrayTest::MinContains(limit) => at_least(alloc, matching, " matching items", *limit),
        }
    }
}

// Whether no two items are equal, where that is asked.
fn has_no_repeats(alloc: Global, asked: bool, items: &[Doc]) -> Result<bool, Memory>
    ensures { IfOk result (λ b. b ≡ implies asked (is_unique (map value_of items.now))) }
{
    if !asked {
        return Ok(true);
    }
    Ok(least_equal_pair(alloc, items)?.is_none())
}

// How many items the value has, if it is an array.
fn array_length(value: &Doc) -> u64
    ensures { result ≡ length (items_of (value_of value.now)) }
{
    match value {
        Doc::List(items) => items.len() as u64,
        _ => 0,
    }
}

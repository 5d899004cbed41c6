//! The assertions on numbers (JSON Schema Validation, section 6.2). A value of another type passes.
ghost use Rattle.std.specs.Prelude.{◌≡◌, pos, IfOk, IfErr, string_bytes};
ghost use Rattle.std.specs.Int.NonZero.{non_zero_u64_get};
ghost use Rattle.js_doc.specs.Seen.{value_of};
ghost use Rattle.js_assert.specs.Argument.{on_number};
ghost use Rattle.js_assert.specs.Numbers.{divides, number_argument, number_keyword, number_says, number_text};
ghost use Rattle.js_assert.specs.Seen.{IsTestOf};
ghost use Rattle.js_assert.specs.Shape.{IsFaultOf};

use crate::argument_shape::{divisor, limit};
use crate::assertion::Test;
use crate::fault::KeywordFault;
use crate::text_parts::before_number;
use js_doc::{Doc, Memory, Whole};
use js_keyword::{AssertionKeyword, NumberKeyword};
use std::alloc::Global;
use std::num::NonZeroU64;

/// What a keyword tests, with its argument read. The limits are boxed: they are aligned as numbers of 128 bits.
#[derive(Drop)]
pub(crate) enum NumberTest {
    MultipleOf(NonZeroU64),
    Maximum(Box<Whole>),
    ExclusiveMaximum(Box<Whole>),
    Minimum(Box<Whole>),
    ExclusiveMinimum(Box<Whole>),
}

impl NumberTest {
    pub(crate) fn read(
        alloc: Global,
        keyword: NumberKeyword,
        argument: &Doc,
    ) -> Result<NumberTest, KeywordFault>
        ensures ok { IfOk result
            (λ t. IsTestOf (AssertionKeyword.Number keyword) (value_of argument.now) (Test.Number t)) }
        ensures refused { IfErr result (IsFaultOf (AssertionKeyword.Number keyword) (value_of argument.now)) }
    {
        match keyword {
            NumberKeyword::MultipleOf => Ok(NumberTest::MultipleOf(divisor(argument)?)),
            NumberKeyword::Maximum => Ok(NumberTest::Maximum(limit(alloc, argument)?)),
            NumberKeyword::ExclusiveMaximum => {
                Ok(NumberTest::ExclusiveMaximum(limit(alloc, argument)?))
            }
            NumberKeyword::Minimum => Ok(NumberTest::Minimum(limit(alloc, argument)?)),
            NumberKeyword::ExclusiveMinimum => {
                Ok(NumberTest::ExclusiveMinimum(limit(alloc, argument)?))
            }
        }
    }

    pub(crate) fn keyword(&self) -> NumberKeyword
        ensures { result ≡ number_keyword self.now }
    {
        match self {
            NumberTest::MultipleOf(_) => NumberKeyword::MultipleOf,
            NumberTest::Maximum(_) => NumberKeyword::Maximum,
            NumberTest::ExclusiveMaximum(_) => NumberKeyword::ExclusiveMaximum,
            NumberTest::Minimum(_) => NumberKeyword::Minimum,
            NumberTest::ExclusiveMinimum(_) => NumberKeyword::ExclusiveMinimum,
        }
    }

    /// Whether the value meets the test.
    pub(crate) fn holds(&self, value: &Doc) -> bool
        ensures { result
            ≡ on_number (value_of value.now) (number_says (number_argument self.now) (number_keyword self.now)) }
    {
        match value {
            Doc::Whole(number) => self.is_met_by(number.value()),
            _ => true,
        }
    }

    fn is_met_by(&self, number: i128) -> bool
        ensures { result ≡ number_says (number_argument self.now) (number_keyword self.now) number }
    {
        match self {
            NumberTest::MultipleOf(divisor) => is_multiple(number, *divisor),
            NumberTest::Maximum(limit) => number <= limit.value(),
            NumberTest::ExclusiveMaximum(limit) => number < limit.value(),
            NumberTest::Minimum(limit) => number >= limit.value(),
            NumberTest::ExclusiveMinimum(limit) => number > limit.value(),
        }
    }

    /// The text of the error for a value that doesn't meet the test.
    pub(crate) fn error_text(&self, alloc: Global) -> Result<String, Memory>
        ensures { IfOk result (λ s.
            string_bytes s ≡ number_text (number_argument self.now) (number_keyword self.now)) }
    {
        match self {
            NumberTest::MultipleOf(divisor) => {
                before_number(alloc, "not a multiple of ", i128::from(divisor.get()))
            }
            NumberTest::Maximum(limit) => before_number(alloc, "greater than ", limit.value()),
            NumberTest::ExclusiveMaximum(limit) => {
                before_number(alloc, "not less than ", limit.value())
            }
            NumberTest::Minimum(limit) => before_number(alloc, "less than ", limit.value()),
            NumberTest::ExclusiveMinimum(limit) => {
                before_number(alloc, "not greater than ", limit.value())
            }
        }
    }
}

fn is_multiple(number: i128, divisor: NonZeroU64) -> bool
    ensures { result ≡ divides (pos (non_zero_u64_get divisor)) number }
{
    number.unsigned_abs() % u128::from(divisor.get()) == 0
}

ghost use Rattle.std.specs.Prelude.{◌≡◌, ℕ, IfOk, IfErr, MatchOption, true, codes, option_map, string_bytes};
ghost use Rattle.js_doc.specs.Seen.{value_of};
ghost use Rattle.js_assert.specs.Seen.{keyword_tested, IsTestOf};
ghost use Rattle.js_assert.specs.Shape.{IsFaultOf};

use crate::any_type::AnyTypeTest;
use crate::arrays::ArrayTest;
use crate::fault::KeywordFault;
use crate::numbers::NumberTest;
use crate::objects::ObjectTest;
use crate::pattern::Pattern;
use crate::strings::StringTest;
use js_doc::{Doc, Members, Memory};
use js_keyword::{AssertionKeyword, Keyword};
use std::alloc::Global;
use std::fmt::{self, Debug, Formatter};
use std::marker::Model;

/// What a keyword tests, with its argument read.
#[derive(Drop)]
pub(crate) enum Test {
    AnyType(AnyTypeTest),
    Number(NumberTest),
    String(StringTest),
    Array(ArrayTest),
    Object(ObjectTest),
}

impl Test {
    fn read(alloc: Global, keyword: AssertionKeyword, argument: &Doc) -> Result<Test, KeywordFault>
        ensures ok { IfOk result (IsTestOf keyword (value_of argument.now)) }
        ensures refused { IfErr result (IsFaultOf keyword (value_of argument.now)) }
    {
        match keyword {
            AssertionKeyword::AnyType(which) => {
                Ok(Test::AnyType(AnyTypeTest::read(alloc, which, argument)?))
            }
            AssertionKeyword::Number(which) => Ok(Test::Number(NumberTest::read(
                alloc, which, argument,
            )?)),
            AssertionKeyword::String(which) => Ok(Test::String(StringTest::read(
                alloc, which, argument,
            )?)),
            AssertionKeyword::Array(which) => Ok(Test::Array(ArrayTest::read(which, argument)?)),
            AssertionKeyword::Object(which) => Ok(Test::Object(ObjectTest::read(
                alloc, which, argument,
            )?)),
        }
    }

    fn keyword(&self) -> AssertionKeyword
        ensures { result ≡ keyword_tested self.now }
    {
        match self {
            Test::AnyType(test) => AssertionKeyword::AnyType(test.keyword()),
            Test::Number(test) => AssertionKeyword::Number(test.keyword()),
            Test::String(test) => AssertionKeyword::String(test.keyword()),
            Test::Array(test) => AssertionKeyword::Array(test.keyword()),
            Test::Object(test) => AssertionKeyword::Object(test.keyword()),
        }
    }
}

/// A keyword that judges a value by itself, with its argument (JSON Schema Validation, section 6). Contracts see it
/// as the keyword, the argument's value, and whether `contains` stands beside it.
pub struct Assertion {
    test: Test,
    // Only the two keywords that count an array's matching items look at it.
    beside_contains: bool,
}

// By hand, so that it is proved here alone, and crates that own assertions call it.
impl Drop for Assertion {
    fn drop(self) {
        let Assertion {
            test: _,
            beside_contains: _,
        } = self;
    }
}

impl Model for Assertion {
    ghost use Rattle.js_assert.specs.Assertion.{Asserted, asserted_code};
    ghost use Rattle.js_keyword.specs.contracts.assertion_keyword.AssertionKeyword.{the_row};

    ghost Value = { Asserted };

    ghost coded = { asserted_code the_row.coded };

    ghost use Rattle.js_assert.specs.Seen.{keyword_tested, argument_tested};

    ghost view = { λ a. record {
      keyword = keyword_tested a.test;
      argument = argument_tested a.test;
      beside_contains = a.beside_contains;
    } };
}

impl Assertion {
    ghost use Rattle.js_doc.specs.Value.{Value};
    ghost use Rattle.js_assert.specs.Argument.{on_string, string};
    ghost use Rattle.js_assert.specs.Assertion.{asserted, pattern_asked, says};
    ghost use Rattle.js_assert.specs.ErrorText.{error, error_text};
    ghost use Rattle.js_assert.specs.Shape.{has_shape, IsKeywordFault};
    ghost use Rattle.js_keyword.specs.AssertionKeyword.{name_of};
    ghost use Rattle.js_assert.specs.Pattern.{is_pattern, matches};

    /// The assertion that the keyword of this name makes with this argument, among these members of its schema;
    /// None where the name is none of the twenty keywords'.
    ///
    /// # Errors
    /// `Memory`; `BadKeyword` exactly where the argument doesn't have the shape of the keyword; `NotAPattern`
    /// and `PatternTooLarge` of a `pattern`, as `Pattern::new` answers them.
    pub fn read(
        alloc: Global,
        keyword: &str,
        argument: &Doc,
        siblings: &Members,
    ) -> Result<Option<Assertion>, KeywordFault>
        ensures built { IfOk result (λ a.
            a ≡ asserted keyword.now (value_of argument.now) siblings.now) }
        ensures shape { IfOk result (λ _. has_shape keyword.now (value_of argument.now) ≡ true) }
        ensures pattern { IfOk result (λ _.
            keyword.now ≡ codes "pattern" → is_pattern (string (value_of argument.now)) ≡ true) }
        ensures refused { IfErr result (IsKeywordFault keyword.now (value_of argument.now)) }
    {
        let Some(keyword) = AssertionKeyword::named(keyword) else {
            return Ok(None);
        };
        let test = Test::read(alloc, keyword, argument)?;
        let beside_contains = siblings.get(Keyword::Contains.name()).is_some();
        Ok(Some(Assertion {
            test,
            beside_contains,
        }))
    }

    /// The keyword's name.
    pub fn keyword(&self) -> &'static str
        ensures { result.now ≡ name_of self.now.keyword }
    {
        self.test.keyword().name()
    }

    /// The pattern that a string has to match (JSON Schema Validation, section 6.3.3), where the keyword is `pattern`.
    /// A caller that judges many values can keep a searcher for it.
    pub fn pattern_asked(&self) -> Option<&Pattern>
        ensures asked { option_map (λ p. p.now) result ≡ pattern_asked self.now }
        ensures says { MatchOption result (Unit {0}) (λ p. (v : Value) (matching : ℕ)
            → says self.now v matching ≡ on_string v (λ s. matches p.now s)) }
    {
        match &self.test {
            Test::String(StringTest::Pattern(pattern)) => Some(pattern),
            _ => None,
        }
    }

    /// Whether the value meets the assertion. `matching` counts the items of an array that match the adjacent
    /// `contains`; only `maxContains` and `minContains` look at it, and only if there is such a `contains`.
    ///
    /// # Errors
    /// `Memory`: only `pattern` and `uniqueItems` need some.
    pub fn holds(&self, alloc: Global, value: &Doc, matching: u64) -> Result<bool, Memory>
        ensures { IfOk result (λ b. b ≡ says self.now (value_of value.now) matching) }
    {
        match &self.test {
            Test::AnyType(test) => Ok(test.holds(value)),
            Test::Number(test) => Ok(test.holds(value)),
            Test::String(test) => test.holds(alloc, value),
            Test::Array(test) => test.holds(alloc, self.beside_contains, value, matching),
            Test::Object(test) => Ok(test.holds(value)),
        }
    }

    /// The text of the error for a value that doesn't meet the assertion. Whether it does isn't checked.
    ///
    /// # Errors
    /// `Memory`.
    pub fn error(&self, alloc: Global, value: &Doc, matching: u64) -> Result<String, Memory>
        ensures { IfOk result (λ s. string_bytes s ≡ error_text self.now (value_of value.now) matching) }
    {
        match &self.test {
            Test::AnyType(test) => test.error_text(alloc, value),
            Test::Number(test) => test.error_text(alloc),
            Test::String(test) => test.error_text(alloc, value),
            Test::Array(test) => test.error_text(alloc, value, matching),
            Test::Object(test) => test.error_text(alloc, value),
        }
    }

    /// The error's text, or None where the value meets the assertion.
    ///
    /// # Errors
    /// `Memory`.
    pub fn check(&self, alloc: Global, value: &Doc, matching: u64) -> Result<Option<String>, Memory>
        ensures { IfOk result (λ e. option_map string_bytes e ≡ error self.now (value_of value.now) matching) }
    {
        if self.holds(alloc, value, matching)? {
            return Ok(None);
        }
        Ok(Some(self.error(alloc, value, matching)?))
    }
}

impl Debug for Assertion {
    fn fmt<W: fmt::Write>(&self, f: &mut Formatter<W>) -> fmt::Result {
        f.debug_struct("Assertion")
            .field("keyword", &self.keyword())
            .finish_non_exhaustive()
    }
}

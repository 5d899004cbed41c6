//! Patterns, in the dialect of `regex` (JSON Schema Validation, section 6.3.3).
ghost use Rattle.std.specs.Prelude.{◌≡◌, IfOk, IfErr, true, false};
ghost use Rattle.regex.specs.Strings.{regex_source};
ghost use Rattle.js_assert.specs.Pattern.{IsCompiled};

use crate::searcher::Searcher;
use js_doc::Memory;
use regex::{Error, Regex};
use std::alloc::Global;
use std::marker::Model;

/// Why a pattern isn't built (JSON Schema Validation, section 6.3.3).
#[derive(Clone, Copy, Debug, PartialEq, Eq)]
pub enum PatternFault {
    /// 1: there was no memory.
    Memory,
    /// 2: `regex` reads no pattern in the text, or one that nests too deep.
    NotAPattern,
    /// 3: `regex` refuses the pattern for a reason other than syntax and memory: what it would be compiled to is
    /// too large.
    PatternTooLarge,
}

/// A compiled pattern (JSON Schema Validation, section 6.3.3). Contracts see it as its text.
#[derive(Debug)]
pub struct Pattern {
    // A regex is large, and most keywords hold something small.
    regex: Box<Regex>,
}

// By hand, so that it is proved here alone, and crates that own patterns call it.
impl Drop for Pattern {
    fn drop(self) {
        let Pattern { regex: _ } = self;
    }
}

impl Model for Pattern {
    ghost use Rattle.std.specs.Prelude.{ℕ, List};
    ghost use Rattle.regex.specs.Strings.{regex_source};

    ghost Value = { List ℕ };

    ghost view = { λ p. regex_source p.regex.value };

    ghost use Rattle.js_assert.specs.Pattern.{IsCompiled};

    ghost invariant = { λ p. IsCompiled p.regex.value };
}

impl Pattern {
    ghost use Rattle.js_assert.specs.Pattern.{is_pattern, nests_too_deep, matches, IsPatternFault};

    /// The pattern of this text.
    ///
    /// # Errors
    /// `Memory`; `NotAPattern` only where the grammar of `regex` reads no pattern in the text, or one that nests
    /// deeper than it takes; `PatternTooLarge` only for a pattern. A pattern that nests too deep is always refused.
    pub fn new(alloc: Global, text: &str) -> Result<Pattern, PatternFault>
        ensures ok { IfOk result (λ p. p ≡ text.now) }
        ensures read { IfOk result (λ _. is_pattern text.now ≡ true) }
        ensures shallow { IfOk result (λ _. nests_too_deep text.now ≡ false) }
        ensures refused { IfErr result (IsPatternFault text.now) }
    {
        match Regex::new(alloc, text) {
            Ok(regex) => boxed(alloc, regex),
            Err(Error::Syntax(_)) => Err(PatternFault::NotAPattern),
            Err(Error::OutOfMemory) => Err(PatternFault::Memory),
            Err(Error::CompiledTooBig) => Err(PatternFault::PatternTooLarge),
            Err(Error::Internal) => Err(PatternFault::PatternTooLarge),
        }
    }

    /// The pattern's text.
    pub fn as_str(&self) -> &str
        ensures { result.now ≡ self.now }
    {
        self.regex.as_str()
    }

    /// A searcher for the pattern. Make it once for many texts.
    ///
    /// # Errors
    /// `Memory`.
    pub fn searcher(&self, alloc: Global) -> Result<Searcher<'_>, Memory>
        ensures { IfOk result (λ s. s ≡ self.now) }
    {
        Searcher::new(alloc, &self.regex)
    }

    /// Whether the pattern matches somewhere in the text.
    ///
    /// # Errors
    /// `Memory`: a search needs some.
    pub fn holds(&self, alloc: Global, text: &str) -> Result<bool, Memory>
        ensures { IfOk result (λ b. b ≡ matches self.now text.now) }
    {
        let mut searcher = self.searcher(alloc)?;
        Ok(searcher.holds(text))
    }
}

fn boxed(alloc: Global, regex: Regex) -> Result<Pattern, PatternFault>
    requires { IsCompiled regex }
    ensures ok { IfOk result (λ p. p ≡ regex_source regex) }
    ensures refused { IfErr result (λ e. e ≡ PatternFault.Memory) }
{
    match Box::new(alloc, regex) {
        Ok(regex) => Ok(Pattern { regex }),
        Err(_) => Err(PatternFault::Memory),
    }
}

ghost use Rattle.std.specs.Prelude.{◌≡◌, IfOk};
ghost use Rattle.regex.specs.Strings.{regex_source};
ghost use Rattle.js_assert.specs.Pattern.{IsCompiled};

use js_doc::Memory;
use regex::{Matcher, Regex};
use std::alloc::Global;
use std::marker::Model;

/// Searches for one pattern in one text after another. What it works with is kept from one search to the next, so only
/// the first is slow. Contracts see it as the pattern's text.
#[derive(Drop)]
pub struct Searcher<'p> {
    regex: &'p Regex,
    // A matcher is large, and a searcher is kept while others are made.
    matcher: Box<Matcher<'p>>,
}

impl<'p> Model for Searcher<'p> {
    ghost use Rattle.std.specs.Prelude.{ℕ, List};
    ghost use Rattle.regex.specs.Strings.{regex_source};
    ghost use Rattle.js_assert.specs.Pattern.{IsSearchedBy};

    ghost Value = { List ℕ };

    ghost view = { λ s. regex_source s.regex.now };

    ghost invariant = { λ s. IsSearchedBy s.regex.now s.matcher.value };
}

impl<'p> Searcher<'p> {
    ghost use Rattle.js_assert.specs.Pattern.{matches};

    pub(crate) fn new(alloc: Global, regex: &'p Regex) -> Result<Searcher<'p>, Memory>
        requires { IsCompiled regex.now }
        ensures { IfOk result (λ s. s ≡ regex_source regex.now) }
    {
        let matcher = Box::new(alloc, regex.matcher(alloc)?)?;
        Ok(Searcher { regex, matcher })
    }

    /// Whether the pattern matches somewhere in the text.
    pub fn holds(&mut self, text: &str) -> bool
        ensures found { result ≡ matches self.old text.now }
        ensures same { self.new ≡ self.old }
    {
        self.matcher.is_match(text)
    }
}

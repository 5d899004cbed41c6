//! What a walk knows of a keyword from its applications, and of a schema from its keywords.
ghost use Rattle.std.specs.Prelude.{◌≡◌, ◌&&◌, ◌≤◌, ◌<◌, ◌+◌, cond, false};
ghost use Rattle.js_eval.specs.Walk.Keeping.{condition_step, matching_step};

use js_bundle::Place;
use js_keyword::Keyword;

/// What is evaluated: a keyword of the schema at a place, on a value.
#[derive(Clone, Copy)]
pub(crate) struct Case<S, V, K> {
    pub(crate) place: Place,
    pub(crate) schema: S,
    pub(crate) value: V,
    pub(crate) keyword: K,
}

/// The number of applications that a keyword has asked for, and the number of those that succeed.
#[derive(Clone, Copy)]
pub(crate) struct Tally {
    pub(crate) asked: usize,
    pub(crate) succeeded: usize,
}

/// Whether a keyword passes, and how many of its applications succeed.
#[derive(Clone, Copy)]
pub(crate) struct KeywordVerdict {
    pub(crate) passes: bool,
    pub(crate) succeeded: usize,
}

/// What the keywords evaluated so far show of a schema: whether it is valid so far, whether its `if` succeeds, and how
/// many items match its `contains`.
#[derive(Clone, Copy)]
pub(crate) struct Known {
    pub(crate) valid: bool,
    pub(crate) condition: Option<bool>,
    pub(crate) matching: u64,
}

/// The keywords of a schema that are still to be evaluated, and what those before them have shown.
#[derive(Drop)]
pub(crate) struct KeywordProgress<K> {
    pub(crate) keywords: K,
    pub(crate) known: Known,
}

/// The keywords of a schema that a quiet walk doesn't visit: whether all of them pass, and how many there are.
#[derive(Clone, Copy)]
pub(crate) struct Others {
    pub(crate) pass: bool,
    pub(crate) count: usize,
}

/// Whether all keywords of a schema pass that apply no schemas, once they are judged together: given how many items
/// match the adjacent `contains`.
#[derive(Clone, Copy)]
pub(crate) struct Together {
    pub(crate) known: bool,
    pub(crate) matching: u64,
    pub(crate) pass: bool,
}

impl Tally {
    /// The tally with one more application.
    pub(crate) fn with_application(self, holds: bool) -> Tally
        requires few { self.asked < usize.MAX }
        requires succeeded { self.succeeded ≤ self.asked }
        ensures asked { result.asked ≡ self.asked + 1 }
        ensures succeeded { result.succeeded ≡ self.succeeded + cond holds 1 0 }
    {
        Tally {
            asked: self.asked + 1,
            succeeded: self.succeeded + if holds { 1 } else { 0 },
        }
    }
}

impl Together {
    /// None of these keywords is judged yet.
    pub(crate) fn unknown() -> Together
        ensures { result.known ≡ false }
    {
        Together {
            known: false,
            matching: 0,
            pass: false,
        }
    }
}

impl Known {
    /// What is known with one more keyword.
    pub(crate) fn with_keyword(self, kind: Keyword, passes: bool, succeeded: usize) -> Known
        ensures valid { result.valid ≡ (self.valid && passes) }
        ensures condition { result.condition ≡ condition_step kind succeeded self.condition }
        ensures matching { result.matching ≡ matching_step kind succeeded self.matching }
    {
        Known {
            valid: self.valid & passes,
            condition: condition_after(kind, succeeded, self.condition),
            matching: matching_after(kind, succeeded, self.matching),
        }
    }
}

fn condition_after(kind: Keyword, succeeded: usize, before: Option<bool>) -> Option<bool>
    ensures { result ≡ condition_step kind succeeded before }
{
    match kind {
        Keyword::If => Some(succeeded == 1),
        _ => before,
    }
}

fn matching_after(kind: Keyword, succeeded: usize, before: u64) -> u64
    ensures { result ≡ matching_step kind succeeded before }
{
    match kind {
        Keyword::Contains => succeeded as u64,
        _ => before,
    }
}

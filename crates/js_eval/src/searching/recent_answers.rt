//! The answers of recent searches with patterns.
ghost use Rattle.std.specs.Prelude.{◌≡◌, MatchOption};
ghost use Rattle.js_assert.specs.Pattern.{matches};

use std::alloc::Global;

/// The number of answers that are remembered. A power of two, so that a slot is found by a mask.
const SLOTS: usize = 64;

/// Whether a pattern matches a name.
#[derive(Clone, Copy)]
struct Answer<'p> {
    pattern: &'p str,
    name: &'p str,
    is_match: bool,
    ghost right: { is_match ≡ matches pattern.now name.now },
}

/// The answers of recent searches. A pattern and a name determine the slot of their answer, which gives way to the next
/// answer there. So their number is limited, and an object with the names of one before is answered without a search.
#[derive(Drop)]
pub(crate) struct RecentAnswers<'p> {
    /// All slots, or none at first, or those that there was memory for.
    slots: Vec<Answer<'p>>,
}

impl<'p> RecentAnswers<'p> {
    /// Without answers. This takes no memory.
    pub fn new(alloc: Global) -> RecentAnswers<'p> {
        RecentAnswers {
            slots: Vec::new(alloc),
        }
    }

    /// Whether the pattern matches the name, if that is remembered.
    pub fn recall(&self, pattern: &str, name: &str) -> Option<bool>
        ensures { MatchOption result (Unit {0}) (λ b. b ≡ matches pattern.now name.now) }
    {
        let answer = self.slots.get(slot_of(pattern, name))?;
        if answer.name == name && answer.pattern == pattern {
            return Some(answer.is_match);
        }
        None
    }

    /// Remembers whether the pattern matches the name, if there is memory.
    pub fn remember(&mut self, pattern: &'p str, name: &'p str, is_match: bool)
        requires { is_match ≡ matches pattern.now name.now }
    {
        let answer = Answer {
            pattern,
            name,
            is_match,
        };
        match self.slots.get_mut(slot_of(pattern, name)) {
            Some(slot) => *slot = answer,
            None => fill(&mut self.slots, answer),
        }
    }
}

// Makes all slots, each with this answer: an answer is right in any slot, and found in its own alone.
#[inline(never)]
fn fill<'p>(slots: &mut Vec<Answer<'p>>, answer: Answer<'p>) {
    if slots.reserve(SLOTS).is_err() {
        return;
    }
    for _ in slots.len()..SLOTS {
        if slots.push(answer).is_err() {
            return;
        }
    }
}

// The slot of a pattern and a name, by their lengths and three bytes of the name.
fn slot_of(pattern: &str, name: &str) -> usize {
    let bytes = name.as_bytes();
    if bytes.is_empty() {
        return 0;
    }
    let last = bytes.len() - 1;
    let first = bytes[0] as usize;
    let middle = bytes[last / 2] as usize;
    let sum = first + 3 * middle + 13 * bytes[last] as usize;
    let lengths = pattern
        .len()
        .wrapping_mul(21)
        .wrapping_add(last.wrapping_mul(5));
    sum.wrapping_add(lengths) % SLOTS
}

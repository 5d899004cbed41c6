//! A collector that keeps the verdict alone.
ghost use Rattle.std.specs.Prelude.{◌≡◌};

use crate::collecting::collector::{Collector, Head};
use crate::note::Note;
use js_doc::Memory;

/// A collector that keeps the root's verdict. No call allocates, and each returns Ok.
#[derive(Debug, Drop)]
pub struct Verdict {
    // The number of open nodes.
    depth: u64,
    valid: Option<bool>,
}

impl Verdict {
    ghost use Rattle.js_tree.specs.VerdictState.{verdict_start, verdict_state};

    /// A collector without a verdict.
    pub fn new() -> Verdict
        ensures { verdict_state result ≡ verdict_start }
    {
        Verdict {
            depth: 0,
            valid: None,
        }
    }

    /// The root's verdict, or None if the root hasn't closed.
    pub fn valid(&self) -> Option<bool>
        ensures { result ≡ (verdict_state self.now).valid }
    {
        self.valid
    }
}

impl<'a> Collector<'a> for Verdict {
    ghost use Rattle.std.specs.Prelude.{◌≡◌, IfOk, IsOk};
    ghost use Rattle.js_tree.specs.Events.{opening, closing};
    ghost use Rattle.js_tree.specs.Seen.{note_of};
    ghost use Rattle.js_tree.specs.VerdictState.{verdict_after, verdict_state};

    ghost takes = { λ a e b. verdict_state b ≡ verdict_after (verdict_state a) e };

    fn enter(&mut self, head: Head) -> Result<(), Memory>
        ensures takes { IfOk result (λ _. verdict_state self.new
            ≡ verdict_after (verdict_state self.old) (opening head.keyword head.absolute head.instance)) }
        ensures ok { IsOk result }
    {
        drop(head);
        if self.valid.is_none() && self.depth != u64::MAX {
            self.depth += 1;
        }
        Ok(())
    }

    fn leave(&mut self, valid: bool, note: Note<'a>) -> Result<(), Memory>
        ensures takes { IfOk result (λ _. verdict_state self.new
            ≡ verdict_after (verdict_state self.old) (closing valid (note_of note.entry))) }
        ensures ok { IsOk result }
    {
        drop(note);
        if self.depth != 0 {
            self.depth -= 1;
            if self.depth == 0 {
                self.valid = Some(valid);
            }
        }
        Ok(())
    }
}

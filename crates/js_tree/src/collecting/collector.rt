//! Collectors: they receive a result tree node by node.
ghost use Rattle.std.specs.Prelude.{IfOk};

use crate::note::Note;
use js_doc::{Memory, Text};

/// The locations of a node (Core, sections 12.3.1 to 12.3.3).
#[derive(Debug, Drop)]
pub struct Head {
    /// The keyword location, a JSON Pointer: the path of evaluation through the schema, references included.
    pub keyword: Text,
    /// The absolute keyword location, a URI with a fragment: the position of the keyword or schema itself.
    pub absolute: Text,
    /// The instance location, a JSON Pointer: the position of the value that is validated.
    pub instance: Text,
}

/// A receiver of a result tree's events. A node opens, then the events of its children follow in order, and then the
/// node closes. `takes` relates the state before an event to the state after it, and holds of each call that returns
/// Ok.
pub trait Collector<'a> {
    ghost use Rattle.js_tree.specs.Events.{Event, opening, closing};
    ghost use Rattle.js_tree.specs.Seen.{note_of};

    ghost takes: { Self → Event → Self → Type 0 };

    /// A node opens, below the innermost open node.
    ///
    /// # Errors
    /// `Memory` if an allocation fails; `Boxed` and `Flat` are then as they were.
    fn enter(&mut self, head: Head) -> Result<(), Memory>
        ensures { IfOk result (λ _. takes self.old (opening head.keyword head.absolute head.instance) self.new) };

    /// The innermost open node closes, with this verdict and this note.
    ///
    /// # Errors
    /// `Memory` if an allocation fails; `Boxed` and `Flat` are then as they were.
    fn leave(&mut self, valid: bool, note: Note<'a>) -> Result<(), Memory>
        ensures { IfOk result (λ _. takes self.old (closing valid (note_of note.entry)) self.new) };
}

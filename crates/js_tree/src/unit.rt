//! Output units, which are the content of a result tree's nodes.
ghost use Rattle.std.specs.Prelude.{◌≡◌};
ghost use Rattle.js_tree.specs.FlatState.{closed_unit};
ghost use Rattle.js_tree.specs.OutputUnit.{noted};
ghost use Rattle.js_tree.specs.Seen.{note_of};

use crate::note::Note;
use js_doc::Text;
use std::marker::Model;
use std::mem::replace;

/// An output unit (Core, section 12.3): a verdict, three locations and a note. Contracts see its texts as bytes, and
/// its note without references.
#[derive(Debug, Drop)]
pub struct Unit<'a> {
    /// Whether the schema or the keyword passes.
    pub valid: bool,
    /// The keyword location, a JSON Pointer: the path of evaluation through the schema, references included (12.3.1).
    pub keyword: Text,
    /// The absolute keyword location, a URI with a fragment: the position of the keyword or schema itself (12.3.2).
    pub absolute: Text,
    /// The instance location, a JSON Pointer: the position of the value that is validated (12.3.3).
    pub instance: Text,
    /// The error or the annotation, if there is one (12.3.4).
    pub note: Note<'a>,
}

impl<'a> Model for Unit<'a> {
    ghost use Rattle.js_tree.specs.OutputUnit.{OutputUnit};
    ghost use Rattle.js_tree.specs.Seen.{note_of};
    ghost use Rattle.js_tree.specs.Coding.{unit_code};

    ghost Value = { OutputUnit };

    ghost coded = { unit_code };

    ghost view = { λ u. record {
      valid = u.valid;
      keyword = u.keyword;
      absolute = u.absolute;
      instance = u.instance;
      note = note_of u.note;
    } };
}

impl<'a> Unit<'a> {
    /// Whether the unit has a note.
    pub fn is_noted(&self) -> bool
        ensures { result ≡ noted self.now }
    {
        self.note.is_some()
    }

    /// Sets the verdict and the note, which are known when the node closes.
    pub(crate) fn close(&mut self, valid: bool, note: Note<'a>)
        ensures { self.new ≡ closed_unit self.old valid (note_of note.entry) }
    {
        self.valid = valid;
        drop(replace(&mut self.note, note));
    }
}

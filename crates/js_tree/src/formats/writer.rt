//! What nodes are written with, in each format.
ghost use Rattle.std.specs.Prelude.{List, ℕ};
ghost use Rattle.js_tree.specs.Rows.Locations.{AreAt, IsBack};
ghost use Rattle.js_tree.specs.code.Gathering.{GathersOrStops};
ghost use Rattle.js_tree.specs.code.RelativeText.{IsAbsolute, start_text};

use crate::formats::basic::put_start;
use crate::rows::gathered::Gathered;
use crate::rows::locations::Locations;
use crate::rows::relative_rows::RelativeRow;
use js_doc::{Out, Stopped};

/// The locations of the node that is written, or of the one above it, and text that is gathered before it goes out.
#[derive(Drop)]
pub(crate) struct Writer {
    pub(crate) locations: Locations,
    pub(crate) gathered: Gathered,
}

impl Writer {
    /// Gathers what stands before the children of a node, or all of a node without any. If there is no room for it, it
    /// is written behind what was gathered.
    ///
    /// # Errors
    /// `Stopped`, where `out` stops.
    #[inline(never)]
    pub fn add_start<O: Out>(
        &mut self,
        later: bool,
        row: &RelativeRow,
        has_children: bool,
        out: &mut O,
    ) -> Result<(), Stopped>
        ensures text { (keyword absolute instance : List ℕ) → AreAt self.old.locations keyword instance
            → IsAbsolute row.now absolute
            → GathersOrStops (O.progress out.old) (O.progress out.new)
            self.old.gathered.text.items self.new.gathered.text.items
            (start_text has_children later row.now keyword absolute instance) result }
        ensures back { IsBack self.old.locations self.new.locations }
    {
        let before = self.gathered.len();
        let locations = &mut self.locations;
        match put_start(later, row, has_children, locations, &mut self.gathered) {
            Ok(()) => Ok(()),
            Err(Stopped) => {
                self.gathered.put_out(before, out)?;
                put_start(later, row, has_children, locations, out)
            }
        }
    }
}

//! The text of the verbose format, from relative rows.
ghost use Rattle.std.specs.Prelude.{◌≡◌, ◌++◌, ◌∷◌, List, ℕ, false, OnOk};
ghost use Rattle.js_doc.specs.BytesOut.{Puts};
ghost use Rattle.js_doc.specs.Compact.{comma_if, compact};
ghost use Rattle.js_tree.specs.Forest.{Forest};
ghost use Rattle.js_tree.specs.Form.{node_value, node_values, verbose};
ghost use Rattle.js_tree.specs.OutputUnit.{OutputUnit};
ghost use Rattle.js_tree.specs.Result.{ResultTree};
ghost use Rattle.js_tree.specs.Seen.{note_of};
ghost use Rattle.js_tree.specs.NodeText.{annotation_part};
ghost use Rattle.js_tree.specs.NodeText.{children_start, error_behind};
ghost use Rattle.js_tree.specs.Rows.Locations.{AreAt, HasRoom, HasRoomFor, IsBack};
ghost use Rattle.js_tree.specs.Rows.Relative.{placed, placed_tree};
ghost use Rattle.js_tree.specs.Rows.RelativeState.{AreRowsOf, AreWhole};
ghost use Rattle.js_tree.specs.code.Gathering.{GathersOrStops};
ghost use Rattle.js_tree.specs.code.Listing.{values_text};
ghost use Rattle.js_tree.specs.code.RelativeText.{AreRowsOfTree, AreRowsOfTrees, IsAbsolute, after_children};
ghost use Rattle.js_tree.specs.code.RelativeText.{opening_text};
ghost use Rattle.js_tree.specs.code.RelativeText.{unit_there};

use crate::formats::node_text::{put_closed_annotation, put_error_behind, put_list_start};
use crate::formats::writer::Writer;
use crate::note::Note;
use crate::rows::gathered::Gathered;
use crate::rows::locations::{Locations, put_part};
use crate::rows::opening::from_comma;
use crate::rows::relative_rows::{RelativeRow, RelativeRows};
use crate::rows::trees::tree_end;
use js_doc::{Out, Stopped, put_escaped};

/// Writes the rows' tree as compact text in the verbose format (JSON Schema Core, section 12.4.4), with whole
/// locations. It allocates nothing.
///
/// # Errors
/// `Stopped` if the output stops; then a prefix of the text was written.
pub fn put_verbose<O: Out>(
    rows: &RelativeRows,
    locations: Locations,
    out: &mut O,
) -> Result<(), Stopped>
    requires whole { AreWhole rows.now }
    requires room { HasRoomFor locations rows.now }
    ensures { (t : ResultTree) → AreRowsOf rows.now t
        → Puts (O.progress out.old) (O.progress out.new) (compact (verbose t)) result }
{
    let mut locations = locations;
    let mut gathered = locations.take_gathered();
    let rows = rows.rows.as_slice();
    gathered.clear();
    let mut writer = Writer {
        locations,
        gathered,
    };
    writer.put_tree(false, rows, out)?;
    out.put(writer.gathered.as_slice())
}

impl Writer {
    /// Gathers and writes the tree of the rows, below a node with these locations; after a comma, if it isn't the first
    /// in its list.
    #[cycle(put_tree)]
    #[inline(always)]
    fn put_tree<O: Out>(
        &mut self,
        later: bool,
        rows: &[RelativeRow],
        out: &mut O,
    ) -> Result<(), Stopped>
        requires { (r : ResultTree) × AreRowsOfTree rows.now r × HasRoom self.old.locations rows.now }
        ensures text { (r : ResultTree) (keyword instance : List ℕ) → AreAt self.old.locations keyword instance
            → AreRowsOfTree rows.now r
            → GathersOrStops (O.progress out.old) (O.progress out.new)
            self.old.gathered.text.items self.new.gathered.text.items
            (comma_if later ++ compact (verbose (placed_tree keyword instance r))) result }
        ensures back { OnOk result (IsBack self.old.locations self.new.locations) }
    {
        let row = &rows[0];
        self.locations.go_to_node(row);
        self.put_node(later, row, &rows[1..], out)?;
        self.locations.go_back(row);
        Ok(())
    }

    /// Writes a node with these locations, and the trees below it.
    #[cycle(put_tree)]
    #[inline(always)]
    fn put_node<O: Out>(
        &mut self,
        later: bool,
        row: &RelativeRow,
        below: &[RelativeRow],
        out: &mut O,
    ) -> Result<(), Stopped>
        requires { (f : Forest OutputUnit) × AreRowsOfTrees below.now f × HasRoom self.old.locations below.now }
        ensures text { (f : Forest OutputUnit) (keyword absolute instance : List ℕ)
            → AreAt self.old.locations keyword instance → IsAbsolute row.now absolute → AreRowsOfTrees below.now f
            → GathersOrStops (O.progress out.old) (O.progress out.new)
            self.old.gathered.text.items self.new.gathered.text.items
            (comma_if later ++ compact (node_value (unit_there row.now keyword absolute instance)
            (node_values (placed keyword instance f)))) result }
        ensures back { OnOk result (IsBack self.old.locations self.new.locations) }
    {
        if below.is_empty() {
            return self.add_start(later, row, false, out);
        }
        self.add_start(later, row, true, out)?;
        self.put_trees(below, out)?;
        add_back(row, &self.locations, &mut self.gathered, out)
    }

    /// Writes the trees of the rows, with commas between them.
    #[cycle(put_tree)]
    fn put_trees<O: Out>(&mut self, rows: &[RelativeRow], out: &mut O) -> Result<(), Stopped>
        requires { (f : Forest OutputUnit) × AreRowsOfTrees rows.now f × HasRoom self.old.locations rows.now }
        ensures text { (f : Forest OutputUnit) (keyword instance : List ℕ) → AreAt self.old.locations keyword instance
            → AreRowsOfTrees rows.now f
            → GathersOrStops (O.progress out.old) (O.progress out.new)
            self.old.gathered.text.items self.new.gathered.text.items
            (values_text false (node_values (placed keyword instance f))) result }
        ensures back { OnOk result (IsBack self.old.locations self.new.locations) }
    {
        let mut later = false;
        let mut next = 0;
        while next < rows.len() {
            let first = next;
            next = tree_end(rows, first);
            self.put_tree(later, &rows[first..next], out)?;
            later = true;
        }
        Ok(())
    }
}

/// Writes the closing quotation mark of the absolute location and what stands between that and the children.
pub(crate) fn put_before_list<O: Out>(note: &Note, valid: bool, out: &mut O) -> Result<(), Stopped>
    ensures { Puts (O.progress out.old) (O.progress out.new)
        ((34 ∷ annotation_part (note_of note.now)) ++ children_start (note_of note.now) valid) result }
{
    if note.is_some() {
        put_closed_annotation(note, out)?;
        return put_list_start(note, valid, out);
    }
    if valid {
        out.put(b"\",\"annotations\":[")
    } else {
        out.put(b"\",\"errors\":[")
    }
}

/// Gathers what stands after the children, or writes it behind what was gathered if there is no room for it.
#[inline(never)]
fn add_back<O: Out>(
    row: &RelativeRow,
    locations: &Locations,
    gathered: &mut Gathered,
    out: &mut O,
) -> Result<(), Stopped>
    ensures { (keyword instance : List ℕ) → AreAt locations.now keyword instance
        → GathersOrStops (O.progress out.old) (O.progress out.new) gathered.old.text.items gathered.new.text.items
        (after_children instance keyword (note_of row.now.note) row.now.valid) result }
{
    let before = gathered.len();
    match put_back(row, locations, gathered) {
        Ok(()) => Ok(()),
        Err(Stopped) => {
            gathered.put_out(before, out)?;
            put_back(row, locations, out)
        }
    }
}

/// Writes what stands after the children.
fn put_back<O: Out>(row: &RelativeRow, locations: &Locations, out: &mut O) -> Result<(), Stopped>
    ensures { (keyword instance : List ℕ) → AreAt locations.now keyword instance
        → Puts (O.progress out.old) (O.progress out.new)
        (after_children instance keyword (note_of row.now.note) row.now.valid) result }
{
    let valid = row.valid;
    out.put(b"]")?;
    put_error_behind(&row.note, valid, out)?;
    locations.put_end(valid, out)
}

impl Locations {
    /// Writes the beginning of a node, up to the end of its absolute location, without the closing quotation mark. What
    /// stands before its token is kept for the next node.
    #[inline(always)]
    pub(crate) fn put_opening<O: Out>(
        &mut self,
        later: bool,
        row: &RelativeRow,
        out: &mut O,
    ) -> Result<(), Stopped>
        ensures text { (absolute : List ℕ) → IsAbsolute row.now absolute
            → Puts (O.progress out.old) (O.progress out.new) (opening_text later absolute) result }
        ensures back { IsBack self.old self.new }
    {
        let opening = &mut self.opening;
        if !opening.keeps_schema(row.schema.as_bytes()) {
            return put_whole_opening(later, row, out);
        }
        opening.put_kept(later, row.absolute_slash, out)?;
        out.put(row.absolute)
    }
}

/// The same, of any schema.
fn put_whole_opening<O: Out>(later: bool, row: &RelativeRow, out: &mut O) -> Result<(), Stopped>
    ensures { (absolute : List ℕ) → IsAbsolute row.now absolute
        → Puts (O.progress out.old) (O.progress out.new) (opening_text later absolute) result }
{
    out.put(from_comma(later, b",{\"absoluteKeywordLocation\":\""))?;
    put_escaped(row.schema.as_bytes(), out)?;
    put_part(row.absolute_slash, row.absolute, out)
}

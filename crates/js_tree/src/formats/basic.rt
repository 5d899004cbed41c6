//! The text of the basic format, from relative rows.
ghost use Rattle.std.specs.Prelude.{◌≡◌, ◌++◌, ◌∷◌, OnOk, MatchOption, [], List, ℕ, codes};
ghost use Rattle.json.specs.Print.{escape};
ghost use Rattle.js_doc.specs.BytesOut.{Puts};
ghost use Rattle.js_doc.specs.Compact.{comma_if, compact};
ghost use Rattle.js_tree.specs.Forest.{Forest};
ghost use Rattle.js_tree.specs.Form.{node_value, unit_list};
ghost use Rattle.js_tree.specs.Note.{error};
ghost use Rattle.js_tree.specs.OutputUnit.{OutputUnit};
ghost use Rattle.js_tree.specs.Seen.{note_of};
ghost use Rattle.js_tree.specs.Result.{ResultTree, pruned};
ghost use Rattle.js_tree.specs.NodeText.{annotation_part, end_text, error_part, list_start, valid_text};
ghost use Rattle.js_tree.specs.Rows.Locations.{AreAt, HasRoom, HasRoomFor, IsBack};
ghost use Rattle.js_tree.specs.Rows.RelativeState.{AreRowsOf, AreWhole, relative_row};
ghost use Rattle.js_tree.specs.code.Listing.{AreListed, if_noted, listed, listed_tree, may_list};
ghost use Rattle.js_tree.specs.code.RelativeText.{AreRowsOfTree, AreRowsOfTrees, IsAbsolute, start_text, unit_there};

use crate::formats::node_text::put_closed_annotation;
use crate::formats::verbose::put_before_list;
use crate::formats::writer::Writer;
use crate::note::Note;
use crate::rows::locations::Locations;
use crate::rows::relative_rows::{RelativeRow, RelativeRows};
use crate::rows::trees::tree_end;
use js_doc::{Out, Stopped, put_escaped};

/// Writes the rows' tree as compact text in the basic format (JSON Schema Core, section 12.4.2). It prunes while it
/// writes: a subtree is passed over if the verdict of its root differs from that of the whole tree. It allocates
/// nothing.
///
/// # Errors
/// `Stopped` if the output stops; then a prefix of the text was written.
pub fn put_basic<O: Out>(
    rows: &RelativeRows,
    locations: Locations,
    out: &mut O,
) -> Result<(), Stopped>
    requires whole { AreWhole rows.now }
    requires room { HasRoomFor locations rows.now }
    ensures { (t : ResultTree) → AreRowsOf rows.now t
        → Puts (O.progress out.old) (O.progress out.new) (compact (unit_list (pruned t))) result }
{
    let mut locations = locations;
    let rows = rows.rows.as_slice();
    let root = &rows[0];
    let verdict = root.valid;
    put_units_start(verdict, out)?;
    let gathered = locations.take_gathered();
    let mut writer = Writer {
        locations,
        gathered,
    };
    writer.list_trees(verdict, false, rows, out)?;
    put_list_end(verdict, out)
}

/// Writes the beginning of an object with the verdict and units, up to the bracket before the units.
pub(crate) fn put_units_start<O: Out>(valid: bool, out: &mut O) -> Result<(), Stopped>
    ensures { Puts (O.progress out.old) (O.progress out.new) (list_start valid ++ codes "[") result }
{
    if valid {
        out.put(b"{\"annotations\":[")
    } else {
        out.put(b"{\"errors\":[")
    }
}

impl Writer {
    /// Writes the units of the trees of the rows, below a node with these locations. `later` says whether a unit was
    /// written before, which needs a comma; the same is returned for what comes next.
    #[cycle(list_trees)]
    fn list_trees<O: Out>(
        &mut self,
        verdict: bool,
        later: bool,
        rows: &[RelativeRow],
        out: &mut O,
    ) -> Result<bool, Stopped>
        requires { (f : Forest OutputUnit) × AreRowsOfTrees rows.now f × HasRoom self.old.locations rows.now }
        ensures listed { (f : Forest OutputUnit) (keyword instance : List ℕ)
            → AreAt self.old.locations keyword instance → AreRowsOfTrees rows.now f
            → AreListed (O.progress out.old) (O.progress out.new) later (listed verdict keyword instance f) result }
        ensures back { OnOk result (IsBack self.old.locations self.new.locations) }
    {
        let mut later = later;
        let mut next = 0;
        while next < rows.len() {
            let first = next;
            let row = &rows[first];
            next = tree_end(rows, first);
            if !may_list(verdict, row) {
                continue;
            }
            later = self.list_tree(later, &rows[first..next], out)?;
        }
        Ok(later)
    }

    /// Writes the units of the tree of the rows, whose verdict is that of its root.
    #[cycle(list_trees)]
    #[inline(always)]
    fn list_tree<O: Out>(
        &mut self,
        later: bool,
        rows: &[RelativeRow],
        out: &mut O,
    ) -> Result<bool, Stopped>
        requires { (r : ResultTree) × AreRowsOfTree rows.now r × HasRoom self.old.locations rows.now }
        ensures listed { (r : ResultTree) (keyword instance : List ℕ) → AreAt self.old.locations keyword instance
            → AreRowsOfTree rows.now r
            → AreListed (O.progress out.old) (O.progress out.new) later
            (listed_tree r.root.valid keyword instance r.root r.below) result }
        ensures back { OnOk result (IsBack self.old.locations self.new.locations) }
    {
        let row = &rows[0];
        self.locations.go_to_node(row);
        let later = self.put_noted(later, row, out)?;
        let later = self.list_trees(row.valid, later, &rows[1..], out)?;
        self.locations.go_back(row);
        Ok(later)
    }

    /// Writes the unit, if it has a note.
    fn put_noted<O: Out>(
        &mut self,
        later: bool,
        row: &RelativeRow,
        out: &mut O,
    ) -> Result<bool, Stopped>
        ensures listed { (keyword absolute instance : List ℕ) → AreAt self.old.locations keyword instance
            → IsAbsolute row.now absolute
            → AreListed (O.progress out.old) (O.progress out.new) later
            (if_noted (unit_there row.now keyword absolute instance)) result }
        ensures back { IsBack self.old.locations self.new.locations }
    {
        if !row.note.is_some() {
            return Ok(later);
        }
        self.put_unit(later, row, out)?;
        Ok(true)
    }

    /// Writes the unit as a node without children; after a comma, if a unit was written before.
    fn put_unit<O: Out>(
        &mut self,
        later: bool,
        row: &RelativeRow,
        out: &mut O,
    ) -> Result<(), Stopped>
        ensures text { (keyword absolute instance : List ℕ) → AreAt self.old.locations keyword instance
            → IsAbsolute row.now absolute
            → Puts (O.progress out.old) (O.progress out.new)
            (comma_if later ++ compact (node_value (unit_there row.now keyword absolute instance) [])) result }
        ensures back { IsBack self.old.locations self.new.locations }
    {
        self.gathered.clear();
        self.add_start(later, row, false, out)?;
        out.put(self.gathered.as_slice())
    }
}

// Whether the tree of this row can have units: its root has the verdict, and it is more than a node without a note.
fn may_list(verdict: bool, row: &RelativeRow) -> bool
    ensures { result ≡ may_list verdict (relative_row row.now) }
{
    if row.valid != verdict {
        return false;
    }
    row.size > 1 || row.note.is_some()
}

/// Writes what stands before the children of a node, or all of a node without any, piece by piece.
pub(crate) fn put_start<O: Out>(
    later: bool,
    row: &RelativeRow,
    has_children: bool,
    locations: &mut Locations,
    out: &mut O,
) -> Result<(), Stopped>
    ensures text { (keyword absolute instance : List ℕ) → AreAt locations.old keyword instance
        → IsAbsolute row.now absolute
        → Puts (O.progress out.old) (O.progress out.new)
        (start_text has_children later row.now keyword absolute instance) result }
    ensures back { IsBack locations.old locations.new }
{
    locations.put_opening(later, row, out)?;
    if has_children {
        return put_before_list(&row.note, row.valid, out);
    }
    locations.put_rest(&row.note, row.valid, out)
}

impl Locations {
    /// Writes the rest of it, from the closing quotation mark of the absolute location on.
    fn put_rest<O: Out>(&self, note: &Note, valid: bool, out: &mut O) -> Result<(), Stopped>
        ensures { (keyword instance : List ℕ) → AreAt self.now keyword instance
            → Puts (O.progress out.old) (O.progress out.new)
            (34 ∷ (annotation_part (note_of note.now)
            ++ (error_part (note_of note.now) ++ end_text instance keyword valid)))
            result }
    {
        match reason_of(note) {
            Some(reason) => self.put_error_rest(reason, valid, out),
            None => self.put_annotation_rest(note, valid, out),
        }
    }

    /// The same where the note is an error with this text. Each quotation mark goes out with what stands beside it.
    fn put_error_rest<O: Out>(&self, reason: &str, valid: bool, out: &mut O) -> Result<(), Stopped>
        ensures { (keyword instance : List ℕ) → AreAt self.now keyword instance
            → Puts (O.progress out.old) (O.progress out.new)
            (codes "\",\"error\":\"" ++ (escape reason.now ++ 34 ∷ end_text instance keyword valid)) result }
    {
        out.put(b"\",\"error\":\"")?;
        put_escaped(reason.as_bytes(), out)?;
        self.put_closing(valid, out)
    }

    /// The same where the note isn't an error.
    fn put_annotation_rest<O: Out>(
        &self,
        note: &Note,
        valid: bool,
        out: &mut O,
    ) -> Result<(), Stopped>
        ensures { (keyword instance : List ℕ) → AreAt self.now keyword instance
            → Puts (O.progress out.old) (O.progress out.new)
            ((34 ∷ annotation_part (note_of note.now)) ++ end_text instance keyword valid) result }
    {
        put_closed_annotation(note, out)?;
        self.put_end(valid, out)
    }
}

// The text of the error, if the note is one.
fn reason_of<'n>(note: &'n Note<'_>) -> Option<&'n str>
    ensures { MatchOption result (error_part (note_of note.now) ≡ []) (λ reason. note_of note.now ≡ error reason.now) }
{
    match note {
        Note::Error(reason) => Some(reason.as_str()),
        Note::Silent => None,
        Note::Value(_) => None,
        Note::Names(_) => None,
        Note::Index(_) => None,
        Note::Indexes(_) => None,
        Note::Truth => None,
    }
}

/// Writes what is after the last unit.
fn put_list_end<O: Out>(valid: bool, out: &mut O) -> Result<(), Stopped>
    ensures { Puts (O.progress out.old) (O.progress out.new) (codes "]" ++ valid_text valid) result }
{
    if valid {
        out.put(b"],\"valid\":true}")
    } else {
        out.put(b"],\"valid\":false}")
    }
}

//! The text of each format from a flat form, written piece by piece. The program has relative rows and doesn't call
//! this.
ghost use Rattle.std.specs.Prelude.{◌≡◌, ◌++◌, [], codes, false, map};
ghost use Rattle.js_doc.specs.BytesOut.{Puts};
ghost use Rattle.js_doc.specs.Compact.{compact, compact_items};
ghost use Rattle.js_doc.specs.Value.{items};
ghost use Rattle.js_tree.specs.Flat.{flat_form, flat_of};
ghost use Rattle.js_tree.specs.FlatState.{IsWholeTree, flat_state, noted_of, row_of, whole_tree};
ghost use Rattle.js_tree.specs.Forest.{Forest};
ghost use Rattle.js_tree.specs.Form.{node_value, node_values, shown, unit_list, verbose};
ghost use Rattle.js_tree.specs.OutputUnit.{OutputUnit};
ghost use Rattle.js_tree.specs.Result.{ResultTree};
ghost use Rattle.js_tree.specs.code.PutTrees.{PutsTree};

use crate::collecting::flat::{Flat, Row};
use crate::formats::basic::put_units_start;
use crate::formats::flag::put_flag;
use crate::formats::node_text::{put_back, put_comma, put_front, put_leaf, put_valid};
use crate::formats::{Format, Layout};
use js_doc::{Out, Stopped};

/// Writes the compact JSON text of a format (Core, section 12.4), from the rows of the tree that it shows. The rows
/// must be those of a whole tree. Allocates nothing.
///
/// # Errors
/// `Stopped` if the output takes no more; then a prefix of the text has been written.
pub fn put_flat<O: Out>(flat: &Flat, format: Format, out: &mut O) -> Result<(), Stopped>
    requires { IsWholeTree (flat_state flat.now) }
    ensures { (t : ResultTree) → flat_state flat.now ≡ whole_tree t
        → Puts (O.progress out.old) (O.progress out.new) (compact (shown format t)) result }
{
    put_rows(flat.rows(), format, out)
}

fn put_rows<O: Out>(rows: &[Row], format: Format, out: &mut O) -> Result<(), Stopped>
    requires { (t : ResultTree) × (map row_of rows.now ≡ flat_form t) }
    ensures { (t : ResultTree) → map row_of rows.now ≡ flat_form t
        → Puts (O.progress out.old) (O.progress out.new) (compact (shown format t)) result }
{
    let row = &rows[0];
    let root = &row.unit;
    match format.layout() {
        Layout::Verdict => put_flag(root.valid, out),
        Layout::Units => put_units(rows, out),
        Layout::Nodes => put_root(rows, out),
    }
}

/// Writes the tree with these rows.
#[cycle(put_root)]
pub(crate) fn put_root<O: Out>(rows: &[Row], out: &mut O) -> Result<(), Stopped>
    requires { (t : ResultTree) × (map row_of rows.now ≡ flat_form t) }
    ensures { PutsTree rows.now verbose (O.progress out.old) (O.progress out.new) result }
{
    let row = &rows[0];
    let unit = &row.unit;
    let below = &rows[1..];
    if below.is_empty() {
        return put_leaf(unit, out);
    }
    put_front(unit, out)?;
    put_roots(below, out)?;
    put_back(unit, out)
}

/// Writes the trees with these rows as the items of an array, and its closing bracket.
#[cycle(put_root)]
fn put_roots<O: Out>(rows: &[Row], out: &mut O) -> Result<(), Stopped>
    requires { (f : Forest OutputUnit) × (map row_of rows.now ≡ flat_of f) }
    ensures { (f : Forest OutputUnit) → map row_of rows.now ≡ flat_of f
        → Puts (O.progress out.old) (O.progress out.new) (compact_items false (items (node_values f))) result }
{
    let mut later = false;
    let mut next = 0;
    while next < rows.len() {
        put_comma(&mut later, out)?;
        let row = &rows[next];
        let end = next + row.size;
        put_root(&rows[next..end], out)?;
        next = end;
    }
    out.put(b"]")
}

/// Writes an object with the verdict and with the noted units, each without children.
pub(crate) fn put_units<O: Out>(rows: &[Row], out: &mut O) -> Result<(), Stopped>
    requires { (t : ResultTree) × (map row_of rows.now ≡ flat_form t) }
    ensures { PutsTree rows.now unit_list (O.progress out.old) (O.progress out.new) result }
{
    let row = &rows[0];
    let root = &row.unit;
    let valid = root.valid;
    put_units_start(valid, out)?;
    put_noted(rows, out)?;
    put_valid(valid, out)
}

/// Writes the noted units as the items of an array, each without children, and its closing bracket.
fn put_noted<O: Out>(rows: &[Row], out: &mut O) -> Result<(), Stopped>
    ensures { Puts (O.progress out.old) (O.progress out.new)
        (compact_items false (items (map (λ u. node_value u []) (noted_of (map row_of rows.now))))) result }
{
    let mut later = false;
    for row in rows {
        if !row.unit.is_noted() {
            continue;
        }
        put_comma(&mut later, out)?;
        put_leaf(&row.unit, out)?;
    }
    out.put(b"]")
}

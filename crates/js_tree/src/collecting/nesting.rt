//! Whether rows are the flat form of trees.
ghost use Rattle.std.specs.Prelude.{◌≡◌, ◌<◌, ◌≤◌, ◌+◌, ◌↔◌, IsTrue, drop, length, map};
ghost use Rattle.js_tree.specs.Flat.{flat_form, flat_of};
ghost use Rattle.js_tree.specs.FlatState.{row_of};
ghost use Rattle.js_tree.specs.Forest.{Forest};
ghost use Rattle.js_tree.specs.code.Nesting.{ends_after};
ghost use Rattle.js_tree.specs.OutputUnit.{OutputUnit};
ghost use Rattle.js_tree.specs.Result.{ResultTree};

use crate::collecting::flat::Row;

/// Whether the rows are those of one tree. Takes linear time, and allocates nothing.
pub(crate) fn are_of_a_tree(rows: &[Row]) -> bool
    ensures { IsTrue result ↔ ((t : ResultTree) × (map row_of rows.now ≡ flat_form t)) }
{
    if rows.is_empty() {
        return false;
    }
    let root = &rows[0];
    if root.size != rows.len() {
        return false;
    }
    are_of_trees(rows)
}

/// Whether the rows are those of sibling trees. It goes from the back, because a row is checked against the rows after
/// it.
fn are_of_trees(rows: &[Row]) -> bool
    ensures { IsTrue result ↔ ((f : Forest OutputUnit) × (map row_of rows.now ≡ flat_of f)) }
{
    for i in (0..rows.len()).rev() {
        if !is_root(rows, i) {
            return false;
        }
    }
    true
}

/// Whether the row with this index is a tree's root, if the rows after it are those of trees.
fn is_root(rows: &[Row], number: usize) -> bool
    requires within { number < length rows.now }
    requires trees { (f : Forest OutputUnit) × (map row_of (drop (number + 1) rows.now) ≡ flat_of f) }
    ensures { IsTrue result ↔ ((f : Forest OutputUnit) × (map row_of (drop number rows.now) ≡ flat_of f)) }
{
    let row = &rows[number];
    if row.size == 0 {
        return false;
    }
    ends_after(rows, number + 1, row.size - 1)
}

/// Whether the `count` rows from `first` on are whole trees, if all rows from there on are those of trees.
fn ends_after(rows: &[Row], first: usize, count: usize) -> bool
    requires within { first ≤ length rows.now }
    requires trees { (f : Forest OutputUnit) × (map row_of (drop first rows.now) ≡ flat_of f) }
    ensures { (f : Forest OutputUnit) → map row_of (drop first rows.now) ≡ flat_of f → result ≡ ends_after count f }
{
    let mut next = first;
    let mut left = count;
    while left > 0 {
        if next >= rows.len() {
            return false;
        }
        let row = &rows[next];
        if row.size > left {
            return false;
        }
        next += row.size;
        left -= row.size;
    }
    true
}

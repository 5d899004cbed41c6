//! What pruning and condensing leave of a tree, from relative rows.
ghost use Rattle.std.specs.Prelude.{◌≡◌, ◌++◌, ◌||◌, IfOk, if◌then◌else◌, map};
ghost use Rattle.js_tree.specs.Flat.{flat_form, flat_of};
ghost use Rattle.js_tree.specs.Forest.{Forest, empty, tree};
ghost use Rattle.js_tree.specs.OutputUnit.{OutputUnit};
ghost use Rattle.js_tree.specs.Result.{ResultTree};
ghost use Rattle.js_tree.specs.Rows.Marks.{AreMarksOf, left_trees, mark_of, marked};
ghost use Rattle.js_tree.specs.Rows.RelativeState.{AreWhole, relative_row};

use crate::rows::relative_rows::{RelativeRow, RelativeRows};
use crate::rows::trees::tree_end;
use js_doc::Memory;
use std::alloc::Global;

/// What is left of a node's tree.
#[derive(Clone, Copy)]
pub(crate) struct Left {
    // The node is left.
    pub(crate) stays: bool,
    // Something is left below it.
    pub(crate) below: bool,
}

/// What pruning and condensing leave of each node's tree, row by row (JSON Schema Core, section 12.4.3).
#[derive(Drop)]
pub(crate) struct RelativeMarks {
    pub(crate) marks: Vec<Left>,
}

impl RelativeMarks {
    /// The marks of the rows, which must be those of a whole tree. It takes time linear in their number.
    ///
    /// # Errors
    /// `Memory` if an allocation fails.
    pub(crate) fn new(alloc: Global, rows: &RelativeRows) -> Result<RelativeMarks, Memory>
        requires { AreWhole rows.now }
        ensures { IfOk result (λ marks. AreMarksOf marks rows.now) }
    {
        let rows = rows.rows.as_slice();
        let root = &rows[0];
        let mut marks = Vec::with_capacity(alloc, rows.len())?;
        mark_trees(root.valid, rows, &mut marks)?;
        Ok(RelativeMarks { marks })
    }
}

// Marks the trees of the rows. Returns of how many of them something is left.
#[cycle(mark_trees)]
fn mark_trees(verdict: bool, rows: &[RelativeRow], marks: &mut Vec<Left>) -> Result<usize, Memory>
    requires { (f : Forest OutputUnit) × (map relative_row rows.now ≡ flat_of f) }
    ensures { IfOk result (λ trees. (f : Forest OutputUnit) → map relative_row rows.now ≡ flat_of f
        → (marks.new.items ≡ marks.old.items ++ marked verdict f) × (trees ≡ left_trees verdict f)) }
{
    let mut trees = 0;
    let mut next = 0;
    while next < rows.len() {
        let first = next;
        next = tree_end(rows, first);
        trees += mark_tree(verdict, &rows[first..next], marks)?;
    }
    Ok(trees)
}

// Marks the tree of the rows. Returns 1 if something is left of it, and otherwise 0.
#[cycle(mark_trees)]
#[inline(always)]
fn mark_tree(verdict: bool, rows: &[RelativeRow], marks: &mut Vec<Left>) -> Result<usize, Memory>
    requires { (r : ResultTree) × (map relative_row rows.now ≡ flat_form r) }
    ensures { IfOk result (λ trees. (r : ResultTree) → map relative_row rows.now ≡ flat_form r
        → (marks.new.items ≡ marks.old.items ++ marked verdict (tree r.root r.below empty))
        × (trees ≡ left_trees verdict (tree r.root r.below empty))) }
{
    let count = rows.len();
    if count == 1 {
        return mark_leaf(verdict, &rows[0], marks);
    }
    let number = marks.len();
    marks.push(Left {
        stays: false,
        below: false,
    })?;
    let trees = mark_trees(verdict, &rows[1..], marks)?;
    let mark = mark_of(verdict, &rows[0], trees);
    marks[number] = mark;
    Ok(trees_of(mark))
}

// Marks the row of a node without children: most rows are of such nodes.
#[inline(always)]
fn mark_leaf(verdict: bool, row: &RelativeRow, marks: &mut Vec<Left>) -> Result<usize, Memory>
    ensures { IfOk result (λ trees.
        (marks.new.items ≡ marks.old.items ++ marked verdict (tree (relative_row row.now).0 empty empty))
        × (trees ≡ left_trees verdict (tree (relative_row row.now).0 empty empty))) }
{
    let mark = mark_of(verdict, row, 0);
    marks.push(mark)?;
    Ok(trees_of(mark))
}

#[inline(always)]
fn mark_of(verdict: bool, row: &RelativeRow, trees: usize) -> Left
    ensures { result ≡ mark_of verdict (relative_row row.now).0 trees }
{
    if row.valid != verdict {
        return Left {
            stays: false,
            below: false,
        };
    }
    let below = trees >= 1;
    if row.note.is_some() {
        return Left { stays: true, below };
    }
    Left {
        stays: trees >= 2,
        below,
    }
}

#[inline(always)]
fn trees_of(mark: Left) -> usize
    ensures { result ≡ (if (mark.stays || mark.below) then 1 else 0) }
{
    if mark.stays {
        return 1;
    }
    if mark.below { 1 } else { 0 }
}

//! The tree of relative rows.
ghost use Rattle.std.specs.Prelude.{◌≡◌, IfOk, List, OnOk, ℕ};
ghost use Rattle.js_tree.specs.Forest.{Forest, empty, forest_of, tree, ◌⊹◌};
ghost use Rattle.js_tree.specs.OutputUnit.{OutputUnit};
ghost use Rattle.js_tree.specs.Result.{ResultTree};
ghost use Rattle.js_tree.specs.Seen.{note_of};
ghost use Rattle.js_tree.specs.Rows.Locations.{AreAt, AreSomewhere, HasRoom, IsBack, IsUp};
ghost use Rattle.js_tree.specs.Rows.Relative.{placed, placed_tree};
ghost use Rattle.js_tree.specs.Rows.RelativeState.{AreRowsOf, AreWhole};
ghost use Rattle.js_tree.specs.code.RelativeText.{AreOfNode, AreRowsOfTree, AreRowsOfTrees, IsAbsolute, unit_there};

use crate::note::Note;
use crate::rows::locations::Locations;
use crate::rows::relative_rows::{RelativeRow, RelativeRows};
use crate::rows::trees::tree_end;
use crate::tree::Tree;
use js_doc::Memory;
use std::alloc::Global;
use std::mem::replace;

/// The rows' tree, with whole locations. The notes are moved.
///
/// # Errors
/// `Memory` if an allocation fails.
pub(crate) fn tree_of<'a>(alloc: Global, rows: RelativeRows<'a>) -> Result<Tree<'a>, Memory>
    requires { AreWhole rows }
    ensures { (t : ResultTree) → AreRowsOf rows.entry t → IfOk result (λ k. k ≡ t) }
{
    let mut rows = rows;
    let mut locations = Locations::new(alloc, &rows)?;
    take_root(alloc, &mut rows.rows, &mut locations)
}

// The tree of the rows.
fn take_root<'a>(
    alloc: Global,
    rows: &mut [RelativeRow<'a>],
    locations: &mut Locations,
) -> Result<Tree<'a>, Memory>
    requires { (r : ResultTree) × AreRowsOfTree rows.old r × HasRoom locations.old rows.old
        × AreSomewhere locations.old }
    ensures { (r : ResultTree) (keyword instance : List ℕ) → AreAt locations.old keyword instance
        → AreRowsOfTree rows.old r → IfOk result (λ t. t ≡ placed_tree keyword instance r) }
{
    locations.go_to_node(&rows[0]);
    let below = take_trees(alloc, &mut rows[1..], locations)?;
    let root = &mut rows[0];
    let head = locations.head(alloc, root)?;
    let note = replace(&mut root.note, Note::Silent);
    Ok(Tree::of_node(head, root.valid, note, below))
}

// The trees of the rows.
#[cycle(take_trees)]
fn take_trees<'a>(
    alloc: Global,
    rows: &mut [RelativeRow<'a>],
    locations: &mut Locations,
) -> Result<Vec<Tree<'a>>, Memory>
    requires { (f : Forest OutputUnit) × AreRowsOfTrees rows.old f × HasRoom locations.old rows.old
        × AreSomewhere locations.old }
    ensures trees { (f : Forest OutputUnit) (keyword instance : List ℕ)
        → AreAt locations.old keyword instance → AreRowsOfTrees rows.old f
        → IfOk result (λ trees. forest_of trees.items ≡ placed keyword instance f) }
    ensures back { OnOk result (IsBack locations.old locations.new) }
{
    let mut trees = Vec::new(alloc);
    let mut next = 0;
    while next < rows.len() {
        let first = next;
        next = tree_end(rows, first);
        take_tree(alloc, &mut rows[first..next], locations, &mut trees)?;
    }
    Ok(trees)
}

// Adds the tree of the rows. The trees below its root wait for it, so that the stack holds no tree on any level.
#[cycle(take_trees)]
fn take_tree<'a>(
    alloc: Global,
    rows: &mut [RelativeRow<'a>],
    locations: &mut Locations,
    trees: &mut Vec<Tree<'a>>,
) -> Result<(), Memory>
    requires { (u : OutputUnit) × (below : Forest OutputUnit)
        × AreRowsOfTrees rows.old (tree u below empty) × HasRoom locations.old rows.old
        × AreSomewhere locations.old }
    ensures trees { (u : OutputUnit) (below : Forest OutputUnit) (keyword instance : List ℕ)
        → AreAt locations.old keyword instance → AreRowsOfTrees rows.old (tree u below empty)
        → OnOk result (forest_of trees.new.items
        ≡ (forest_of trees.old.items ⊹ placed keyword instance (tree u below empty))) }
    ensures back { OnOk result (IsBack locations.old locations.new) }
{
    locations.go_to_node(&rows[0]);
    let below = take_trees(alloc, &mut rows[1..], locations)?;
    add_node(alloc, &mut rows[0], locations, below, trees)
}

// Adds the node of the row, which has these locations, over the trees below it, and goes back from it.
#[inline(never)]
fn add_node<'a>(
    alloc: Global,
    row: &mut RelativeRow<'a>,
    locations: &mut Locations,
    below: Vec<Tree<'a>>,
    trees: &mut Vec<Tree<'a>>,
) -> Result<(), Memory>
    requires { AreOfNode locations.old row.old }
    ensures trees { (keyword absolute instance : List ℕ) → AreAt locations.old keyword instance
        → IsAbsolute row.old absolute → OnOk result (forest_of trees.new.items ≡ (forest_of trees.old.items
        ⊹ tree (unit_there row.old keyword absolute instance) (forest_of below.entry.items) empty)) }
    ensures up { OnOk result (IsUp locations.old row.old locations.new) }
{
    let head = locations.head(alloc, row)?;
    let note = replace(&mut row.note, Note::Silent);
    trees.push(Tree::of_node(head, row.valid, note, below))?;
    locations.go_back(row);
    Ok(())
}

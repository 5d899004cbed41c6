//! What pruning, condensing and merging have in common: a walk that reduces the trees below a root, in place.
ghost use Rattle.std.specs.Prelude.{◌≡◌, ◌≤◌, if◌then◌else◌, length, take};
ghost use Rattle.js_tree.specs.Forest.{empty, tree as node, forest_of};
ghost use Rattle.js_tree.specs.code.Reductions.{is_dropped, is_lifted, left_of_all, left_of_each};

use crate::reducing::merging::keep_firsts;
use crate::tree::{Tree, Trees};
use crate::unit::Unit;

/// Which nodes below the root are left.
#[derive(Clone, Copy)]
pub(crate) enum Reduction {
    /// Those with this verdict, if every node between them and the root has it too.
    Prune(bool),
    /// Those that condensing keeps.
    Condense,
    /// Those of the same that aren't in a tree which is alike to an earlier sibling.
    Merge,
}

impl Reduction {
    /// Whether a tree with this root goes, whatever is below it.
    fn drops(self, root: &Unit) -> bool
        ensures { result ≡ is_dropped self root.now }
    {
        match self {
            Reduction::Prune(verdict) => root.valid != verdict,
            Reduction::Condense => false,
            Reduction::Merge => false,
        }
    }

    /// Whether a root without a note is replaced by its only child.
    fn lifts(self) -> bool
        ensures { result ≡ is_lifted self }
    {
        match self {
            Reduction::Prune(_) => false,
            Reduction::Condense => true,
            Reduction::Merge => true,
        }
    }
}

/// Reduces sibling trees. Takes linear time but for the comparison of siblings, and allocates nothing.
#[cycle(reduce)]
pub(crate) fn reduce_children(children: &mut Trees, reduction: Reduction)
    ensures { forest_of children.new ≡ left_of_all reduction (forest_of children.old) }
{
    let trees = &mut children.trees;
    let count = reduce_all(trees, reduction);
    trees.truncate(count);
    match reduction {
        Reduction::Prune(_) => {}
        Reduction::Condense => {}
        Reduction::Merge => keep_firsts(trees),
    }
}

/// Reduces each tree, moves what is left to the front, and returns the number of trees there.
#[cycle(reduce)]
fn reduce_all(trees: &mut [Tree], reduction: Reduction) -> usize
    ensures at_most { result ≤ length trees.old }
    ensures left { forest_of (take result trees.new) ≡ left_of_each reduction (forest_of trees.old) }
{
    let mut count = 0;
    for i in 0..trees.len() {
        if reduce_one(&mut trees[i], reduction) {
            trees.swap(count, i);
            count += 1;
        }
    }
    count
}

/// Reduces below the root, and then the root. Returns whether a tree is left.
#[cycle(reduce)]
fn reduce_one(tree: &mut Tree, reduction: Reduction) -> bool
    ensures { left_of_each reduction (node tree.old.root tree.old.below empty)
        ≡ (if result then node tree.new.root tree.new.below empty else empty) }
{
    if reduction.drops(&tree.unit) {
        return false;
    }
    reduce_children(&mut tree.children, reduction);
    if !reduction.lifts() {
        return true;
    }
    // After the children are reduced, because some may be gone.
    tree.lift()
}

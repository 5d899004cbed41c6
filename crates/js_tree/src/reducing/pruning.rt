//! Pruning: keeps what bears on the verdict of a result tree.
ghost use Rattle.std.specs.Prelude.{◌≡◌};
ghost use Rattle.js_tree.specs.Result.{pruned};

use crate::reducing::reduction::{Reduction, reduce_children};
use crate::tree::Tree;

/// Keeps each node that has the root's verdict, if every node above it has it too; drops the others. Takes linear time,
/// and allocates nothing.
pub fn prune(tree: Tree) -> Tree
    ensures { result ≡ pruned tree.entry }
{
    let mut tree = tree;
    let verdict = tree.unit.valid;
    reduce_children(&mut tree.children, Reduction::Prune(verdict));
    tree
}

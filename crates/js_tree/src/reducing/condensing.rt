//! Condensing: removes nodes that have no note and only pass on what is below them.
ghost use Rattle.std.specs.Prelude.{◌≡◌, ◌↔◌, IsTrue};
ghost use Rattle.js_tree.specs.Forest.{forest_of};
ghost use Rattle.js_tree.specs.OutputUnit.{noted};
ghost use Rattle.js_tree.specs.Result.{Normal, Run, kept, units};
ghost use Rattle.js_tree.specs.Rewrite.{all_stand};

use crate::reducing::reduction::{Reduction, reduce_children};
use crate::tree::Tree;

/// Condenses a tree, as for the detailed format (Core, section 12.4.3). Two rules apply to any node below the root that
/// has no note:
///
/// - a node without children is dropped;
/// - a node with exactly one child is replaced by that child.
///
/// They are applied until neither is possible. The order doesn't matter: every order ends in the same tree. It has the
/// root, each node with a note, and each node of which the subtrees of at least two children contain a note. Takes
/// linear time, and allocates nothing.
pub fn condense(tree: Tree) -> Tree
    ensures kept { result ≡ kept tree.entry }
    ensures normal { Normal result }
    ensures reached { Run tree.entry result }
    ensures once { kept result ≡ result }
    ensures units { units result ≡ units tree.entry }
{
    let mut condensed = tree;
    reduce_children(&mut condensed.children, Reduction::Condense);
    condensed
}

/// Whether neither rule of `condense` is possible anywhere below the root.
pub fn is_normal(tree: &Tree) -> bool
    ensures { IsTrue result ↔ Normal tree.now }
{
    all_stand(tree.children.as_slice())
}

fn all_stand(trees: &[Tree]) -> bool
    ensures { result ≡ all_stand noted (forest_of trees.now) }
{
    for tree in trees {
        if !tree.node_stands() {
            return false;
        }
        if !all_stand(tree.children.as_slice()) {
            return false;
        }
    }
    true
}

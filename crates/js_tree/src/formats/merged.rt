//! The text of the merged format: that of a tree, written piece by piece.
ghost use Rattle.js_doc.specs.BytesOut.{Puts};
ghost use Rattle.std.specs.Prelude.{false};
ghost use Rattle.js_doc.specs.Compact.{compact, compact_items};
ghost use Rattle.js_doc.specs.Value.{items};
ghost use Rattle.js_tree.specs.Forest.{forest_of};
ghost use Rattle.js_tree.specs.Form.{node_values, verbose};

use crate::formats::node_text::{put_back, put_comma, put_front, put_leaf};
use crate::tree::Tree;
use js_doc::{Out, Stopped};

/// Writes the compact JSON text of a tree (Core, section 12.4.4), which is that of `tree_doc`. Allocates nothing.
///
/// # Errors
/// `Stopped` if the output takes no more; then a prefix of the text has been written.
#[cycle(put_tree)]
pub fn put_tree<O: Out>(tree: &Tree, out: &mut O) -> Result<(), Stopped>
    ensures { Puts (O.progress out.old) (O.progress out.new) (compact (verbose tree.now)) result }
{
    let children = tree.children.as_slice();
    if children.is_empty() {
        return put_leaf(&tree.unit, out);
    }
    put_front(&tree.unit, out)?;
    put_trees(children, out)?;
    put_back(&tree.unit, out)
}

/// Writes the trees as the items of an array, and its closing bracket.
#[cycle(put_tree)]
fn put_trees<O: Out>(trees: &[Tree], out: &mut O) -> Result<(), Stopped>
    ensures { Puts (O.progress out.old) (O.progress out.new)
        (compact_items false (items (node_values (forest_of trees.now)))) result }
{
    let mut later = false;
    for tree in trees {
        put_comma(&mut later, out)?;
        put_tree(tree, out)?;
    }
    out.put(b"]")
}

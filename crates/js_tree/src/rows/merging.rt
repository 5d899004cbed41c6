//! The merged tree, from relative rows, and a quick test of whether merging changes nothing.
ghost use Rattle.std.specs.Prelude.{◌≡◌, IfOk, IsTrue};
ghost use Rattle.js_tree.specs.MergedResult.{merged};
ghost use Rattle.js_tree.specs.Result.{Normal, ResultTree};
ghost use Rattle.js_tree.specs.Rows.RelativeState.{AreRowsOf, AreWhole};

use crate::reducing::merging::merge_condense;
use crate::rows::differing::siblings_differ;
use crate::rows::relative_rows::RelativeRows;
use crate::rows::whole_tree::tree_of;
use crate::tree::Tree;
use js_doc::Memory;
use std::alloc::Global;

/// The merged tree of the rows' tree, with whole locations. It doesn't prune. The notes are moved.
///
/// # Errors
/// `Memory` if an allocation fails.
pub fn merged_tree<'a>(alloc: Global, rows: RelativeRows<'a>) -> Result<Tree<'a>, Memory>
    requires { AreWhole rows }
    ensures { (t : ResultTree) → AreRowsOf rows.entry t → IfOk result (λ m. m ≡ merged t) }
{
    let tree = tree_of(alloc, rows)?;
    Ok(merge_condense(tree))
}

/// True only if merging leaves the rows' tree as it is, where that is normal: no two siblings have the
/// same instance location and the same absolute keyword location, so none are alike. False says nothing. Takes linear
/// time, makes no tree and allocates nothing.
pub fn is_surely_merged(rows: &RelativeRows) -> bool
    requires { AreWhole rows.now }
    ensures { (t : ResultTree) → AreRowsOf rows.now t → Normal t → IsTrue result → merged t ≡ t }
{
    let rows = rows.rows.as_slice();
    siblings_differ(&rows[1..])
}

//! The trees of relative rows, one after the other.
ghost use Rattle.std.specs.Prelude.{◌≡◌, ◌<◌, ◌≤◌, ◌+◌, drop, get_or, length};
ghost use Rattle.js_tree.specs.code.Differing.{AreTrees};
ghost use Rattle.js_tree.specs.declared.rows.relative_rows.RelativeRow.{RelativeRow as Row};

use crate::rows::relative_rows::RelativeRow;

/// Where the rows of the tree end whose root is the row at `first`.
#[inline(always)]
pub(crate) fn tree_end(rows: &[RelativeRow], first: usize) -> usize
    requires trees { AreTrees (drop first rows.now) }
    requires more { first < length rows.now }
    ensures further { first < result }
    ensures fits { result ≤ length rows.now }
    ensures rest { AreTrees (drop result rows.now) }
    ensures size { (row : Row) → row ≡ get_or rows.now first row → result ≡ first + row.size }
{
    let row = &rows[first];
    first + row.size
}

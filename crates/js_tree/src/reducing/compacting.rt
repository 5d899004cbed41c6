//! Pruning and condensing of flat forms, in place.
ghost use Rattle.std.specs.Prelude.{◌≡◌, ◌<◌, ◌≤◌, ◌+◌, ◌^◌, ◌++◌, List, drop, take, length, map, suc};
ghost use Rattle.js_tree.specs.code.Compacting.{AreMarkedTrees, gathered, left, left_of, left_tree_count, marked_rows};
ghost use Rattle.js_tree.specs.code.Compacting.{gone_with, room, stays};
ghost use Rattle.js_tree.specs.Flat.{flat_form, flat_of};
ghost use Rattle.js_tree.specs.FlatState.{IsWholeTree, noted_of, row_of, flat_state, whole_tree};
ghost use Rattle.js_tree.specs.Forest.{Forest, node_count};
ghost use Rattle.js_tree.specs.OutputUnit.{OutputUnit};
ghost use Rattle.js_tree.specs.Result.{ResultTree, kept, pruned};
ghost use Rattle.js_tree.specs.declared.reducing.compacting.Keep.{Keep as OfKeep};
ghost use Rattle.js_tree.specs.declared.collecting.flat.Row.{Row as OfRow};

use crate::collecting::flat::{Flat, Row};
use crate::unit::Unit;

/// Which nodes below the root stay.
#[derive(Clone, Copy)]
enum Keep {
    /// Those with this verdict, if every node between them and the root has it too.
    Verdict(bool),
    /// Those that condensing keeps: each has a note, or at least two children of whose subtrees something is left.
    Noted,
}

/// What is left of the subtrees of a node's children.
#[derive(Clone, Copy)]
struct Remaining {
    /// The number of subtrees of which something is left.
    trees: usize,
    /// The number of nodes that are left of all of them.
    nodes: usize,
}

impl Keep {
    /// Whether a node stays, if something is left of this many of its children's subtrees.
    fn stays(self, unit: &Unit, trees: usize) -> bool
        ensures { result ≡ stays self unit.now trees }
    {
        match self {
            Keep::Verdict(verdict) => unit.valid == verdict,
            Keep::Noted => unit.is_noted() || trees >= 2,
        }
    }

    /// The number of nodes that are left of a subtree. `here`: whether its root stays; `below`: how many are left below
    /// it.
    fn room(self, here: bool, below: usize) -> usize
        requires { suc below < 2 ^ 64 }
        ensures { result ≡ room self here below }
    {
        if here {
            return below + 1;
        }
        match self {
            Keep::Verdict(_) => 0,
            Keep::Noted => below,
        }
    }

    /// The number of rows that are dropped with the root of a subtree. `size`: the number of rows of the subtree.
    fn gone_with(self, size: usize) -> usize
        ensures { result ≡ gone_with self size }
    {
        match self {
            Keep::Verdict(_) => size.saturating_sub(1),
            Keep::Noted => 0,
        }
    }
}

/// The flat form of the pruned tree: see `prune`. The rows must be those of a whole tree. Takes linear time, and
/// allocates nothing.
pub fn flat_prune(flat: Flat) -> Flat
    requires { IsWholeTree (flat_state flat) }
    ensures { (t : ResultTree) → flat_state flat.entry ≡ whole_tree t → flat_state result ≡ whole_tree (pruned t) }
{
    let mut flat = flat;
    let verdict = flat.rows[0].unit.valid;
    keep_rows(&mut flat.rows, Keep::Verdict(verdict));
    flat
}

/// The flat form of the condensed tree: see `condense`. The rows must be those of a whole tree. Takes linear time, and
/// allocates nothing.
pub fn flat_condense(flat: Flat) -> Flat
    requires { IsWholeTree (flat_state flat) }
    ensures kept { (t : ResultTree) → flat_state flat.entry ≡ whole_tree t → flat_state result ≡ whole_tree (kept t) }
    ensures units { noted_of (flat_state result).rows ≡ noted_of (flat_state flat.entry).rows }
{
    let mut flat = flat;
    keep_rows(&mut flat.rows, Keep::Noted);
    flat
}

fn keep_rows(rows: &mut Vec<Row>, keep: Keep)
    requires { (t : ResultTree) × (map row_of rows.old.items ≡ flat_form t) }
    ensures { (t : ResultTree) → map row_of rows.old.items ≡ flat_form t
        → map row_of rows.new.items ≡ flat_form (left_of keep t) }
{
    mark(rows, keep);
    let count = gather(rows, keep);
    rows.truncate(count);
    rows[0].size = count;
}

/// Records in each row what is left of its subtree. It goes from the back, because a node depends on the rows below it.
fn mark(rows: &mut [Row], keep: Keep)
    requires { (f : Forest OutputUnit) × (map row_of rows.old ≡ flat_of f) }
    ensures same { map row_of rows.new ≡ map row_of rows.old }
    ensures marked { (f : Forest OutputUnit) → map row_of rows.old ≡ flat_of f → rows.new ≡ marked_rows keep f }
{
    for i in (0..rows.len()).rev() {
        let remaining = children(rows, i + 1, i + rows[i].size);
        let stays = keep.stays(&rows[i].unit, remaining.trees);
        let room = keep.room(stays, remaining.nodes);
        let row = &mut rows[i];
        row.stays = stays;
        row.room = room;
    }
}

/// What is left of the trees whose rows are `first..end`.
fn children(rows: &[Row], first: usize, end: usize) -> Remaining
    requires within { end ≤ length rows.now }
    requires marked { AreMarkedTrees rows.now first end }
    ensures { (k : OfKeep) (f : Forest OutputUnit) (rest : List OfRow) → drop first rows.now ≡ marked_rows k f ++ rest
        → first + node_count f ≡ end
        → (result.trees ≡ left_tree_count k f) × (result.nodes ≡ node_count (left k f)) }
{
    let mut remaining = Remaining { trees: 0, nodes: 0 };
    let mut next = first;
    while next < end {
        let row = &rows[next];
        if row.room > 0 {
            remaining.trees += 1;
        }
        remaining.nodes += row.room;
        next += row.size;
    }
    remaining
}

/// Moves the root's row and the rows that stay to the front, and returns their number. Each but the root's gets its new
/// size.
fn gather(rows: &mut [Row], keep: Keep) -> usize
    requires { 0 < length rows.old }
    ensures at_most { result ≤ length rows.old }
    ensures gathered { map row_of (take result rows.new)
        ≡ map row_of (take 1 rows.old) ++ gathered keep 0 (drop 1 rows.old) }
{
    let mut count = 1;
    // The number of rows still to be dropped with a node above them.
    let mut gone = 0;
    for i in 1..rows.len() {
        if gone > 0 {
            gone -= 1;
            continue;
        }
        let row = &mut rows[i];
        if row.stays {
            row.size = row.room;
            rows.swap(count, i);
            count += 1;
        } else {
            gone = keep.gone_with(row.size);
        }
    }
    count
}

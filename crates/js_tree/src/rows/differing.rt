//! A quick test which shows that no two siblings of a tree are alike, so that merging drops nothing. It reads the
//! locations of relative rows only.
ghost use Rattle.std.specs.Prelude.{◌≡◌, IsTrue, drop, true, map};
ghost use Rattle.std.specs.List.{prefix_len};
ghost use Rattle.std.specs.Ordering.{is_lt};
ghost use Rattle.js_tree.specs.Flat.{flat_of};
ghost use Rattle.js_tree.specs.Forest.{Forest};
ghost use Rattle.js_tree.specs.OutputUnit.{OutputUnit};
ghost use Rattle.js_tree.specs.Rows.RelativeState.{relative_row};
ghost use Rattle.js_tree.specs.code.Differing.{AreTrees, none_there, siblings_differ};
ghost use Rattle.js_tree.specs.code.PartOrder.{is_digit, part_order, part_rank, roots_differ};

use crate::rows::apart::stand_apart;
use crate::rows::relative_rows::RelativeRow;
use crate::rows::trees::tree_end;

// More siblings that don't ascend aren't compared, since each is compared with each.
const MOST_OTHERS: usize = 30;

// The rank of what begins with no digit. An index has fewer digits.
const NO_INDEX: usize = 100;

/// True only if no two siblings are at the same places. Takes linear time.
#[cycle(siblings_differ)]
pub(crate) fn siblings_differ(rows: &[RelativeRow]) -> bool
    requires { AreTrees rows.now }
    ensures { (f : Forest OutputUnit) → map relative_row rows.now ≡ flat_of f → IsTrue result
        → siblings_differ f ≡ true }
{
    if !roots_differ(rows) {
        return false;
    }
    let mut next = 0;
    while next < rows.len() {
        let first = next;
        let row = &rows[first];
        next = tree_end(rows, first);
        // One node below has no siblings.
        if row.size > 2 && !siblings_differ(&rows[first + 1..next]) {
            return false;
        }
    }
    true
}

fn roots_differ(rows: &[RelativeRow]) -> bool
    requires { AreTrees rows.now }
    ensures { (f : Forest OutputUnit) → map relative_row rows.now ≡ flat_of f → IsTrue result
        → roots_differ f ≡ true }
{
    (may_ascend(rows) && roots_ascend(rows)) || pairs_differ(rows)
}

// Whether the second root adds to the instance location. If it doesn't, it doesn't come after the first.
fn may_ascend(rows: &[RelativeRow]) -> bool {
    let Some(first) = rows.first() else {
        return true;
    };
    let Some(second) = rows.get(first.size) else {
        return true;
    };
    !second.instance.is_empty()
}

// Whether what each root adds to the instance location comes after what the one before adds.
fn roots_ascend(rows: &[RelativeRow]) -> bool
    requires { AreTrees rows.now }
    ensures { (f : Forest OutputUnit) → map relative_row rows.now ≡ flat_of f → IsTrue result
        → roots_differ f ≡ true }
{
    let mut rank = 0;
    let mut last: &[u8] = &[];
    let mut next = 0;
    while next < rows.len() {
        let first = next;
        let row = &rows[first];
        next = tree_end(rows, first);
        let part = row.instance;
        let above = rank;
        rank = part_rank(part);
        if !comes_before(above, last, rank, part) {
            return false;
        }
        last = part;
    }
    true
}

// How many digits stand behind the slash; none are taken for many, so that names come last.
fn part_rank(part: &[u8]) -> usize
    ensures { result ≡ part_rank part.now }
{
    let digits = digit_count(part);
    if digits == 0 { NO_INDEX } else { digits }
}

fn digit_count(part: &[u8]) -> usize
    ensures { result ≡ prefix_len is_digit (drop 1 part.now) }
{
    let mut end = 1;
    while end < part.len() && is_digit(part[end]) {
        end += 1;
    }
    end - 1
}

fn is_digit(byte: u8) -> bool
    ensures { result ≡ is_digit byte }
{
    byte > b'/' && byte < b':'
}

fn comes_before(a_rank: usize, a: &[u8], b_rank: usize, b: &[u8]) -> bool
    ensures { result ≡ is_lt (part_order (a_rank, a.now) (b_rank, b.now)) }
{
    if a_rank != b_rank {
        return a_rank < b_rank;
    }
    a.cmp(b).is_lt()
}

// Whether each root stands apart from each one behind it.
fn pairs_differ(rows: &[RelativeRow]) -> bool
    requires { AreTrees rows.now }
    ensures { (f : Forest OutputUnit) → map relative_row rows.now ≡ flat_of f → IsTrue result
        → roots_differ f ≡ true }
{
    let mut next = 0;
    while next < rows.len() {
        let first = next;
        let row = &rows[first];
        next = tree_end(rows, first);
        if !stands_alone(row, rows, next) {
            return false;
        }
    }
    true
}

// Whether the row stands apart from each of the trees' roots from there on. Not if there are too many.
fn stands_alone(row: &RelativeRow, rows: &[RelativeRow], start: usize) -> bool
    requires { AreTrees (drop start rows.now) }
    ensures { (f : Forest OutputUnit) → map relative_row (drop start rows.now) ≡ flat_of f → IsTrue result
        → none_there (relative_row row.now).0 f ≡ true }
{
    let mut left = MOST_OTHERS;
    let mut next = start;
    while next < rows.len() {
        let first = next;
        let other = &rows[first];
        next = tree_end(rows, first);
        if left == 0 || !stand_apart(row, other) {
            return false;
        }
        left -= 1;
    }
    true
}

//! Sorts siblings, as a linked list in their marks: a tree's mark is the index of another one. What the list suggests
//! is checked by comparing trees, so no contract depends on the marks.
ghost use Rattle.std.specs.Prelude.{◌≡◌, ◌≤◌, ◌<◌, ◌+◌, MatchOption, IsTrue, true, false, length};
ghost use Rattle.js_tree.specs.Alike.{same_but_keyword};
ghost use Rattle.js_tree.specs.Forest.{empty, forest_of};
ghost use Rattle.js_tree.specs.Merged.{firsts, none_alike};
ghost use Rattle.js_tree.specs.code.Order.{IsBefore};

use crate::reducing::likeness::are_alike;
use crate::reducing::order::compare;
use crate::tree::Tree;

/// An index that no tree has.
const NOWHERE: usize = usize::MAX;

/// Makes a sorted list of `count` trees, from `first` on: each tree's mark becomes the index of the next in order.
/// Trees that are equal in the order stay in sequence. Returns the index of the list's first tree.
pub(crate) fn list_in_order(trees: &[Tree], first: usize, count: usize) -> usize
    requires { first + count ≤ length trees.now }
{
    if count < 2 {
        set_mark(trees, first, NOWHERE);
        return first;
    }
    let half = count / 2;
    let left = list_in_order(trees, first, half);
    let right = list_in_order(trees, first + half, count - half);
    join(trees, left, right, count)
}

/// Merges two sorted lists, which have `count` trees together. Returns the index of the first.
fn join(trees: &[Tree], left: usize, right: usize, count: usize) -> usize {
    let mut left = left;
    let mut right = right;
    let first = if stays_first(trees, left, right) {
        left
    } else {
        right
    };
    let mut last = NOWHERE;
    for _ in 0..count {
        let next = if stays_first(trees, left, right) {
            left
        } else {
            right
        };
        if next == left {
            left = mark(trees, next);
        } else {
            right = mark(trees, next);
        }
        set_mark(trees, last, next);
        last = next;
    }
    set_mark(trees, last, NOWHERE);
    first
}

/// Whether the tree at `left` comes next: it isn't after the one at `right` in the order, or there is none at `right`.
fn stays_first(trees: &[Tree], left: usize, right: usize) -> bool {
    match (trees.get(left), trees.get(right)) {
        (Some(a), Some(b)) => compare(a, b).is_le(),
        (left, _) => left.is_some(),
    }
}

fn mark(trees: &[Tree], place: usize) -> usize {
    match trees.get(place) {
        Some(tree) => tree.last_mark(),
        None => NOWHERE,
    }
}

fn set_mark(trees: &[Tree], place: usize, mark: usize) {
    if let Some(tree) = trees.get(place) {
        tree.set_mark(mark);
    }
}

/// Whether no tree is alike to an earlier one, or None if the list that begins at `first` doesn't show it.
pub(crate) fn differ_by_list(trees: &[Tree], first: usize) -> Option<bool>
    ensures { MatchOption result (Unit {0})
        (λ differ. differ ≡ none_alike same_but_keyword empty (forest_of trees.now)) }
{
    if first >= trees.len() {
        return None;
    }
    let mut place = first;
    for seen in 1..trees.len() {
        let next = trees[place].last_mark();
        if !is_before(trees, place, next) {
            return if are_alike_at(trees, place, next) {
                Some(false)
            } else {
                None
            };
        }
        place = next;
    }
    Some(true)
}

/// Whether the list that begins at `first` shows that no tree is alike to an earlier one.
pub(crate) fn are_shown_to_differ(trees: &[Tree], first: usize) -> bool
    ensures { IsTrue result → firsts same_but_keyword (forest_of trees.now) ≡ forest_of trees.now }
{
    match differ_by_list(trees, first) {
        Some(differ) => differ,
        None => false,
    }
}

/// Whether the tree at `next` comes after the one at `place` in the order, and so isn't alike to it.
fn is_before(trees: &[Tree], place: usize, next: usize) -> bool
    requires { place < length trees.now }
    ensures { IsTrue result → (next < length trees.now) × IsBefore trees.now place next }
{
    next < trees.len() && compare(&trees[place], &trees[next]).is_lt()
}

/// Whether the tree at `next` is a later sibling of the one at `place`, and alike to it.
fn are_alike_at(trees: &[Tree], place: usize, next: usize) -> bool
    requires { place < length trees.now }
    ensures { IsTrue result → none_alike same_but_keyword empty (forest_of trees.now) ≡ false }
{
    if next <= place {
        return false;
    }
    next < trees.len() && are_alike(&trees[place], &trees[next])
}

/// Sets the marks by the list that begins at `first`. If a tree is alike to an earlier one, its mark becomes the index
/// that the first such tree will have once the repeated trees are dropped. Otherwise its mark becomes its own index
/// then.
pub(crate) fn mark_alike(trees: &[Tree], first: usize) {
    mark_firsts(trees, first);
    let mut count = 0_usize;
    for i in 0..trees.len() {
        let earliest = mark(trees, i);
        if earliest == i {
            set_mark(trees, i, count);
            count += 1;
        } else {
            set_mark(trees, i, mark(trees, earliest));
        }
    }
}

/// Sets each tree's mark to the index of the first tree that is alike to it, by the list that begins at `first`.
fn mark_firsts(trees: &[Tree], first: usize) {
    let mut earliest = first;
    let mut place = first;
    for _ in 0..trees.len() {
        let next = mark(trees, place);
        if !are_alike_places(trees, earliest, place) {
            earliest = place;
        }
        set_mark(trees, place, earliest);
        place = next;
    }
}

fn are_alike_places(trees: &[Tree], place: usize, other: usize) -> bool {
    match (trees.get(place), trees.get(other)) {
        (Some(a), Some(b)) => are_alike(a, b),
        _ => false,
    }
}

//! Condensing with a third rule: a node goes if an earlier sibling is alike.
ghost use Rattle.std.specs.Prelude.{◌≡◌, ◌≤◌, ◌↔◌, ◌&&◌, IsTrue, false, length, take};
ghost use Rattle.js_tree.specs.Alike.{same_but_keyword};
ghost use Rattle.js_tree.specs.Forest.{empty, forest_of};
ghost use Rattle.js_tree.specs.Merged.{all_merged, firsts, none_alike};
ghost use Rattle.js_tree.specs.MergedResult.{merged, NormalOfThree, RunOfThree};
ghost use Rattle.js_tree.specs.OutputUnit.{noted};
ghost use Rattle.js_tree.specs.Result.{units};
ghost use Rattle.js_tree.specs.Sublist.{Sublist, none_lost};

use crate::reducing::likeness::{comes_again, is_found_again};
use crate::reducing::reduction::{Reduction, reduce_children};
use crate::reducing::sorting::{are_shown_to_differ, differ_by_list, list_in_order, mark_alike};
use crate::tree::Tree;

/// From this number of siblings on, they are sorted before they are compared.
const MANY: usize = 32;

/// Condenses a tree by three rules. They apply to any node below the root:
///
/// - a node without a note and without children is dropped;
/// - a node without a note and with exactly one child is replaced by that child (Core, section 12.4.3);
/// - a node is dropped, with its subtree, if an earlier sibling is *alike*: equal except for keyword locations.
///
/// They are applied until none is possible. The order doesn't matter: every order ends in the same tree. Allocates
/// nothing.
pub fn merge_condense(tree: Tree) -> Tree
    ensures merged { result ≡ merged tree.entry }
    ensures normal { NormalOfThree result }
    ensures reached { RunOfThree tree.entry result }
    ensures once { merged result ≡ result }
    ensures units { Sublist (units result) (units tree.entry) }
    ensures none_lost { IsTrue (none_lost same_but_keyword (units result) (units tree.entry)) }
{
    let mut whole = tree;
    reduce_children(&mut whole.children, Reduction::Merge);
    whole
}

/// Drops each tree that is alike to an earlier one. It isn't inlined, so that the walk takes less stack on each level.
#[inline(never)]
pub(crate) fn keep_firsts(trees: &mut Vec<Tree>)
    ensures { forest_of trees.new.items ≡ firsts same_but_keyword (forest_of trees.old.items) }
{
    if trees.len() >= MANY && keep_firsts_by_list(trees) {
        return;
    }
    let count = drop_found(trees, false);
    trees.truncate(count);
}

/// Drops trees that are alike to an earlier one. Returns true only if none of them is left.
fn keep_firsts_by_list(trees: &mut Vec<Tree>) -> bool
    ensures left { firsts same_but_keyword (forest_of trees.new.items)
        ≡ firsts same_but_keyword (forest_of trees.old.items) }
    ensures gone { IsTrue result → firsts same_but_keyword (forest_of trees.new.items) ≡ forest_of trees.new.items }
{
    let first = list_in_order(trees, 0, trees.len());
    if are_shown_to_differ(trees, first) {
        return true;
    }
    mark_alike(trees, first);
    let count = drop_found(trees, true);
    trees.truncate(count);
    let first = list_in_order(trees, 0, trees.len());
    are_shown_to_differ(trees, first)
}

/// Moves the trees to the front that aren't found to be alike to an earlier one, and returns their number. They keep
/// their order. By marks, each is compared only with the tree that its mark names.
fn drop_found(trees: &mut [Tree], by_marks: bool) -> usize
    ensures at_most { result ≤ length trees.old }
    ensures left { firsts same_but_keyword (forest_of (take result trees.new))
        ≡ firsts same_but_keyword (forest_of trees.old) }
    ensures firsts { by_marks ≡ false
        → forest_of (take result trees.new) ≡ firsts same_but_keyword (forest_of trees.old) }
{
    let mut count = 0;
    for i in 0..trees.len() {
        if !is_found_again(trees, count, i, by_marks) {
            trees.swap(count, i);
            count += 1;
        }
    }
    count
}

/// Whether none of the three rules of `merge_condense` is possible anywhere below the root. Allocates nothing.
pub fn is_merged(tree: &Tree) -> bool
    ensures { IsTrue result ↔ NormalOfThree tree.now }
{
    are_merged(tree.children.as_slice())
}

/// Whether no rule is possible among the trees, or below them.
fn are_merged(trees: &[Tree]) -> bool
    ensures { result ≡ (none_alike same_but_keyword empty (forest_of trees.now)
        && all_merged noted same_but_keyword (forest_of trees.now)) }
{
    siblings_differ(trees) && all_merged(trees)
}

fn all_merged(trees: &[Tree]) -> bool
    ensures { result ≡ all_merged noted same_but_keyword (forest_of trees.now) }
{
    for tree in trees {
        if !tree.node_stands() {
            return false;
        }
        if !siblings_differ(tree.children.as_slice()) {
            return false;
        }
        if !all_merged(tree.children.as_slice()) {
            return false;
        }
    }
    true
}

/// Whether no tree is alike to an earlier one.
fn siblings_differ(trees: &[Tree]) -> bool
    ensures { result ≡ none_alike same_but_keyword empty (forest_of trees.now) }
{
    if trees.len() < MANY {
        return few_differ(trees);
    }
    let first = list_in_order(trees, 0, trees.len());
    match differ_by_list(trees, first) {
        Some(differ) => differ,
        None => few_differ(trees),
    }
}

fn few_differ(trees: &[Tree]) -> bool
    ensures { result ≡ none_alike same_but_keyword empty (forest_of trees.now) }
{
    for i in 0..trees.len() {
        if comes_again(trees, i, i) {
            return false;
        }
    }
    true
}

//! Laws of result trees. Each is the contract of a function that does nothing.
//!
//! A *step* applies a rule once, at one node below the root; a *run* is a sequence of steps. A tree is *normal* if no
//! step is possible. The *kept tree* of a tree is what `condense` makes of it, and its *merged tree* what
//! `merge_condense` makes of it.
ghost use Rattle.std.specs.Prelude.{◌≡◌, ◌+◌, ◌<◌, ◌↔◌, IsTrue, Some, false, true};
ghost use Rattle.js_tree.specs.Alike.{same_but_keyword};
ghost use Rattle.js_tree.specs.Forest.{Forest, ◌⊹◌, node_count, tree};
ghost use Rattle.js_tree.specs.Holding.{BoxedClosesAll, BoxedHolds, FlatHolds, VerdictHolds};
ghost use Rattle.js_tree.specs.Result.{ResultTree, Normal, Run, Rewrite, kept, moved, pruned, units};
ghost use Rattle.js_tree.specs.declared.reducing.moves.Move.{Move};
ghost use Rattle.js_tree.specs.Merged.{alike, firsts, has_alike};
ghost use Rattle.js_tree.specs.MergedResult.{merged, without_keywords, NormalOfThree, RunOfThree, RewriteOfThree};
ghost use Rattle.js_tree.specs.Moves.{of_two};
ghost use Rattle.js_tree.specs.OutputUnit.{OutputUnit};
ghost use Rattle.js_tree.specs.Trimmed.{trimmed_tree};

use crate::tree::Tree;

/// A step, wherever it is made, doesn't change the kept tree.
pub fn a_step_leaves_the_kept_tree()
    ensures { (t u : ResultTree) → Rewrite t u → kept u ≡ kept t }
{}

/// A normal tree is its own kept tree.
pub fn a_normal_tree_is_its_kept_tree()
    ensures { (t : ResultTree) → Normal t → kept t ≡ t }
{}

/// The steps are exactly the possible moves by the two rules of `condense`.
pub fn steps_are_moves()
    ensures { (t u : ResultTree) → Rewrite t u ↔ ((m : Move) × IsTrue (of_two m.rule) × (moved m t ≡ Some u)) }
{}

/// A step removes exactly one node.
pub fn a_step_takes_one_node()
    ensures { (t u : ResultTree) → Rewrite t u → node_count u.below + 1 ≡ node_count t.below }
{}

/// From each tree a run leads to its kept tree, which is normal.
pub fn the_kept_tree_is_reached()
    ensures reached { (t : ResultTree) → Run t (kept t) }
    ensures normal { (t : ResultTree) → Normal (kept t) }
{}

/// Every run that ends in a normal tree ends in the kept tree.
pub fn normal_ends_are_the_kept_tree()
    ensures { (t u : ResultTree) → Run t u → Normal u → u ≡ kept t }
{}

/// The kept tree has the noted units of the tree, in the same order.
pub fn the_kept_tree_has_the_same_units()
    ensures { (t : ResultTree) → units (kept t) ≡ units t }
{}

/// A step of the three rules, wherever it is made, doesn't change the merged tree.
pub fn a_step_of_three_leaves_the_merged_tree()
    ensures { (t u : ResultTree) → RewriteOfThree t u → merged u ≡ merged t }
{}

/// A tree from which no step of the three rules is possible is its own merged tree.
pub fn a_tree_normal_under_three_is_its_merged_tree()
    ensures { (t : ResultTree) → NormalOfThree t → merged t ≡ t }
{}

/// From each tree a run of the three rules leads to its merged tree, from which no step is possible.
pub fn the_merged_tree_is_reached()
    ensures reached { (t : ResultTree) → RunOfThree t (merged t) }
    ensures normal { (t : ResultTree) → NormalOfThree (merged t) }
{}

/// A step of the three rules removes at least one node. So a run has at most as many steps as there are nodes below the
/// root.
pub fn a_step_of_three_leaves_fewer_nodes()
    ensures { (t u : ResultTree) → RewriteOfThree t u → node_count u.below < node_count t.below }
{}

/// Every run of the three rules that can't be continued ends in the merged tree.
pub fn normal_ends_of_three_are_the_merged_tree()
    ensures { (t u : ResultTree) → RunOfThree t u → NormalOfThree u → u ≡ merged t }
{}

/// What merging makes of the kept tree is what it makes of the tree: condensing first changes nothing. Nor does
/// trimming before that.
pub fn the_kept_tree_has_the_same_merged_tree()
    ensures kept { (t : ResultTree) → merged (kept t) ≡ merged t }
    ensures trimmed { (t : ResultTree) → merged (kept (pruned (trimmed_tree t))) ≡ merged (pruned t) }
{}

/// The steps of the three rules are exactly the possible moves.
pub fn steps_of_three_are_moves()
    ensures { (t u : ResultTree) → RewriteOfThree t u ↔ ((m : Move) × (moved m t ≡ Some u)) }
{}

/// Trees are alike exactly if they are equal without their keyword locations.
pub fn alike_trees_are_equal_without_keywords()
    ensures { (f g : Forest OutputUnit) → IsTrue (alike same_but_keyword f g)
        ↔ (without_keywords f ≡ without_keywords g) }
{}

/// Of siblings that are alike the first stays, with its own keyword locations, and the later ones go.
pub fn the_earliest_of_alike_trees_stays()
    ensures stays { (f : Forest OutputUnit) (u : OutputUnit) (below g : Forest OutputUnit)
        → has_alike same_but_keyword f u below ≡ false
        → (h : Forest OutputUnit) × (firsts same_but_keyword (f ⊹ tree u below g)
        ≡ (firsts same_but_keyword f ⊹ tree u below h)) }
    ensures goes { (f : Forest OutputUnit) (u : OutputUnit) (below g : Forest OutputUnit)
        → has_alike same_but_keyword f u below ≡ true
        → firsts same_but_keyword (f ⊹ tree u below g) ≡ firsts same_but_keyword (f ⊹ g) }
{}

/// After the events of a tree with fewer than 2^64 levels, `Verdict` holds its root's verdict.
pub fn a_verdict_is_the_roots()
    ensures { VerdictHolds }
{}

/// After the events of a tree, `Boxed` holds the tree.
pub fn a_boxed_tree_is_the_tree()
    ensures { BoxedHolds }
{}

/// After the events of a tree, no node is open in `Boxed`, so further calls change nothing and return Ok.
pub fn a_boxed_tree_is_closed()
    ensures { BoxedClosesAll }
{}

/// After the events of a tree, `Flat` holds its flat form, and no node is open.
pub fn rows_are_the_flat_form()
    ensures { FlatHolds }
{}

/// Trimming loses nothing that basic, detailed or merged shows: the trimmed tree, pruned, has the same noted units, the
/// same kept tree and the same merged tree.
pub fn a_trimmed_tree_shows_the_same()
    ensures units { (t : ResultTree) → units (pruned (trimmed_tree t)) ≡ units (pruned t) }
    ensures kept { (t : ResultTree) → kept (pruned (trimmed_tree t)) ≡ kept (pruned t) }
    ensures merged { (t : ResultTree) → merged (pruned (trimmed_tree t)) ≡ merged (pruned t) }
    ensures root { (t : ResultTree) → (pruned (trimmed_tree t)).root ≡ t.root }
{}

/// Returns the bare root, which is normal. It shows that a contract which promises just a normal tree is too weak.
pub fn empty_root(tree: Tree) -> Tree
    ensures { Normal result }
{
    let mut tree = tree;
    tree.children.trees.truncate(0);
    tree
}

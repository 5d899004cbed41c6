//! Single steps by the rules that condense and merge, and runs of them.
ghost use Rattle.std.specs.Prelude.{false, ◌≡◌, ◌+◌, ◌<◌, ◌≤◌, if◌then◌else◌, length, take, vec_len, MatchResult, IfOk};
ghost use Rattle.std.specs.Prelude.{IsTrue};
ghost use Rattle.js_tree.specs.Forest.{forest_of, node_count, empty, tree as node};
ghost use Rattle.js_tree.specs.MergedResult.{merged, NormalOfThree, RewriteOfThree};
ghost use Rattle.js_tree.specs.Moves.{all_of_two, of_two, with_only_child};
ghost use Rattle.js_tree.specs.OutputUnit.{noted};
ghost use Rattle.js_tree.specs.Result.{kept, Normal, Rewrite, moved, replayed};
ghost use Rattle.js_tree.specs.code.Search.{Searched, moved_tree};
ghost use Rattle.js_tree.specs.declared.reducing.moves.Rule.TheVariants.{Drop, Merge};

use crate::reducing::likeness::comes_again;
use crate::tree::Tree;

/// A rule that may be applied to a node below the root.
#[derive(Clone, Copy, Debug, PartialEq, Eq)]
pub enum Rule {
    /// The node is dropped, if it has no note and no child (Core, section 12.4.3).
    Drop,
    /// The node is replaced by its child, if it has no note and exactly one child (Core, section 12.4.3).
    Lift,
    /// The node is dropped with its subtree, if an earlier sibling is alike: equal except for keyword locations.
    Merge,
}

/// A rule, and the node that it is applied to. `position` is the node's index in preorder; the root's is 0.
#[derive(Clone, Copy, Debug, PartialEq, Eq)]
pub struct Move {
    pub rule: Rule,
    pub position: usize,
}

/// The rule isn't possible at the node, or the tree has no such node below the root.
#[derive(Clone, Copy, Debug, PartialEq, Eq)]
pub struct NoMove;

/// The outcome of a move on sibling trees.
#[derive(Clone, Copy)]
enum Search {
    Made,
    NotPossible,
    /// The trees don't have the node. It comes this many nodes after them.
    Further(usize),
}

/// Makes the move. Allocates nothing. Takes time linear in the nodes up to its position and the siblings after it;
/// `Merge` also compares the node with the siblings before it.
///
/// # Errors
/// `NoMove`, with the unchanged tree, if the rule isn't possible at the node or no node below the root has this
/// position.
pub fn apply<'a>(tree: Tree<'a>, chosen: &Move) -> Result<Tree<'a>, (NoMove, Tree<'a>)>
    ensures moved { MatchResult result (λ made. moved chosen.now tree.entry ≡ Some made)
        (λ refused. (moved chosen.now tree.entry ≡ None) × (refused.1 ≡ tree.entry)) }
    ensures step { IfOk result (λ made. IsTrue (of_two chosen.now.rule) → Rewrite tree.entry made) }
    ensures step_of_three { IfOk result (λ made. RewriteOfThree tree.entry made) }
{
    if chosen.position == 0 {
        return Err((NoMove, tree));
    }
    let mut tree = tree;
    match move_below(&mut tree, chosen.rule, chosen.position - 1) {
        Search::Made => Ok(tree),
        _ => Err((NoMove, tree)),
    }
}

/// Makes the moves one after another. Allocates nothing.
///
/// # Errors
/// The index of the first move that isn't possible, and the tree as the moves before it left it.
pub fn replay<'a>(tree: Tree<'a>, moves: &[Move]) -> Result<Tree<'a>, (usize, Tree<'a>)>
    ensures run { MatchResult result (λ end. replayed moves.now tree.entry ≡ Some end)
        (λ stop. (stop.0 < length moves.now) × (replayed (take stop.0 moves.now) tree.entry ≡ Some stop.1)
        × (replayed (take (stop.0 + 1) moves.now) tree.entry ≡ None)) }
    ensures at_most { IfOk result (λ end. length moves.now + node_count end.below ≤ node_count tree.entry.below) }
    ensures length { IfOk result (λ end. IsTrue (all_of_two moves.now)
        → length moves.now + node_count end.below ≡ node_count tree.entry.below) }
    ensures one_normal_form { IfOk result (λ end. IsTrue (all_of_two moves.now) → Normal end → end ≡ kept tree.entry) }
    ensures one_merged_form { IfOk result (λ end. NormalOfThree end → end ≡ merged tree.entry) }
{
    let mut tree = tree;
    for i in 0..moves.len() {
        tree = apply_numbered(tree, &moves[i], i)?;
    }
    Ok(tree)
}

/// Makes the move, or returns its number and the unchanged tree.
fn apply_numbered<'a>(
    tree: Tree<'a>,
    chosen: &Move,
    number: usize,
) -> Result<Tree<'a>, (usize, Tree<'a>)>
    ensures { MatchResult result (λ made. moved chosen.now tree.entry ≡ Some made) (λ stop. (stop.0 ≡ number)
        × (moved chosen.now tree.entry ≡ None) × (stop.1 ≡ tree.entry)) }
{
    match apply(tree, chosen) {
        Ok(made) => Ok(made),
        Err((_, met)) => Err((number, met)),
    }
}

#[cycle(moves)]
fn move_below(tree: &mut Tree, rule: Rule, position: usize) -> Search
    ensures root { tree.new.root ≡ tree.old.root }
    ensures searched { Searched result rule position tree.old.below tree.new.below }
{
    let children = &mut tree.children;
    move_among(&mut children.trees, rule, position)
}

#[cycle(moves)]
fn move_among(trees: &mut Vec<Tree>, rule: Rule, position: usize) -> Search
    ensures { Searched result rule position (forest_of trees.old.items) (forest_of trees.new.items) }
{
    let mut position = position;
    for i in 0..trees.len() {
        if position == 0 {
            let made = match rule {
                Rule::Drop => drop_leaf(trees, i),
                Rule::Lift => lift_child(&mut trees[i]),
                Rule::Merge => drop_alike(trees, i),
            };
            return if made {
                Search::Made
            } else {
                Search::NotPossible
            };
        }
        match move_below(&mut trees[i], rule, position - 1) {
            Search::Further(rest) => position = rest,
            end => return end,
        }
    }
    Search::Further(position)
}

/// Drops the tree at the index, if it is a leaf without a note. Returns whether it did.
fn drop_leaf(trees: &mut Vec<Tree>, i: usize) -> bool
    requires { i < vec_len trees.old }
    ensures dropped { moved_tree Drop trees.old.items i ≡ (if result then Some (forest_of trees.new.items) else None) }
    ensures unchanged { result ≡ false → trees.new.items ≡ trees.old.items }
{
    let tree = &trees[i];
    if tree.unit.is_noted() || tree.children.len() != 0 {
        return false;
    }
    drop(trees.remove(i));
    true
}

/// Drops the tree at the index, if an earlier one is alike. Returns whether it did.
fn drop_alike(trees: &mut Vec<Tree>, i: usize) -> bool
    requires { i < vec_len trees.old }
    ensures merged { moved_tree Merge trees.old.items i ≡ (if result then Some (forest_of trees.new.items) else None) }
    ensures unchanged { result ≡ false → trees.new.items ≡ trees.old.items }
{
    if !comes_again(trees.as_slice(), i, i) {
        return false;
    }
    drop(trees.remove(i));
    true
}

/// Replaces the tree by its only child, if the root has exactly one and no note. Returns whether it did.
fn lift_child(tree: &mut Tree) -> bool
    ensures lifted { with_only_child noted tree.old.root tree.old.below empty
        ≡ (if result then Some (node tree.new.root tree.new.below empty) else None) }
    ensures unchanged { result ≡ false → tree.new ≡ tree.old }
{
    if tree.unit.is_noted() || tree.children.len() != 1 {
        return false;
    }
    tree.lift()
}

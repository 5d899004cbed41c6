//! Result trees.
ghost use Rattle.std.specs.Prelude.{◌≡◌, if◌then◌else◌, length};
ghost use Rattle.js_tree.specs.Forest.{empty, tree as node};
ghost use Rattle.js_tree.specs.OutputUnit.{noted};
ghost use Rattle.js_tree.specs.Seen.{note_of};
ghost use Rattle.js_tree.specs.Rewrite.{node_stands};

use crate::collecting::collector::Head;
use crate::note::Note;
use crate::unit::Unit;
use std::cell::Cell;
use std::marker::Model;
use std::mem::replace;

/// A node of a result tree, with its subtree (Core, section 12.4.4). Contracts see a rose tree of units: the root's
/// unit, and the forest of the children.
#[cycle(tree)]
#[derive(Debug, Drop)]
pub struct Tree<'a> {
    /// The node's unit.
    pub unit: Unit<'a>,
    /// The node's children, in order.
    pub children: Trees<'a>,
}

/// Sibling trees. Contracts see a list of trees.
#[cycle(tree)]
#[derive(Debug, Drop)]
pub struct Trees<'a> {
    pub(crate) trees: Vec<Tree<'a>>,
    /// Scratch space of merging, for the node that these are the children of: the index of one of its siblings.
    /// Contracts don't see it.
    mark: Cell<usize>,
}

impl<'a> Model for Tree<'a> {
    ghost use Rattle.js_tree.specs.Forest.{Rose, forest_of, node_count};
    ghost use Rattle.js_tree.specs.OutputUnit.{OutputUnit};
    ghost use Rattle.std.proofs.Common.{arith, ◌+◌};

    ghost Value = { Rose OutputUnit };

    ghost use Rattle.js_tree.specs.Coding.{rose_code, unit_code};

    ghost coded = { rose_code unit_code };

    ghost view = { λ t. record { root = t.unit; below = forest_of t.children } };

    ghost size = { λ t. node_count t.below + node_count t.below + 2 };

    ghost size_decreases = { λ t h. Prim.omega arith };
}

impl<'a> Model for Trees<'a> {
    ghost use Rattle.js_tree.specs.Forest.{Rose, forest_of, node_count, most_le-node_count};
    ghost use Rattle.js_tree.specs.OutputUnit.{OutputUnit};
    ghost use Rattle.std.proofs.Common.{arith, ◌+◌};
    ghost use Rattle.std.specs.Prelude.{List};

    ghost Value = { List (Rose OutputUnit) };

    ghost use Rattle.js_tree.specs.Coding.{rose_code, unit_code};
    ghost use Rattle.std.specs.Coded.{coded_list};

    ghost coded = { coded_list (rose_code unit_code) };

    ghost view = { λ ts. ts.trees.items };

    ghost size = { λ ts. node_count (forest_of ts) + node_count (forest_of ts) + 1 };

    ghost size_decreases = { λ ts h. Prim.omega (arith, most_le-node_count ts.trees.items) };
}

impl<'a> Trees<'a> {
    /// These trees, in this order. Allocates nothing.
    pub fn new(trees: Vec<Tree<'a>>) -> Trees<'a>
        ensures { result ≡ trees.entry.items }
    {
        Trees {
            trees,
            mark: Cell::new(0),
        }
    }

    /// The trees, in order.
    pub fn as_slice(&self) -> &[Tree<'a>]
        ensures { result.now ≡ self.now }
    {
        self.trees.as_slice()
    }

    /// The number of trees.
    pub fn len(&self) -> usize
        ensures { result ≡ length self.now }
    {
        self.trees.len()
    }

    /// The vector that the trees were made from.
    pub fn into_vec(self) -> Vec<Tree<'a>>
        ensures { result.items ≡ self.entry }
    {
        self.trees
    }
}

impl<'a> Tree<'a> {
    ghost use Rattle.js_tree.specs.Forest.{forest_of};

    /// The tree of a node with these locations, this verdict and this note, over these children. Allocates nothing.
    pub(crate) fn of_node(
        head: Head,
        valid: bool,
        note: Note<'a>,
        children: Vec<Tree<'a>>,
    ) -> Tree<'a>
        ensures { result ≡ record {
          root = record {
            valid = valid;
            keyword = head.keyword;
            absolute = head.absolute;
            instance = head.instance;
            note = note_of note.entry;
          };
          below = forest_of children.entry.items;
        } }
    {
        Tree {
            unit: Unit {
                valid,
                keyword: head.keyword,
                absolute: head.absolute,
                instance: head.instance,
                note,
            },
            children: Trees::new(children),
        }
    }

    /// Whether condensing leaves the node in place: it has a note, or at least two children.
    pub(crate) fn node_stands(&self) -> bool
        ensures { result ≡ node_stands noted self.now.root self.now.below }
    {
        self.unit.is_noted() || self.children.len() >= 2
    }

    /// Replaces the tree by its root's only child, unless condensing leaves the root in place. Returns whether a tree
    /// is left.
    pub(crate) fn lift(&mut self) -> bool
        ensures { (if node_stands noted self.old.root self.old.below
            then node self.old.root self.old.below empty else self.old.below)
            ≡ (if result then node self.new.root self.new.below empty else empty) }
    {
        if self.node_stands() {
            return true;
        }
        match self.children.trees.pop() {
            Some(child) => {
                drop(replace(self, child));
                true
            }
            None => false,
        }
    }

    /// The mark that was set last.
    pub(crate) fn last_mark(&self) -> usize {
        self.children.mark.get()
    }

    /// Sets the mark: the index of a sibling.
    pub(crate) fn set_mark(&self, place: usize) {
        self.children.mark.set(place);
    }
}

//! The output formats (Core, section 12.4), and what each shows of a result.
//!
//! The program writes `flag` from the verdict, `basic` and `verbose` from relative rows, `detailed` as `verbose` from
//! the rows that are kept, and `merged` from a tree, or so too where merging changes nothing. `documents`,
//! `flat_documents` and `flat_text` are for whole trees and flat forms: the program doesn't call them.
ghost use Rattle.std.specs.Prelude.{◌≡◌, slice_get};
ghost use Rattle.js_tree.specs.Form.{format_named, formats, layout, tree_of_format};

pub(crate) mod basic;
pub(crate) mod documents;
pub(crate) mod flag;
pub(crate) mod flat_documents;
pub(crate) mod flat_text;
pub(crate) mod merged;
pub(crate) mod node_text;
pub(crate) mod verbose;
pub(crate) mod writer;

use crate::reducing::condensing::condense;
use crate::reducing::merging::merge_condense;
use crate::reducing::pruning::prune;
use crate::tree::Tree;

/// An output format: what of a result is shown (Core, section 12.4).
#[derive(Clone, Copy, Debug, PartialEq, Eq)]
pub enum Format {
    /// The verdict alone (12.4.1).
    Flag,
    /// The verdict, and the noted units of the pruned tree, in preorder (12.4.2).
    Basic,
    /// The condensed pruned tree (12.4.3).
    Detailed,
    /// The pruned tree, condensed, and without nodes that are equal to an earlier sibling except for keyword locations.
    /// The standard has no such format.
    Merged,
    /// The whole tree (12.4.4).
    Verbose,
}

/// How a format lays out the tree that it shows.
#[derive(Clone, Copy)]
pub(crate) enum Layout {
    /// The verdict of the root.
    Verdict,
    /// The verdict, and a list of the noted units.
    Units,
    /// A node for each unit, inside that of the unit above it.
    Nodes,
}

impl Format {
    /// The format with this name, as arguments have it; None if there is none.
    pub fn named(name: &str) -> Option<Format>
        ensures { result ≡ format_named name.now }
    {
        match name {
            "flag" => Some(Format::Flag),
            "basic" => Some(Format::Basic),
            "detailed" => Some(Format::Detailed),
            "verbose" => Some(Format::Verbose),
            "merged" => Some(Format::Merged),
            _ => None,
        }
    }

    /// The format with this number, as C has it; None if there is none.
    pub fn numbered(number: u32) -> Option<Format>
        ensures { result ≡ slice_get formats number }
    {
        match number {
            0 => Some(Format::Flag),
            1 => Some(Format::Basic),
            2 => Some(Format::Detailed),
            3 => Some(Format::Verbose),
            4 => Some(Format::Merged),
            _ => None,
        }
    }

    pub(crate) fn layout(self) -> Layout
        ensures { result ≡ layout self }
    {
        match self {
            Format::Flag => Layout::Verdict,
            Format::Basic => Layout::Units,
            Format::Detailed => Layout::Nodes,
            Format::Merged => Layout::Nodes,
            Format::Verbose => Layout::Nodes,
        }
    }

    /// The tree that the format shows, of a whole tree.
    pub(crate) fn tree_of(self, tree: Tree) -> Tree
        ensures { result ≡ tree_of_format self tree.entry }
    {
        match self {
            Format::Flag => tree,
            Format::Basic => prune(tree),
            Format::Detailed => condense(prune(tree)),
            Format::Merged => merge_condense(prune(tree)),
            Format::Verbose => tree,
        }
    }
}

//! Notes: the error or the annotation of a node.
ghost use Rattle.std.specs.Prelude.{◌≡◌, List, ℕ, false, map};
ghost use Rattle.js_tree.specs.Note.{speaks};
ghost use Rattle.js_tree.specs.Seen.{note_of};

use js_doc::{Doc, Text};
use std::marker::Model;

/// The error or the annotation of a node, or neither (Core, section 12.3.4).
#[derive(Debug, Drop)]
pub enum Note<'a> {
    /// Neither an error nor an annotation.
    Silent,
    /// An error: why the node fails.
    Error(Text),
    /// An annotation: the keyword's value in the schema (Core, section 7.7).
    Value(&'a Doc),
    /// An annotation: the names of the members that a schema was applied to (Core, sections 10.3.2 and 11.3).
    Names(Names<'a>),
    /// An annotation: the largest index of an item that a schema was applied to (Core, section 10.3.1.1).
    Index(u64),
    /// An annotation: the indexes of the items that match `contains` (Core, section 10.3.1.3).
    Indexes(Indexes),
    /// The annotation `true`: a schema was applied to every item, or every item matches `contains` (Core, sections
    /// 10.3.1 and 11.2).
    Truth,
}

/// Names of members, borrowed from a document. Contracts see a list: the bytes of each name.
#[derive(Debug, Drop)]
pub struct Names<'a> {
    names: Vec<&'a str>,
}

impl<'a> Model for Names<'a> {
    ghost use Rattle.std.specs.Prelude.{List, ℕ, map};

    ghost Value = { List (List ℕ) };

    ghost view = { λ n. map (λ name. name.now) n.names.items };
}

/// Indexes of items. Contracts see a list of numbers.
#[derive(Debug, Drop)]
pub struct Indexes {
    indexes: Vec<u64>,
}

impl Model for Indexes {
    ghost use Rattle.std.specs.Prelude.{List, ℕ};

    ghost Value = { List ℕ };

    ghost view = { λ i. i.indexes.items };
}

impl<'a> Names<'a> {
    /// These names, in this order. Allocates nothing.
    pub fn new(names: Vec<&'a str>) -> Names<'a>
        ensures { result ≡ map (λ name. name.now) names.entry.items }
    {
        Names { names }
    }

    /// The names, in order.
    pub fn as_slice(&self) -> &[&'a str]
        ensures { map (λ name. name.now) result.now ≡ self.now }
    {
        self.names.as_slice()
    }

    /// The vector that the names were made from.
    pub fn into_vec(self) -> Vec<&'a str>
        ensures { map (λ name. name.now) result.items ≡ self.entry }
    {
        self.names
    }
}

impl Indexes {
    /// These indexes, in this order. Allocates nothing.
    pub fn new(indexes: Vec<u64>) -> Indexes
        ensures { result ≡ indexes.items }
    {
        Indexes { indexes }
    }

    /// The indexes, in order.
    pub fn as_slice(&self) -> &[u64]
        ensures { result.now ≡ self.now }
    {
        self.indexes.as_slice()
    }

    /// The vector that the indexes were made from.
    pub fn into_vec(self) -> Vec<u64>
        ensures { result.items ≡ self }
    {
        self.indexes
    }
}

impl<'a> Note<'a> {
    /// Whether there is an error or an annotation. An annotation that is an empty list counts.
    pub fn is_some(&self) -> bool
        ensures { result ≡ speaks (note_of self.now) }
    {
        !matches!(self, Note::Silent)
    }

    /// Ends a silent note, which owns nothing: cheaper than a drop, which looks for what to free.
    #[inline(always)]
    pub(crate) fn end_silent(self)
        requires { speaks (note_of self) ≡ false }
    {
        match self {
            Note::Silent => (),
            _ => unreachable!(),
        }
    }
}

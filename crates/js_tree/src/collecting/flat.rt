//! The flat form of a result tree: a row for each node, in preorder.
ghost use Rattle.std.specs.Prelude.{◌≡◌, ◌≢◌, ◌↔◌, IsTrue, [], false, length, map, true};

use crate::collecting::collector::{Collector, Head};
use crate::collecting::nesting::are_of_a_tree;
use crate::note::Note;
use crate::unit::Unit;
use js_doc::Memory;
use std::alloc::Global;

/// A node of a tree in its flat form.
#[derive(Debug, Drop)]
pub struct Row<'a> {
    /// The node's unit.
    pub unit: Unit<'a>,
    /// The number of nodes of its subtree, the node included; 0 while the node is open.
    pub size: usize,
    // Scratch space, so that condensing allocates nothing: how many nodes of the subtree stay.
    pub(crate) room: usize,
    // Scratch space too: whether the node itself stays.
    pub(crate) stays: bool,
}

/// A collector that builds the flat form of a tree. After an error it is as it was. `enter` after the root has closed,
/// and `leave` without an open node, change nothing and return Ok. `leave` always returns Ok, and allocates nothing.
#[derive(Debug, Drop)]
pub struct Flat<'a> {
    pub(crate) rows: Vec<Row<'a>>,
    // The indexes of the rows whose nodes are open, from the root down.
    numbers: Vec<usize>,
}

impl<'a> Flat<'a> {
    ghost use Rattle.js_tree.specs.FlatState.{IsWholeTree, row_of, flat_start, flat_state};

    /// A flat form without rows. Allocates nothing.
    pub fn new(alloc: Global) -> Flat<'a>
        ensures { flat_state result ≡ flat_start }
    {
        Flat {
            rows: Vec::new(alloc),
            numbers: Vec::new(alloc),
        }
    }

    /// The rows, in preorder.
    pub fn rows(&self) -> &[Row<'a>]
        ensures { map row_of result.now ≡ (flat_state self.now).rows }
    {
        self.rows.as_slice()
    }

    /// Whether a node can open: another is open, or there are no rows yet. Otherwise the root has closed.
    fn takes_node(&self) -> bool
        ensures opens { result ≡ true → length self.now.numbers.items ≡ 0 → length self.now.rows.items ≡ 0 }
        ensures closed { result ≡ false → (self.now.numbers.items ≡ []) × (self.now.rows.items ≢ []) }
    {
        !self.numbers.is_empty() || self.rows.is_empty()
    }

    /// Whether the rows are those of a whole tree, and no node is open. Takes linear time, and allocates nothing.
    pub fn whole(&self) -> bool
        ensures { IsTrue result ↔ IsWholeTree (flat_state self.now) }
    {
        self.numbers.is_empty() && are_of_a_tree(self.rows.as_slice())
    }
}

impl<'a> Collector<'a> for Flat<'a> {
    ghost use Rattle.std.specs.Prelude.{◌≡◌, ◌≢◌, IfOk, IfErr, IsOk, []};
    ghost use Rattle.js_tree.specs.Events.{opening, closing};
    ghost use Rattle.js_tree.specs.FlatState.{flat_after, flat_state};
    ghost use Rattle.js_tree.specs.Seen.{note_of};

    ghost takes = { λ a e b. flat_state b ≡ flat_after (flat_state a) e };

    fn enter(&mut self, head: Head) -> Result<(), Memory>
        ensures takes { IfOk result (λ _. flat_state self.new
            ≡ flat_after (flat_state self.old) (opening head.keyword head.absolute head.instance)) }
        ensures kept { IfErr result (λ _. flat_state self.new ≡ flat_state self.old) }
        ensures ok { (flat_state self.old).rows ≢ [] → (flat_state self.old).numbers ≡ [] → IsOk result }
    {
        if self.takes_node() {
            self.numbers.reserve(1)?;
            let number = self.rows.len();
            let row = Row {
                unit: Unit {
                    valid: false,
                    keyword: head.keyword,
                    absolute: head.absolute,
                    instance: head.instance,
                    note: Note::Silent,
                },
                size: 0,
                room: 0,
                stays: false,
            };
            self.rows.push(row)?;
            let _ = self.numbers.push(number);
        } else {
            drop(head);
        }
        Ok(())
    }

    fn leave(&mut self, valid: bool, note: Note<'a>) -> Result<(), Memory>
        ensures takes { IfOk result (λ _. flat_state self.new
            ≡ flat_after (flat_state self.old) (closing valid (note_of note.entry))) }
        ensures kept { IfErr result (λ _. flat_state self.new ≡ flat_state self.old) }
        ensures ok { IsOk result }
    {
        if let Some(number) = self.numbers.pop() {
            let count = self.rows.len();
            if number < count {
                let row = &mut self.rows[number];
                row.unit.close(valid, note);
                row.size = count - number;
            } else {
                drop(note);
            }
        } else {
            drop(note);
        }
        Ok(())
    }
}

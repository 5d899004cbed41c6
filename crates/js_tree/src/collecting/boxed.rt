//! A collector that builds the whole result tree.
ghost use Rattle.std.specs.Prelude.{◌≡◌};
ghost use Rattle.js_tree.specs.BoxedState.{frame_of, unit_of};
ghost use Rattle.js_tree.specs.Seen.{note_of};

use crate::collecting::collector::{Collector, Head};
use crate::note::Note;
use crate::tree::Tree;
use js_doc::Memory;
use std::alloc::Global;
use std::mem::replace;

// A node that has opened and not closed yet, with the finished subtrees below it.
#[derive(Drop)]
struct OpenTree<'a> {
    head: Head,
    children: Vec<Tree<'a>>,
}

/// A collector that builds the whole tree. After an error it is as it was. `enter` after the root has closed, and
/// `leave` without an open node, change nothing and return Ok.
#[derive(Drop)]
pub struct Boxed<'a> {
    alloc: Global,
    // The open nodes, from the root down.
    nodes: Vec<OpenTree<'a>>,
    found: Option<Tree<'a>>,
}

impl<'a> Boxed<'a> {
    ghost use Rattle.js_tree.specs.BoxedState.{boxed_start, boxed_state};

    /// A collector without a tree. Allocates nothing.
    pub fn new(alloc: Global) -> Boxed<'a>
        ensures { boxed_state result ≡ boxed_start }
    {
        Boxed {
            alloc,
            nodes: Vec::new(alloc),
            found: None,
        }
    }

    /// The tree, or None if its root hasn't closed.
    pub fn tree(self) -> Option<Tree<'a>>
        ensures { result ≡ (boxed_state self.entry).found }
    {
        let Boxed {
            alloc: _,
            nodes: _,
            found,
        } = self;
        found
    }
}

impl<'a> Collector<'a> for Boxed<'a> {
    ghost use Rattle.std.specs.Prelude.{◌≡◌, IfOk, IfErr, IsOk, IsSome, []};
    ghost use Rattle.js_tree.specs.BoxedState.{boxed_after, boxed_state};
    ghost use Rattle.js_tree.specs.Events.{opening, closing};

    ghost takes = { λ a e b. boxed_state b ≡ boxed_after (boxed_state a) e };

    fn enter(&mut self, head: Head) -> Result<(), Memory>
        ensures takes { IfOk result (λ _. boxed_state self.new
            ≡ boxed_after (boxed_state self.old) (opening head.keyword head.absolute head.instance)) }
        ensures kept { IfErr result (λ _. boxed_state self.new ≡ boxed_state self.old) }
        ensures ok { IsSome (boxed_state self.old).found → IsOk result }
    {
        if self.found.is_none() {
            let node = OpenTree {
                head,
                children: Vec::new(self.alloc),
            };
            self.nodes.push(node)?;
            Ok(())
        } else {
            Ok(drop(head))
        }
    }

    fn leave(&mut self, valid: bool, note: Note<'a>) -> Result<(), Memory>
        ensures takes { IfOk result (λ _. boxed_state self.new
            ≡ boxed_after (boxed_state self.old) (closing valid (note_of note.entry))) }
        ensures kept { IfErr result (λ _. boxed_state self.new ≡ boxed_state self.old) }
        ensures ok { (boxed_state self.old).frames ≡ [] → IsOk result }
    {
        match self.nodes.pop() {
            None => Ok(drop(note)),
            Some(node) => match self.nodes.pop() {
                None => {
                    drop(replace(&mut self.found, Some(closed(node, valid, note))));
                    Ok(())
                }
                Some(mut parent) => match parent.children.reserve(1) {
                    Ok(()) => {
                        parent.children.push_reserved(closed(node, valid, note));
                        self.nodes.push_reserved(parent);
                        Ok(())
                    }
                    Err(refused) => {
                        self.nodes.push_reserved(parent);
                        self.nodes.push_reserved(node);
                        drop(note);
                        Err(Memory::from(refused))
                    }
                },
            },
        }
    }
}

/// The tree of a node that closes with this verdict and this note.
fn closed<'a>(node: OpenTree<'a>, valid: bool, note: Note<'a>) -> Tree<'a>
    ensures { result ≡ record {
      root = unit_of (frame_of node.entry) valid (note_of note.entry);
      below = (frame_of node.entry).below;
    } }
{
    let OpenTree { head, children } = node;
    Tree::of_node(head, valid, note, children)
}

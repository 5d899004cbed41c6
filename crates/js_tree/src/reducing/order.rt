//! An order of trees that ignores keyword locations. Alike trees are equal in it.
ghost use Rattle.std.specs.Prelude.{◌≡◌};
ghost use Rattle.js_tree.specs.Forest.{forest_of};
ghost use Rattle.js_tree.specs.Seen.{note_of};
ghost use Rattle.js_tree.specs.code.Order.{note_rank, note_order, unit_order, result_tree_order, forest_order};

use crate::note::Note;
use crate::tree::Tree;
use crate::unit::Unit;
use std::cmp::Ordering;

impl<'a> Note<'a> {
    /// The rank of the note's kind.
    fn note_rank(&self) -> u8
        ensures { result ≡ note_rank (note_of self.now) }
    {
        match self {
            Note::Silent => 0,
            Note::Error(_) => 1,
            Note::Value(_) => 2,
            Note::Names(_) => 3,
            Note::Index(_) => 4,
            Note::Indexes(_) => 5,
            Note::Truth => 6,
        }
    }

    /// Orders notes by kind, and notes of one kind by content. Annotations that are a keyword's value count as equal:
    /// the absolute keyword location already decides that value.
    fn compare(&self, other: &Note) -> Ordering
        ensures { result ≡ note_order (note_of self.now) (note_of other.now) }
    {
        match (self, other) {
            (Note::Error(a), Note::Error(b)) => a.as_str().cmp(b.as_str()),
            (Note::Names(a), Note::Names(b)) => a.as_slice().cmp(b.as_slice()),
            (Note::Index(a), Note::Index(b)) => a.cmp(b),
            (Note::Indexes(a), Note::Indexes(b)) => a.as_slice().cmp(b.as_slice()),
            _ => self.note_rank().cmp(&other.note_rank()),
        }
    }
}

impl<'a> Unit<'a> {
    /// Orders units by verdict, instance location, absolute keyword location and note.
    fn compare(&self, other: &Unit) -> Ordering
        ensures { result ≡ unit_order self.now other.now }
    {
        let verdicts = self.valid.cmp(&other.valid);
        if verdicts.is_ne() {
            return verdicts;
        }
        let instances = self.instance.as_str().cmp(other.instance.as_str());
        if instances.is_ne() {
            return instances;
        }
        let places = self.absolute.as_str().cmp(other.absolute.as_str());
        if places.is_ne() {
            return places;
        }
        self.note.compare(&other.note)
    }
}

/// Orders trees by their roots, and then by their children one by one. It stops at the first node that differs.
#[cycle(compare)]
pub(crate) fn compare(a: &Tree, b: &Tree) -> Ordering
    ensures { result ≡ result_tree_order a.now b.now }
{
    let roots = a.unit.compare(&b.unit);
    if roots.is_ne() {
        return roots;
    }
    compare_all(a.children.as_slice(), b.children.as_slice())
}

#[cycle(compare)]
fn compare_all(a: &[Tree], b: &[Tree]) -> Ordering
    ensures { result ≡ forest_order (forest_of a.now) (forest_of b.now) }
{
    let mut others = b.iter();
    for tree in a {
        let Some(other) = others.next() else {
            return Ordering::Greater;
        };
        let order = compare(tree, other);
        if order.is_ne() {
            return order;
        }
    }
    if others.next().is_some() {
        Ordering::Less
    } else {
        Ordering::Equal
    }
}

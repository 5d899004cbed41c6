//! Which trees are *alike*: equal except for their keyword locations.
ghost use Rattle.std.specs.Prelude.{◌≡◌, ◌≤◌, ◌<◌, IsTrue, false, true, length};
ghost use Rattle.js_tree.specs.Alike.{same_but_keyword, same_note};
ghost use Rattle.js_tree.specs.Forest.{forest_of};
ghost use Rattle.js_tree.specs.Merged.{alike, alike_trees, has_alike};
ghost use Rattle.js_tree.specs.Result.{ResultTree};
ghost use Rattle.js_tree.specs.Seen.{note_of};
ghost use Rattle.js_tree.specs.code.Reductions.{comes_again};

use crate::note::Note;
use crate::tree::Tree;
use crate::unit::Unit;

impl<'a> Note<'a> {
    /// Whether the notes are equal.
    pub(crate) fn is_same(&self, other: &Note) -> bool
        ensures { result ≡ same_note (note_of self.now) (note_of other.now) }
    {
        match (self, other) {
            (Note::Silent, Note::Silent) => true,
            (Note::Error(a), Note::Error(b)) => a == b,
            (Note::Value(a), Note::Value(b)) => a == b,
            (Note::Names(a), Note::Names(b)) => a.as_slice() == b.as_slice(),
            (Note::Index(a), Note::Index(b)) => a == b,
            (Note::Indexes(a), Note::Indexes(b)) => a.as_slice() == b.as_slice(),
            (Note::Truth, Note::Truth) => true,
            _ => false,
        }
    }
}

impl<'a> Unit<'a> {
    /// Whether the units are equal except for their keyword locations.
    pub(crate) fn is_same_but_keyword(&self, other: &Unit) -> bool
        ensures { result ≡ same_but_keyword self.now other.now }
    {
        self.valid == other.valid
            && self.instance == other.instance
            && self.absolute == other.absolute
            && self.note.is_same(&other.note)
    }
}

/// Whether the trees are alike. It stops at the first node that differs.
#[cycle(alike)]
pub(crate) fn are_alike(a: &Tree, b: &Tree) -> bool
    ensures { result ≡ alike_trees same_but_keyword a.now.root a.now.below b.now.root b.now.below }
{
    a.unit.is_same_but_keyword(&b.unit) && all_alike(a.children.as_slice(), b.children.as_slice())
}

#[cycle(alike)]
fn all_alike(a: &[Tree], b: &[Tree]) -> bool
    ensures { result ≡ alike same_but_keyword (forest_of a.now) (forest_of b.now) }
{
    let count = a.len();
    if count != b.len() {
        return false;
    }
    for i in 0..count {
        if !are_alike(&a[i], &b[i]) {
            return false;
        }
    }
    true
}

/// Whether one of the trees is alike to `tree`.
fn has_alike(trees: &[Tree], tree: &Tree) -> bool
    ensures { result ≡ has_alike same_but_keyword (forest_of trees.now) tree.now.root tree.now.below }
{
    for other in trees {
        if are_alike(other, tree) {
            return true;
        }
    }
    false
}

/// Whether the tree at `index` is alike to one of the first `count` trees.
pub(crate) fn comes_again(trees: &[Tree], count: usize, index: usize) -> bool
    requires { (count ≤ index) × (index < length trees.now) }
    ensures { (d : ResultTree) → result ≡ comes_again trees.now count index d }
{
    has_alike(&trees[..count], &trees[index])
}

/// Whether the tree at `index` is found to be alike to one of the first `count` trees. By its mark, it is compared only
/// with the one that the mark names.
pub(crate) fn is_found_again(trees: &[Tree], count: usize, index: usize, by_mark: bool) -> bool
    requires { (count ≤ index) × (index < length trees.now) }
    ensures sound { (d : ResultTree) → IsTrue result → comes_again trees.now count index d ≡ true }
    ensures exact { (d : ResultTree) → by_mark ≡ false → result ≡ comes_again trees.now count index d }
{
    if by_mark {
        return comes_again_at_mark(trees, count, index);
    }
    comes_again(trees, count, index)
}

/// Whether the tree at `index` is alike to the tree that its mark names, and that one is among the first `count`.
fn comes_again_at_mark(trees: &[Tree], count: usize, index: usize) -> bool
    requires { (count ≤ index) × (index < length trees.now) }
    ensures { (d : ResultTree) → IsTrue result → comes_again trees.now count index d ≡ true }
{
    let tree = &trees[index];
    let place = tree.last_mark();
    place < count && are_alike(&trees[place], tree)
}

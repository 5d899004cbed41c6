//! Equality of values (JSON Schema Core, section 4.2.2).
ghost use Rattle.std.specs.Prelude.{◌≡◌, ◌↔◌, IsTrue};
ghost use Rattle.js_doc.specs.Coding.{to_items, to_members};
ghost use Rattle.js_doc.specs.Equality.{same, same_tree};
ghost use Rattle.js_doc.specs.Seen.{value_of, items_seen, members_seen};

use crate::doc::Doc;
use crate::string::Text;

impl PartialEq for Doc {
    ghost use Rattle.js_doc.specs.Equality.{same, same-equivalence};
    ghost use Rattle.js_doc.specs.Seen.{value_of};
    ghost use Rattle.std.specs.Cmp.{partial_equiv_from_equiv, on_equiv};

    ghost eq = { λ a b. same (value_of a) (value_of b) };

    ghost laws = { partial_equiv_from_equiv (on_equiv value_of same-equivalence) };

    /// Whether the values are equal. It takes no memory.
    fn eq(&self, other: &Doc) -> bool
        ensures value { result ≡ same (value_of self.now) (value_of other.now) }
        ensures exact { IsTrue result ↔ (value_of self.now ≡ value_of other.now) }
    {
        equal(self, other)
    }
}

impl Eq for Doc {
    ghost use Rattle.js_doc.specs.Equality.{same-equivalence};
    ghost use Rattle.js_doc.specs.Seen.{value_of};
    ghost use Rattle.std.specs.Cmp.{on_equiv};

    ghost laws = { on_equiv value_of same-equivalence };
}

#[cycle(equal)]
fn equal(a: &Doc, b: &Doc) -> bool
    ensures { result ≡ same (value_of a.now) (value_of b.now) }
{
    match (a, b) {
        (Doc::Null, Doc::Null) => true,
        (Doc::Truth(x), Doc::Truth(y)) => x == y,
        (Doc::Whole(x), Doc::Whole(y)) => x.value() == y.value(),
        (Doc::Text(x), Doc::Text(y)) => x.as_str() == y.as_str(),
        (Doc::List(x), Doc::List(y)) => equal_items(x.items.as_slice(), y.items.as_slice()),
        (Doc::Members(x), Doc::Members(y)) => {
            equal_entries(x.entries.as_slice(), y.entries.as_slice())
        }
        _ => false,
    }
}

#[cycle(equal)]
fn equal_items(a: &[Doc], b: &[Doc]) -> bool
    ensures { result ≡ same_tree (to_items (items_seen a.now)) (to_items (items_seen b.now)) }
{
    if a.len() != b.len() {
        return false;
    }
    for i in 0..a.len() {
        if !equal(&a[i], &b[i]) {
            return false;
        }
    }
    true
}

#[cycle(equal)]
fn equal_entries(a: &[(Text, Doc)], b: &[(Text, Doc)]) -> bool
    ensures { result ≡ same_tree (to_members (members_seen a.now)) (to_members (members_seen b.now)) }
{
    if a.len() != b.len() {
        return false;
    }
    for i in 0..a.len() {
        let (name, x) = &a[i];
        let (other_name, y) = &b[i];
        if name != other_name {
            return false;
        }
        if !equal(x, y) {
            return false;
        }
    }
    true
}

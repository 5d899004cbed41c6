//! A total order of values, for sorting and for searching.
ghost use Rattle.std.specs.Prelude.{◌≡◌, ◌≢◌};
ghost use Rattle.js_doc.specs.Coding.{to_text, to_items, to_members};
ghost use Rattle.js_doc.specs.Order.{order, tree_order};
ghost use Rattle.js_doc.specs.Seen.{value_of, items_seen, members_seen};
ghost use Rattle.js_doc.specs.Value.{whole};
ghost use Rattle.js_doc.specs.code.Kinds.{kind_rank};

use crate::doc::Doc;
use crate::string::Text;
use std::cmp::Ordering;

impl Ord for Doc {
    ghost use Rattle.std.specs.Prelude.{refl};
    ghost use Rattle.std.specs.Cmp.{on_total};
    ghost use Rattle.std.specs.Ordering.{on};
    ghost use Rattle.js_doc.specs.Order.{order, order-total, order-ties};
    ghost use Rattle.js_doc.specs.Seen.{value_of};

    ghost cmp = { on value_of order };

    ghost total = { on_total value_of order-total };

    ghost matches_partial_cmp = { λ a b. refl };

    ghost matches_eq = { λ a b. order-ties (value_of a) (value_of b) };

    /// The order of the values: equal exactly where they are. It takes no memory.
    fn cmp(&self, other: &Doc) -> Ordering {
        compare(self, other)
    }
}

impl PartialOrd for Doc {
    ghost use Rattle.std.specs.Cmp.{po, on_total};
    ghost use Rattle.std.specs.Ordering.{as_partial_cmp, on};
    ghost use Rattle.js_doc.specs.Order.{order, order-total, order-ties};
    ghost use Rattle.js_doc.specs.Seen.{value_of};

    ghost partial_cmp = { as_partial_cmp (on value_of order) };

    ghost laws = { po (on_total value_of order-total) (λ a b. order-ties (value_of a) (value_of b)) };

    fn partial_cmp(&self, other: &Doc) -> Option<Ordering> {
        Some(compare(self, other))
    }
}

#[cycle(compare)]
fn compare(a: &Doc, b: &Doc) -> Ordering
    ensures { result ≡ order (value_of a.now) (value_of b.now) }
{
    match (a, b) {
        (Doc::Null, Doc::Null) => Ordering::Equal,
        (Doc::Truth(x), Doc::Truth(y)) => x.cmp(y),
        (Doc::Whole(x), Doc::Whole(y)) => compare_numbers(x.value(), y.value()),
        (Doc::Text(x), Doc::Text(y)) => compare_texts(x.as_str(), y.as_str()),
        (Doc::List(x), Doc::List(y)) => compare_items(x.items.as_slice(), y.items.as_slice()),
        (Doc::Members(x), Doc::Members(y)) => {
            compare_entries(x.entries.as_slice(), y.entries.as_slice())
        }
        _ => compare_kinds(a, b),
    }
}

#[tactic(auto, using(crate::proofs::KindsOrdered::kinds_ordered))]
fn compare_kinds(a: &Doc, b: &Doc) -> Ordering
    requires { kind_rank (value_of a.now) ≢ kind_rank (value_of b.now) }
    ensures { result ≡ order (value_of a.now) (value_of b.now) }
{
    rank_of(a).cmp(&rank_of(b))
}

fn rank_of(doc: &Doc) -> u8
    ensures { result ≡ kind_rank (value_of doc.now) }
{
    match doc {
        Doc::Null => 0,
        Doc::Truth(_) => 1,
        Doc::Text(_) => 2,
        Doc::Whole(_) => 3,
        Doc::List(_) => 4,
        Doc::Members(_) => 5,
    }
}

// The numbers from 0 up come first, then those from -1 down.
fn compare_numbers(x: i128, y: i128) -> Ordering
    ensures { result ≡ order (whole x) (whole y) }
{
    if x < 0 {
        if y < 0 { y.cmp(&x) } else { Ordering::Greater }
    } else if y < 0 {
        Ordering::Less
    } else {
        x.cmp(&y)
    }
}

fn compare_texts(x: &str, y: &str) -> Ordering
    ensures { result ≡ tree_order (to_text x.now) (to_text y.now) }
{
    x.cmp(y)
}

#[cycle(compare)]
fn compare_items(a: &[Doc], b: &[Doc]) -> Ordering
    ensures { result ≡ tree_order (to_items (items_seen a.now)) (to_items (items_seen b.now)) }
{
    for i in 0..a.len().min(b.len()) {
        let order = compare(&a[i], &b[i]);
        if order.is_ne() {
            return order;
        }
    }
    a.len().cmp(&b.len())
}

#[cycle(compare)]
fn compare_entries(a: &[(Text, Doc)], b: &[(Text, Doc)]) -> Ordering
    ensures { result ≡ tree_order (to_members (members_seen a.now)) (to_members (members_seen b.now)) }
{
    for i in 0..a.len().min(b.len()) {
        let (name, x) = &a[i];
        let (other_name, y) = &b[i];
        let by_name = compare_texts(name.as_str(), other_name.as_str());
        if by_name.is_ne() {
            return by_name;
        }
        let by_value = compare(x, y);
        if by_value.is_ne() {
            return by_value;
        }
    }
    a.len().cmp(&b.len())
}

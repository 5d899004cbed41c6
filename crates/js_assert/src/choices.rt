//! The values that `enum` lists (JSON Schema Validation, section 6.1.2), kept for a binary search.
ghost use Rattle.std.specs.Prelude.{◌≡◌, IfOk, map};
ghost use Rattle.js_assert.specs.code.Choices.{is_among, value_in, IsIndex};
ghost use Rattle.js_doc.specs.Order.{order};
ghost use Rattle.js_doc.specs.Seen.{value_of};

use js_doc::{Doc, Memory};
use std::alloc::Global;
use std::cmp::Ordering;
use std::marker::Model;

/// Values as they were given, with their places in ascending order of the values.
#[derive(Drop)]
pub(crate) struct Choices {
    docs: Vec<Doc>,
    places: Vec<usize>,
}

impl Model for Choices {
    ghost use Rattle.js_doc.specs.Coding.{values_code};
    ghost use Rattle.js_doc.specs.Value.{Values};

    ghost Value = { Values };

    ghost coded = { values_code };

    ghost use Rattle.std.specs.Prelude.{map};
    ghost use Rattle.js_doc.specs.Seen.{value_of};
    ghost use Rattle.js_assert.specs.code.Choices.{IsIndex};

    ghost view = { λ c. map value_of c.docs.items };

    ghost invariant = { λ c. IsIndex c.docs.items c.places.items };
}

impl Choices {
    /// The values of a vector.
    ///
    /// # Errors
    /// `Memory`.
    pub(crate) fn new(alloc: Global, docs: Vec<Doc>) -> Result<Choices, Memory>
        ensures { IfOk result (λ c. c ≡ map value_of docs.items) }
    {
        let places = places_in_order(alloc, docs.as_slice())?;
        Ok(Choices { docs, places })
    }

    /// Whether the value is one of them.
    pub(crate) fn contains(&self, value: &Doc) -> bool
        ensures { result ≡ is_among (value_of value.now) self.now }
    {
        let docs = self.docs.as_slice();
        self.places
            .binary_search_by(|place| compare_with(docs, *place, value))
            .is_ok()
    }
}

fn places_in_order(alloc: Global, docs: &[Doc]) -> Result<Vec<usize>, Memory>
    ensures { IfOk result (λ places. IsIndex docs.now places.items) }
{
    let mut places = Vec::with_capacity(alloc, docs.len())?;
    for i in 0..docs.len() {
        places.push_reserved(i);
    }
    places.sort_unstable_by(|i, j| compare_places(docs, *i, *j));
    Ok(places)
}

// A place past the end counts as null: a search may ask at any number.
fn compare_with(docs: &[Doc], place: usize, value: &Doc) -> Ordering
    ensures { result ≡ order (value_in docs.now place) (value_of value.now) }
{
    match docs.get(place) {
        Some(here) => here.cmp(value),
        None => Doc::Null.cmp(value),
    }
}

fn compare_places(docs: &[Doc], i: usize, j: usize) -> Ordering
    ensures { result ≡ order (value_in docs.now i) (value_in docs.now j) }
{
    match docs.get(j) {
        Some(there) => compare_with(docs, i, there),
        None => compare_with(docs, i, &Doc::Null),
    }
}

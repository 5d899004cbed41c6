//! A list of numbers that only contracts see.
ghost use Rattle.std.specs.Prelude.{◌≡◌, ◌++◌, ◌-◌, ◌∷◌, [], List, ℕ, decimal, length, take};
ghost use Rattle.std.specs.Borrow.{ftrue};
ghost use Rattle.js_doc.specs.Pointer.{escape};

use js_bundle::Place;
use std::marker::Model;
use std::snapshot::Snapshot;

/// A list of numbers that only contracts see. It takes no memory, and compiled code does nothing with it.
#[derive(Drop)]
pub(crate) struct Unseen {
    pub ghost items: { List ℕ },
}

impl Model for Unseen {
    ghost also_owns = { λ _. ftrue };
}

impl Unseen {
    /// An empty list.
    pub(crate) fn new() -> Unseen
        ensures { result.items ≡ [] }
    {
        Unseen {}
    }

    /// The list with a place's number at its end.
    #[inline(always)]
    pub(crate) fn with_place(&self, _place: &Place) -> Unseen
        ensures { result.items ≡ self.now.items ++ _place.now ∷ [] }
    {
        Unseen {}
    }

    /// The list with `/` and a token of a pointer at its end.
    #[inline(always)]
    pub(crate) fn with_name(&self, _token: &str) -> Unseen
        ensures { result.items ≡ self.now.items ++ 47 ∷ escape _token.now }
    {
        Unseen {}
    }

    /// The list with `/` and an index, as a token of a pointer, at its end.
    #[inline(always)]
    pub(crate) fn with_index(&self, _index: usize) -> Unseen
        ensures { result.items ≡ self.now.items ++ 47 ∷ escape (decimal _index) }
    {
        Unseen {}
    }

    /// The first numbers of the list: as many as there are in the mark.
    #[inline(always)]
    pub(crate) fn until(&self, _mark: &Snapshot<Unseen>) -> Unseen
        ensures { result.items ≡ take (length _mark.now.value.items) self.now.items }
    {
        Unseen {}
    }

    /// The list without its last number.
    #[inline(always)]
    pub(crate) fn without_last(&self) -> Unseen
        ensures { result.items ≡ take (length self.now.items - 1) self.now.items }
    {
        Unseen {}
    }
}

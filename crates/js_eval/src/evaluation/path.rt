//! The places of the schemas that a walk is applying.
ghost use Rattle.std.specs.Prelude.{◌≡◌, ◌++◌, ◌∷◌, [], List, ℕ};

use crate::evaluation::unseen::Unseen;
use js_bundle::Place;
use std::marker::Model;

/// The places of the schemas being applied, each nested in the one before. Only contracts see them: compiled code uses
/// the walk's dynamic scope instead.
#[derive(Drop)]
pub(crate) struct Path {
    places: Unseen,
}

/// The dynamic scope of a keyword (Core, section 7.1).
#[derive(Clone, Copy)]
pub(crate) struct ScopedPath<'p> {
    /// The places of the schemas being applied, from the root's to that of the keyword's schema.
    pub(crate) path: &'p Path,
    /// The numbers of their schema resources, without consecutive repeats.
    pub(crate) resources: &'p [usize],
}

impl Model for Path {
    ghost use Rattle.std.specs.Prelude.{List, ℕ};

    ghost Value = { List ℕ };

    ghost view = { λ p. p.places.items };
}

impl Path {
    /// An empty path.
    pub(crate) fn new() -> Path
        ensures { result ≡ [] }
    {
        Path {
            places: Unseen::new(),
        }
    }

    /// Enters a place.
    #[inline(always)]
    pub(crate) fn push(&mut self, place: Place)
        ensures { self.new ≡ self.old ++ place ∷ [] }
    {
        self.places = self.places.with_place(&place);
    }

    /// Leaves the last place.
    #[inline(always)]
    pub(crate) fn leave_place(&mut self)
        ensures { (base : List ℕ) (last : ℕ) → self.old ≡ base ++ last ∷ [] → self.new ≡ base }
    {
        self.places = self.places.without_last();
    }
}

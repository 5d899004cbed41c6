//! What the keywords of a place hold, by rank.
ghost use Rattle.std.specs.Prelude.{◌≡◌, ℕ, true, slice_get, option_map, option_and_then, MatchOption, Some};
ghost use Rattle.js_doc.specs.Seen.{value_of};
ghost use Rattle.js_keyword.specs.Keyword.{which_keyword};
ghost use Rattle.js_bundle.specs.Ranked.{HoldsAtRank};
ghost use Rattle.js_bundle.specs.PlaceNumber.{is_place, place_at};
ghost use Rattle.js_bundle.specs.Schemas.{below, step_of, Finds};

use crate::finished::place_below::places_under;
use crate::place::{Place, Step};
use crate::schemas::Schemas;
use js_doc::Doc;
use js_keyword::Keyword;

impl Schemas {
    /// The place to which a step leads through a keyword of the place, where it is known what the keyword holds there.
    /// `which`: which keyword of the standard it is. `rank`: how many schemas the keyword holds before this one. In a
    /// list this is the index, in an object the number of names before it.
    pub fn ranked_below(
        &self,
        place: Place,
        _schema: &Doc,
        which: Keyword,
        _keyword: &str,
        _step: Step<'_>,
        rank: usize,
        _held: &Doc,
    ) -> Option<Place>
        requires place { is_place self.now place ≡ true }
        requires schema { option_map (λ s. s.schema) (place_at self.now place) ≡ Some (value_of _schema.now) }
        requires which { which ≡ which_keyword _keyword.now }
        requires held { HoldsAtRank (value_of _schema.now) _keyword.now (step_of _step) rank (value_of _held.now) }
        ensures found { Finds self.now result
            (option_and_then (λ s. below self.now s _keyword.now (step_of _step.entry)) (place_at self.now place)) }
        ensures schema { MatchOption result (Unit {0})
            (λ n. option_map (λ s. s.schema) (place_at self.now n) ≡ Some (value_of _held.now)) }
    {
        let edges = self.checked.edges.as_slice();
        with_rank(places_under(edges, place.number, which), rank)
    }
}

fn with_rank(places: &[usize], rank: usize) -> Option<Place>
    ensures { (n : ℕ) → slice_get places.now rank ≡ Some n → result ≡ Some n }
{
    match places.get(rank) {
        Some(number) => Some(Place { number: *number }),
        None => None,
    }
}

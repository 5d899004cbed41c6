//! What the keywords of a place hold.
ghost use Rattle.std.specs.Prelude.{◌≡◌, [], true, false, ℕ, map, slice_get, option_map, option_and_then, MatchOption};
ghost use Rattle.std.specs.Prelude.{Some};
ghost use Rattle.std.specs.Option.{option_map_or};
ghost use Rattle.js_doc.specs.Seen.{value_of};
ghost use Rattle.js_bundle.specs.code.Edges.{edges_of, held_of};
ghost use Rattle.js_bundle.specs.code.PlaceBelow.{held_in, holds_at_step, value_at_step};
ghost use Rattle.js_bundle.specs.code.PlaceBelow.{numbers_of_keyword, stands_before, IsNumberAt, IsRankOf, IsSmall};
ghost use Rattle.js_keyword.specs.Keyword.{which_keyword};
ghost use Rattle.js_bundle.specs.Place.{holding, items_in};
ghost use Rattle.js_bundle.specs.PlaceNumber.{is_place, place_at};
ghost use Rattle.js_bundle.specs.Schemas.{below, fits, step_of, Finds, FindsSchema, Holds};
ghost use Rattle.js_bundle.specs.code.CheckedSite.{checked_site_of};

use crate::check::checked_site::CheckedSite;
use crate::index::edges::{Edges, HeldPlaces};
use crate::keyword::argument;
use crate::place::{Place, Step};
use crate::scan::holding::holding_of;
use crate::schemas::Schemas;
use js_doc::Doc;
use js_keyword::{Holding, Keyword};

impl Schemas {
    ghost use Rattle.js_doc.specs.Value.{Value};
    ghost use Rattle.js_bundle.specs.Resource.{Site};

    /// The place to which a step leads through a keyword of the place: `Alone` where the keyword holds one schema,
    /// `Index` where it holds a list of them, `Name` where it holds an object of them (JSON Schema Core, sections
    /// 8.2.4, 10 and 11). None where no place stands there, or the step isn't of the keyword's kind; so never where the
    /// keyword holds a schema at the step.
    pub fn below(&self, place: Place, keyword: &str, step: Step<'_>) -> Option<Place>
        requires { is_place self.now place ≡ true }
        ensures found { Finds self.now result
            (option_and_then (λ s. below self.now s keyword.now (step_of step.entry)) (place_at self.now place)) }
        ensures held { (s : Site) (u : Value) → place_at self.now place ≡ Some s
            → Holds s.schema keyword.now (step_of step.entry) u → FindsSchema self.now result u }
    {
        match self.schema_below(place, self.schema(place), keyword, step) {
            Some((below, _)) => Some(below),
            None => None,
        }
    }

    /// The same place, and the schema that stands there. `schema` is that of the place itself: the other is found in it
    /// by the keyword and the step, where a call of `schema` would start at the document's root.
    pub fn schema_below<'a>(
        &'a self,
        place: Place,
        schema: &'a Doc,
        keyword: &str,
        step: Step<'_>,
    ) -> Option<(Place, &'a Doc)>
        requires place { is_place self.now place ≡ true }
        requires schema { option_map (λ s. s.schema) (place_at self.now place) ≡ Some (value_of schema.now) }
        ensures found { Finds self.now (option_map (λ e. e.0) result)
            (option_and_then (λ s. below self.now s keyword.now (step_of step.entry)) (place_at self.now place)) }
        ensures schema { MatchOption result (Unit {0})
            (λ e. option_map (λ s. s.schema) (place_at self.now e.0) ≡ Some (value_of e.1.now)) }
        ensures held { (s : Site) (u : Value) → place_at self.now place ≡ Some s
            → Holds s.schema keyword.now (step_of step.entry) u
            → FindsSchema self.now (option_map (λ e. e.0) result) u }
    {
        let edges = self.checked.edges.as_slice();
        let places = places_under(edges, place.number, Keyword::of(keyword));
        match held_by(schema, keyword, step) {
            Some(held) => place_with(self.checked.sites.as_slice(), places, step, held),
            None => None,
        }
    }
}

// The one of these places to which the step leads, with the schema that is held there.
fn place_with<'a>(
    sites: &[CheckedSite],
    places: &[usize],
    step: Step<'_>,
    held: &'a Doc,
) -> Option<(Place, &'a Doc)>
    ensures found { (n : ℕ) → IsNumberAt (map checked_site_of sites.now) places.now (step_of step.entry) n
        → option_map (λ e. e.0) result ≡ Some n }
    ensures schema { MatchOption result (Unit {0}) (λ e. value_of e.1.now ≡ value_of held.now) }
{
    match at_rank(places, rank_in(sites, places, step)) {
        Some(number) => Some((Place { number }, held)),
        None => None,
    }
}

// The schema that the keyword of a schema holds at the step.
fn held_by<'a>(schema: &'a Doc, keyword: &str, step: Step<'_>) -> Option<&'a Doc>
    ensures held { MatchOption result (holds_at_step keyword.now (step_of step.entry) (value_of schema.now) ≡ false)
        (λ d. (fits (holding keyword.now) (step_of step.entry) ≡ true)
        × (held_in keyword.now (step_of step.entry) (value_of schema.now) ≡ Some (value_of d.now))) }
    ensures small { IsSmall (step_of step.entry) }
{
    if fits(holding_of(keyword), step) {
        value_held(schema, keyword, step)
    } else {
        None
    }
}

// What stands in the keyword's argument at the step, whether or not the keyword holds schemas so.
fn value_held<'a>(schema: &'a Doc, keyword: &str, step: Step<'_>) -> Option<&'a Doc>
    ensures { option_map (λ d. value_of d.now) result ≡ held_in keyword.now (step_of step.entry) (value_of schema.now) }
{
    match argument(schema, keyword) {
        Some(argument) => value_at_step(argument, step),
        None => None,
    }
}

fn value_at_step<'a>(value: &'a Doc, step: Step<'_>) -> Option<&'a Doc>
    ensures { option_map (λ d. value_of d.now) result ≡ value_at_step (step_of step.entry) (value_of value.now) }
{
    match step {
        Step::Alone => Some(value),
        Step::Index(index) => item_in_list(value, index),
        Step::Name(name) => argument(value, name),
    }
}

fn item_in_list(list: &Doc, index: usize) -> Option<&Doc>
    ensures { option_map (λ d. value_of d.now) result ≡ slice_get (items_in (value_of list.now)) index }
{
    match list {
        Doc::List(items) => items.as_slice().get(index),
        _ => None,
    }
}

// Whether a keyword holds schemas so.
fn fits(holding: Holding, step: Step<'_>) -> bool
    ensures fits { result ≡ fits holding (step_of step.entry) }
    ensures small { IsSmall (step_of step.entry) }
{
    match step {
        Step::Alone => matches!(holding, Holding::One),
        Step::Index(_) => matches!(holding, Holding::Listed),
        Step::Name(_) => matches!(holding, Holding::Named),
    }
}

/// The places that the keyword of the place with this number holds.
pub(crate) fn places_under(edges: &[Edges], number: usize, keyword: Keyword) -> &[usize]
    ensures { result.now ≡ option_map_or (numbers_of_keyword keyword) (slice_get (map edges_of edges.now) number) [] }
{
    match edges.get(number) {
        Some(edges) => numbers_of_keyword(edges.keywords.as_slice(), keyword),
        None => &[],
    }
}

fn numbers_of_keyword(keywords: &[HeldPlaces], keyword: Keyword) -> &[usize]
    ensures { result.now ≡ numbers_of_keyword keyword (map held_of keywords.now) }
{
    for held in keywords {
        if held.keyword == keyword {
            return held.places.as_slice();
        }
    }
    &[]
}

fn at_rank(places: &[usize], rank: usize) -> Option<usize>
    ensures { (n : ℕ) → slice_get places.now rank ≡ Some n → result ≡ Some n }
{
    places.get(rank).copied()
}

// The rank of the place to which the step leads, among these that a keyword holds.
fn rank_in(sites: &[CheckedSite], places: &[usize], step: Step<'_>) -> usize
    ensures { (n : ℕ) → IsNumberAt (map checked_site_of sites.now) places.now (step_of step.entry) n
        → slice_get places.now result ≡ Some n }
{
    match step {
        Step::Alone => 0,
        Step::Index(index) => index,
        Step::Name(name) => rank_by_name(sites, places, name),
    }
}

// How many of the places stand at names that come before this one. Their names ascend.
fn rank_by_name(sites: &[CheckedSite], places: &[usize], name: &str) -> usize
    ensures { (n : ℕ) → IsRankOf (map checked_site_of sites.now) name.now places.now n → result ≡ n }
{
    places.partition_point(|number| stands_before(sites, *number, name))
}

fn stands_before(sites: &[CheckedSite], number: usize, name: &str) -> bool
    ensures { result ≡ stands_before (map checked_site_of sites.now) name.now number }
{
    let Some(site) = sites.get(number) else {
        return false;
    };
    match site.pointer.tokens().last() {
        Some(token) => token.as_str() < name,
        None => false,
    }
}

//! What dynamic references lead to (JSON Schema Core, sections 7.1 and 8.2.3.2).
ghost use Rattle.std.specs.Prelude.{◌≡◌, true, codes, nat_eq, slice_get, option_and_then, option_copied};
ghost use Rattle.indexmap.specs.IndexMap.{get};
ghost use Rattle.js_bundle.specs.Finding.{scope_name, IsFirstTarget};
ghost use Rattle.js_bundle.specs.code.Index.{number_of_key};
ghost use Rattle.js_bundle.specs.Resource.{sites};
ghost use Rattle.js_bundle.specs.ResourceNumber.{dynamic_ref_target_in, roots, roots_at};
ghost use Rattle.js_bundle.specs.PlaceNumber.{is_place, place_at, path_at};
ghost use Rattle.js_bundle.specs.Schemas.{has_keyword, StandsFor, Finds};
ghost use Rattle.js_bundle.specs.Target.{dynamic_anchor, dynamic_ref_target, outermost};

use crate::check::references::DynamicReference;
use crate::index::numbering::Numbering;
use crate::keyword::text_argument;
use crate::place::Place;
use crate::schemas::Schemas;
use indexmap::IndexMap;
use js_keyword::OtherKeyword;

// The place that a dynamic reference names, and the name by which it leads to another one in a dynamic scope.
#[derive(Clone, Copy)]
struct FirstTarget<'s> {
    place: Place,
    name: Option<&'s str>,
}

impl Schemas {
    /// The place that the `$dynamicRef` of the place names in a dynamic scope (JSON Schema Core, section 8.2.3.2):
    /// `path` has all the places that were applied, from the entry to this one, both included. Where the reference goes
    /// by a name that `$dynamicAnchor` makes, the first place of the path whose resource has that name by
    /// `$dynamicAnchor` decides. The place must have a `$dynamicRef`: ask `has_dynamic_ref`. It takes no memory.
    pub fn dynamic_target(&self, place: Place, path: &[Place]) -> Place
        requires { has_keyword (codes "$dynamicRef") self.now place ≡ true }
        ensures { StandsFor self.now result (option_and_then
            (dynamic_ref_target (sites self.now) (path_at self.now path.now)) (place_at self.now place)) }
    {
        let first = self.find_first_target(place);
        match first.name {
            Some(name) => self.outermost(name, path).unwrap_or(first.place),
            None => first.place,
        }
    }

    /// The same in a dynamic scope given by the numbers of its resources, from the entry's to the place's: the first of
    /// these that has the name decides. A path and the numbers of its resources, repeated neighbours left out, lead to
    /// the same place (the law `numbers_determine_the_dynamic_scope`). It takes no memory.
    pub fn dynamic_target_in(&self, place: Place, resources: &[usize]) -> Place
        requires { has_keyword (codes "$dynamicRef") self.now place ≡ true }
        ensures { StandsFor self.now result (option_and_then
            (dynamic_ref_target_in (sites self.now) resources.now) (place_at self.now place)) }
    {
        let first = self.find_first_target(place);
        match first.name {
            Some(name) => self.outermost_in(name, resources).unwrap_or(first.place),
            None => first.place,
        }
    }

    // What the `$dynamicRef` of the place leads to in each dynamic scope.
    fn find_first_target(&self, place: Place) -> FirstTarget<'_>
        requires { has_keyword (codes "$dynamicRef") self.now place ≡ true }
        ensures { IsFirstTarget self.now place result.place (option_copied result.name) }
    {
        match reference_under(&self.checked.references.dynamic, place.number) {
            Some(reference) => FirstTarget {
                place: Place {
                    number: reference.target,
                },
                name: self.scope_name(reference),
            },
            // never: each reference of finished schemas has its target
            None => FirstTarget { place, name: None },
        }
    }

    // The name that a reference looks for in a dynamic scope, if it goes by one.
    fn scope_name(&self, reference: DynamicReference) -> Option<&str>
        requires { is_place self.now reference.target ≡ true }
        ensures { option_copied result
            ≡ option_and_then (scope_name reference.by_name) (place_at self.now reference.target) }
    {
        let first = Place {
            number: reference.target,
        };
        if reference.by_name {
            text_argument(self.schema(first), OtherKeyword::DynamicAnchor.name())
        } else {
            None
        }
    }

    // The place with this name in the first resource of the path that has one.
    fn outermost(&self, name: &str, path: &[Place]) -> Option<Place>
        ensures { Finds self.now result (outermost (sites self.now) name.now (path_at self.now path.now)) }
    {
        for place in path {
            if let Some(found) = self.dynamic_anchor(name, *place) {
                return Some(found);
            }
        }
        None
    }

    // The same for resources by their numbers.
    fn outermost_in(&self, name: &str, resources: &[usize]) -> Option<Place>
        ensures { Finds self.now result
            (outermost (sites self.now) name.now (roots_at (sites self.now) resources.now)) }
    {
        for resource in resources {
            if let Some(found) = self.anchor_in(name, *resource) {
                return Some(found);
            }
        }
        None
    }

    // The place to which `$dynamicAnchor` gives the name, in the resource of a place.
    fn dynamic_anchor(&self, name: &str, place: Place) -> Option<Place>
        ensures { Finds self.now result
            (option_and_then (dynamic_anchor (sites self.now) name.now) (place_at self.now place)) }
    {
        if !self.has(place) {
            return None;
        }
        self.anchor_in(name, self.resource_number(place))
    }

    // The same in the resource with the number.
    fn anchor_in(&self, name: &str, resource: usize) -> Option<Place>
        ensures { Finds self.now result
            (option_and_then (dynamic_anchor (sites self.now) name.now) (slice_get (roots (sites self.now)) resource)) }
    {
        match anchored(self.checked.resources.anchors.as_slice(), resource, name) {
            Some(number) => Some(Place { number }),
            None => None,
        }
    }
}

// The number that is kept under a name, in the resource with the number.
fn anchored(anchors: &[Numbering], resource: usize, name: &str) -> Option<usize>
    ensures { result ≡ option_and_then (λ names. number_of_key names name.now) (slice_get anchors.now resource) }
{
    match anchors.get(resource) {
        Some(names) => names.number_of(name),
        None => None,
    }
}

/// The reference that is kept under a place's number.
pub(crate) fn reference_under(
    references: &IndexMap<usize, DynamicReference>,
    place: usize,
) -> Option<DynamicReference>
    ensures { result ≡ get nat_eq references.now place }
{
    references.get(&place).copied()
}

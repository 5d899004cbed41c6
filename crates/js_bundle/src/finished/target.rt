//! What references lead to (JSON Schema Core, section 8.2.3).
ghost use Rattle.std.specs.Prelude.{◌≡◌, true, codes, option_and_then};
ghost use Rattle.js_bundle.specs.code.PlaceNumbers.{under_number};
ghost use Rattle.js_bundle.specs.Resource.{sites};
ghost use Rattle.js_bundle.specs.Schemas.{has_keyword, StandsFor};
ghost use Rattle.js_bundle.specs.PlaceNumber.{place_at};
ghost use Rattle.js_bundle.specs.Target.{ref_target};

use crate::place::Place;
use crate::schemas::Schemas;

impl Schemas {
    /// The place that the `$ref` of the place names (JSON Schema Core, section 8.2.3.1). The place must have one: ask
    /// `has_ref`. It takes no memory.
    pub fn target(&self, place: Place) -> Place
        requires { has_keyword (codes "$ref") self.now place ≡ true }
        ensures { StandsFor self.now result
            (option_and_then (ref_target (sites self.now)) (place_at self.now place)) }
    {
        match target_under(self.checked.references.plain.as_slice(), place.number) {
            Some(number) => Place { number },
            None => place, // never: each reference of finished schemas has its target
        }
    }
}

/// The target that is kept under a place's number.
pub(crate) fn target_under(targets: &[Option<usize>], place: usize) -> Option<usize>
    ensures { result ≡ under_number targets.now place }
{
    match targets.get(place) {
        Some(target) => *target,
        None => None,
    }
}

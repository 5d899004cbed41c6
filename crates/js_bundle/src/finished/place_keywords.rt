//! What a place has by its keywords.
ghost use Rattle.std.specs.Prelude.{◌≡◌, ◌∷◌, [], Some, true, codes, find, bytes_eq, option_map, option_and_then};
ghost use Rattle.std.specs.Ordering.{is_lt};
ghost use Rattle.js_keyword.specs.AssertionKeyword.{name_of};
ghost use Rattle.js_bundle.specs.AssertionsAndPatterns.{assertions_at, patterns_at};
ghost use Rattle.js_doc.specs.Members.{name_cmp};
ghost use Rattle.js_bundle.specs.MemberKeywords.{member_keywords};
ghost use Rattle.js_bundle.specs.PlaceNumber.{is_place, place_at};
ghost use Rattle.js_bundle.specs.Schemas.{has_keyword, assertion, pattern};
ghost use Rattle.js_bundle.specs.Seen.{AreRead};
ghost use Rattle.js_bundle.specs.code.Patterns.{AreInOrder};

use crate::check::assertions_and_patterns::BuiltPattern;
use crate::finished::dynamic_target::reference_under;
use crate::finished::target::target_under;
use crate::index::parts_by_place::part_of_place;
use crate::place::Place;
use crate::schemas::Schemas;
use js_assert::{Assertion, Pattern};
use js_keyword::Keyword;

impl Schemas {
    /// The assertion that the keyword is at the place. None if the place doesn't have the keyword, or the keyword is no
    /// assertion (JSON Schema Validation, section 6).
    pub fn assertion(&self, place: Place, keyword: &str) -> Option<&Assertion>
        requires { is_place self.now place ≡ true }
        ensures { option_map (λ a. a.now) result ≡ option_and_then (assertion keyword.now) (place_at self.now place) }
    {
        find_assertion(self.assertions(place), keyword)
    }

    /// The pattern of this name among the `patternProperties` of the place. None where there is none (JSON Schema Core,
    /// section 10.3.2.2).
    pub fn pattern(&self, place: Place, name: &str) -> Option<&Pattern>
        requires { is_place self.now place ≡ true }
        ensures { option_map (λ p. p.now) result ≡ option_and_then (pattern name.now) (place_at self.now place) }
    {
        match find_pattern(self.patterns_of_place(place), name) {
            Some(built) => Some(&built.pattern),
            None => None,
        }
    }

    /// The assertions that the keywords of the place make, in the order of the keywords' names (JSON Schema Validation,
    /// section 6).
    pub fn assertions(&self, place: Place) -> &[Assertion]
        requires { is_place self.now place ≡ true }
        ensures { option_map assertions_at (place_at self.now place) ≡ Some result.now }
    {
        let built = &self.checked.built;
        part_of_place(
            built.all.assertions.as_slice(),
            built.assertion_ends.as_slice(),
            place.number,
        )
    }

    /// Which keyword of the standard each of the place's keywords is, in the order of the schema's members: by name
    /// ascending. A schema that is `true` or `false` has none.
    pub fn keyword_names(&self, place: Place) -> &[Keyword]
        requires { is_place self.now place ≡ true }
        ensures { option_map member_keywords (place_at self.now place) ≡ Some result.now }
    {
        let table = &self.checked.keywords;
        part_of_place(table.names.as_slice(), table.ends.as_slice(), place.number)
    }

    fn patterns_of_place(&self, place: Place) -> &[BuiltPattern]
        requires { is_place self.now place ≡ true }
        ensures patterns { option_map patterns_at (place_at self.now place) ≡ Some result.now }
        ensures read { AreRead self.now }
    {
        let built = &self.checked.built;
        part_of_place(
            built.all.patterns.as_slice(),
            built.pattern_ends.as_slice(),
            place.number,
        )
    }

    /// Whether the place has a `$ref` (JSON Schema Core, section 8.2.3.1).
    pub fn has_ref(&self, place: Place) -> bool
        requires { is_place self.now place ≡ true }
        ensures { result ≡ has_keyword (codes "$ref") self.now place }
    {
        target_under(self.checked.references.plain.as_slice(), place.number).is_some()
    }

    /// Whether the place has a `$dynamicRef` (JSON Schema Core, section 8.2.3.2).
    pub fn has_dynamic_ref(&self, place: Place) -> bool
        requires { is_place self.now place ≡ true }
        ensures { result ≡ has_keyword (codes "$dynamicRef") self.now place }
    {
        reference_under(&self.checked.references.dynamic, place.number).is_some()
    }
}

fn find_assertion<'b>(built: &'b [Assertion], keyword: &str) -> Option<&'b Assertion>
    ensures { option_map (λ a. a.now) result ≡ find (λ a. bytes_eq keyword.now (name_of a.keyword)) built.now }
{
    for one in built {
        if keyword == one.keyword() {
            return Some(one);
        }
    }
    None
}

// The pattern of this name, by a binary search.
fn find_pattern<'b>(built: &'b [BuiltPattern], name: &str) -> Option<&'b BuiltPattern>
    requires { AreInOrder built.now }
    ensures { option_map (λ b. b.now) result ≡ find (λ b. bytes_eq name.now b.name) built.now }
{
    let rank = built.partition_point(|one| comes_before(one, name));
    match built.get(rank) {
        Some(one) => if_named(one, name),
        None => None,
    }
}

fn if_named<'b>(one: &'b BuiltPattern, name: &str) -> Option<&'b BuiltPattern>
    ensures { option_map (λ b. b.now) result ≡ find (λ b. bytes_eq name.now b.name) (one.now ∷ []) }
{
    if name == one.name.as_str() {
        Some(one)
    } else {
        None
    }
}

fn comes_before(one: &BuiltPattern, name: &str) -> bool
    ensures { result ≡ is_lt (name_cmp one.now.name name.now) }
{
    one.name.as_str() < name
}

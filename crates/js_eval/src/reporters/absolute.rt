//! Absolute keyword locations (JSON Schema Core, section 12.3.2).
ghost use Rattle.std.specs.Prelude.{◌≡◌, ◌++◌, IfOk, None, Some, string_bytes, true};
ghost use Rattle.js_eval.specs.code.Terms.{is_place, numbered_site, schemas_of};

use js_bundle::{Place, Schemas};
use js_doc::{Memory, Text, push_fragment_token};
use std::alloc::Global;

/// The absolute keyword location of the schema at a place.
///
/// # Errors
/// `Memory` if an allocation fails.
pub(crate) fn absolute_schema(
    alloc: Global,
    schemas: &Schemas,
    place: Place,
) -> Result<Text, Memory>
    requires { is_place schemas.now place ≡ true }
    ensures { IfOk result (λ t. t ≡ (schemas_of schemas.now).absolute (numbered_site schemas.now place) None) }
{
    let (location, rest) = schemas.location_of(place);
    let whole = joined(alloc, location, rest)?;
    Ok(Text::new(whole))
}

/// The absolute keyword location of the keyword with this name at a place.
///
/// # Errors
/// `Memory` if an allocation fails.
pub(crate) fn absolute_keyword(
    alloc: Global,
    schemas: &Schemas,
    place: Place,
    keyword: &str,
) -> Result<Text, Memory>
    requires { is_place schemas.now place ≡ true }
    ensures { IfOk result (λ t. t ≡ (schemas_of schemas.now).absolute (numbered_site schemas.now place)
        (Some keyword.now)) }
{
    let (location, rest) = schemas.location_of(place);
    let mut text = joined(alloc, location, rest)?;
    push_fragment_token(&mut text, keyword)?;
    Ok(Text::new(text))
}

// A location, of its two pieces.
fn joined(alloc: Global, location: &str, rest: &str) -> Result<String, Memory>
    ensures { IfOk result (λ t. string_bytes t ≡ location.now ++ rest.now) }
{
    let mut text = String::from_str(alloc, location)?;
    text.push_str(rest)?;
    Ok(text)
}

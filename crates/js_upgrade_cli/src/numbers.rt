//! Documents whose numbers are as people write them.
ghost use Rattle.std.specs.Prelude.{◌≡◌, IfOk, option_map, unwrap_or};
ghost use Rattle.js_upgrade_cli.specs.Numbers.{exact_text};

use js_doc::Memory;
use js_numbers::{TextError, exact_schema};
use js_upgrade::Dialect;
use std::alloc::Global;

/// Which numbers the documents may have.
#[derive(Clone, Copy, Debug, Drop, PartialEq, Eq)]
pub enum Numbers {
    /// Those of the validator.
    Whole,
    /// Others too, where integers say the same of every instance.
    Exact,
}

/// The text of a document with integers where they say the same, or None where it stays as it is.
///
/// # Errors
/// `Memory`.
pub(crate) fn exact_text(
    alloc: Global,
    assumed: Dialect,
    text: &[u8],
) -> Result<Option<Vec<u8>>, Memory>
    ensures { IfOk result (λ t. unwrap_or (option_map (λ v. v.items) t) text.now ≡ exact_text assumed text.now) }
{
    match std::str::from_utf8(text) {
        Ok(json) => match exact_schema(alloc, assumed, json) {
            Ok(exact) => Ok(Some(exact)),
            Err(TextError::Memory) => Err(Memory),
            Err(TextError::NotJson) => Ok(None),
            Err(TextError::RepeatedName) => Ok(None),
        },
        Err(_) => Ok(None),
    }
}

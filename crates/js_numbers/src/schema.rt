//! Schema documents with numbers as people write them.
ghost use Rattle.std.specs.Prelude.{◌≡◌, ◌⊎◌, Some, None, IfOk, IfErr, IsSomeAnd, false, option_and_then, option_map};
ghost use Rattle.std.specs.Str.{IsUtf8};
ghost use Rattle.json.specs.Json.{document};
ghost use Rattle.json.specs.Tree.{HasNumbers};
ghost use Rattle.json.specs.Strict.{HasUniqueKeys};
ghost use Rattle.json.specs.Value.{value_view};
ghost use Rattle.js_numbers.specs.Instance.{exact_instance};
ghost use Rattle.js_numbers.specs.Names.{has_names_once};
ghost use Rattle.js_numbers.specs.Schema.{exact_root, exact_schema};
ghost use Rattle.js_numbers.specs.declared.error.TextError.TheVariants.{Memory, NotJson, RepeatedName};

use crate::error::TextError;
use crate::instance::exact_instance;
use crate::rewriting::put_rewritten;
use crate::schema_dialect::root_dialect;
use js_upgrade::{Dialect, SchemaHolding};
use json::{Scratch, Value, Writer};
use std::alloc::{AllocError, Global};

/// The document's text with integers where numbers have other forms, as far as that says the same of every instance.
/// Where its root names no dialect, the one given is assumed.
///
/// # Errors
///
/// `NotJson`: the text isn't JSON. `RepeatedName`: an object in it has a name twice. `Memory` may come at any point,
/// also for such a text.
pub fn exact_schema(alloc: Global, assumed: Dialect, text: &str) -> Result<Vec<u8>, TextError>
    ensures ok { IfOk result (λ exact. exact_schema assumed text.now ≡ Some exact.items) }
    ensures utf8 { IfOk result (λ exact. IsUtf8 exact.items) }
    ensures err { IfErr result (λ e. (e ≡ Memory)
        ⊎ ((e ≡ NotJson) × (option_and_then document (exact_instance text.now) ≡ None))
        ⊎ ((e ≡ RepeatedName)
        × IsSomeAnd (option_and_then document (exact_instance text.now)) (λ j. has_names_once j ≡ false))) }
{
    let bytes = exact_instance(alloc, text)?;
    match std::str::from_utf8(&bytes) {
        Ok(integers) => rewritten(alloc, assumed, integers),
        Err(_) => Err(TextError::NotJson),
    }
}

// The rewritten text of one whose integers are in digits.
fn rewritten(alloc: Global, assumed: Dialect, text: &str) -> Result<Vec<u8>, TextError>
    ensures ok { IfOk result (λ exact. option_map (exact_root assumed) (document text.now) ≡ Some exact.items) }
    ensures utf8 { IfOk result (λ exact. IsUtf8 exact.items) }
    ensures unique { IfOk result (λ _. IsSomeAnd (document text.now) HasUniqueKeys) }
    ensures err { IfErr result (λ e. (e ≡ Memory) ⊎ ((e ≡ NotJson) × (document text.now ≡ None))
        ⊎ ((e ≡ RepeatedName) × IsSomeAnd (document text.now) (λ j. ¬ HasUniqueKeys j))) }
{
    let mut scratch = Scratch::new(alloc);
    let root = Value::parse_strict(alloc, text, &mut scratch)?;
    Ok(root_text(alloc, assumed, &root)?)
}

fn root_text(alloc: Global, assumed: Dialect, root: &Value<'_>) -> Result<Vec<u8>, AllocError>
    requires { HasNumbers (value_view root.now) }
    ensures same { IfOk result (λ exact. exact_root assumed (value_view root.now) ≡ exact.items) }
    ensures utf8 { IfOk result (λ exact. IsUtf8 exact.items) }
{
    let mut writer = Writer::new(Vec::new(alloc));
    put_rewritten(
        &mut writer,
        SchemaHolding::One,
        root_dialect(assumed, root),
        root,
    )?;
    Ok(writer.into_inner())
}

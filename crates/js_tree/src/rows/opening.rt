//! How a node's text begins, kept from one node to the next: most nodes are of the same schema as the one before.
ghost use Rattle.std.specs.Prelude.{◌≡◌, ◌+◌, ◌-◌, ◌≤◌, ◌∷◌, [], ◌++◌, List, ℕ, drop, length, take, true, vec_capacity};
ghost use Rattle.json.specs.Print.{escape};
ghost use Rattle.js_doc.specs.BytesOut.{Puts};
ghost use Rattle.js_doc.specs.Compact.{comma_if};
ghost use Rattle.js_tree.specs.Rows.RelativeState.{part};
ghost use Rattle.js_tree.specs.code.Opening.{opening_front, schema_kept, schema_start};

use crate::rows::gathered::with_room;
use crate::rows::relative_rows::behind;
use js_doc::{Memory, Out, Stopped, stand_as_they_are};
use std::alloc::Global;

// What is kept of the empty location.
const START: &[u8] = b",{\"absoluteKeywordLocation\":\"/";
// How long that is which stands before the location.
const START_LENGTH: usize = 29;
// Longer locations aren't kept, so that nothing is allocated while rows are written.
const LONGEST_KEPT: usize = 256;

/// The text of a node up to the token of its absolute location, for the schema that was written last. Then neither are
/// its escapes looked for again, nor is it written piece by piece.
#[derive(Drop)]
pub(crate) struct Opening {
    // What stands before the schema's absolute location, that location, which has no escapes, and a slash.
    text: Vec<u8>,
    ghost shape: { text.items ≡ schema_start ++ (schema_kept text.items ++ 47 ∷ []) },
    ghost plain: { escape (schema_kept text.items) ≡ schema_kept text.items },
    ghost room: { 286 ≤ vec_capacity text },
}

impl Opening {
    /// Keeps the empty location, and reserves all memory that it will need.
    ///
    /// # Errors
    /// `Memory` if an allocation fails.
    pub fn new(alloc: Global) -> Result<Opening, Memory> {
        let text = with_room(alloc, START, LONGEST_KEPT)?;
        Ok(Opening { text })
    }

    /// Whether this location is kept now. It isn't if it has escapes or is very long.
    #[inline(always)]
    pub fn keeps_schema(&mut self, schema: &[u8]) -> bool
        ensures { result ≡ true → (schema_kept self.new.text.items ≡ schema.now) × (escape schema.now ≡ schema.now) }
    {
        if self.is_of(schema) {
            return true;
        }
        self.keep(schema)
    }

    /// Writes the stored text: with the comma before it if the node isn't the first in its list, and with the slash if
    /// there is one.
    ///
    /// # Errors
    /// `Stopped`, where `out` stops.
    pub fn put_kept<O: Out>(&self, later: bool, slash: bool, out: &mut O) -> Result<(), Stopped>
        ensures { Puts (O.progress out.old) (O.progress out.new)
            (opening_front later (schema_kept self.now.text.items) slash) result }
    {
        let text = from_comma(later, self.text.as_slice());
        out.put(to_slash(slash, text))
    }

    // Whether this location is the one that is kept.
    fn is_of(&self, schema: &[u8]) -> bool
        ensures { result ≡ true → (schema_kept self.now.text.items ≡ schema.now) × (escape schema.now ≡ schema.now) }
    {
        let location = to_slash(false, behind(self.text.as_slice(), START_LENGTH));
        location == schema
    }

    // Keeps this location, unless it has escapes or is very long.
    #[inline(never)]
    fn keep(&mut self, schema: &[u8]) -> bool
        ensures { result ≡ true → (schema_kept self.new.text.items ≡ schema.now) × (escape schema.now ≡ schema.now) }
    {
        if schema.len() > LONGEST_KEPT {
            return false;
        }
        if !stand_as_they_are(schema) {
            return false;
        }
        self.text.truncate(START_LENGTH);
        add_location(&mut self.text, schema);
        true
    }
}

// Adds the location and a slash to what stands before it.
fn add_location(text: &mut Vec<u8>, schema: &[u8])
    requires { length text.old.items + (length schema.now + 1) ≤ vec_capacity text.old }
    ensures items { text.new.items ≡ text.old.items ++ (schema.now ++ 47 ∷ []) }
    ensures capacity { vec_capacity text.old ≤ vec_capacity text.new }
{
    let _ = text.extend_from_slice(schema);
    let _ = text.push(b'/');
}

// The text, without the comma at its beginning if there should be none.
pub(crate) fn from_comma(later: bool, text: &[u8]) -> &[u8]
    ensures { (rest : List ℕ) → text.now ≡ 44 ∷ rest → result.now ≡ comma_if later ++ rest }
{
    if later { text } else { behind(text, 1) }
}

// The text, without the slash at its end if there should be none.
fn to_slash(slash: bool, text: &[u8]) -> &[u8]
    ensures { (front : List ℕ) → text.now ≡ front ++ 47 ∷ [] → result.now ≡ front ++ part slash [] }
{
    if slash {
        return text;
    }
    let end = text.len().saturating_sub(1);
    &text[..end]
}

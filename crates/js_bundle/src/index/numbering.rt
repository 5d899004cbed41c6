//! Numbering of places, each under a text.
ghost use Rattle.std.specs.Prelude.{◌≡◌, [], ◌∷◌, OnOk, string_bytes, option_to_list, option_copied};
ghost use Rattle.js_bundle.specs.code.Index.{number_of_key, AreInserted};

use js_doc::Memory;
use std::alloc::Global;
use std::collections::BTreeMap;
use std::collections::btree_map::Entry;

/// Numbering of places, each under a text. A text keeps the first number that it is given.
///
/// The texts come from schemas, so they are kept in order, not hashed: names could be chosen to have one hash.
#[derive(Drop)]
pub(crate) struct Numbering {
    first: BTreeMap<String, usize>,
}

impl Numbering {
    pub(crate) fn new(alloc: Global) -> Numbering
        ensures { result.first.entries ≡ [] }
    {
        Numbering {
            first: BTreeMap::new(alloc),
        }
    }

    /// The number under the text.
    pub(crate) fn number_of(&self, text: &str) -> Option<usize>
        ensures { result ≡ number_of_key self.now text.now }
    {
        self.first.get(text).copied()
    }

    /// Puts the number under the text, unless one is there.
    pub(crate) fn insert_first(&mut self, text: String, number: usize) -> Result<(), Memory>
        ensures { OnOk result (AreInserted self.old (string_bytes text ∷ []) number self.new) }
    {
        match self.first.entry(text)? {
            Entry::Occupied(_) => {}
            Entry::Vacant(place) => {
                place.insert(number);
            }
        }
        Ok(())
    }

    /// Puts the number under the text, if there is one.
    pub(crate) fn insert_first_given(
        &mut self,
        alloc: Global,
        text: Option<&str>,
        number: usize,
    ) -> Result<(), Memory>
        ensures { OnOk result (AreInserted self.old (option_to_list (option_copied text.entry)) number self.new) }
    {
        match text {
            Some(text) => self.insert_first(String::from_str(alloc, text)?, number),
            None => Ok(()),
        }
    }
}

ghost use Rattle.std.specs.Prelude.{◌≡◌, ◌↔◌, [], IsTrue, length, map, slice_get};
ghost use Rattle.std.specs.Prelude.{option_map, IfOk, OnOk, OnErr};
ghost use Rattle.js_doc.specs.Members.{IsAscending, get, put};
ghost use Rattle.js_doc.specs.code.Places.{GoesTo, IsAboveAll};

use crate::doc::Doc;
use crate::memory::Memory;
use crate::pairs::Pairs;
use crate::places::{place, search};
use crate::string::Text;
use std::alloc::Global;
use std::marker::Model;
use std::mem;

/// The members of an object: each name once, in ascending order of its bytes (RFC 8259, section 4).
#[cycle(doc)]
#[derive(Debug)]
pub struct Members {
    pub(crate) entries: Vec<(Text, Doc)>,
}

// By hand, so that it is proved here alone, and crates that own members call it.
impl Drop for Members {
    #[cycle(dropped)]
    fn drop(self) {
        let Members { entries: _ } = self;
    }
}

impl Model for Members {
    ghost use Rattle.js_doc.specs.Value.{Named, object};
    ghost use Rattle.js_doc.specs.Nesting.{named_depth};
    ghost use Rattle.js_doc.specs.Coding.{named_code};
    ghost use Rattle.std.specs.Prelude.{map};

    ghost Value = { Named };

    ghost coded = { named_code };

    ghost use Rattle.js_doc.specs.Seen.{members_seen, pair_of};

    ghost view = { λ m. map pair_of m.entries.items };

    ghost use Rattle.js_doc.specs.Lawful.{IsLawful};

    ghost invariant = { λ m. IsLawful (object (members_seen m.entries.items)) };

    ghost size = { named_depth };

    ghost use Rattle.js_doc.specs.Falls.{members_fall};

    ghost size_decreases = { λ m h. members_fall m };
}

impl Members {
    ghost use Rattle.js_doc.specs.Seen.{value_of, pair_of};
    ghost use Rattle.js_doc.specs.Lawful.{IsLawful};
    ghost use Rattle.js_doc.specs.Value.{object, members};

    /// No members. `put` takes its memory from `alloc`.
    pub fn new(alloc: Global) -> Members
        ensures { result ≡ [] }
    {
        Members {
            entries: Vec::new(alloc),
        }
    }

    /// No members, with room for some.
    ///
    /// # Errors
    /// `Memory`.
    pub(crate) fn with_capacity(alloc: Global, capacity: usize) -> Result<Members, Memory>
        ensures { IfOk result (λ m. m ≡ []) }
    {
        Ok(Members {
            entries: Vec::with_capacity(alloc, capacity)?,
        })
    }

    /// The value under the name, or None where there is none.
    pub fn get(&self, name: &str) -> Option<&Doc>
        ensures { option_map (λ d. value_of d.now) result ≡ get name.now self.now }
    {
        match search(self.entries.as_slice(), name) {
            Ok(rank) => Some(&self.entries[rank].1),
            Err(_) => None,
        }
    }

    /// What `get` answers, without a search if the name stands at the rank `hint`, counted from 0 in the order of the
    /// names. The rank is a guess: it changes how long this takes, and never the answer.
    pub fn get_with_hint(&self, name: &str, hint: usize) -> Option<&Doc>
        ensures { option_map (λ d. value_of d.now) result ≡ get name.now self.now }
    {
        match self.entries.get(hint) {
            Some((found, doc)) if name == found.as_str() => Some(doc),
            _ => self.get(name),
        }
    }

    /// The member that stands at the rank, counted from 0 in the order of the names, or None if it isn't below
    /// their number. It takes the same time at each rank.
    pub fn nth(&self, rank: usize) -> Option<(&str, &Doc)>
        ensures { option_map (λ m. (m.0.now, value_of m.1.now)) result ≡ slice_get self.now rank }
    {
        match self.entries.get(rank) {
            Some((name, doc)) => Some((name.as_str(), doc)),
            None => None,
        }
    }

    /// How many members there are.
    pub fn len(&self) -> usize
        ensures { result ≡ length self.now }
    {
        self.entries.len()
    }

    /// Whether there is no member.
    pub fn is_empty(&self) -> bool
        ensures { IsTrue result ↔ (self.now ≡ []) }
    {
        self.entries.is_empty()
    }

    /// The members, by name ascending.
    pub fn pairs(&self) -> Pairs<'_>
        ensures pairs { map pair_of result ≡ self.now }
        ensures ascending { IsAscending self.now }
    {
        Pairs::new(self.entries.as_slice())
    }

    /// The names and values, by name ascending.
    pub fn into_vec(self) -> Vec<(Text, Doc)>
        ensures pairs { map pair_of result.items ≡ self }
        ensures ascending { IsAscending self }
    {
        let Members { entries: vector } = self;
        vector
    }

    /// Puts the value under the name, in place of the one that stood there. A name above all others goes to the end
    /// without a search.
    ///
    /// # Errors
    /// `Memory`; then the members are as they were.
    pub fn put(&mut self, name: Text, doc: Doc) -> Result<(), Memory>
        ensures ok { OnOk result (self.new ≡ put name (value_of doc) self.old) }
        ensures err { OnErr result (self.new ≡ self.old) }
    {
        doc.lawful();
        match place(self.entries.as_slice(), name.as_str()) {
            // The old member is dropped as one: an assignment has a case for each kind of value.
            Ok(rank) => drop(mem::replace(&mut self.entries[rank], (name, doc))),
            Err(rank) => self.entries.insert(rank, (name, doc))?,
        }
        Ok(())
    }

    /// Puts the value under a name that is above all others.
    ///
    /// # Errors
    /// `Memory`; then the members are as they were.
    pub(crate) fn push(&mut self, name: Text, value: Doc) -> Result<(), Memory>
        requires { IsAboveAll name self.old }
        ensures ok { OnOk result (self.new ≡ put name (value_of value) self.old) }
        ensures err { OnErr result (self.new ≡ self.old) }
    {
        value.lawful();
        self.entries.push((name, value))?;
        Ok(())
    }

    /// Whether the name would stand behind all others.
    pub(crate) fn goes_last(&self, name: &str) -> bool
        ensures { IsTrue result ↔ GoesTo name.now self.now (length self.now) }
    {
        match place(self.entries.as_slice(), name) {
            Ok(_) => false,
            Err(rank) => rank == self.entries.len(),
        }
    }

    pub(crate) fn lawful_members(&self)
        ensures { IsLawful (object (members self.now)) }
    {
        let _ = &self.entries;
    }
}

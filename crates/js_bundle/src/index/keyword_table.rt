//! Which keyword of the standard each keyword of each place is.
ghost use Rattle.std.specs.Prelude.{◌≡◌, ◌++◌, ◌∷◌, [], length, map, OnOk, IfOk};
ghost use Rattle.js_keyword.specs.Keyword.{which_keyword};
ghost use Rattle.js_bundle.specs.MemberKeywords.{member_keywords};
ghost use Rattle.js_bundle.specs.code.Scan.{site_of};

use crate::scan::site::Site;
use js_doc::{Doc, Members, Memory};
use js_keyword::Keyword;
use std::alloc::Global;

/// Which keyword each is, place by place in scan order.
pub(crate) struct KeywordTable {
    pub(crate) names: Vec<Keyword>,
    /// Where those of each place end.
    pub(crate) ends: Vec<usize>,
}

fn push_members(names: &mut Vec<Keyword>, members: &Members) -> Result<(), Memory>
    ensures { OnOk result (names.new.items ≡ names.old.items ++ map (λ m. which_keyword m.0) members.now) }
{
    for (name, _) in members.pairs() {
        names.push(Keyword::of(name.as_str()))?;
    }
    Ok(())
}

fn push_names(names: &mut Vec<Keyword>, site: &Site<'_>) -> Result<(), Memory>
    ensures { OnOk result (names.new.items ≡ names.old.items ++ member_keywords (site_of site.now)) }
{
    match site.schema {
        Doc::Members(members) => push_members(names, members),
        _ => Ok(()),
    }
}

impl KeywordTable {
    /// The table of no places, with room for this many.
    ///
    /// # Errors
    /// `Memory`.
    pub(crate) fn with_capacity(alloc: Global, places: usize) -> Result<KeywordTable, Memory>
        ensures names { IfOk result (λ t. t.names.items ≡ []) }
        ensures ends { IfOk result (λ t. t.ends.items ≡ []) }
    {
        Ok(KeywordTable {
            ends: Vec::with_capacity(alloc, places)?,
            names: Vec::new(alloc),
        })
    }

    /// Adds the next place.
    ///
    /// # Errors
    /// `Memory`.
    pub(crate) fn add_names(&mut self, site: &Site<'_>) -> Result<(), Memory>
        ensures names { OnOk result (self.new.names.items
            ≡ self.old.names.items ++ member_keywords (site_of site.now)) }
        ensures ends { OnOk result (self.new.ends.items ≡ self.old.ends.items ++ length self.new.names.items ∷ []) }
    {
        push_names(&mut self.names, site)?;
        self.ends.push(self.names.len())?;
        Ok(())
    }
}

// By hand, so that it is proved here alone, and crates that own a table call it.
impl Drop for KeywordTable {
    fn drop(self) {
        let KeywordTable { names, ends } = self;
    }
}

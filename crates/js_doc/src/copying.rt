ghost use Rattle.std.specs.Prelude.{◌≡◌, IfOk, map};
ghost use Rattle.js_doc.specs.Seen.{pair_of};

use crate::doc::Doc;
use crate::items::Items;
use crate::members::Members;
use crate::memory::Memory;
use crate::string::Text;
use std::alloc::Global;

impl Doc {
    /// A copy that shares no memory with the value.
    ///
    /// # Errors
    /// `Memory`.
    pub fn copy(&self, alloc: Global) -> Result<Doc, Memory>
        ensures { IfOk result (λ d. d ≡ self.now) }
    {
        copy_doc(alloc, self)
    }
}

#[cycle(copy)]
fn copy_doc(alloc: Global, doc: &Doc) -> Result<Doc, Memory>
    ensures { IfOk result (λ d. d ≡ doc.now) }
{
    match doc {
        Doc::Null => Ok(Doc::Null),
        Doc::Truth(b) => Ok(Doc::Truth(*b)),
        Doc::Whole(w) => Ok(Doc::Whole(*w)),
        Doc::Text(text) => Ok(Doc::Text(text.copy()?)),
        Doc::List(list) => Ok(Doc::List(Items {
            items: copy_items(alloc, list.items.as_slice())?,
        })),
        Doc::Members(members) => Ok(Doc::Members(Members {
            entries: copy_entries(alloc, members.entries.as_slice())?,
        })),
    }
}

#[cycle(copy)]
fn copy_items(alloc: Global, docs: &[Doc]) -> Result<Vec<Doc>, Memory>
    ensures { IfOk result (λ v. v.items ≡ docs.now) }
{
    let mut copies = Vec::with_capacity(alloc, docs.len())?;
    for doc in docs {
        copies.push_reserved(copy_doc(alloc, doc)?);
    }
    Ok(copies)
}

#[cycle(copy)]
fn copy_entries(alloc: Global, entries: &[(Text, Doc)]) -> Result<Vec<(Text, Doc)>, Memory>
    ensures { IfOk result (λ v. map pair_of v.items ≡ map pair_of entries.now) }
{
    let mut copies = Vec::with_capacity(alloc, entries.len())?;
    for (name, doc) in entries {
        let name = name.copy()?;
        copies.push_reserved((name, copy_doc(alloc, doc)?));
    }
    Ok(copies)
}

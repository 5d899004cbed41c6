//! Each text once.
ghost use Rattle.std.specs.Prelude.{◌≡◌, List, [], IfOk, map};
ghost use Rattle.js_doc.specs.Value.{Text};
ghost use Rattle.js_doc.specs.Seen.{value_of};
ghost use Rattle.js_upgrade.specs.Schema.{is_new, once, seen_with};
ghost use Rattle.js_upgrade.specs.code.HasSeen.{HasSeen};

use js_doc::{Doc, Memory};
use std::alloc::Global;
use std::collections::BTreeSet;

/// The items, but for the texts that stand before.
///
/// # Errors
/// `Memory`.
pub(crate) fn each_once(alloc: Global, docs: &[Doc]) -> Result<Vec<Doc>, Memory>
    ensures { IfOk result (λ v. map value_of v.items ≡ once [] (map value_of docs.now)) }
{
    let mut found = Vec::new(alloc);
    let mut seen: BTreeSet<&str> = BTreeSet::new(alloc);
    for doc in docs {
        if is_new(&mut seen, doc)? {
            found.push(doc.copy(alloc)?)?;
        }
    }
    Ok(found)
}

// Whether the text isn't among those seen. Then it is.
fn is_new<'d>(seen: &mut BTreeSet<&'d str>, doc: &'d Doc) -> Result<bool, Memory>
    ensures { IfOk result (λ b. (names : List Text) → HasSeen seen.old.keys names
        → (b ≡ is_new names (value_of doc.now)) × HasSeen seen.new.keys (seen_with names (value_of doc.now))) }
{
    match doc {
        Doc::Text(text) => Ok(seen.insert(text.as_str())?),
        _ => Ok(true),
    }
}

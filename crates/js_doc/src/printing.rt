//! A value's compact text (RFC 8259, section 2).
ghost use Rattle.std.specs.Prelude.{◌≡◌, IfOk, false, string_bytes};
ghost use Rattle.std.specs.Fmt.{signed_decimal};
ghost use Rattle.js_doc.specs.Value.{list, object};
ghost use Rattle.js_doc.specs.Seen.{value_of, items_seen, members_seen};
ghost use Rattle.js_doc.specs.Compact.{compact, comma_if};
ghost use Rattle.js_doc.specs.BytesOut.{Puts};

use crate::bytes_out::{Out, Stopped};
use crate::doc::Doc;
use crate::memory::Memory;
use crate::quoting::put_string;
use crate::string::Text;
use crate::whole::Whole;
use std::alloc::Global;

/// The value as compact JSON: no space between tokens, an object's names ascending by their bytes, numbers in
/// plain decimals, texts escaped as `serde_json` escapes them.
///
/// # Errors
/// `Memory`.
pub fn text(alloc: Global, doc: &Doc) -> Result<String, Memory>
    ensures { IfOk result (λ s. string_bytes s ≡ compact (value_of doc.now)) }
{
    let mut out = Vec::new(alloc);
    put_text(doc, &mut out)?;
    String::from_utf8(out).map_err(|_| Memory)
}

/// Puts the bytes of the value's compact text. It takes no memory.
///
/// # Errors
/// `Stopped`; then a prefix of the text has gone out.
#[cycle(put_text)]
pub fn put_text<O: Out>(doc: &Doc, out: &mut O) -> Result<(), Stopped>
    ensures { Puts (O.progress out.old) (O.progress out.new) (compact (value_of doc.now)) result }
{
    match doc {
        Doc::Null => out.put(b"null"),
        Doc::Truth(true) => out.put(b"true"),
        Doc::Truth(false) => out.put(b"false"),
        Doc::Whole(whole) => put_number(*whole, out),
        Doc::Text(text) => put_string(text.as_str(), out),
        Doc::List(items) => put_items(items.items.as_slice(), out),
        Doc::Members(members) => put_members(members.entries.as_slice(), out),
    }
}

/// Puts the number in plain decimals. It takes no memory.
///
/// # Errors
/// `Stopped`; then a prefix has gone out.
pub fn put_number<O: Out>(number: Whole, out: &mut O) -> Result<(), Stopped>
    ensures { Puts (O.progress out.old) (O.progress out.new) (signed_decimal number) result }
{
    let mut buffer = itoa::Buffer::new();
    out.put(buffer.format(number.value()).as_bytes())
}

#[cycle(put_text)]
fn put_items<O: Out>(docs: &[Doc], out: &mut O) -> Result<(), Stopped>
    ensures { Puts (O.progress out.old) (O.progress out.new) (compact (list (items_seen docs.now))) result }
{
    out.put(b"[")?;
    let mut later = false;
    for doc in docs {
        put_comma(later, out)?;
        put_text(doc, out)?;
        later = true;
    }
    out.put(b"]")
}

#[cycle(put_text)]
fn put_members<O: Out>(entries: &[(Text, Doc)], out: &mut O) -> Result<(), Stopped>
    ensures { Puts (O.progress out.old) (O.progress out.new) (compact (object (members_seen entries.now))) result }
{
    out.put(b"{")?;
    let mut later = false;
    for (name, doc) in entries {
        put_comma(later, out)?;
        put_string(name.as_str(), out)?;
        out.put(b":")?;
        put_text(doc, out)?;
        later = true;
    }
    out.put(b"}")
}

// A comma, unless this is the first item or member.
fn put_comma<O: Out>(later: bool, out: &mut O) -> Result<(), Stopped>
    ensures { Puts (O.progress out.old) (O.progress out.new) (comma_if later) result }
{
    if later { out.put(b",") } else { Ok(()) }
}

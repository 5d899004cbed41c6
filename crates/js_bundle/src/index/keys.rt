//! The keys under which places and names stand in the index: texts of pointers, which determine their tokens.
ghost use Rattle.std.specs.Prelude.{◌≡◌, ◌≤◌, ◌++◌, decimal, option_map, string_bytes, OnOk, IfOk, MatchOption};
ghost use Rattle.js_doc.specs.Pointer.{token_text};
ghost use Rattle.js_bundle.specs.code.TextPrefix.{BeginsKey, shared_with};
ghost use Rattle.js_bundle.specs.code.Index.{place_key, name_key};
ghost use Rattle.js_bundle.specs.code.Scan.{site_of};

use crate::index::text_prefix::{Neighbours, TextPrefix, push_tokens, room_for};
use js_doc::{Memory, Notation, Pointer, push_token};
use std::alloc::Global;

/// The key of where a place stands: the document's number and the pointer's tokens, as a pointer's text.
pub(crate) fn place_key(alloc: Global, document: usize, pointer: &Pointer) -> Result<String, Memory>
    ensures { IfOk result (λ t. string_bytes t ≡ place_key document pointer.now) }
{
    let room = room_for(pointer.tokens(), 0).saturating_add(2);
    let mut key = String::with_capacity(alloc, room)?;
    push_document(&mut key, document)?;
    push_tokens(&mut key, Notation::Plain, pointer.tokens(), 0)?;
    Ok(key)
}

/// The key of a name in the resource that has its root at the pointer.
///
/// # Errors
/// `Memory`.
pub(crate) fn name_key(
    alloc: Global,
    document: usize,
    root: &Pointer,
    name: &str,
) -> Result<String, Memory>
    ensures { IfOk result (λ t. string_bytes t ≡ name_key document root.now name.now) }
{
    let mut key = String::new(alloc);
    push_document(&mut key, document)?;
    push_token(&mut key, name)?;
    push_tokens(&mut key, Notation::Plain, root.tokens(), 0)?;
    Ok(key)
}

fn push_document(key: &mut String, document: usize) -> Result<(), Memory>
    ensures { OnOk result (string_bytes key.new ≡ string_bytes key.old ++ token_text (decimal document)) }
{
    let mut digits = itoa::Buffer::new();
    push_token(key, digits.format(document))
}

/// Makes the key of a place, and its prefix, from the prefix of the key before it.
pub(crate) fn next_key(prefix: &mut TextPrefix, pair: Neighbours<'_>) -> Result<String, Memory>
    requires before { MatchOption pair.before (Unit {0}) (λ b. BeginsKey prefix.old (site_of b.now)) }
    requires shared { pair.shared ≡ shared_with (option_map (λ b. site_of b.now) pair.before) (site_of pair.site.now) }
    ensures begins { OnOk result (BeginsKey prefix.new (site_of pair.entry.site.now)) }
    ensures key { IfOk result (λ t. string_bytes t
        ≡ place_key pair.entry.site.now.document pair.entry.site.now.pointer.value) }
{
    let tokens = pair.site.pointer.tokens();
    let count = tokens.len().saturating_sub(1);
    begin_key(prefix, pair, pair.shared.min(count))?;
    prefix.extend(pair.alloc, Notation::Plain, tokens, count)
}

// Leaves the prefix as it is where it is one of the place's key too, with no more tokens than that. Else it begins
// with no token.
fn begin_key(prefix: &mut TextPrefix, pair: Neighbours<'_>, most: usize) -> Result<(), Memory>
    requires before { MatchOption pair.before (Unit {0}) (λ b. BeginsKey prefix.old (site_of b.now)) }
    requires most { most ≤ shared_with (option_map (λ b. site_of b.now) pair.before) (site_of pair.site.now) }
    ensures begins { OnOk result (BeginsKey prefix.new (site_of pair.entry.site.now)) }
    ensures within { OnOk result (prefix.new.tokens ≤ most) }
{
    let site = pair.site;
    match pair.before {
        Some(before) if before.document == site.document && prefix.tokens <= most => Ok(()),
        _ => begin_key_anew(prefix, site.document),
    }
}

fn begin_key_anew(prefix: &mut TextPrefix, document: usize) -> Result<(), Memory>
    ensures text { OnOk result (string_bytes prefix.new.text ≡ token_text (decimal document)) }
    ensures none { OnOk result (prefix.new.tokens ≡ 0) }
{
    prefix.tokens = 0;
    prefix.text.clear();
    push_document(&mut prefix.text, document)
}

//! URIs, as `url` reads, joins and prints them.
ghost use Rattle.std.specs.Prelude.{◌≡◌, IfOk, IfSome, None, option_map, true, if◌then◌else◌};
ghost use Rattle.std.specs.List.{list_all};
ghost use Rattle.std.specs.Str.{is_utf8};
ghost use Rattle.percent_encoding.specs.Percent.{percent_decode};
ghost use Rattle.js_doc.specs.PointerReading.{pointer_of};
ghost use Rattle.js_upgrade.specs.Url.{fragment_pointer, uri_joined, uri_printed, uri_without_fragment};
ghost use Rattle.js_upgrade.specs.code.Local.{is_fragment_byte, kept_fragment, local_fragment, local_uri};

use crate::dialect::after_prefix;
use js_doc::{Memory, Pointer, PointerFault};
use std::alloc::Global;
use url::{ParseError, Position, Url};

/// No URI, identifier or reference may have more bytes.
pub(crate) const URI_LIMIT: usize = 65_536;

/// A text joined with a base. None if it is too long, or can't be joined.
///
/// # Errors
/// `Memory`.
pub(crate) fn uri_joined(base: &Url, text: &str) -> Result<Option<Url>, Memory>
    ensures { IfOk result (λ u. u ≡ uri_joined base.now text.now) }
{
    if URI_LIMIT < text.len() {
        return Ok(None);
    }
    match base.join(text) {
        Ok(url) => Ok(Some(url)),
        Err(ParseError::OutOfMemory) => Err(Memory),
        Err(ParseError::Overflow) => Err(Memory),
        Err(_) => Ok(None),
    }
}

/// Whether the URL has no query and no fragment: then it stays as it is without a fragment, also when one was added and
/// is taken away.
pub(crate) fn is_bare(url: &Url) -> bool
    ensures local { result ≡ true → local_uri url.now ≡ uri_printed url.now }
    ensures stays { result ≡ true → uri_without_fragment url.now ≡ url.now }
{
    url.query().is_none() && url.fragment().is_none()
}

/// The URL without its fragment.
///
/// # Errors
/// `Memory`.
#[tactic(auto, unfolding(crate::specs::Url::uri_without_fragment))]
pub(crate) fn uri_without_fragment(mut url: Url) -> Result<Url, Memory>
    ensures { IfOk result (λ u. u ≡ uri_without_fragment url) }
{
    if is_bare(&url) {
        return Ok(url);
    }
    match url.set_fragment(None) {
        Ok(()) => Ok(url),
        Err(_) => Err(Memory),
    }
}

/// The text of the URL without its fragment. None if it has a query.
pub(crate) fn printed_bare(url: &Url) -> Option<&str>
    ensures { IfSome result (λ t. t.now ≡ uri_printed (uri_without_fragment url.now)) }
{
    if url.query().is_none() {
        return Some(url.slice(Position::BeforeScheme, Position::AfterQuery));
    }
    None
}

/// The URL's text.
#[tactic(auto, unfolding(crate::specs::Url::uri_printed))]
pub(crate) fn uri_printed(url: &Url) -> &str
    ensures { result.now ≡ uri_printed url.now }
{
    url.as_str()
}

/// The pointer that the URL's fragment is. None where it is a name, or no text.
///
/// # Errors
/// `Memory`.
pub(crate) fn fragment_pointer(alloc: Global, url: &Url) -> Result<Option<Pointer>, Memory>
    ensures { IfOk result (λ p. p ≡ fragment_pointer url.now) }
{
    pointer_in(alloc, url.fragment().unwrap_or(""))
}

/// The pointer that a fragment is. None where it is a name, or no text.
///
/// # Errors
/// `Memory`.
pub(crate) fn pointer_in(alloc: Global, fragment: &str) -> Result<Option<Pointer>, Memory>
    ensures { IfOk result (λ p. p ≡ (if is_utf8 (percent_decode fragment.now)
        then pointer_of (percent_decode fragment.now) else None)) }
{
    match Pointer::from_fragment(alloc, fragment) {
        Ok(pointer) => Ok(Some(pointer)),
        Err(PointerFault::BadPointer) => Ok(None),
        Err(PointerFault::Memory) => Err(Memory),
    }
}

/// The fragment, of a reference that has nothing else and is joined with its base as it is.
pub(crate) fn local_fragment(reference: &str) -> Option<&str>
    ensures { option_map (λ f. f.now) result ≡ local_fragment reference.now }
{
    match after_prefix("#", reference) {
        Some(fragment) => kept_fragment(reference, fragment),
        None => None,
    }
}

fn kept_fragment<'t>(reference: &str, fragment: &'t str) -> Option<&'t str>
    ensures { option_map (λ f. f.now) result ≡ kept_fragment reference.now fragment.now }
{
    if reference.len() <= URI_LIMIT && are_kept(fragment.as_bytes()) {
        Some(fragment)
    } else {
        None
    }
}

fn are_kept(bytes: &[u8]) -> bool
    ensures { result ≡ list_all is_fragment_byte bytes.now }
{
    bytes.iter().all(|byte| is_fragment_byte(*byte))
}

fn is_fragment_byte(byte: u8) -> bool
    ensures { result ≡ is_fragment_byte byte }
{
    32 < byte && (byte < 127 && !(byte == b'"' || (byte == b'<' || (byte == b'>' || byte == b'`'))))
}

//! Which place a URI names.
ghost use Rattle.std.specs.Prelude.{◌≡◌, ◌++◌, true, false, map, find, slice_get, option_map, IfOk, IfErr, OnOk};
ghost use Rattle.std.specs.Prelude.{MatchOption, []};
ghost use Rattle.std.specs.Str.{is_utf8};
ghost use Rattle.js_doc.specs.PointerReading.{pointer_of};
ghost use Rattle.js_bundle.specs.code.PlaceNumbers.{number_named, is_pointer_read, IfNotRead};
ghost use Rattle.js_bundle.specs.code.Index.{IsIndexOf, number_standing, number_under, standing};
ghost use Rattle.js_bundle.specs.code.Index.{standing_of};
ghost use Rattle.js_bundle.specs.code.Scan.{site_of};
ghost use Rattle.js_bundle.specs.Names.{is_known_as, is_pointer, is_read, same_tokens};
ghost use Rattle.js_bundle.specs.Url as spec;

use crate::index::Index;
use crate::index::keys::{name_key, place_key};
use crate::scan::pointers::extended;
use crate::scan::site::Site;
use crate::uri;
use js_doc::{Memory, Pointer, PointerFault};
use std::alloc::Global;
use url::Url;

/// Whether a document's root stands at the pointer.
pub(crate) fn is_root(pointer: &Pointer) -> bool
    ensures { result ≡ same_tokens pointer.now [] }
{
    pointer.tokens().is_empty()
}

/// Where the root of a resource stands.
#[derive(Clone, Copy)]
pub(crate) struct Root<'a> {
    pub(crate) document: usize,
    pub(crate) pointer: &'a Pointer,
}

impl<'a> Root<'a> {
    /// The root at this pointer of the document with this number.
    pub(crate) fn new(document: usize, pointer: &'a Pointer) -> Root<'a>
        ensures document { result.document ≡ document }
        ensures pointer { result.pointer.now ≡ pointer.now }
    {
        Root { document, pointer }
    }
}

/// The root of the resource that has the URI.
fn root_named<'s>(index: &Index, sites: &'s [Site<'_>], uri: &str) -> Option<Root<'s>>
    requires { IsIndexOf index.now (map site_of sites.now) }
    ensures { option_map standing_of result ≡ option_map standing (find (is_known_as uri.now) (map site_of sites.now)) }
{
    match index.known.number_of(uri) {
        Some(number) => root_at(sites, number),
        None => None,
    }
}

fn root_at<'s>(sites: &'s [Site<'_>], number: usize) -> Option<Root<'s>>
    ensures { option_map standing_of result ≡ option_map standing (slice_get (map site_of sites.now) number) }
{
    match sites.get(number) {
        Some(site) => Some(Root::new(site.document, &site.pointer)),
        None => None,
    }
}

/// The number of the place at a pointer.
pub(crate) fn number_at(
    alloc: Global,
    index: &Index,
    document: usize,
    pointer: &Pointer,
) -> Result<Option<usize>, Memory>
    ensures { IfOk result (λ n. n ≡ number_standing index.now document pointer.now) }
{
    let key = place_key(alloc, document, pointer)?;
    Ok(index.places.number_of(key.as_str()))
}

// The number of the place at a pointer from a resource's root.
fn number_below(
    alloc: Global,
    index: &Index,
    root: Root<'_>,
    pointer: &Pointer,
) -> Result<Option<usize>, Memory>
    ensures { IfOk result (λ n. n
        ≡ number_standing index.now root.entry.document (root.entry.pointer.now ++ pointer.now)) }
{
    let whole = extended(alloc, root.pointer, pointer)?;
    number_at(alloc, index, root.document, &whole)
}

/// Whether a fragment is a pointer: it is empty, or begins with `/`.
pub(crate) fn is_pointer(fragment: &[u8]) -> bool
    ensures { result ≡ is_pointer fragment.now }
{
    match fragment.first() {
        Some(b) => *b == b'/',
        None => true,
    }
}

// The pointer that a text is, if it is one.
fn parsed(alloc: Global, text: &str) -> Result<Option<Pointer>, Memory>
    ensures { IfOk result (λ p. p ≡ pointer_of text.now) }
{
    match Pointer::parse(alloc, text) {
        Ok(pointer) => Ok(Some(pointer)),
        Err(PointerFault::BadPointer) => Ok(None),
        Err(PointerFault::Memory) => Err(Memory),
    }
}

/// Why a URI isn't looked for.
#[derive(Clone, Copy)]
pub(crate) enum NameFault {
    Memory,
    /// Its fragment isn't UTF-8, or begins with `/` and is no pointer.
    NotRead,
}

impl From<Memory> for NameFault {
    ghost use Rattle.js_bundle.specs.declared.index.place_by_uri.NameFault.TheVariants as fault;

    ghost from_gives = { λ _ e. e ≡ fault.Memory };

    fn from(_refused: Memory) -> NameFault {
        NameFault::Memory
    }
}

// The fragment, decoded, where it is a text.
fn text_in(bytes: &[u8]) -> Option<&str>
    ensures { MatchOption result (is_utf8 bytes.now ≡ false)
        (λ s. (s.now ≡ bytes.now) × (is_utf8 bytes.now ≡ true)) }
{
    match std::str::from_utf8(bytes) {
        Ok(text) => Some(text),
        Err(_) => None,
    }
}

// The number of the place that a fragment names in a resource, if there is one.
fn number_under_root(
    alloc: Global,
    index: &Index,
    root: Option<Root<'_>>,
    fragment: &str,
) -> Result<Option<usize>, NameFault>
    ensures ok { IfOk result (λ n. n ≡ number_under index.now root.entry fragment.now) }
    ensures read { OnOk result (is_pointer_read fragment.now ≡ true) }
    ensures err { IfErr result (λ e. IfNotRead e (is_pointer_read fragment.now ≡ false)) }
{
    if !is_pointer(fragment.as_bytes()) {
        return match root {
            Some(root) => {
                let key = name_key(alloc, root.document, root.pointer, fragment)?;
                Ok(index.names.number_of(key.as_str()))
            }
            None => Ok(None),
        };
    }
    let Some(pointer) = parsed(alloc, fragment)? else {
        return Err(NameFault::NotRead);
    };
    match root {
        Some(root) => Ok(number_below(alloc, index, root, &pointer)?),
        None => Ok(None),
    }
}

/// The number of the place that a fragment, decoded, names in a resource, if there is one.
///
/// # Errors
/// `NotRead`, if the fragment isn't UTF-8, or begins with `/` and is no pointer; `Memory` at any point.
pub(crate) fn number_by_fragment(
    alloc: Global,
    index: &Index,
    root: Option<Root<'_>>,
    fragment: &[u8],
) -> Result<Option<usize>, NameFault>
    ensures ok { IfOk result (λ n. n ≡ number_under index.now root.entry fragment.now) }
    ensures read { OnOk result (is_read fragment.now ≡ true) }
    ensures err { IfErr result (λ e. IfNotRead e (is_read fragment.now ≡ false)) }
{
    match text_in(fragment) {
        Some(fragment) => number_under_root(alloc, index, root, fragment),
        None => Err(NameFault::NotRead),
    }
}

/// The number of the place that a URI names, if it names one.
///
/// # Errors
/// `NotRead`, as of `number_by_fragment`; `Memory` at any point.
pub(crate) fn number_named(
    alloc: Global,
    index: &Index,
    sites: &[Site<'_>],
    uri: Url,
) -> Result<Option<usize>, NameFault>
    requires { IsIndexOf index.now (map site_of sites.now) }
    ensures ok { IfOk result (λ n. n ≡ number_named (map site_of sites.now) uri) }
    ensures read { OnOk result (is_read (spec.decoded_fragment uri) ≡ true) }
    ensures err { IfErr result (λ e. IfNotRead e (is_read (spec.decoded_fragment uri) ≡ false)) }
{
    let fragment = uri::decoded_fragment(alloc, &uri)?;
    let bare = uri::without_fragment(uri)?;
    let root = root_named(index, sites, uri::printed(&bare));
    number_by_fragment(alloc, index, root, fragment.as_slice())
}

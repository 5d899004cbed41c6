//! URIs, as `url` reads, joins and prints them.
ghost use Rattle.std.specs.Prelude.{◌≡◌, ◌↔◌, [], IfOk, IsTrue};
ghost use Rattle.js_bundle.specs.Url.{decoded_fragment, printed, raw_fragment, without_fragment};

use js_doc::Memory;
use percent_encoding::percent_decode;
use std::alloc::Global;
use url::Url;

/// No URI, `$id` or reference may have more bytes.
pub const LONGEST: usize = 65_536;

/// The URL's text.
#[tactic(auto, unfolding(crate::specs::Url::printed))]
pub(crate) fn printed(url: &Url) -> &str
    ensures { result.now ≡ printed url.now }
{
    url.as_str()
}

/// The URL without its fragment.
///
/// # Errors
/// `Memory`.
#[tactic(auto, unfolding(crate::specs::Url::without_fragment))]
pub fn without_fragment(mut url: Url) -> Result<Url, Memory>
    ensures { IfOk result (λ u. u ≡ without_fragment url) }
{
    match url.set_fragment(None) {
        Ok(()) => Ok(url),
        Err(_) => Err(Memory),
    }
}

/// Whether the URL has no fragment, or an empty one.
pub fn has_no_fragment(url: &Url) -> bool
    ensures { IsTrue result ↔ (raw_fragment url.now ≡ []) }
{
    url.fragment().unwrap_or("").is_empty()
}

/// The URL's fragment, decoded. It is empty where there is none.
///
/// # Errors
/// `Memory`.
pub(crate) fn decoded_fragment(alloc: Global, url: &Url) -> Result<Vec<u8>, Memory>
    ensures { IfOk result (λ v. v.items ≡ decoded_fragment url.now) }
{
    let mut bytes = Vec::new(alloc);
    let coded = url.fragment().unwrap_or("");
    percent_decode(coded.as_bytes()).append_to(&mut bytes)?;
    Ok(bytes)
}

//! What is kept of a place's absolute location.
ghost use Rattle.std.specs.Prelude.{◌≡◌};
ghost use Rattle.js_bundle.specs.code.StoredLocation.{is_long, repeated};

use js_doc::Text;

/// A longer URI isn't repeated with each place of its resource.
const MOST_REPEATED: usize = 256;

/// What is kept of a place's absolute location (JSON Schema Core, section 12.3.2).
pub(crate) struct StoredLocation {
    /// The location, or only its `#` and its fragment.
    pub(crate) text: Text,
    pub(crate) is_fragment: bool,
}

// By hand, so that it is proved here alone, and crates that own locations call it.
impl Drop for StoredLocation {
    fn drop(self) {
        let StoredLocation { text, is_fragment } = self;
    }
}

/// Whether the URI is too long to be repeated with each place of its resource.
#[tactic(auto, unfolding(crate::specs::code::StoredLocation::is_long))]
pub(crate) fn is_long(uri: &str) -> bool
    ensures { result ≡ is_long uri.now }
{
    MOST_REPEATED < uri.len()
}

/// What each place repeats of its resource's URI.
pub(crate) fn repeated(uri: &str) -> &str
    ensures { result.now ≡ repeated uri.now }
{
    if is_long(uri) { "" } else { uri }
}

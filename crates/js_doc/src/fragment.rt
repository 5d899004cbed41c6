//! Pointers as fragments of URIs (RFC 6901, section 6; RFC 3986, section 3.5).
ghost use Rattle.std.specs.Prelude.{◌≡◌, ◌≢◌, Err, IfOk, string_bytes};
ghost use Rattle.js_doc.specs.Pointer.{Tokens, pointer_text};
ghost use Rattle.js_doc.specs.declared.pointer_reading.PointerFault.TheVariants.{BadPointer};

use crate::memory::Memory;
use crate::pointer::Pointer;
use crate::pointer_reading::PointerFault;
use percent_encoding::{
    AsciiSet, CONTROLS, DecodeError, ascii_set, percent_decode, utf8_percent_encode,
};
use std::alloc::Global;

// What a fragment escapes, beside the bytes outside ASCII.
pub(crate) const ESCAPED: AsciiSet = ascii_set!(
    CONTROLS
        .add(b' ')
        .add(b'"')
        .add(b'#')
        .add(b'%')
        .add(b'<')
        .add(b'>')
        .add(b'[')
        .add(b'\\')
        .add(b']')
        .add(b'^')
        .add(b'`')
        .add(b'{')
        .add(b'|')
        .add(b'}')
);

impl Pointer {
    ghost use Rattle.std.specs.Str.{IsUtf8};
    ghost use Rattle.percent_encoding.specs.Percent.{percent_decode};
    ghost use Rattle.js_doc.specs.Fragment.{fragment_text};

    /// The pointer's text as a fragment: each byte but ASCII letters, digits and ``-._~!$&'()*+,;=:@/?``
    /// is a `%` and two upper-case hexadecimal digits.
    ///
    /// # Errors
    /// `Memory`.
    pub fn fragment(&self, alloc: Global) -> Result<String, Memory>
        ensures text { IfOk result (λ s. string_bytes s ≡ fragment_text self.now) }
        ensures utf8 { IfOk result (λ s. IsUtf8 (pointer_text self.now)) }
    {
        let text = self.text(alloc)?;
        let mut fragment = String::new(alloc);
        utf8_percent_encode(text.as_str(), ESCAPED).append_to(&mut fragment)?;
        Ok(fragment)
    }

    /// The pointer whose text is the decoded fragment. A `%` without two hexadecimal digits after it stands
    /// for itself.
    ///
    /// # Errors
    /// See [`PointerFault`].
    pub fn from_fragment(alloc: Global, fragment: &str) -> Result<Pointer, PointerFault>
        ensures reads { IfOk result (λ p. pointer_text p ≡ percent_decode fragment.now) }
        ensures bad { result ≡ Err BadPointer → IsUtf8 (percent_decode fragment.now)
            → (p : Tokens) → ¬ (pointer_text p ≡ percent_decode fragment.now) }
        ensures utf8 { IfOk result (λ p. IsUtf8 (percent_decode fragment.now)) }
        ensures back { (p : Tokens) → IsUtf8 (pointer_text p) → fragment_text p ≡ fragment.now
            → IfOk result (λ q. q ≡ p) × (result ≢ Err BadPointer) }
    {
        match percent_decode(fragment.as_bytes()).decode_utf8(alloc) {
            Ok(text) => Pointer::parse(alloc, text.as_str()),
            Err(DecodeError::Utf8(_)) => Err(PointerFault::BadPointer),
            Err(DecodeError::OutOfMemory) => Err(PointerFault::Memory),
        }
    }
}

//! From a pointer's text to the pointer (RFC 6901, sections 3 and 4).
ghost use Rattle.std.specs.Prelude.{◌≡◌, Err, IfOk};
ghost use Rattle.js_doc.specs.Pointer.{Tokens, pointer_text};
ghost use Rattle.js_doc.specs.PointerReading.{pointer_of};
ghost use Rattle.js_doc.specs.declared.pointer_reading.PointerFault.TheVariants.{BadPointer};

use crate::memory::Memory;
use crate::pointer::Pointer;
use crate::string::Text;
use std::alloc::Global;

/// Why a text isn't read as a pointer.
#[derive(Debug, PartialEq, Eq, Drop)]
pub enum PointerFault {
    /// 1: there was no memory.
    Memory,
    /// 2: no pointer has this text: it neither is empty nor begins with `/`, or a `~` stands without a `0` or a
    /// `1` after it. Of a fragment also: what it decodes to isn't UTF-8.
    BadPointer,
}

impl Pointer {
    /// The pointer that has this text.
    ///
    /// # Errors
    /// See [`PointerFault`].
    pub fn parse(alloc: Global, text: &str) -> Result<Pointer, PointerFault>
        ensures reads { IfOk result (λ p. pointer_text p ≡ text.now) }
        ensures bad { result ≡ Err BadPointer → (p : Tokens) → ¬ (pointer_text p ≡ text.now) }
        ensures back { (p : Tokens) → pointer_text p ≡ text.now → IfOk result (λ q. q ≡ p) }
    {
        match read_tokens(alloc, text) {
            Ok(Some(pointer)) => Ok(pointer),
            Ok(None) => Err(PointerFault::BadPointer),
            Err(Memory) => Err(PointerFault::Memory),
        }
    }
}

// The pointer that has this text, if there is one.
fn read_tokens(alloc: Global, text: &str) -> Result<Option<Pointer>, Memory>
    ensures { IfOk result (λ p. pointer_of text.now ≡ p) }
{
    let mut pointer = Pointer::new(alloc);
    let mut rest = text.chars();
    let Some(first) = rest.next() else {
        return Ok(Some(pointer));
    };
    if first != '/' {
        return Ok(None);
    }
    let mut token = String::new(alloc);
    let mut tilde = false;
    for c in rest {
        if tilde {
            tilde = false;
            match c {
                '0' => token.push('~')?,
                '1' => token.push('/')?,
                _ => return Ok(None),
            }
        } else {
            match c {
                '~' => tilde = true,
                '/' => {
                    pointer.push_text(Text::new(token))?;
                    token = String::new(alloc);
                }
                _ => token.push(c)?,
            }
        }
    }
    if tilde {
        return Ok(None);
    }
    pointer.push_text(Text::new(token))?;
    Ok(Some(pointer))
}

//! Laws of members and of pointers. Each is the contract of a function that does nothing, or that goes there and back.
ghost use Rattle.std.specs.Prelude.{◌≡◌, ◌≢◌, ℕ, List, Some, Err, IfOk};
ghost use Rattle.js_doc.specs.Value.{Value, Named};
ghost use Rattle.js_doc.specs.Members.{IsAscending, get, put};
ghost use Rattle.js_doc.specs.PointerReading.{ReadsBack, ReadsNoMore};
ghost use Rattle.js_doc.specs.declared.pointer_reading.PointerFault.TheVariants.{BadPointer};

use crate::pointer::Pointer;
use crate::pointer_reading::PointerFault;
use std::alloc::Global;

/// `get` returns a value that was `put` under the name, and under each other name what was there before.
pub fn what_is_put_is_got()
    ensures same { (k : List ℕ) (v : Value) (ms : Named) → get k (put k v ms) ≡ Some v }
    ensures others { (k : List ℕ) (l : List ℕ) (v : Value) (ms : Named) → ¬ (l ≡ k)
        → get l (put k v ms) ≡ get l ms }
    ensures ascending { (k : List ℕ) (v : Value) (ms : Named) → IsAscending ms
        → IsAscending (put k v ms) }
{}

/// Members whose names ascend are equal where each name has the same value in both: they are finite maps.
pub fn members_are_finite_maps()
    ensures { (ms : Named) (ns : Named) → IsAscending ms → IsAscending ns
        → ((k : List ℕ) → get k ms ≡ get k ns) → ms ≡ ns }
{}

/// Each pointer's text is read as the pointer, and a text is read as no pointer but the one whose text it is.
pub fn pointers_are_read()
    ensures back { ReadsBack }
    ensures no_more { ReadsNoMore }
{}

/// The text of a pointer is parsed to the pointer.
///
/// # Errors
/// `Memory`.
pub fn text_is_parsed_back(alloc: Global, pointer: &Pointer) -> Result<Pointer, PointerFault>
    ensures same { IfOk result (λ p. p ≡ pointer.now) }
    ensures memory { result ≢ Err BadPointer }
{
    let text = pointer.text(alloc).map_err(|_| PointerFault::Memory)?;
    Pointer::parse(alloc, text.as_str())
}

/// The fragment of a pointer is read as the pointer.
///
/// # Errors
/// `Memory`.
pub fn fragment_is_read_back(alloc: Global, pointer: &Pointer) -> Result<Pointer, PointerFault>
    ensures same { IfOk result (λ p. p ≡ pointer.now) }
    ensures memory { result ≢ Err BadPointer }
{
    let fragment = pointer.fragment(alloc).map_err(|_| PointerFault::Memory)?;
    Pointer::from_fragment(alloc, fragment.as_str())
}

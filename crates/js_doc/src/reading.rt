//! From a text's bytes to a value (RFC 8259), by `serde_json`.
ghost use Rattle.std.specs.Prelude.{◌≡◌, Ok, IfOk, IfErr};
ghost use Rattle.serde_json.specs.View.{view};
ghost use Rattle.js_doc.specs.Members.{NamesAscend};
ghost use Rattle.js_doc.specs.Short.{IsShort};
ghost use Rattle.js_doc.specs.Seen.{value_of};
ghost use Rattle.js_doc.specs.WholeNumbers.{value_in};
ghost use Rattle.js_doc.specs.Reading.{IsReadAs, IsReadFault, IsConversionFault, Lifts};
ghost use Rattle.js_doc.specs.declared.reading.ReadFault.TheVariants.{Memory};

use crate::conversion::convert;
use crate::doc::Doc;
use crate::from_tokens::read_by_tokens;
use crate::memory::Memory;
use crate::pointer::Pointer;
use crate::string::Text;
use serde_json::Value;
use std::alloc::Global;

/// Why a text isn't read.
#[derive(Debug, PartialEq, Eq, Drop)]
pub enum ReadFault {
    /// 1: there was no memory.
    Memory,
    /// 2: `serde_json` reads no value. Nesting above 127 is refused so too.
    NotJson,
    /// 3: a number isn't an integer in plain digits (`0.5`, `1.0`, `1e2` and `-0` aren't) from -2^63 to 2^64 - 1. The
    /// pointer leads to the first such number in preorder, an object's members by name ascending.
    NotWhole(Pointer),
}

impl From<Memory> for ReadFault {
    ghost from_gives = { λ _ e. e ≡ Memory };

    fn from(_refused: Memory) -> ReadFault {
        ReadFault::Memory
    }
}

impl ReadFault {
    // The fault as the value above reports it.
    pub(crate) fn lifted(self, token: Text) -> ReadFault
        ensures { Lifts token self result }
    {
        match self {
            ReadFault::NotWhole(mut place) => match place.prepend(token) {
                Ok(()) => ReadFault::NotWhole(place),
                Err(_) => ReadFault::Memory,
            },
            other => other,
        }
    }
}

/// The value of a JSON text. The names of each of its objects ascend by their bytes, each once, and
/// each of its lists has fewer than 2^64 items.
///
/// # Errors
/// See [`ReadFault`].
pub fn read(alloc: Global, bytes: &[u8]) -> Result<Doc, ReadFault>
    ensures ok { IfOk result (λ d. IsReadAs bytes.now (Ok (value_of d))) }
    ensures ascends { IfOk result (λ d. NamesAscend (value_of d)) }
    ensures short { IfOk result (λ d. IsShort (value_of d)) }
    ensures err { IfErr result (IsReadFault bytes.now) }
{
    match read_by_tokens(alloc, bytes)? {
        Some(doc) => {
            doc.lawful();
            Ok(doc)
        }
        None => read_tree(alloc, bytes),
    }
}

// The same by `serde_json`'s tree, which also says why a text has no value.
fn read_tree(alloc: Global, bytes: &[u8]) -> Result<Doc, ReadFault>
    ensures ok { IfOk result (λ d. IsReadAs bytes.now (Ok (value_of d))) }
    ensures ascends { IfOk result (λ d. NamesAscend (value_of d)) }
    ensures short { IfOk result (λ d. IsShort (value_of d)) }
    ensures err { IfErr result (IsReadFault bytes.now) }
{
    match Value::from_slice(alloc, bytes) {
        Ok(value) => {
            let doc = convert(alloc, value)?;
            doc.lawful();
            Ok(doc)
        }
        Err(error) => if error.is_memory() {
            Err(ReadFault::Memory)
        } else {
            Err(ReadFault::NotJson)
        },
    }
}

/// The same value as one of `serde_json`. Its texts are copied.
///
/// # Errors
/// `Memory`, or `NotWhole`; `NotJson` never comes.
pub fn from_value(alloc: Global, value: &Value) -> Result<Doc, ReadFault>
    ensures ok { IfOk result (λ d. value_in (view value.now) ≡ Ok (value_of d)) }
    ensures ascends { IfOk result (λ d. NamesAscend (value_of d)) }
    ensures short { IfOk result (λ d. IsShort (value_of d)) }
    ensures err { IfErr result (λ e. IsConversionFault (value_in (view value.now)) e) }
{
    let doc = convert(alloc, copied(value)?)?;
    doc.lawful();
    Ok(doc)
}

// A copy, whose texts can move.
fn copied(value: &Value) -> Result<Value, Memory>
    ensures { IfOk result (λ v. view v ≡ view value.now) }
{
    let copy = value.clone()?;
    Ok(copy)
}

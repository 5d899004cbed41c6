ghost use Rattle.std.specs.Prelude.{◌≡◌, Ok, IfOk, IfErr};
ghost use Rattle.js_doc.specs.Seen.{value_of};
ghost use Rattle.js_output.specs.Reading.{reading, ReadsWith};

use js_doc::{Doc, ReadFault, read};
use std::alloc::Global;

/// The value of a JSON text.
pub(crate) fn value_from(alloc: Global, bytes: &[u8]) -> Result<Doc, ReadFault>
    ensures ok { IfOk result (λ value. reading bytes.now ≡ Ok (value_of value)) }
    ensures err { IfErr result (ReadsWith (reading bytes.now)) }
{
    read(alloc, bytes)
}

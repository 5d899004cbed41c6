// A whole input.
ghost use Rattle.std.specs.Prelude.{◌≡◌, ◌≤◌, ◌<◌, ◌+◌, ◌-◌, ◌^◌, min, false, ◌↔◌, ℕ, List, true, length, IfOk, IfErr};
ghost use Rattle.std.specs.Prelude.{OnOk, IsErrOf};
ghost use Rattle.std.specs.Io.KnownBytes.{Consumes, IsAtEnd};
ghost use Rattle.js_output.specs.Device.{input_limit};
ghost use Rattle.js_output.specs.Input.{IsInputFault};

use crate::{Fault, Source};
use std::alloc::Global;
use std::io::Read;

/// The most bytes that an input may have.
pub(crate) const LIMIT: usize = 16_777_216;

/// All bytes up to the source's end, at most 16,777,216. Each call of the device but the last reads a byte or more.
///
/// # Errors
/// `Fault::InputTooLarge`, if there are more; `Fault::Read`, if the source has failed, before this call or in it;
/// `Fault::Memory`, if an allocation is refused.
pub fn read_all<R: Read>(alloc: Global, source: &mut Source<R>) -> Result<Vec<u8>, Fault>
    ensures ok { IfOk result (λ bytes. Consumes (R.remaining source.old.device)
        (R.remaining source.new.device) bytes.items) }
    ensures end { OnOk result (IsAtEnd (R.remaining source.new.device)) }
    ensures fits { IfOk result (λ bytes. length bytes.items ≤ input_limit) }

    // There are more bytes than the limit.
    ensures too_large { IsErrOf result Fault.InputTooLarge → (taken : List ℕ)
        × (input_limit < length taken)
        × Consumes (R.remaining source.old.device) (R.remaining source.new.device) taken }
    ensures faults { IfErr result IsInputFault }
    ensures read { IsErrOf result Fault.Read ↔ (source.new.failed ≡ true) }
    ensures calls { source.new.calls ≤ source.old.calls + (input_limit + 1) }
    ensures called { source.old.failed ≡ false
        → min (source.old.calls + 1) (2 ^ 64 - 1) ≤ source.new.calls }
    ensures stays { source.old.failed ≡ true → source.new ≡ source.old }
{
    let mut bytes = Vec::new(alloc);
    let mut chunk = [0u8; 4096];
    'turns: loop {
        let room = LIMIT - bytes.len();
        let most = chunk.len().min(room + 1);
        let count = source.read(&mut chunk[..most])?;
        if count == 0 {
            return Ok(bytes);
        }
        bytes.extend_from_slice(&chunk[..count])?;
        if room < count {
            return Err(Fault::InputTooLarge);
        }
    }
}

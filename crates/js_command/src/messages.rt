//! What goes to standard error.
ghost use Rattle.std.specs.Prelude.{◌≡◌, ◌++◌, ◌∷◌, [], IfSome, string_bytes};
ghost use Rattle.js_output.specs.Device.{AppendsBeginning};
ghost use Rattle.js_output.specs.Line.{fault_line};
ghost use Rattle.js_output.specs.declared.fault.Fault.{Fault};
ghost use Rattle.js_command.specs.Answer.{IsWrittenOrFailed};
ghost use Rattle.js_command.specs.Words.{usage_line};
ghost use Rattle.js_command.specs.Status.{misuse_status};

use crate::status::{FAILED, MISUSED};
use crate::words::{Misuse, PAIRS_USAGE, USAGE};
use js_output::{Fault, Sink, refusal_line};
use std::alloc::Global;
use std::io::Write;

/// Writes the line of a fault and a line feed, or nothing if there is no memory for them.
pub(crate) fn report<V: Write>(alloc: Global, fault: &Fault, faults: &mut Sink<V>)
    ensures { AppendsBeginning (V.contents faults.old.device) (V.contents faults.new.device)
        (fault_line fault.now ++ 10 ∷ []) }
{
    if let Some(line) = ended_line(alloc, fault) {
        let _ = faults.write_all(line.as_bytes());
    }
}

fn ended_line(alloc: Global, fault: &Fault) -> Option<String>
    ensures { IfSome result (λ line. string_bytes line ≡ fault_line fault.now ++ 10 ∷ []) }
{
    let mut line = refusal_line(alloc, fault).ok()?;
    line.push('\n').ok()?;
    Some(line)
}

/// Writes the usage text, or that memory ran out. Returns the status.
pub(crate) fn report_misuse<V: Write>(alloc: Global, misuse: Misuse, faults: &mut Sink<V>) -> u8
    ensures status { result ≡ misuse_status misuse }
    ensures usage { result ≡ 2 → IsWrittenOrFailed (V.contents faults.old.device)
        (V.contents faults.new.device) faults.new.failed (usage_line misuse) }
    ensures reported { result ≡ 4 → AppendsBeginning (V.contents faults.old.device)
        (V.contents faults.new.device) (fault_line Fault.Memory ++ 10 ∷ []) }
{
    match misuse {
        Misuse::Memory => {
            report(alloc, &Fault::Memory, faults);
            FAILED
        }
        Misuse::OtherForm => {
            write_usage(USAGE, faults);
            MISUSED
        }
        Misuse::OddPairs => {
            write_usage(PAIRS_USAGE, faults);
            MISUSED
        }
    }
}

// It stands in the program, so it takes no memory.
fn write_usage<V: Write>(text: &[u8], faults: &mut Sink<V>)
    ensures { IsWrittenOrFailed (V.contents faults.old.device) (V.contents faults.new.device)
        faults.new.failed text.now }
{
    let _ = faults.write_all(text);
}

//! The exit status.
ghost use Rattle.std.specs.Prelude.{◌≡◌};
ghost use Rattle.js_command.specs.Status.{fault_status};

use js_output::Fault;

/// The exit status of a valid instance, of a suite that passed, and of a list of places.
pub const VALID: u8 = 0;

/// The exit status of an invalid instance, and of a suite with a test that failed or was skipped.
pub const INVALID: u8 = 1;

/// The exit status if the arguments name no task.
pub const MISUSED: u8 = 2;

/// The exit status if a schema, an instance, an entry, a suite or the size of a result is refused.
pub const REFUSED: u8 = 3;

/// The exit status if memory ran out, or a read, a write or the last flush failed.
pub const FAILED: u8 = 4;

/// The exit status of a fault.
pub(crate) fn status_of(fault: &Fault) -> u8
    ensures { result ≡ fault_status fault.now }
{
    match fault {
        Fault::Memory | Fault::Read | Fault::Write => FAILED,
        _ => REFUSED,
    }
}

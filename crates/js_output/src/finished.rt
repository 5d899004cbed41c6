//! From finished schemas and an instance's bytes to the output's text.
ghost use Rattle.std.specs.Prelude.{◌≡◌, ◌≢◌, true, IfErr};
ghost use Rattle.js_bundle.specs.Schemas.{is_place, place_at};
ghost use Rattle.js_output.specs.Device.{Unflushed};
ghost use Rattle.js_output.specs.Outcome.{FinishedOutcome, FinishedOutcomeWithin, InstanceOutcome};
ghost use Rattle.js_output.specs.Outcome.{InstanceOutcomeWithin, output_report, IsFinishedFault, IsInstanceFault};
ghost use Rattle.js_output.specs.Report.{Reports};

use crate::entry::entry_place;
use crate::fault::Fault;
use crate::input::LIMIT;
use crate::judging::judge_text;
use crate::sink::Sink;
use js_bundle::{Place, Schemas};
use js_eval::Limits;
use js_tree::Format;
use std::alloc::Global;
use std::io::Write;

/// Whether the schema that the entry names accepts the instance with this text. Writes the output in
/// the format, and a line feed (JSON Schema Core, section 12.4).
///
/// For documents that were added to a `Bundle` and finished, this returns and writes what
/// [`crate::run`] does. The schemas can be used again. For many instances, look the entry up once
/// with [`Schemas::entry`] and call [`judge`].
///
/// # Errors
/// The first that applies, of: `Entry`, if the entry is refused; `InputTooLarge`, if the instance has
/// more than 16,777,216 bytes; `Instance`, if its text is refused; `TooLarge`, if no result is within
/// the standard limits of `js_eval`; `Write`, if the sink has failed. `Memory` can come at any point before
/// the first write. After `Write` a prefix of the text has been written, and after any other fault
/// nothing. `Read`, `Refused` and `Suite` never come.
pub fn run_finished<W: Write>(
    alloc: Global,
    schemas: &Schemas,
    entry: &str,
    instance: &[u8],
    format: Format,
    out: &mut Sink<W>,
) -> Result<bool, Fault>
    // The entry and the instance have this outcome over these schemas, and its text was written.
    ensures answer { Reports output_report
        (FinishedOutcome schemas.now entry.now format instance.now) W.contents
        out.old out.new result }
    ensures faults { IfErr result IsFinishedFault }

    // Nothing goes out where there is no output.
    ensures nothing { IfErr result (λ e. e ≢ Fault.Write → out.new ≡ out.old) }
    ensures unflushed { Unflushed out.old out.new }
    ensures sink_stays { out.old.failed ≡ true → out.new ≡ out.old }
{
    run_finished_within(
        alloc,
        schemas,
        entry,
        instance,
        format,
        Limits::standard(),
        out,
    )
}

/// [`run_finished`] with these limits.
///
/// # Errors
/// Those of [`run_finished`], with `TooLarge` if no result is within the limits.
pub fn run_finished_within<W: Write>(
    alloc: Global,
    schemas: &Schemas,
    entry: &str,
    instance: &[u8],
    format: Format,
    limits: Limits,
    out: &mut Sink<W>,
) -> Result<bool, Fault>
    // The entry and the instance have this outcome over these schemas, and its text was written.
    ensures answer { Reports output_report
        (FinishedOutcomeWithin limits schemas.now entry.now format instance.now) W.contents
        out.old out.new result }
    ensures faults { IfErr result IsFinishedFault }

    // Nothing goes out where there is no output.
    ensures nothing { IfErr result (λ e. e ≢ Fault.Write → out.new ≡ out.old) }
    ensures unflushed { Unflushed out.old out.new }
    ensures sink_stays { out.old.failed ≡ true → out.new ≡ out.old }
{
    let place = entry_place(alloc, schemas, entry)?;
    judge_within(alloc, schemas, place, instance, format, limits, out)
}

/// Whether the schema at the place accepts the instance with this text. Writes the output in the
/// format, and a line feed. This is [`run_finished`] with an entry that has been looked up
/// already.
///
/// # Errors
/// Those of [`run_finished`], except `Entry`.
pub fn judge<W: Write>(
    alloc: Global,
    schemas: &Schemas,
    place: Place,
    instance: &[u8],
    format: Format,
    out: &mut Sink<W>,
) -> Result<bool, Fault>
    requires { is_place schemas.now place ≡ true }

    // The instance has this outcome at the place, and its text was written.
    ensures answer { Reports output_report
        (InstanceOutcome schemas.now (place_at schemas.now place) format instance.now) W.contents
        out.old out.new result }
    ensures faults { IfErr result IsInstanceFault }

    // Nothing goes out where there is no output.
    ensures nothing { IfErr result (λ e. e ≢ Fault.Write → out.new ≡ out.old) }
    ensures unflushed { Unflushed out.old out.new }
    ensures sink_stays { out.old.failed ≡ true → out.new ≡ out.old }
{
    judge_within(
        alloc,
        schemas,
        place,
        instance,
        format,
        Limits::standard(),
        out,
    )
}

/// [`judge`] with these limits.
///
/// # Errors
/// Those of [`run_finished_within`], except `Entry`.
pub fn judge_within<W: Write>(
    alloc: Global,
    schemas: &Schemas,
    place: Place,
    instance: &[u8],
    format: Format,
    limits: Limits,
    out: &mut Sink<W>,
) -> Result<bool, Fault>
    requires { is_place schemas.now place ≡ true }

    // The instance has this outcome at the place, and its text was written.
    ensures answer { Reports output_report
        (InstanceOutcomeWithin limits schemas.now (place_at schemas.now place) format instance.now) W.contents
        out.old out.new result }
    ensures faults { IfErr result IsInstanceFault }

    // Nothing goes out where there is no output.
    ensures nothing { IfErr result (λ e. e ≢ Fault.Write → out.new ≡ out.old) }
    ensures unflushed { Unflushed out.old out.new }
    ensures sink_stays { out.old.failed ≡ true → out.new ≡ out.old }
{
    if LIMIT < instance.len() {
        return Err(Fault::InputTooLarge);
    }
    judge_text(alloc, schemas, place, format, limits, instance, out)
}

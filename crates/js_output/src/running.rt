//! From documents and an instance to the output's text.
ghost use Rattle.std.specs.Prelude.{◌≡◌, ◌≢◌, ◌≤◌, true, length, IfErr};
ghost use Rattle.js_bundle.specs.Schemas.{is_place, place_at};
ghost use Rattle.js_output.specs.Device.{input_limit, Unflushed};
ghost use Rattle.js_output.specs.Documents.{documents_of};
ghost use Rattle.js_output.specs.Entry.{entry_causes};
ghost use Rattle.js_output.specs.Outcome.{beginning_causes, Outcome, FinishedOutcome, output_report};
ghost use Rattle.js_output.specs.Outcome.{InstanceOutcome, IsLateOrMemory, UsesSource};
ghost use Rattle.js_output.specs.Report.{Answers, Reports};

use crate::documents::finished;
use crate::entry::entry_place;
use crate::fault::Fault;
use crate::input::read_all;
use crate::judging::judge_text;
use crate::sink::Sink;
use crate::source::Source;
use js_bundle::{Place, Schemas};
use js_eval::Limits;
use js_tree::Format;
use std::alloc::Global;
use std::io::{Read, Write};

/// Whether the schema that the entry names accepts the instance. Writes the output in the format,
/// and a line feed (JSON Schema Core, section 12.4).
///
/// Each document is passed in with its URI; nothing is fetched.
///
/// # Errors
/// The first that applies, of: the refusal of a document, in their order, and the first refusal of
/// all; that of the entry; `Read` and `InputTooLarge` of the instance's source; the refusal of the
/// instance's text; `TooLarge`, if no result is within the limits of `js_eval`; `Write`. `Memory` can
/// come at any point before the first write. After `Write` a prefix of the text has been written,
/// and after any other fault nothing.
pub fn run<R: Read, W: Write>(
    alloc: Global,
    docs: &[(&str, &[u8])],
    entry: &str,
    instance: &mut Source<R>,
    format: Format,
    out: &mut Sink<W>,
) -> Result<bool, Fault>
    // The instance's bytes have this outcome, and its text was written.
    ensures answer { Answers output_report (Outcome (documents_of docs.now) entry.now format)
        (beginning_causes (documents_of docs.now) entry.now)
        (R.remaining instance.old.device) W.contents out.old out.new result }

    // The instance is read unless a fault comes first.
    ensures source { UsesSource instance.old instance.new result }

    // Without output nothing is written.
    ensures nothing { IfErr result (λ e. e ≢ Fault.Write → out.new ≡ out.old) }
    ensures unflushed { Unflushed out.old out.new }
    ensures sink_stays { out.old.failed ≡ true → out.new ≡ out.old }
{
    let schemas = finished(alloc, docs)?;
    run_read(alloc, &schemas, entry, instance, format, out)
}

/// [`run`] over finished schemas, of an instance that has been read: [`crate::run_finished`] without the
/// test of its size.
///
/// # Errors
/// Those of [`crate::run_finished`], except `InputTooLarge`.
pub fn run_text<W: Write>(
    alloc: Global,
    schemas: &Schemas,
    entry: &str,
    instance: &[u8],
    format: Format,
    out: &mut Sink<W>,
) -> Result<bool, Fault>
    requires { length instance.now ≤ input_limit }

    // The entry and the instance have this outcome over these schemas, and its text was written.
    ensures answer { Reports output_report
        (FinishedOutcome schemas.now entry.now format instance.now) W.contents
        out.old out.new result }

    // Without output nothing is written.
    ensures nothing { IfErr result (λ e. e ≢ Fault.Write → out.new ≡ out.old) }
    ensures unflushed { Unflushed out.old out.new }
    ensures sink_stays { out.old.failed ≡ true → out.new ≡ out.old }
{
    let place = entry_place(alloc, schemas, entry)?;
    judge_fitting(alloc, schemas, place, instance, format, out)
}

// Looks the entry up in finished schemas, then reads the instance and judges it.
fn run_read<R: Read, W: Write>(
    alloc: Global,
    schemas: &Schemas,
    entry: &str,
    instance: &mut Source<R>,
    format: Format,
    out: &mut Sink<W>,
) -> Result<bool, Fault>
    ensures answer { Answers output_report (FinishedOutcome schemas.now entry.now format)
        (entry_causes schemas.now entry.now)
        (R.remaining instance.old.device) W.contents out.old out.new result }
    ensures source { UsesSource instance.old instance.new result }
    ensures nothing { IfErr result (λ e. e ≢ Fault.Write → out.new ≡ out.old) }
    ensures unflushed { Unflushed out.old out.new }
    ensures sink_stays { out.old.failed ≡ true → out.new ≡ out.old }
{
    let place = entry_place(alloc, schemas, entry)?;
    let bytes = read_all(alloc, instance)?;
    judge_fitting(alloc, schemas, place, bytes.as_slice(), format, out)
}

// Judges an instance whose size was tested as it was read.
fn judge_fitting<W: Write>(
    alloc: Global,
    schemas: &Schemas,
    place: Place,
    instance: &[u8],
    format: Format,
    out: &mut Sink<W>,
) -> Result<bool, Fault>
    requires there { is_place schemas.now place ≡ true }
    requires fits { length instance.now ≤ input_limit }
    ensures answer { Reports output_report
        (InstanceOutcome schemas.now (place_at schemas.now place) format instance.now) W.contents
        out.old out.new result }
    ensures late { IfErr result IsLateOrMemory }
    ensures nothing { IfErr result (λ e. e ≢ Fault.Write → out.new ≡ out.old) }
    ensures unflushed { Unflushed out.old out.new }
    ensures sink_stays { out.old.failed ≡ true → out.new ≡ out.old }
{
    judge_text(
        alloc,
        schemas,
        place,
        format,
        Limits::standard(),
        instance,
        out,
    )
}

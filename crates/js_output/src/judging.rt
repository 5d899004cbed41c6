//! From the instance's text to the verdict and the output.
ghost use Rattle.std.specs.Prelude.{◌≡◌, ◌≢◌, true, IfErr, IfOk};
ghost use Rattle.js_doc.specs.Seen.{value_of};
ghost use Rattle.js_bundle.specs.Schemas.{is_place, place_at};
ghost use Rattle.js_output.specs.Device.{Unflushed};
ghost use Rattle.js_output.specs.Outcome.{ValueOutcome, TextOutcome, output_report, IsLateOrMemory};
ghost use Rattle.js_output.specs.Report.{Reports};

use crate::fault::Fault;
use crate::prepared::Prepared;
use crate::sink::Sink;
use crate::text::value_from;
use bumpalo::Bump;
use js_bundle::{Place, Schemas};
use js_doc::{Doc, ReadFault};
use js_eval::Limits;
use js_tree::Format;
use std::alloc::Global;
use std::io::Write;

/// Judges the instance with this text by the schema at the place, and writes the output in the
/// format.
pub(crate) fn judge_text<W: Write>(
    alloc: Global,
    schemas: &Schemas,
    place: Place,
    format: Format,
    limits: Limits,
    bytes: &[u8],
    out: &mut Sink<W>,
) -> Result<bool, Fault>
    requires { is_place schemas.now place ≡ true }
    ensures answer { Reports output_report (TextOutcome limits schemas.now
        (place_at schemas.now place) format bytes.now)
        W.contents out.old out.new result }
    ensures late { IfErr result IsLateOrMemory }
    ensures nothing { IfErr result (λ e. e ≢ Fault.Write → out.new ≡ out.old) }
    ensures unflushed { Unflushed out.old out.new }
    ensures sink_stays { out.old.failed ≡ true → out.new ≡ out.old }
{
    match value_from(alloc, bytes) {
        Ok(instance) => judge_value(alloc, schemas, place, format, limits, &instance, out),
        Err(ReadFault::Memory) => Err(Fault::Memory),
        Err(fault) => Err(Fault::Instance(fault)),
    }
}

// All allocations come before the first byte is written.
fn judge_value<W: Write>(
    alloc: Global,
    schemas: &Schemas,
    place: Place,
    format: Format,
    limits: Limits,
    instance: &Doc,
    out: &mut Sink<W>,
) -> Result<bool, Fault>
    requires { is_place schemas.now place ≡ true }
    ensures answer { Reports output_report (ValueOutcome limits schemas.now
        (place_at schemas.now place) (value_of instance.now) format)
        W.contents out.old out.new result }
    ensures late { IfErr result IsLateOrMemory }
    ensures nothing { IfErr result (λ e. e ≢ Fault.Write → out.new ≡ out.old) }
    ensures unflushed { Unflushed out.old out.new }
    ensures sink_stays { out.old.failed ≡ true → out.new ≡ out.old }
{
    let arena = Bump::new(alloc);
    let prepared = Prepared::new(alloc, &arena, schemas, place, format, limits, instance)?;
    let valid = prepared.root_valid();
    prepared.write(out)?;
    Ok(valid)
}

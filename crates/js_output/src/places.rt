//! The places of documents, as a list of their absolute locations.
ghost use Rattle.std.specs.Prelude.{◌≡◌, ◌≢◌, ◌≤◌, ◌+◌, true, false, length, string_bytes, OnOk, IfOk, IfErr, IsErrOf};
ghost use Rattle.std.specs.Io.KnownBytes.{Appends};
ghost use Rattle.js_bundle.specs.Resource.{sites};
ghost use Rattle.js_output.specs.Cause.{MayGoOn, FailsBy};
ghost use Rattle.js_output.specs.Device.{AppendsBeginning, Unflushed};
ghost use Rattle.js_output.specs.Documents.{documents_of, documents_causes};
ghost use Rattle.js_output.specs.Outcome.{IsEarlyOrMemory};
ghost use Rattle.js_output.specs.Places.{lines_of, places_of, places_text, ReportsPlaces};

use crate::documents::finished;
use crate::fault::Fault;
use crate::sink::Sink;
use js_bundle::Schemas;
use std::alloc::Global;
use std::io::Write;

/// Writes the absolute location of each place of the documents and a line feed, in scan order
/// (JSON Schema Core, section 12.3.2), and returns how many places there are.
///
/// Each document is passed in with its URI; nothing is fetched.
///
/// # Errors
/// The first that applies, of: the refusal of a document, in their order; the first refusal of all;
/// `Write`. `Memory` can come at any point before the first write. After `Write` a prefix of the
/// text has been written, and after any other fault nothing.
pub fn run_places<W: Write>(
    alloc: Global,
    docs: &[(&str, &[u8])],
    out: &mut Sink<W>,
) -> Result<u64, Fault>
    ensures answer { ReportsPlaces (documents_of docs.now) result }

    // The whole text is written, and nothing else.
    ensures text { OnOk result (Appends (W.contents out.old.device)
        (W.contents out.new.device) (places_text (documents_of docs.now))) }
    ensures whole { OnOk result (out.new.failed ≡ false) }
    ensures write { IsErrOf result Fault.Write → out.new.failed ≡ true }
    ensures beginning { IsErrOf result Fault.Write
        → AppendsBeginning (W.contents out.old.device) (W.contents out.new.device)
        (places_text (documents_of docs.now)) }
    ensures nothing { IfErr result (λ e. e ≢ Fault.Write → out.new ≡ out.old) }
    ensures writes { out.new.calls
        ≤ out.old.calls + length (places_text (documents_of docs.now)) }
    ensures unflushed { Unflushed out.old out.new }
    ensures sink_stays { out.old.failed ≡ true → out.new ≡ out.old }
{
    let report = places_report(alloc, docs)?;
    out.write_all(report.text.as_bytes())?;
    Ok(report.count)
}

/// The absolute location of each place of finished schemas and a line feed, in scan order: the text
/// that [`run_places`] writes of their documents.
///
/// # Errors
/// `Memory`.
pub fn list_places(alloc: Global, schemas: &Schemas) -> Result<String, Fault>
    ensures text { IfOk result (λ text. string_bytes text ≡ lines_of (sites schemas.now)) }
    ensures memory { IfErr result (λ e. e ≡ Fault.Memory) }
{
    Ok(report_of_places(alloc, schemas)?.text)
}

// The list of places, and how many they are.
#[derive(Drop)]
struct PlacesReport {
    text: String,
    count: u64,
}

fn places_report(alloc: Global, docs: &[(&str, &[u8])]) -> Result<PlacesReport, Fault>
    ensures text { IfOk result (λ t.
        string_bytes t.text ≡ places_text (documents_of docs.now)) }
    ensures count { IfOk result (λ t. t.count ≡ length (places_of (documents_of docs.now))) }
    ensures clear { OnOk result (MayGoOn (documents_causes (documents_of docs.now))) }
    ensures err { IfErr result (FailsBy (documents_causes (documents_of docs.now))) }
    ensures early { IfErr result IsEarlyOrMemory }
{
    let schemas = finished(alloc, docs)?;
    report_of_places(alloc, &schemas)
}

fn report_of_places(alloc: Global, schemas: &Schemas) -> Result<PlacesReport, Fault>
    ensures text { IfOk result (λ t. string_bytes t.text ≡ lines_of (sites schemas.now)) }
    ensures count { IfOk result (λ t. t.count ≡ length (sites schemas.now)) }
    ensures memory { IfErr result (λ e. e ≡ Fault.Memory) }
{
    let places = schemas.places(alloc)?;
    let mut text = String::new(alloc);
    for place in places.as_slice() {
        let location = schemas.absolute(alloc, *place, None)?;
        text.push_str(location.as_str())?;
        text.push('\n')?;
    }
    Ok(PlacesReport {
        text,
        count: places.len() as u64,
    })
}

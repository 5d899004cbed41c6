//! The program, from its arguments to its exit status.
ghost use Rattle.std.specs.Prelude.{◌≡◌, ◌<◌, ◌⊎◌, ◌++◌, ◌∷◌, [], Ok, Err, ℕ, List, IfOk, IfErr, IfSome, OnOk, OnErr};
ghost use Rattle.std.specs.Prelude.{map, string_bytes};
ghost use Rattle.js_doc.specs.Seen.{value_of};
ghost use Rattle.js_output.specs.Device.{AppendsBeginning};
ghost use Rattle.js_output.specs.Line.{failed_memory};
ghost use Rattle.js_command.specs.Answer.{IsWrittenOrFailed};
ghost use Rattle.js_command.specs.Words.{words_of};
ghost use Rattle.js_upgrade_cli.specs.Outcome.{AllFlushes, IsAllDone, IsDone, IsStopReason, IsRequestStopped};
ghost use Rattle.js_upgrade_cli.specs.Outcome.{UpgradeOutcome, IsUpgradeStop};
ghost use Rattle.js_upgrade_cli.specs.Outputs.{Flushes};
ghost use Rattle.js_upgrade_cli.specs.Stop.{stop_line};
ghost use Rattle.js_upgrade_cli.specs.Words.{upgrade_request_of, upgrade_usage_line};
ghost use Rattle.js_upgrade_cli.specs.code.Seen.{upgrade_misuse_status, misuse_text, upgrade_request_seen};
ghost use Rattle.js_upgrade_cli.specs.declared.words.UpgradeMisuse.{UpgradeMisuse};

use crate::documents::take_all;
use crate::folder::Folder;
use crate::outputs::write_documents;
use crate::request::{UpgradeRequest, upgrade_request_of};
use crate::sources::sources_of;
use crate::stop::{RequestStop, stop_line};
use crate::upgraded::upgraded_or_refused;
use crate::words::{
    DIALECT_USAGE, FOLDER_USAGE, NAMES_USAGE, NUMBERS_USAGE, UPGRADE_USAGE, UpgradeMisuse,
};
use js_command::{FAILED, Files, MISUSED, PAIRS_USAGE};
use js_doc::Doc;
use js_output::Sink;
use std::alloc::Global;
use std::io::Write;

/// The exit status if all documents were upgraded and written.
pub const DONE: u8 = 0;

/// Runs the program on its arguments (`words`, without the program's name) and returns the exit status: [`DONE`],
/// `MISUSED`, `REFUSED` or `FAILED` of `js_command`.
///
/// The words are `[--default-dialect DIALECT] [--numbers RANGE] [--into FOLDER] URI FILE [URI FILE]...`. Options may
/// stand anywhere before `--`. RANGE is `exact`, where integers take the place of numbers that say the same, or
/// `whole`. The files are taken in the order given, and all documents are upgraded before one is written: as its
/// compact text and a line feed, to `out`, which is flushed then; or with `--into` to the path that `folder` has
/// under FOLDER for the file's name. `faults` gets a usage text, or the line of a fault and a line feed (nothing if
/// memory for the line runs out); its own failure changes no status.
pub fn upgrade_command<'a, F: Files, P: Folder, W: Write, V: Write>(
    alloc: Global,
    words: &'a [&'a str],
    files: &mut F,
    folder: &mut P,
    out: &mut Sink<W>,
    faults: &mut Sink<V>,
) -> u8
    ensures named { (result ≡ 0) ⊎ (result ≡ 2) ⊎ (result ≡ 3) ⊎ (result ≡ 4) }

    // 0: the documents that the words name, as their files hold them, were upgraded and written.
    ensures done { result ≡ 0 → IsAllDone (words_of words.entry.now) (F.contents files.old)
        (W.contents out.old.device) (W.contents out.new.device) (P.written folder.old) (P.written folder.new) }
    ensures flushed { result ≡ 0 → AllFlushes (words_of words.entry.now) out.old out.new }
    ensures quiet { result ≡ 0 → faults.new ≡ faults.old }

    // 2: the words ask for nothing. The usage text was written whole, unless standard error has failed.
    ensures misused { OnErr (upgrade_request_of (words_of words.entry.now)) ((result ≡ 2) ⊎ (result ≡ 4)) }
    ensures usage { result ≡ 2 → (m : UpgradeMisuse) × (upgrade_request_of (words_of words.entry.now) ≡ Err m)
        × IsWrittenOrFailed (V.contents faults.old.device) (V.contents faults.new.device) faults.new.failed
        (upgrade_usage_line m) }
    ensures nothing { result ≡ 2 → (out.new ≡ out.old) × (P.written folder.new ≡ P.written folder.old) }

    // 3 and 4: the line of the reason was written, or a prefix of it.
    ensures reported { 2 < result → (line : List ℕ)
        × IsStopReason (words_of words.entry.now) (F.contents files.old) (W.contents out.old.device)
        (W.contents out.new.device) out.new.failed (P.written folder.old) (P.written folder.new) result line
        × AppendsBeginning (V.contents faults.old.device) (V.contents faults.new.device) (line ++ 10 ∷ []) }
{
    let request = match upgrade_request_of(alloc, words) {
        Ok(request) => request,
        Err(misuse) => return report_misuse(misuse, faults),
    };
    match perform(alloc, &request, files, folder, out) {
        Ok(()) => DONE,
        Err(stop) => {
            report(alloc, &request, &stop, faults);
            stop.status()
        }
    }
}

// Upgrades the documents, and writes them.
fn perform<F: Files, P: Folder, W: Write>(
    alloc: Global,
    request: &UpgradeRequest,
    files: &mut F,
    folder: &mut P,
    out: &mut Sink<W>,
) -> Result<(), RequestStop>
    ensures done { OnOk result (IsDone (F.contents files.old) (upgrade_request_seen request.now)
        (W.contents out.old.device) (W.contents out.new.device) (P.written folder.old) (P.written folder.new)) }
    ensures flushed { OnOk result (Flushes (upgrade_request_seen request.now).into out.old out.new) }
    ensures stop { IfErr result (λ s. IsRequestStopped (F.contents files.old) (upgrade_request_seen request.now)
        (W.contents out.old.device) (W.contents out.new.device) out.new.failed
        (P.written folder.old) (P.written folder.new) s.document s.fault) }
{
    let documents = documents_upgraded(alloc, request, files)?;
    write_documents(alloc, request, documents.as_slice(), folder, out)
}

fn documents_upgraded<F: Files>(
    alloc: Global,
    request: &UpgradeRequest,
    files: &mut F,
) -> Result<Vec<Doc>, RequestStop>
    ensures ok { IfOk result (λ v. UpgradeOutcome (F.contents files.old) (upgrade_request_seen request.now)
        (Ok (map value_of v.items))) }
    ensures stop { IfErr result (λ s. IsUpgradeStop (F.contents files.old) (upgrade_request_seen request.now)
        s.document s.fault) }
{
    let taken = take_all(alloc, request.documents.as_slice(), files)?;
    let sources = sources_of(alloc, request.numbers, request.assumed, taken.as_slice())?;
    Ok(upgraded_or_refused(alloc, sources.as_slice())?)
}

// Writes the line that says why, and a line feed, or nothing if there is no memory for them.
fn report<V: Write>(
    alloc: Global,
    request: &UpgradeRequest,
    stop: &RequestStop,
    faults: &mut Sink<V>,
)
    ensures { AppendsBeginning (V.contents faults.old.device) (V.contents faults.new.device)
        (stop_line (upgrade_request_seen request.now) stop.now ++ 10 ∷ []) }
{
    if let Some(line) = ended_line(alloc, request, stop) {
        let _ = faults.write_all(line.as_bytes());
    }
}

fn ended_line(alloc: Global, request: &UpgradeRequest, stop: &RequestStop) -> Option<String>
    ensures { IfSome result (λ line. string_bytes line
        ≡ stop_line (upgrade_request_seen request.now) stop.now ++ 10 ∷ []) }
{
    let mut line = stop_line(alloc, request, stop).ok()?;
    line.push('\n').ok()?;
    Some(line)
}

// Writes the usage text, or that memory ran out. They stand in the program, so they take no memory.
fn report_misuse<V: Write>(misuse: UpgradeMisuse, faults: &mut Sink<V>) -> u8
    ensures status { result ≡ upgrade_misuse_status misuse }
    ensures usage { result ≡ 2 → IsWrittenOrFailed (V.contents faults.old.device)
        (V.contents faults.new.device) faults.new.failed (upgrade_usage_line misuse) }
    ensures reported { result ≡ 4 → AppendsBeginning (V.contents faults.old.device)
        (V.contents faults.new.device) (failed_memory ++ 10 ∷ []) }
{
    let _ = faults.write_all(usage_text(misuse));
    if let UpgradeMisuse::Memory = misuse {
        FAILED
    } else {
        MISUSED
    }
}

fn usage_text(misuse: UpgradeMisuse) -> &'static [u8]
    ensures { result.now ≡ misuse_text misuse }
{
    match misuse {
        UpgradeMisuse::Memory => b"failed: Memory\n",
        UpgradeMisuse::OtherForm => UPGRADE_USAGE,
        UpgradeMisuse::OddPairs => PAIRS_USAGE,
        UpgradeMisuse::NoDialect => DIALECT_USAGE,
        UpgradeMisuse::NoNumbers => NUMBERS_USAGE,
        UpgradeMisuse::NoFolder => FOLDER_USAGE,
        UpgradeMisuse::OneName => NAMES_USAGE,
    }
}

//! The program, from its arguments to its exit status.
ghost use Rattle.std.specs.Prelude.{◌≡◌, ◌≢◌, ◌≤◌, ◌<◌, ◌⊎◌, ◌==◌, ◌++◌, ◌∷◌, [], false, true, IfOk, IfErr, OnOk};
ghost use Rattle.std.specs.Prelude.{OnErr};
ghost use Rattle.std.specs.Io.KnownBytes.{Keeps};
ghost use Rattle.js_output.specs.Device.{AppendsBeginning, FlushedOnce};
ghost use Rattle.js_output.specs.Line.{fault_line};
ghost use Rattle.js_output.specs.declared.fault.Fault.{Fault};
ghost use Rattle.js_command.specs.Words.{request_of, usage_line, words_of};
ghost use Rattle.js_command.specs.declared.words.Misuse.{Misuse};
ghost use Rattle.js_command.specs.Answer.{RequestOutcome, WordsOutcome, IsReported, IsPartlyReported, IsReason};
ghost use Rattle.js_command.specs.Answer.{IsWrittenOrFailed, UsesInput};
ghost use Rattle.js_command.specs.Status.{fault_status};
ghost use Rattle.js_command.specs.code.Tasks.{ReadsInput, answer_after_flush, request_seen};

use crate::files::Files;
use crate::messages::{report, report_misuse};
use crate::status::{INVALID, VALID, status_of};
use crate::tasks::perform;
use crate::words::{Task, task_of};
use js_output::{Fault, Sink, Source};
use std::alloc::Global;
use std::io::{Read, Write};

/// Runs the program on its arguments (`words`, without the program's name) and returns the exit
/// status: [`crate::VALID`], [`crate::INVALID`], [`crate::MISUSED`], [`crate::REFUSED`] or
/// [`crate::FAILED`].
///
/// | words | task |
/// |---|---|
/// | none | `js_output::run_pair` on `input` |
/// | `check FORMAT INSTANCE ENTRY [URI FILE]...` | `js_output::run` on the instance |
/// | `suite SUITE [URI FILE]...` | `js_output::run_suite_text` on the suite |
/// | `places [URI FILE]...` | `js_output::run_places` on the documents |
///
/// The files of the documents are taken in the order given, then INSTANCE or SUITE. FORMAT is the
/// name of a `js_output::Format`.
///
/// The output goes to `out`, which is flushed once, as the last thing. A fault of this flush counts
/// only if there was no other. `faults` gets a usage text, or the line of a fault and a line feed
/// (nothing if memory for the line runs out); its own failure changes no status.
pub fn command<'a, F: Files, R: Read, W: Write, V: Write>(
    alloc: Global,
    words: &'a [&'a str],
    files: &mut F,
    input: &mut Source<R>,
    out: &mut Sink<W>,
    faults: &mut Sink<V>,
) -> u8
    ensures named { result ≤ 4 }

    // 0: the outcome of the words, by what the files and the input hold, is valid. 1: it is invalid.
    // The text that says so was written.
    ensures verdict { result < 2 → IsReported
        (WordsOutcome (words_of words.entry.now) (F.contents files.old)
        (R.remaining input.old.device) input.new.failed)
        (result == 0) (W.contents out.old.device) (W.contents out.new.device) }
    ensures whole { result < 2 → out.new.failed ≡ false }

    // Whatever the status, the output was flushed once, as the last call of its device; only a
    // device that had failed before wasn't called again.
    ensures flushed { FlushedOnce out.old out.new }

    // Only a task without words reads the input.
    ensures input { UsesInput (request_of (words_of words.entry.now)) input.old input.new result }

    // Nothing was written to the output.
    ensures nothing { (result ≡ 2) ⊎ (result ≡ 3)
        → Keeps (W.contents out.old.device) (W.contents out.new.device) }

    // Nothing was written; or the output has failed, after a prefix of such a text.
    ensures beginning { result ≡ 4
        → Keeps (W.contents out.old.device) (W.contents out.new.device)
        ⊎ ((out.new.failed ≡ true) × IsPartlyReported
        (WordsOutcome (words_of words.entry.now) (F.contents files.old)
        (R.remaining input.old.device) input.new.failed)
        (W.contents out.old.device) (W.contents out.new.device)) }

    // What went to standard error, and its reason: a usage text whole, unless standard error has
    // failed; of a line maybe only a prefix. After any fault but `Write` nothing was written to
    // the output.
    ensures quiet { result < 2 → faults.new ≡ faults.old }
    ensures misused { OnErr (request_of (words_of words.entry.now)) ((result ≡ 2) ⊎ ((result ≡ 4)
        × AppendsBeginning (V.contents faults.old.device) (V.contents faults.new.device)
        (fault_line Fault.Memory ++ 10 ∷ []))) }
    ensures usage { result ≡ 2 → (m : Misuse) × (request_of (words_of words.entry.now) ≡ Err m)
        × IsWrittenOrFailed (V.contents faults.old.device) (V.contents faults.new.device)
        faults.new.failed (usage_line m) }
    ensures reported { 2 < result → (fault : Fault) × (fault_status fault ≡ result)
        × IsReason (WordsOutcome (words_of words.entry.now) (F.contents files.old)
        (R.remaining input.old.device) input.new.failed)
        (W.contents out.old.device) (W.contents out.new.device) out.new.failed fault
        × (fault ≢ Fault.Write → Keeps (W.contents out.old.device) (W.contents out.new.device))
        × AppendsBeginning (V.contents faults.old.device) (V.contents faults.new.device)
        (fault_line fault ++ 10 ∷ []) }
{
    let task = match task_of(alloc, words) {
        Ok(task) => task,
        Err(misuse) => {
            let status = report_misuse(alloc, misuse, faults);
            let _ = out.flush();
            return status;
        }
    };
    match perform_whole(alloc, task, files, input, out) {
        Ok(true) => VALID,
        Ok(false) => INVALID,
        Err(fault) => {
            report(alloc, &fault, faults);
            status_of(&fault)
        }
    }
}

// Does the task, and then flushes the output.
fn perform_whole<F: Files, R: Read, W: Write>(
    alloc: Global,
    task: Task,
    files: &mut F,
    input: &mut Source<R>,
    out: &mut Sink<W>,
) -> Result<bool, Fault>
    ensures reported { IfOk result (λ valid. IsReported
        (RequestOutcome (F.contents files.old) (R.remaining input.old.device) input.new.failed
        (request_seen task.entry)) valid
        (W.contents out.old.device) (W.contents out.new.device)) }
    ensures whole { OnOk result (out.new.failed ≡ false) }
    ensures nothing { IfErr result (λ e. e ≢ Fault.Write
        → Keeps (W.contents out.old.device) (W.contents out.new.device)) }
    ensures reason { IfErr result (IsReason
        (RequestOutcome (F.contents files.old) (R.remaining input.old.device) input.new.failed
        (request_seen task.entry))
        (W.contents out.old.device) (W.contents out.new.device) out.new.failed) }
    ensures flushed { FlushedOnce out.old out.new }
    ensures input { ReadsInput (request_seen task.entry) input.old input.new result }
{
    let answer = perform(alloc, task, files, input, out);
    let flushed = out.flush();
    answer_after_flush(answer, flushed)
}

// A fault of the last flush counts only if none came before.
fn answer_after_flush(
    answer: Result<bool, Fault>,
    flushed: Result<(), Fault>,
) -> Result<bool, Fault>
    ensures { result ≡ answer_after_flush answer flushed }
{
    let valid = answer?;
    flushed?;
    Ok(valid)
}

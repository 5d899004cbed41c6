//! The tasks, each over its files.
ghost use Rattle.std.specs.Prelude.{◌≡◌, ◌≢◌, None, false, IfErr};
ghost use Rattle.js_output.specs.Device.{Unflushed};
ghost use Rattle.js_command.specs.Words.{places, pairs_seen};
ghost use Rattle.js_command.specs.Answer.{RequestOutcome, Performs, all_passed};
ghost use Rattle.js_command.specs.code.Tasks.{ReadsInput, judging_seen, request_seen};

use crate::documents::{Texts, take_documents, take_texts};
use crate::files::Files;
use crate::words::{DocumentFile, Judgement, Subject, Task};
use js_output::{Counts, Fault, Sink, Source, list_places, run_pair, run_suite_text, run_text};
use std::alloc::Global;
use std::io::{Read, Write};

/// Does a task, whose text goes to `out`: whether the instance is valid, or the suite passed. A list
/// of places is always `true`.
pub(crate) fn perform<F: Files, R: Read, W: Write>(
    alloc: Global,
    task: Task,
    files: &mut F,
    input: &mut Source<R>,
    out: &mut Sink<W>,
) -> Result<bool, Fault>
    ensures answer { Performs
        (RequestOutcome (F.contents files.old) (R.remaining input.old.device) input.new.failed
        (request_seen task.entry)) W.contents out.old out.new result }
    ensures input { ReadsInput (request_seen task.entry) input.old input.new result }
    ensures nothing { IfErr result (λ e. e ≢ Fault.Write → out.new ≡ out.old) }
    ensures unflushed { Unflushed out.old out.new }
{
    match task {
        Task::Pair => run_pair(alloc, input, out),
        Task::Judge(judging) => perform_judging(alloc, &judging, files, out),
        Task::Places(documents) => perform_places(alloc, documents.as_slice(), files, out),
    }
}

fn perform_judging<F: Files, W: Write>(
    alloc: Global,
    judging: &Judgement,
    files: &mut F,
    out: &mut Sink<W>,
) -> Result<bool, Fault>
    ensures answer { Performs
        (RequestOutcome (F.contents files.old) None false (judging_seen judging.now))
        W.contents out.old out.new result }
    ensures nothing { IfErr result (λ e. e ≢ Fault.Write → out.new ≡ out.old) }
    ensures unflushed { Unflushed out.old out.new }
{
    let texts = take_texts(alloc, judging.documents.as_slice(), judging.file, files)?;
    let Texts { documents, judged } = texts;
    let schemas = documents.into_schemas(alloc)?;
    let text = judged.as_slice();
    match &judging.subject {
        Subject::Instance(format, entry) => run_text(alloc, &schemas, entry, text, *format, out),
        Subject::Suite => {
            let counts = run_suite_text(alloc, &schemas, text, out)?;
            Ok(all_passed(&counts))
        }
    }
}

// No test of a suite failed, and none was skipped.
fn all_passed(counts: &Counts) -> bool
    ensures { result ≡ all_passed counts.now }
{
    counts.failed == 0 && counts.skipped == 0
}

fn perform_places<F: Files, W: Write>(
    alloc: Global,
    documents: &[DocumentFile],
    files: &mut F,
    out: &mut Sink<W>,
) -> Result<bool, Fault>
    ensures answer { Performs
        (RequestOutcome (F.contents files.old) None false (places (pairs_seen documents.now)))
        W.contents out.old out.new result }
    ensures nothing { IfErr result (λ e. e ≢ Fault.Write → out.new ≡ out.old) }
    ensures unflushed { Unflushed out.old out.new }
{
    let taken = take_documents(alloc, documents, files)?;
    let schemas = taken.into_schemas(alloc)?;
    let text = list_places(alloc, &schemas)?;
    out.write_all(text.as_bytes())?;
    Ok(true)
}

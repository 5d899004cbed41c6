//! A document and an instance in one input.
ghost use Rattle.std.specs.Prelude.{◌≡◌, ◌≢◌, ◌≤◌, ◌+◌, ◌↔◌, [], true, Err, length, ◌<◌, IfSome, IfErr, IsErrOf};
ghost use Rattle.js_output.specs.Device.{input_limit, Unflushed};
ghost use Rattle.js_output.specs.Outcome.{OutcomeOfTexts, PairOutcome, first_line_feed, text_before, text_after};
ghost use Rattle.js_output.specs.Outcome.{output_report};
ghost use Rattle.js_output.specs.Report.{Answers, Reports};

use crate::documents::finished;
use crate::fault::Fault;
use crate::input::read_all;
use crate::running::run_text;
use crate::sink::Sink;
use crate::source::Source;
use js_tree::Format;
use std::alloc::Global;
use std::io::{Read, Write};

/// The URI of a pair's document.
const PAIR_URI: &str = "https://a.example/s";

/// Runs a pair in one input. The bytes before the first line feed are the only document; its URI,
/// `https://a.example/s`, is the entry. The bytes after it are the instance; without a line feed
/// there are none. The format is flag.
///
/// # Errors
/// `Read` and `InputTooLarge`, since the whole input is read first. Then those of [`crate::run`].
pub fn run_pair<R: Read, W: Write>(
    alloc: Global,
    input: &mut Source<R>,
    out: &mut Sink<W>,
) -> Result<bool, Fault>
    // The input's bytes have this outcome, and its text was written.
    ensures answer { Answers output_report PairOutcome [] (R.remaining input.old.device) W.contents
        out.old out.new result }
    ensures read { result ≢ Err Fault.Memory
        → (IsErrOf result Fault.Read ↔ (input.new.failed ≡ true)) }
    ensures reads { input.new.calls ≤ input.old.calls + (input_limit + 1) }
    ensures source_stays { input.old.failed ≡ true → input.new ≡ input.old }

    // Without output nothing is written.
    ensures nothing { IfErr result (λ e. e ≢ Fault.Write → out.new ≡ out.old) }
    ensures unflushed { Unflushed out.old out.new }
    ensures sink_stays { out.old.failed ≡ true → out.new ≡ out.old }
{
    let bytes = read_all(alloc, input)?;
    let (document, instance) = texts_of(bytes.as_slice());
    run_texts(alloc, document, instance, out)
}

// The bytes before the first line feed, and those after it.
fn texts_of(bytes: &[u8]) -> (&[u8], &[u8])
    ensures before { result.0.now ≡ text_before (first_line_feed bytes.now) bytes.now }
    ensures after { result.1.now ≡ text_after (first_line_feed bytes.now) bytes.now }
{
    match first_line_feed(bytes) {
        Some(at) => (&bytes[..at], &bytes[at + 1..]),
        None => (bytes, b""),
    }
}

fn first_line_feed(bytes: &[u8]) -> Option<usize>
    ensures at { result ≡ first_line_feed bytes.now }
    ensures within { IfSome result (λ at. at < length bytes.now) }
{
    bytes.iter().position(|byte| *byte == b'\n')
}

fn run_texts<W: Write>(
    alloc: Global,
    document: &[u8],
    instance: &[u8],
    out: &mut Sink<W>,
) -> Result<bool, Fault>
    requires { length instance.now ≤ input_limit }
    ensures answer { Reports output_report (OutcomeOfTexts document.now instance.now) W.contents
        out.old out.new result }
    ensures nothing { IfErr result (λ e. e ≢ Fault.Write → out.new ≡ out.old) }
    ensures unflushed { Unflushed out.old out.new }
    ensures sink_stays { out.old.failed ≡ true → out.new ≡ out.old }
{
    let docs = [(PAIR_URI, document)];
    let schemas = finished(alloc, &docs)?;
    run_text(alloc, &schemas, PAIR_URI, instance, Format::Flag, out)
}

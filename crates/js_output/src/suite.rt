//! A suite of tests, run over documents.
ghost use Rattle.std.specs.Prelude.{◌≡◌, ◌≢◌, ◌≤◌, true, length, IfErr};
ghost use Rattle.js_output.specs.Device.{input_limit, Unflushed};
ghost use Rattle.js_output.specs.Documents.{documents_of, documents_causes};
ghost use Rattle.js_output.specs.Outcome.{UsesSource};
ghost use Rattle.js_output.specs.Suite.{ReadLines, SuiteOutcome, lines_report, SendsLines, IsSuiteLate};
ghost use Rattle.js_output.specs.SuiteText.{suite_reading};
ghost use Rattle.js_output.specs.Report.{Answers, Reports};

use crate::documents::finished;
use crate::fault::Fault;
use crate::input::read_all;
use crate::sink::Sink;
use crate::source::Source;
use crate::suite_judging::judged_lines;
use crate::suite_lines::{Counts, TestLine, counts_of, lines_text};
use crate::suite_text::suite_from;
use js_bundle::Schemas;
use std::alloc::Global;
use std::io::{Read, Write};

/// Runs a suite of tests: a list of groups, each with a `description`, a `schema` and its `tests`; a
/// test has a `description`, its `data`, and whether this is `valid`. Other members are ignored.
///
/// Each document is passed in with its URI; nothing is fetched. The schema of group `G`, counted from
/// 0, is added after them as `https://suite.example/G`, and is the entry. A line is written for each
/// test: `pass` if the verdict on its data is the expected one, `fail` if it is the other one, and
/// `skip` if there is no verdict, because the group's documents are refused, a number in the data
/// isn't whole, or no result is within the limits of `js_eval`; then `G.T`, where `T` is the test's
/// number in its group, and the description as a JSON string. The last line is
/// `passed P, failed F, skipped S`; these counts are returned.
///
/// # Errors
/// The first that applies, of: the refusal of a document, in their order, and the first refusal of
/// all, of these documents alone; `Read` and `InputTooLarge` of the suite's source; `Suite`, if its
/// text isn't JSON, or at the first value that is missing or of the wrong kind: groups in order, the
/// members of each ascending by name, its tests in order; `Write`. `Memory` can come at any point
/// before the first write. After `Write` a prefix of the text has been written, and after any
/// other fault nothing.
pub fn run_suite<R: Read, W: Write>(
    alloc: Global,
    docs: &[(&str, &[u8])],
    suite: &mut Source<R>,
    out: &mut Sink<W>,
) -> Result<Counts, Fault>
    // The suite's bytes have these lines, and their text was written.
    ensures answer { Answers lines_report (SuiteOutcome (documents_of docs.now))
        (documents_causes (documents_of docs.now)) (R.remaining suite.old.device)
        W.contents out.old out.new result }

    // The suite is read unless a fault comes first.
    ensures source { UsesSource suite.old suite.new result }

    // Without lines nothing is written.
    ensures nothing { IfErr result (λ e. e ≢ Fault.Write → out.new ≡ out.old) }
    ensures unflushed { Unflushed out.old out.new }
    ensures sink_stays { out.old.failed ≡ true → out.new ≡ out.old }
{
    let schemas = finished(alloc, docs)?;
    let bytes = read_all(alloc, suite)?;
    run_suite_text(alloc, &schemas, bytes.as_slice(), out)
}

/// [`run_suite`] over finished schemas, of a suite that has been read.
///
/// # Errors
/// `Suite` and `Write`, as of [`run_suite`]; `Memory`.
pub fn run_suite_text<W: Write>(
    alloc: Global,
    schemas: &Schemas,
    suite: &[u8],
    out: &mut Sink<W>,
) -> Result<Counts, Fault>
    requires { length suite.now ≤ input_limit }

    // The suite has these lines, and their text was written.
    ensures answer { Reports lines_report (ReadLines schemas.now (suite_reading suite.now))
        W.contents out.old out.new result }
    ensures late { IfErr result IsSuiteLate }

    // Without lines nothing is written.
    ensures nothing { IfErr result (λ e. e ≢ Fault.Write → out.new ≡ out.old) }
    ensures unflushed { Unflushed out.old out.new }
    ensures sink_stays { out.old.failed ≡ true → out.new ≡ out.old }
{
    let groups = suite_from(alloc, suite)?;
    let lines = judged_lines(alloc, schemas, groups.as_slice())?;
    write_lines(alloc, lines.as_slice(), out)
}

// All allocations come before the first byte is written.
fn write_lines<W: Write>(
    alloc: Global,
    lines: &[TestLine],
    out: &mut Sink<W>,
) -> Result<Counts, Fault>
    ensures answer { SendsLines W.contents out.old out.new lines.now result }
    ensures nothing { IfErr result (λ e. e ≢ Fault.Write → out.new ≡ out.old) }
    ensures unflushed { Unflushed out.old out.new }
    ensures sink_stays { out.old.failed ≡ true → out.new ≡ out.old }
{
    let counts = counts_of(lines);
    let text = lines_text(alloc, lines, counts)?;
    out.write_all(text.as_bytes())?;
    Ok(counts)
}

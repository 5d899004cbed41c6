//! The output of a suite: a line for each test, and one with the counts.
ghost use Rattle.std.specs.Prelude.{◌≡◌, ◌++◌, OnOk, IfOk, string_bytes};
ghost use Rattle.js_output.specs.SuiteLines.{status_word, line_text, counts_of, counts_text, lines_text};

use js_doc::{Memory, Text, push_string};
use std::alloc::Global;

/// How many tests of a suite had each status.
#[derive(Debug, Clone, Copy, PartialEq, Eq)]
pub struct Counts {
    /// The verdict was the expected one.
    pub passed: u64,
    /// The verdict was the other one.
    pub failed: u64,
    /// There was no verdict.
    pub skipped: u64,
}

/// The status of a test.
#[derive(Clone, Copy)]
pub(crate) enum TestStatus {
    Pass,
    Fail,
    Skip,
}

/// The line of a test: its status, the number of its group and its own in the group, both counted
/// from 0, and its description.
#[derive(Drop)]
pub(crate) struct TestLine {
    pub(crate) status: TestStatus,
    pub(crate) group: usize,
    pub(crate) test: usize,
    pub(crate) description: Text,
}

/// The text of all lines, with the counts at the end.
pub(crate) fn lines_text(
    alloc: Global,
    lines: &[TestLine],
    counts: Counts,
) -> Result<String, Memory>
    requires { counts ≡ counts_of lines.now }
    ensures { IfOk result (λ text. string_bytes text ≡ lines_text lines.now) }
{
    let mut text = String::new(alloc);
    for line in lines {
        push_line(alloc, &mut text, line)?;
    }
    push_counts(alloc, &mut text, counts)?;
    Ok(text)
}

fn push_line(alloc: Global, text: &mut String, line: &TestLine) -> Result<(), Memory>
    ensures { OnOk result (string_bytes text.new ≡ string_bytes text.old ++ line_text line.now) }
{
    let line = line_text(alloc, line)?;
    text.push_str(line.as_str())?;
    Ok(())
}

fn line_text(alloc: Global, line: &TestLine) -> Result<String, Memory>
    ensures { IfOk result (λ text. string_bytes text ≡ line_text line.now) }
{
    let TestLine {
        status,
        group,
        test,
        description,
    } = line;
    let word = status_word(*status);
    let mut text = format!(in alloc; "{word} {group}.{test} ")?;
    push_string(&mut text, description.as_str())?;
    text.push('\n')?;
    Ok(text)
}

fn status_word(status: TestStatus) -> &'static str
    ensures { result.now ≡ status_word status }
{
    match status {
        TestStatus::Pass => "pass",
        TestStatus::Fail => "fail",
        TestStatus::Skip => "skip",
    }
}

fn push_counts(alloc: Global, text: &mut String, counts: Counts) -> Result<(), Memory>
    ensures { OnOk result (string_bytes text.new ≡ string_bytes text.old ++ counts_text counts) }
{
    let counts = counts_text(alloc, counts)?;
    text.push_str(counts.as_str())?;
    Ok(())
}

fn counts_text(alloc: Global, counts: Counts) -> Result<String, Memory>
    ensures { IfOk result (λ text. string_bytes text ≡ counts_text counts) }
{
    let Counts {
        passed,
        failed,
        skipped,
    } = counts;
    Ok(format!(in alloc; "passed {passed}, failed {failed}, skipped {skipped}\n")?)
}

/// How many lines have each status.
pub(crate) fn counts_of(lines: &[TestLine]) -> Counts
    ensures { result ≡ counts_of lines.now }
{
    let mut passed = 0;
    let mut failed = 0;
    let mut skipped = 0;
    for line in lines {
        match line.status {
            TestStatus::Pass => passed += 1,
            TestStatus::Fail => failed += 1,
            TestStatus::Skip => skipped += 1,
        }
    }
    Counts {
        passed,
        failed,
        skipped,
    }
}

//! The tests of a suite, judged group by group.
ghost use Rattle.std.specs.Prelude.{◌≡◌, ◌++◌, true, List, OnOk, IfOk, IfErr, option_map, length, string_bytes, None};
ghost use Rattle.js_doc.specs.Seen.{value_of};
ghost use Rattle.js_bundle.specs.Schemas.{is_place, place_at};
ghost use Rattle.js_output.specs.Cause.{MayGoOn, FailsBy};
ghost use Rattle.js_output.specs.Documents.{uri_causes};
ghost use Rattle.js_output.specs.Entry.{IsEntry};
ghost use Rattle.js_output.specs.Suite.{AreGroupLines, AreLines, AreTestLines, IsBasis, IsLine, IsStatusOn};
ghost use Rattle.js_output.specs.Suite.{causes_with, documents_with, group_causes, group_uri};
ghost use Rattle.js_output.specs.Suite.{whole_causes, with_root, with_schema};
ghost use Rattle.js_output.specs.code.SuiteJudging.{IsJudge, IsStatusAt, IsThere, IsNotMemory, basis_of, compared};
ghost use Rattle.js_output.specs.SuiteText.{groups_seen, group_seen, tests_seen, test_seen};
ghost use Rattle.js_output.specs.declared.suite_lines.TestLine.{TestLine};

use crate::documents::finish_bundle;
use crate::entry::{Entry, entry_place};
use crate::fault::Fault;
use crate::suite_lines::{TestLine, TestStatus};
use crate::suite_text::{SuiteGroup, SuiteTest};
use js_bundle::{Bundle, Schemas};
use js_doc::{Doc, Memory};
use js_eval::{WalkFault, verdict};
use std::alloc::{AllocError, Global};

/// A line for each test of the groups, in order. Each group has the documents to itself, with its
/// schema as the last one, which is the entry.
pub(crate) fn judged_lines(
    alloc: Global,
    schemas: &Schemas,
    groups: &[SuiteGroup],
) -> Result<Vec<TestLine>, Memory>
    ensures { IfOk result (λ v. AreLines schemas.now 0 (groups_seen groups.now) v.items) }
{
    let mut lines = Vec::new(alloc);
    for number in 0..groups.len() {
        judge_group(alloc, schemas, number, &groups[number], &mut lines)?;
    }
    Ok(lines)
}

fn judge_group(
    alloc: Global,
    schemas: &Schemas,
    number: usize,
    group: &SuiteGroup,
    lines: &mut Vec<TestLine>,
) -> Result<(), Memory>
    ensures { OnOk result ((these : List TestLine) × (lines.new.items ≡ lines.old.items ++ these)
        × AreGroupLines schemas.now number (group_seen group.now) these) }
{
    let entry = group_entry(alloc, schemas, number, &group.schema)?;
    judge_tests(alloc, &entry, number, group.tests.as_slice(), lines)
}

fn judge_tests(
    alloc: Global,
    entry: &Option<Entry>,
    group: usize,
    tests: &[SuiteTest],
    lines: &mut Vec<TestLine>,
) -> Result<(), Memory>
    requires { IsJudge group entry.now }
    ensures { OnOk result ((these : List TestLine) × (lines.new.items ≡ lines.old.items ++ these)
        × AreTestLines (basis_of entry.now) group 0 (tests_seen tests.now) these) }
{
    for number in 0..tests.len() {
        let line = judged_line(alloc, entry, group, number, &tests[number])?;
        lines.push(line)?;
    }
    Ok(())
}

fn judged_line(
    alloc: Global,
    entry: &Option<Entry>,
    group: usize,
    number: usize,
    test: &SuiteTest,
) -> Result<TestLine, Memory>
    requires { IsJudge group entry.now }
    ensures { IfOk result (IsLine (basis_of entry.now) group number (test_seen test.now)) }
{
    let status = status_of(alloc, entry, test)?;
    let description = test.description.copy()?;
    Ok(TestLine {
        status,
        group,
        test: number,
        description,
    })
}

// What a group's tests are judged by. Its documents are finished once, however many tests it has.
fn group_entry(
    alloc: Global,
    schemas: &Schemas,
    number: usize,
    schema: &Option<Doc>,
) -> Result<Option<Entry>, Memory>
    ensures basis { IfOk result (λ o. IsBasis schemas.now number
        (option_map value_of schema.now) (basis_of o)) }
    ensures entry { IfOk result (IsJudge number) }
{
    let Some(schema) = schema else {
        return Ok(None);
    };
    match entry_with(alloc, schemas, number, schema) {
        Ok(entry) => Ok(Some(entry)),
        Err(fault) => without_entry(&fault),
    }
}

// Only a lack of memory ends the suite.
fn without_entry(fault: &Fault) -> Result<Option<Entry>, Memory>
    ensures none { IfOk result (λ o. o ≡ None) }
    ensures refusal { OnOk result (IsNotMemory fault.now) }
{
    match fault {
        Fault::Memory => Err(Memory),
        _ => Ok(None),
    }
}

// The group's schema, added after the documents, as the entry.
fn entry_with(alloc: Global, schemas: &Schemas, number: usize, schema: &Doc) -> Result<Entry, Fault>
    ensures schemas { IfOk result
        (λ e. e.schemas ≡ with_schema schemas.now number (value_of schema.now)) }
    ensures entry { IfOk result (λ e. IsEntry e.schemas (group_uri number) e) }
    ensures clear { OnOk result
        (MayGoOn (group_causes schemas.now number (value_of schema.now))) }
    ensures err { IfErr result
        (FailsBy (group_causes schemas.now number (value_of schema.now))) }
{
    let uri = group_uri(alloc, number)?;
    entry_at(alloc, schemas, uri.as_str(), schema)
}

fn entry_at(alloc: Global, schemas: &Schemas, uri: &str, schema: &Doc) -> Result<Entry, Fault>
    ensures schemas { IfOk result
        (λ e. e.schemas ≡ documents_with schemas.now uri.now (value_of schema.now)) }
    ensures entry { IfOk result (λ e. IsEntry e.schemas uri.now e) }
    ensures clear { OnOk result
        (MayGoOn (causes_with schemas.now uri.now (value_of schema.now))) }
    ensures err { IfErr result
        (FailsBy (causes_with schemas.now uri.now (value_of schema.now))) }
{
    let bundle = bundle_with(alloc, schemas, uri, schema)?;
    entry_in(alloc, bundle, uri)
}

fn group_uri(alloc: Global, number: usize) -> Result<String, AllocError>
    ensures { IfOk result (λ uri. string_bytes uri ≡ group_uri number) }
{
    format!(in alloc; "https://suite.example/{number}")
}

fn bundle_with(alloc: Global, schemas: &Schemas, uri: &str, schema: &Doc) -> Result<Bundle, Fault>
    ensures ok { IfOk result
        (λ b. b ≡ documents_with schemas.now uri.now (value_of schema.now)) }
    ensures clear { OnOk result (MayGoOn (uri_causes (length schemas.now) uri.now)) }
    ensures err { IfErr result (FailsBy (uri_causes (length schemas.now) uri.now)) }
{
    let mut bundle = schemas.to_bundle(alloc)?;
    let schema = schema.copy(alloc)?;
    add_doc(&mut bundle, uri, schema)?;
    Ok(bundle)
}

fn add_doc(bundle: &mut Bundle, uri: &str, root: Doc) -> Result<(), Fault>
    ensures ok { OnOk result (bundle.new ≡ bundle.old ++ with_root uri.now (value_of root)) }
    ensures clear { OnOk result (MayGoOn (uri_causes (length bundle.old) uri.now)) }
    ensures err { IfErr result (FailsBy (uri_causes (length bundle.old) uri.now)) }
{
    match bundle.add_doc(uri, root) {
        Ok(()) => Ok(()),
        Err((refusal, _root)) => Err(Fault::from(refusal)),
    }
}

fn entry_in(alloc: Global, bundle: Bundle, uri: &str) -> Result<Entry, Fault>
    ensures schemas { IfOk result (λ e. e.schemas ≡ bundle) }
    ensures entry { IfOk result (λ e. IsEntry e.schemas uri.now e) }
    ensures clear { OnOk result (MayGoOn (whole_causes bundle uri.now)) }
    ensures err { IfErr result (FailsBy (whole_causes bundle uri.now)) }
{
    let schemas = finish_bundle(alloc, bundle)?;
    let place = entry_place(alloc, &schemas, uri)?;
    Ok(Entry { schemas, place })
}

fn status_of(alloc: Global, entry: &Option<Entry>, test: &SuiteTest) -> Result<TestStatus, Memory>
    requires { IsThere entry.now }
    ensures { IfOk result
        (IsStatusAt entry.now (option_map value_of test.now.instance) test.now.valid) }
{
    let Some(entry) = entry else {
        return Ok(TestStatus::Skip);
    };
    let Some(instance) = &test.instance else {
        return Ok(TestStatus::Skip);
    };
    judged(alloc, entry, instance, test.valid)
}

fn judged(alloc: Global, entry: &Entry, instance: &Doc, valid: bool) -> Result<TestStatus, Memory>
    requires { is_place entry.now.schemas entry.now.place ≡ true }
    ensures { IfOk result (IsStatusOn entry.now.schemas
        (place_at entry.now.schemas entry.now.place) (value_of instance.now) valid) }
{
    match verdict(alloc, &entry.schemas, entry.place, instance) {
        Ok(found) => Ok(compared(found, valid)),
        Err(WalkFault::TooLarge) => Ok(TestStatus::Skip),
        Err(WalkFault::Memory) => Err(Memory),
    }
}

fn compared(found: bool, valid: bool) -> TestStatus
    ensures { result ≡ compared found valid }
{
    if found == valid {
        TestStatus::Pass
    } else {
        TestStatus::Fail
    }
}

//! From a suite's text to its groups of tests.
ghost use Rattle.std.specs.Prelude.{◌≡◌, ◌∷◌, Ok, Err, Some, None, IfOk, IfErr, option_map, codes, decimal};
ghost use Rattle.serde_json.specs.Find.{get, as_bool, as_str, as_array};
ghost use Rattle.serde_json.specs.View.{view, items_view};
ghost use Rattle.js_doc.specs.Seen.{value_of};
ghost use Rattle.js_output.specs.SuiteText.{member_in, each_in, whole_in, test_in, tests_from, group_in, groups_in};
ghost use Rattle.js_output.specs.SuiteText.{suite_reading, test_seen, tests_seen, group_seen, groups_seen, IsMisfit};
ghost use Rattle.js_output.specs.SuiteText.{IsMissing, Keeps, LiftsMisfit, IsSuiteFault};

use crate::fault::{Fault, SuiteFault};
use js_doc::{Doc, Memory, Pointer, ReadFault, Text, from_value};
use serde_json::Value;
use std::alloc::Global;

/// The tests of one schema, which is `None` if one of its numbers isn't whole.
#[derive(Drop)]
pub(crate) struct SuiteGroup {
    pub(crate) schema: Option<Doc>,
    pub(crate) tests: Vec<SuiteTest>,
}

/// A test, and whether its instance should be valid. The instance is `None` if one of its numbers
/// isn't whole.
#[derive(Drop)]
pub(crate) struct SuiteTest {
    pub(crate) description: Text,
    pub(crate) instance: Option<Doc>,
    pub(crate) valid: bool,
}

/// The groups of the suite with this text, or why it can't be read.
pub(crate) fn suite_from(alloc: Global, bytes: &[u8]) -> Result<Vec<SuiteGroup>, Fault>
    ensures ok { IfOk result (λ v. suite_reading bytes.now ≡ Ok (groups_seen v.items)) }
    ensures err { IfErr result (IsSuiteFault (suite_reading bytes.now)) }
{
    match Value::from_slice(alloc, bytes) {
        Ok(suite) => groups_in(alloc, &suite),
        Err(error) if error.is_memory() => Err(Fault::Memory),
        Err(_) => Err(Fault::Suite(SuiteFault::NotJson)),
    }
}

fn groups_in(alloc: Global, suite: &Value) -> Result<Vec<SuiteGroup>, Fault>
    ensures ok { IfOk result (λ v. groups_in (view suite.now) ≡ Ok (groups_seen v.items)) }
    ensures err { IfErr result (IsMisfit (groups_in (view suite.now))) }
{
    match suite.as_array() {
        Some(values) => each_group(alloc, values),
        None => Err(Fault::Suite(SuiteFault::BadSuite(Pointer::new(alloc)))),
    }
}

fn each_group(alloc: Global, values: &Vec<Value>) -> Result<Vec<SuiteGroup>, Fault>
    ensures ok { IfOk result
        (λ v. each_in group_in 0 (items_view values.now.items) ≡ Ok (groups_seen v.items)) }
    ensures err { IfErr result (IsMisfit (each_in group_in 0 (items_view values.now.items))) }
{
    let mut groups = Vec::new(alloc);
    for value in values {
        match group_in(alloc, value) {
            Ok(group) => groups.push(group)?,
            Err(fault) => return Err(lifted_at(alloc, groups.len(), fault)),
        }
    }
    Ok(groups)
}

fn group_in(alloc: Global, value: &Value) -> Result<SuiteGroup, Fault>
    ensures ok { IfOk result (λ g. group_in (view value.now) ≡ Ok (group_seen g)) }
    ensures err { IfErr result (IsMisfit (group_in (view value.now))) }
{
    if !value.is_object() {
        return Err(Fault::Suite(SuiteFault::BadSuite(Pointer::new(alloc))));
    }
    text_member(alloc, value, "description")?;
    let schema = whole_member(alloc, value, "schema")?;
    let tests = tests_member(alloc, value)?;
    Ok(SuiteGroup { schema, tests })
}

fn tests_member(alloc: Global, value: &Value) -> Result<Vec<SuiteTest>, Fault>
    ensures ok { IfOk result (λ v. tests_from (member_in as_array (codes "tests") (view value.now))
        ≡ Ok (tests_seen v.items)) }
    ensures err { IfErr result
        (IsMisfit (tests_from (member_in as_array (codes "tests") (view value.now)))) }
{
    match value.get("tests").and_then(Value::as_array) {
        Some(values) => match each_test(alloc, values) {
            Ok(tests) => Ok(tests),
            Err(fault) => Err(lifted(alloc, "tests", fault)),
        },
        None => Err(missing(alloc, "tests")),
    }
}

fn each_test(alloc: Global, values: &Vec<Value>) -> Result<Vec<SuiteTest>, Fault>
    ensures ok { IfOk result
        (λ v. each_in test_in 0 (items_view values.now.items) ≡ Ok (tests_seen v.items)) }
    ensures err { IfErr result (IsMisfit (each_in test_in 0 (items_view values.now.items))) }
{
    let mut tests = Vec::new(alloc);
    for value in values {
        match test_in(alloc, value) {
            Ok(test) => tests.push(test)?,
            Err(fault) => return Err(lifted_at(alloc, tests.len(), fault)),
        }
    }
    Ok(tests)
}

fn test_in(alloc: Global, value: &Value) -> Result<SuiteTest, Fault>
    ensures ok { IfOk result (λ t. test_in (view value.now) ≡ Ok (test_seen t)) }
    ensures err { IfErr result (IsMisfit (test_in (view value.now))) }
{
    if !value.is_object() {
        return Err(Fault::Suite(SuiteFault::BadSuite(Pointer::new(alloc))));
    }
    let instance = whole_member(alloc, value, "data")?;
    let description = text_member(alloc, value, "description")?;
    let valid = truth_member(alloc, value, "valid")?;
    Ok(SuiteTest {
        description,
        instance,
        valid,
    })
}

fn text_member(alloc: Global, value: &Value, name: &str) -> Result<Text, Fault>
    ensures ok { IfOk result (λ t. member_in as_str name.now (view value.now) ≡ Ok t) }
    ensures err { IfErr result (IsMisfit (member_in as_str name.now (view value.now))) }
{
    match value.get(name).and_then(Value::as_str) {
        Some(text) => Ok(Text::from_str(alloc, text)?),
        None => Err(missing(alloc, name)),
    }
}

fn truth_member(alloc: Global, value: &Value, name: &str) -> Result<bool, Fault>
    ensures ok { IfOk result (λ b. member_in as_bool name.now (view value.now) ≡ Ok b) }
    ensures err { IfErr result (IsMisfit (member_in as_bool name.now (view value.now))) }
{
    match value.get(name).and_then(Value::as_bool) {
        Some(truth) => Ok(truth),
        None => Err(missing(alloc, name)),
    }
}

// The member, or `None` if one of its numbers isn't whole.
fn whole_member(alloc: Global, value: &Value, name: &str) -> Result<Option<Doc>, Fault>
    ensures ok { IfOk result (Keeps (member_in Some name.now (view value.now))) }
    ensures err { IfErr result (IsMisfit (member_in Some name.now (view value.now))) }
{
    match value.get(name) {
        Some(found) => Ok(whole_in(alloc, found)?),
        None => Err(missing(alloc, name)),
    }
}

fn whole_in(alloc: Global, value: &Value) -> Result<Option<Doc>, Memory>
    ensures { IfOk result (λ d. option_map value_of d ≡ whole_in (view value.now)) }
{
    match from_value(alloc, value) {
        Ok(doc) => Ok(Some(doc)),
        Err(ReadFault::NotWhole(_)) => Ok(None),
        Err(_) => Err(Memory),
    }
}

fn missing(alloc: Global, name: &str) -> Fault
    ensures { IsMissing name.now result }
{
    let mut place = Pointer::new(alloc);
    match place.push(name) {
        Ok(()) => Fault::Suite(SuiteFault::BadSuite(place)),
        Err(_) => Fault::Memory,
    }
}

// The same fault, located from one level further up.
fn lifted(alloc: Global, token: &str, fault: Fault) -> Fault
    ensures { LiftsMisfit token.now fault result }
{
    match fault {
        Fault::Suite(SuiteFault::BadSuite(place)) => match below(alloc, token, &place) {
            Ok(place) => Fault::Suite(SuiteFault::BadSuite(place)),
            Err(_) => Fault::Memory,
        },
        fault => fault,
    }
}

fn lifted_at(alloc: Global, index: usize, fault: Fault) -> Fault
    ensures { LiftsMisfit (decimal index) fault result }
{
    match index.to_string(alloc) {
        Ok(token) => lifted(alloc, token.as_str(), fault),
        Err(_) => Fault::Memory,
    }
}

// The pointer with the token in front of it.
fn below(alloc: Global, token: &str, rest: &Pointer) -> Result<Pointer, Memory>
    ensures { IfOk result (λ p. p ≡ token.now ∷ rest.now) }
{
    let mut place = Pointer::new(alloc);
    place.push(token)?;
    for next in rest.tokens() {
        place.push(next.as_str())?;
    }
    Ok(place)
}

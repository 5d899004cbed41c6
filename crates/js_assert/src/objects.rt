//! The assertions on objects (JSON Schema Validation, section 6.5). A value of another type passes.
#![tactic(auto, using(crate::proofs::ListedValues::object_rules))]

ghost use Rattle.std.specs.Prelude.{◌≡◌, IfOk, IfErr, length, string_bytes};
ghost use Rattle.std.specs.List.{list_all};
ghost use Rattle.js_doc.specs.Seen.{value_of};
ghost use Rattle.js_doc.specs.Members.{has_name};
ghost use Rattle.js_doc.specs.Parts.{members_of};
ghost use Rattle.js_assert.specs.Argument.{implies, on_object};
ghost use Rattle.js_assert.specs.Dependences.{dependences_value};
ghost use Rattle.js_assert.specs.Objects.{has_each, object_argument, object_keyword, object_says, object_text};
ghost use Rattle.js_assert.specs.Seen.{IsTestOf};
ghost use Rattle.js_assert.specs.Shape.{IsFaultOf};

use crate::argument_shape::{count, dependences, name_list};
use crate::assertion::Test;
use crate::fault::KeywordFault;
use crate::missing::{missing_of, missing_of_all};
use crate::text_parts::{at_least, at_most};
use js_doc::{Doc, Members, Memory, Text};
use js_keyword::{AssertionKeyword, ObjectKeyword};
use std::alloc::Global;

/// A member's name, and the names that must be there if it is.
#[derive(Drop)]
pub(crate) struct Dependence {
    pub(crate) name: Text,
    pub(crate) needs: Vec<Text>,
}

/// What a keyword tests, with its argument read.
#[derive(Drop)]
pub(crate) enum ObjectTest {
    MaxProperties(u64),
    MinProperties(u64),
    Required(Vec<Text>),
    DependentRequired(Vec<Dependence>),
}

impl ObjectTest {
    pub(crate) fn read(
        alloc: Global,
        keyword: ObjectKeyword,
        argument: &Doc,
    ) -> Result<ObjectTest, KeywordFault>
        ensures ok { IfOk result
            (λ t. IsTestOf (AssertionKeyword.Object keyword) (value_of argument.now) (Test.Object t)) }
        ensures refused { IfErr result (IsFaultOf (AssertionKeyword.Object keyword) (value_of argument.now)) }
    {
        match keyword {
            ObjectKeyword::MaxProperties => Ok(ObjectTest::MaxProperties(count(argument)?)),
            ObjectKeyword::MinProperties => Ok(ObjectTest::MinProperties(count(argument)?)),
            ObjectKeyword::Required => Ok(ObjectTest::Required(name_list(alloc, argument)?)),
            ObjectKeyword::DependentRequired => {
                Ok(ObjectTest::DependentRequired(dependences(alloc, argument)?))
            }
        }
    }

    pub(crate) fn keyword(&self) -> ObjectKeyword
        ensures { result ≡ object_keyword self.now }
    {
        match self {
            ObjectTest::MaxProperties(_) => ObjectKeyword::MaxProperties,
            ObjectTest::MinProperties(_) => ObjectKeyword::MinProperties,
            ObjectTest::Required(_) => ObjectKeyword::Required,
            ObjectTest::DependentRequired(_) => ObjectKeyword::DependentRequired,
        }
    }

    /// Whether the value meets the test.
    pub(crate) fn holds(&self, value: &Doc) -> bool
        ensures { result
            ≡ on_object (value_of value.now) (object_says (object_argument self.now) (object_keyword self.now)) }
    {
        match value {
            Doc::Members(members) => self.is_met_by(members),
            _ => true,
        }
    }

    fn is_met_by(&self, members: &Members) -> bool
        ensures { result ≡ object_says (object_argument self.now) (object_keyword self.now) members.now }
    {
        match self {
            ObjectTest::MaxProperties(limit) => members.len() as u64 <= *limit,
            ObjectTest::MinProperties(limit) => *limit <= members.len() as u64,
            ObjectTest::Required(names) => has_all(members, names.as_slice()),
            ObjectTest::DependentRequired(dependences) => {
                dependent_required(members, dependences.as_slice())
            }
        }
    }

    /// The text of the error for a value that doesn't meet the test.
    pub(crate) fn error_text(&self, alloc: Global, value: &Doc) -> Result<String, Memory>
        ensures { IfOk result (λ s. string_bytes s
            ≡ object_text (object_argument self.now) (value_of value.now) (object_keyword self.now)) }
    {
        match self {
            ObjectTest::MaxProperties(limit) => {
                at_most(alloc, member_count(value), " members", *limit)
            }
            ObjectTest::MinProperties(limit) => {
                at_least(alloc, member_count(value), " members", *limit)
            }
            ObjectTest::Required(names) => missing_of(alloc, names.as_slice(), value),
            ObjectTest::DependentRequired(dependences) => {
                missing_of_all(alloc, dependences.as_slice(), value)
            }
        }
    }
}

fn dependent_required(members: &Members, dependences: &[Dependence]) -> bool
    ensures { result
        ≡ object_says (dependences_value dependences.now) ObjectKeyword.DependentRequired members.now }
{
    meets_all(members, dependences)
}

fn meets_all(members: &Members, dependences: &[Dependence]) -> bool
    ensures { result
        ≡ list_all (λ d. implies (has_name d.name members.now) (has_each d.needs.items members.now)) dependences.now }
{
    dependences
        .iter()
        .all(|dependence| is_met(members, dependence))
}

fn is_met(members: &Members, dependence: &Dependence) -> bool
    ensures { result
        ≡ implies (has_name dependence.now.name members.now) (has_each dependence.now.needs.items members.now) }
{
    !has_member(members, &dependence.name) || has_all(members, dependence.needs.as_slice())
}

fn has_all(members: &Members, names: &[Text]) -> bool
    ensures { result ≡ has_each names.now members.now }
{
    names.iter().all(|name| has_member(members, name))
}

fn has_member(members: &Members, name: &Text) -> bool
    ensures { result ≡ has_name name.now members.now }
{
    members.get(name.as_str()).is_some()
}

/// Whether the value is an object with a member of this name.
pub(crate) fn is_member(value: &Doc, name: &Text) -> bool
    ensures { result ≡ has_name name.now (members_of (value_of value.now)) }
{
    match value {
        Doc::Members(members) => has_member(members, name),
        _ => false,
    }
}

// How many members the value has, if it is an object.
fn member_count(value: &Doc) -> u64
    ensures { result ≡ length (members_of (value_of value.now)) }
{
    match value {
        Doc::Members(members) => members.len() as u64,
        _ => 0,
    }
}

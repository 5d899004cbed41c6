//! The shapes of arguments (JSON Schema Validation, section 6), read into what the tests keep.
ghost use Rattle.std.specs.Prelude.{◌≡◌, IfOk, IfErr, true, pos, map, []};
ghost use Rattle.std.specs.Int.NonZero.{non_zero_u64_get};
ghost use Rattle.std.specs.List.{list_all};
ghost use Rattle.js_doc.specs.Seen.{value_of};
ghost use Rattle.js_doc.specs.Value.{truth, whole, text, list, items};
ghost use Rattle.js_assert.specs.AnyType.{any_type_argument, any_type_keyword};
ghost use Rattle.js_assert.specs.ArgumentShape.{is_boolean, is_number, is_number_above, is_count, is_list};
ghost use Rattle.js_assert.specs.ArgumentShape.{is_list_of_names, is_object_of_names, is_type};
ghost use Rattle.js_assert.specs.ArgumentShape.{are_new_types, are_new_names};
ghost use Rattle.js_assert.specs.Shape.{IsBadUnless, IsFaultOf};
ghost use Rattle.js_assert.specs.Names.{names_value};
ghost use Rattle.js_assert.specs.Dependences.{dependence_of, dependences_value};
ghost use Rattle.js_assert.specs.Types.{type_name};
ghost use Rattle.js_assert.specs.Pattern.{is_pattern};

use crate::any_type::AnyTypeTest;
use crate::choices::Choices;
use crate::fault::KeywordFault;
use crate::instance_type::InstanceType;
use crate::objects::Dependence;
use crate::pattern::{Pattern, PatternFault};
use js_doc::{Doc, Members, Memory, Text, Whole};
use js_keyword::{AnyTypeKeyword, AssertionKeyword, StringKeyword};
use std::alloc::Global;
use std::collections::BTreeSet;
use std::num::NonZeroU64;

pub(crate) fn boolean(argument: &Doc) -> Result<bool, KeywordFault>
    ensures ok { IfOk result (λ b. value_of argument.now ≡ truth b) }
    ensures refused { IfErr result (IsBadUnless (is_boolean (value_of argument.now))) }
{
    match argument {
        Doc::Truth(b) => Ok(*b),
        _ => Err(KeywordFault::BadKeyword),
    }
}

fn number_argument(argument: &Doc) -> Result<Whole, KeywordFault>
    ensures ok { IfOk result (λ z. value_of argument.now ≡ whole z) }
    ensures refused { IfErr result (IsBadUnless (is_number (value_of argument.now))) }
{
    match argument {
        Doc::Whole(number) => Ok(*number),
        _ => Err(KeywordFault::BadKeyword),
    }
}

pub(crate) fn limit(alloc: Global, argument: &Doc) -> Result<Box<Whole>, KeywordFault>
    ensures ok { IfOk result (λ z. value_of argument.now ≡ whole z.value) }
    ensures refused { IfErr result (IsBadUnless (is_number (value_of argument.now))) }
{
    Ok(Box::new(alloc, number_argument(argument)?)?)
}

pub(crate) fn count(argument: &Doc) -> Result<u64, KeywordFault>
    ensures ok { IfOk result (λ n. value_of argument.now ≡ whole (pos n)) }
    ensures refused { IfErr result (IsBadUnless (is_count (value_of argument.now))) }
{
    let Doc::Whole(number) = argument else {
        return Err(KeywordFault::BadKeyword);
    };
    match u64::try_from(number.value()) {
        Ok(count) => Ok(count),
        Err(_) => Err(KeywordFault::BadKeyword),
    }
}

pub(crate) fn divisor(argument: &Doc) -> Result<NonZeroU64, KeywordFault>
    ensures ok { IfOk result (λ n. value_of argument.now ≡ whole (pos (non_zero_u64_get n))) }
    ensures above { IfOk result (λ n. is_number_above (pos 0) (value_of argument.now) ≡ true) }
    ensures refused { IfErr result (IsBadUnless (is_number_above (pos 0) (value_of argument.now))) }
{
    let count = count(argument)?;
    match NonZeroU64::new(count) {
        Some(divisor) => Ok(divisor),
        None => Err(KeywordFault::BadKeyword),
    }
}

pub(crate) fn choices(alloc: Global, argument: &Doc) -> Result<Box<Choices>, KeywordFault>
    ensures ok { IfOk result (λ c. value_of argument.now ≡ list (items c.value)) }
    ensures refused { IfErr result (IsBadUnless (is_list (value_of argument.now))) }
{
    match argument {
        Doc::List(items) => {
            let docs = copies(alloc, items.as_slice())?;
            Ok(Box::new(alloc, Choices::new(alloc, docs)?)?)
        }
        _ => Err(KeywordFault::BadKeyword),
    }
}

fn copies(alloc: Global, docs: &[Doc]) -> Result<Vec<Doc>, Memory>
    ensures { IfOk result (λ v. map value_of v.items ≡ map value_of docs.now) }
{
    let mut copies = Vec::with_capacity(alloc, docs.len())?;
    for doc in docs {
        copies.push_reserved(doc.copy(alloc)?);
    }
    Ok(copies)
}

pub(crate) fn constant(alloc: Global, argument: &Doc) -> Result<Box<Doc>, KeywordFault>
    ensures ok { IfOk result (λ d. value_of argument.now ≡ value_of d.value) }
    ensures refused { IfErr result (λ e. e ≡ KeywordFault.Memory) }
{
    Ok(Box::new(alloc, argument.copy(alloc)?)?)
}

pub(crate) fn pattern_argument(alloc: Global, argument: &Doc) -> Result<Pattern, KeywordFault>
    ensures ok { IfOk result (λ p. value_of argument.now ≡ text p) }
    ensures read { IfOk result (λ p. is_pattern p ≡ true) }
    ensures refused { IfErr result (IsFaultOf (AssertionKeyword.String StringKeyword.Pattern) (value_of argument.now)) }
{
    let Doc::Text(text) = argument else {
        return Err(KeywordFault::BadKeyword);
    };
    match Pattern::new(alloc, text.as_str()) {
        Ok(pattern) => Ok(pattern),
        Err(PatternFault::Memory) => Err(KeywordFault::Memory),
        Err(PatternFault::NotAPattern) => Err(KeywordFault::NotAPattern),
        Err(PatternFault::PatternTooLarge) => Err(KeywordFault::PatternTooLarge),
    }
}

/// The strings of a list without repeats.
pub(crate) fn name_list(alloc: Global, argument: &Doc) -> Result<Vec<Text>, KeywordFault>
    ensures ok { IfOk result (λ v. value_of argument.now ≡ names_value v.items) }
    ensures shape { IfOk result (λ v. is_list_of_names (value_of argument.now) ≡ true) }
    ensures refused { IfErr result (IsBadUnless (is_list_of_names (value_of argument.now))) }
{
    match argument {
        Doc::List(items) => distinct_strings(alloc, items.as_slice()),
        _ => Err(KeywordFault::BadKeyword),
    }
}

fn distinct_strings(alloc: Global, docs: &[Doc]) -> Result<Vec<Text>, KeywordFault>
    ensures ok { IfOk result (λ v. map value_of docs.now ≡ map text v.items) }
    ensures shape { IfOk result (λ v. are_new_names [] (map value_of docs.now) ≡ true) }
    ensures refused { IfErr result (IsBadUnless (are_new_names [] (map value_of docs.now))) }
{
    let mut names = Vec::with_capacity(alloc, docs.len())?;
    let mut seen: BTreeSet<&str> = BTreeSet::new(alloc);
    for doc in docs {
        let Doc::Text(name) = doc else {
            return Err(KeywordFault::BadKeyword);
        };
        if !seen.insert(name.as_str())? {
            return Err(KeywordFault::BadKeyword);
        }
        names.push_reserved(name.copy()?);
    }
    Ok(names)
}

/// A type's name, or a list of such names that is not empty and has no repeats.
pub(crate) fn types(alloc: Global, argument: &Doc) -> Result<AnyTypeTest, KeywordFault>
    ensures same_keyword { IfOk result (λ t. any_type_keyword t ≡ AnyTypeKeyword.Type) }
    ensures ok { IfOk result (λ t. value_of argument.now ≡ any_type_argument t) }
    ensures shape { IfOk result (λ t. is_type (value_of argument.now) ≡ true) }
    ensures refused { IfErr result (IsBadUnless (is_type (value_of argument.now))) }
{
    match argument {
        Doc::Text(name) => match InstanceType::type_named(name.as_str()) {
            Some(one) => Ok(AnyTypeTest::Type(one)),
            None => Err(KeywordFault::BadKeyword),
        },
        Doc::List(items) => {
            if items.is_empty() {
                return Err(KeywordFault::BadKeyword);
            }
            Ok(AnyTypeTest::Types(distinct_types(alloc, items.as_slice())?))
        }
        _ => Err(KeywordFault::BadKeyword),
    }
}

fn distinct_types(alloc: Global, docs: &[Doc]) -> Result<Vec<InstanceType>, KeywordFault>
    ensures ok { IfOk result (λ v. map value_of docs.now ≡ map text (map type_name v.items)) }
    ensures shape { IfOk result (λ v. are_new_types [] (map value_of docs.now) ≡ true) }
    ensures refused { IfErr result (IsBadUnless (are_new_types [] (map value_of docs.now))) }
{
    let mut types = Vec::with_capacity(alloc, docs.len())?;
    for doc in docs {
        let Doc::Text(name) = doc else {
            return Err(KeywordFault::BadKeyword);
        };
        let Some(one) = InstanceType::type_named(name.as_str()) else {
            return Err(KeywordFault::BadKeyword);
        };
        if types.as_slice().contains(&one) {
            return Err(KeywordFault::BadKeyword);
        }
        types.push_reserved(one);
    }
    Ok(types)
}

/// An object whose members are lists of strings without repeats.
pub(crate) fn dependences(alloc: Global, argument: &Doc) -> Result<Vec<Dependence>, KeywordFault>
    ensures ok { IfOk result (λ v. value_of argument.now ≡ dependences_value v.items) }
    ensures shape { IfOk result (λ v. is_object_of_names (value_of argument.now) ≡ true) }
    ensures refused { IfErr result (IsBadUnless (is_object_of_names (value_of argument.now))) }
{
    match argument {
        Doc::Members(members) => dependences_of(alloc, members),
        _ => Err(KeywordFault::BadKeyword),
    }
}

fn dependences_of(alloc: Global, members: &Members) -> Result<Vec<Dependence>, KeywordFault>
    ensures ok { IfOk result (λ v. map dependence_of v.items ≡ members.now) }
    ensures shape { IfOk result (λ v. list_all (λ m. is_list_of_names m.1) members.now ≡ true) }
    ensures refused { IfErr result (IsBadUnless (list_all (λ m. is_list_of_names m.1) members.now)) }
{
    let mut dependences = Vec::with_capacity(alloc, members.len())?;
    for (name, needs) in members.pairs() {
        let needs = name_list(alloc, needs)?;
        let name = name.copy()?;
        dependences.push(Dependence { name, needs })?;
    }
    Ok(dependences)
}

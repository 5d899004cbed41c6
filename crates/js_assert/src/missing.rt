//! The names that an object lacks, as the errors of `required` and `dependentRequired` list them.
ghost use Rattle.std.specs.Prelude.{◌≡◌, ◌++◌, IfOk, OnOk, string_bytes, map, []};
ghost use Rattle.js_doc.specs.Compact.{comma_if, quoted};
ghost use Rattle.js_doc.specs.Seen.{value_of};
ghost use Rattle.js_doc.specs.Value.{text};
ghost use Rattle.js_doc.specs.Parts.{members_of};
ghost use Rattle.js_assert.specs.Dependences.{dependence_of};
ghost use Rattle.js_assert.specs.Objects.{names_needed, missing, sorted_with, without};
ghost use Rattle.js_assert.specs.Names.{names_seen};

use crate::objects::{Dependence, is_member};
use js_doc::{Doc, Memory, Text, put_string};
use std::alloc::Global;
use std::collections::BTreeSet;

/// `missing: ` and a compact array of those of the names that are no member's.
pub(crate) fn missing_of(alloc: Global, names: &[Text], value: &Doc) -> Result<String, Memory>
    ensures { IfOk result (λ s. string_bytes s
        ≡ missing (map text (without (members_of (value_of value.now)) names.now))) }
{
    let mut text = String::from_str(alloc, "missing: [")?;
    let mut later = false;
    for name in names {
        if is_member(value, name) {
            continue;
        }
        put_name(&mut text, later, name.as_str())?;
        later = true;
    }
    text.push(']')?;
    Ok(text)
}

/// The same of the names that the members present ask for, ascending.
pub(crate) fn missing_of_all(
    alloc: Global,
    dependences: &[Dependence],
    value: &Doc,
) -> Result<String, Memory>
    ensures { IfOk result (λ s. string_bytes s
        ≡ missing (map text (sorted_with [] (without (members_of (value_of value.now))
        (names_needed (members_of (value_of value.now)) (map dependence_of dependences.now)))))) }
{
    let absent = absent_of_all(alloc, dependences, value)?;
    let mut text = String::from_str(alloc, "missing: [")?;
    let mut later = false;
    for name in absent {
        put_name(&mut text, later, name)?;
        later = true;
    }
    text.push(']')?;
    Ok(text)
}

// The names that the members present ask for and that are no member's, ascending.
fn absent_of_all<'a>(
    alloc: Global,
    dependences: &'a [Dependence],
    value: &Doc,
) -> Result<BTreeSet<&'a str>, Memory>
    ensures { IfOk result (λ s. names_seen s.keys
        ≡ sorted_with [] (without (members_of (value_of value.now))
        (names_needed (members_of (value_of value.now)) (map dependence_of dependences.now)))) }
{
    let mut absent = BTreeSet::new(alloc);
    for dependence in dependences {
        if !is_member(value, &dependence.name) {
            continue;
        }
        put_absent(&mut absent, dependence.needs.as_slice(), value)?;
    }
    Ok(absent)
}

// Puts those of the names that are no member's into the set.
fn put_absent<'a>(
    absent: &mut BTreeSet<&'a str>,
    needs: &'a [Text],
    value: &Doc,
) -> Result<(), Memory>
    ensures { OnOk result (names_seen absent.new.keys
        ≡ sorted_with (names_seen absent.old.keys) (without (members_of (value_of value.now)) needs.now)) }
{
    for need in needs {
        if is_member(value, need) {
            continue;
        }
        absent.insert(need.as_str())?;
    }
    Ok(())
}

// The name as a JSON string, after a comma unless it is the first.
fn put_name(out: &mut String, later: bool, name: &str) -> Result<(), Memory>
    ensures { OnOk result (string_bytes out.new ≡ string_bytes out.old ++ (comma_if later ++ quoted name.now)) }
{
    put_comma(out, later)?;
    put_string(name, out)?;
    Ok(())
}

fn put_comma(out: &mut String, later: bool) -> Result<(), Memory>
    ensures { OnOk result (string_bytes out.new ≡ string_bytes out.old ++ comma_if later) }
{
    if later {
        out.push_str(",")?;
    }
    Ok(())
}

//! Public calls by themselves, for `hostile/run single`, which refuses the allocations of a call one after the other
//! and compares the answers.
//!
//! Standard input has two groups, separated by U+001D: the documents of a bundle, and questions. The records of a
//! group are separated by U+001E, and the words of a record by U+001F. A document is its URI and its text. A
//! question's first word names what is asked, by the modules below; each answer goes to standard output, followed by
//! U+001E.
//!
//! Standard error gets `<` right before a call, and `>` right after it. A call that finds no memory answers `Memory`,
//! and what is left if something must be left as it was. The word after the test's name says which calls on the
//! bundle itself are between these marks: `add`, `add_doc` or `finish`, otherwise none.
mod assertions;
mod bundles;
mod commands;
mod devices;
mod fakes;
mod flat_lists;
mod hand_made;
mod places;
mod results;
mod trees;
mod values;
mod writing;

use crate::word_at;
use js_bundle::Schemas;
use std::alloc::Global;
use std::io::Write;
use std::test::Fail;
use std::{env, io};
use writing::say;

/// Without words, as the gate runs each test, the only question is a pointer's fragment.
#[test]
fn by_itself(rt: HostRuntime) -> Result<(), Fail> {
    // (the program's name, and the test's)
    match env::args(&rt)?.nth(2) {
        Some(marked) => answer_input(&rt, marked.as_str()),
        None => answer_without_input(&rt),
    }
}

fn answer_input(rt: &HostRuntime, marked: &str) -> Result<(), Fail> {
    let input = io::read_to_string(rt.alloc(), rt.stdin())?;
    let answers = answers(rt, marked, input.as_str());
    rt.stdout()
        .write_all(answers.as_bytes())
        .map_err(Fail::from)
}

fn answer_without_input(rt: &HostRuntime) -> Result<(), Fail> {
    let answers = answers(rt, "", "\u{1d}pointer\u{1f}fragment\u{1f}/a~1b c");
    match answers.as_str() {
        "/a~1b%20c\u{1e}" => Ok(()),
        _ => Err(Fail::from("the fragment of a pointer")),
    }
}

fn answers(rt: &HostRuntime, marked: &str, input: &str) -> String {
    let mut answers = String::new(rt.alloc());
    let (documents, questions) = input.split_once('\u{1d}').unwrap_or((input, ""));
    if let Some(schemas) = bundles::finished_schemas(rt, marked, documents, &mut answers) {
        answer_all(rt, documents, &schemas, questions, &mut answers);
    }
    answers
}

fn answer_all(
    rt: &HostRuntime,
    documents: &str,
    schemas: &Schemas,
    questions: &str,
    answers: &mut String,
) {
    for question in questions.split('\u{1e}') {
        let words = words_of(rt.alloc(), question);
        answer(rt, documents, schemas, words.as_slice(), answers);
        say(answers, "\u{1e}");
    }
}

// The words of a record.
fn words_of<'q>(alloc: Global, record: &'q str) -> Vec<&'q str> {
    let mut words = Vec::new(alloc);
    for word in record.split('\u{1f}') {
        let _ = words.push(word);
    }
    words
}

// The number in a word.
fn number(word: &str) -> usize {
    word.parse::<usize>().unwrap_or(0)
}

fn answer(
    rt: &HostRuntime,
    documents: &str,
    schemas: &Schemas,
    words: &[&str],
    answers: &mut String,
) {
    let rest = words.get(1..).unwrap_or(&[]);
    match word_at(words, 0) {
        "value" => values::answer_on_value(rt, rest, answers),
        "members" => values::answer_on_members(rt, rest, answers),
        "pointer" => values::answer_on_pointer(rt, rest, answers),
        "token" => values::answer_on_token(rt, rest, answers),
        "pattern" => assertions::answer_on_pattern(rt, rest, answers),
        "assertion" => assertions::answer_on_assertion(rt, rest, answers),
        "place" => places::answer_at_place(rt, schemas, rest, answers),
        "result" => results::answer_on_result(rt, schemas, rest, answers),
        "hand-made" => hand_made::answer_on_hand_made(rt, rest, answers),
        "devices" => devices::answer_over_devices(rt, documents, rest, answers),
        "command" => commands::answer_of_command(rt, rest, answers),
        _ => say(answers, "it is no question"),
    }
}

//! Calls of js_assert. The words of a question: the call that is marked, and the texts that are taken.
use super::writing::{
    mark_begin, mark_begin_if, mark_end, push_answer, push_error, push_text_answer, say,
};
use crate::word_at;
use js_assert::{Assertion, Pattern};
use js_doc::{Doc, Members, read};

/// Whether a pattern holds of a text, by itself and by its searcher.
pub fn answer_on_pattern(rt: &HostRuntime, words: &[&str], answers: &mut String) {
    let call = word_at(words, 0);
    mark_begin_if(rt, call == "pattern");
    let made = Pattern::new(rt.alloc(), word_at(words, 1));
    mark_end(rt);
    match made {
        Ok(pattern) => asked_of_pattern(rt, call, &pattern, word_at(words, 2), answers),
        Err(fault) => push_answer(answers, fault),
    }
}

fn asked_of_pattern(
    rt: &HostRuntime,
    call: &str,
    pattern: &Pattern,
    text: &str,
    answers: &mut String,
) {
    mark_begin_if(rt, call == "matches");
    let made = pattern.holds(rt.alloc(), text);
    mark_end(rt);
    mark_begin_if(rt, call == "searcher");
    let searcher = pattern.searcher(rt.alloc());
    mark_end(rt);
    match searcher {
        Ok(mut searcher) => {
            mark_begin_if(rt, call == "search");
            let is_found = searcher.holds(text);
            mark_end(rt);
            push_answer(answers, made);
            say(answers, " ");
            push_answer(answers, is_found);
        }
        Err(fault) => push_answer(answers, fault),
    }
}

/// What an assertion without siblings says of a value.
pub fn answer_on_assertion(rt: &HostRuntime, words: &[&str], answers: &mut String) {
    if let Ok(argument) = read(rt.alloc(), word_at(words, 2).as_bytes()) {
        assertion_read(rt, words, &argument, answers);
    }
}

fn assertion_read(rt: &HostRuntime, words: &[&str], argument: &Doc, answers: &mut String) {
    let call = word_at(words, 0);
    let siblings = Members::new(rt.alloc());
    mark_begin_if(rt, call == "assertion");
    let made = Assertion::read(rt.alloc(), word_at(words, 1), argument, &siblings);
    mark_end(rt);
    match made {
        Ok(Some(assertion)) => asked_on(rt, call, &assertion, word_at(words, 3), answers),
        Ok(None) => say(answers, "no assertion"),
        Err(fault) => push_answer(answers, fault),
    }
}

fn asked_on(
    rt: &HostRuntime,
    call: &str,
    assertion: &Assertion,
    value: &str,
    answers: &mut String,
) {
    if let Ok(value) = read(rt.alloc(), value.as_bytes()) {
        asked_of_assertion(rt, call, assertion, &value, answers);
    }
}

fn asked_of_assertion(
    rt: &HostRuntime,
    call: &str,
    assertion: &Assertion,
    value: &Doc,
    answers: &mut String,
) {
    mark_begin(rt);
    match call {
        "holds" => {
            let made = assertion.holds(rt.alloc(), value, 0);
            mark_end(rt);
            push_answer(answers, made);
        }
        "error" => {
            let made = assertion.error(rt.alloc(), value, 0);
            mark_end(rt);
            push_text_answer(answers, made);
        }
        _ => {
            let made = assertion.check(rt.alloc(), value, 0);
            mark_end(rt);
            push_error(answers, made);
        }
    }
}

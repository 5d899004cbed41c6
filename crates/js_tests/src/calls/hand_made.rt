//! Result trees made by hand. The words of a question: the value of a note, the events of a tree, the call, and its
//! argument.
use super::writing::{mark_begin, mark_end, push_answer, say};
use super::{flat_lists, trees};
use crate::word_at;
use js_doc::{Doc, Memory, Text, read};
use js_tree::{Boxed, Collector, Flat, Head, Indexes, Names, Note, Verdict};
use std::alloc::Global;

pub fn answer_on_hand_made(rt: &HostRuntime, words: &[&str], answers: &mut String) {
    if let Ok(value) = read(rt.alloc(), word_at(words, 0).as_bytes()) {
        answer_on_events(rt, &value, words, answers);
    }
}

fn answer_on_events(rt: &HostRuntime, value: &Doc, words: &[&str], answers: &mut String) {
    let events = word_at(words, 1);
    match word_at(words, 2) {
        "enter_and_leave" => reported_by_events(rt, answers),
        "verdict" => {
            let mut verdict = Verdict::new();
            let _ = report_all(rt.alloc(), events, value, &mut verdict);
            push_answer(answers, verdict.valid());
        }
        call if call.contains("flat") => {
            let mut flat = Flat::new(rt.alloc());
            let _ = report_all(rt.alloc(), events, value, &mut flat);
            flat_lists::answer_on_flat_list(rt, call, word_at(words, 3), flat, answers);
        }
        call => {
            let mut boxed = Boxed::new(rt.alloc());
            let _ = report_all(rt.alloc(), events, value, &mut boxed);
            answer_on_boxed(rt, call, word_at(words, 3), boxed, answers);
        }
    }
}

/// What the call answers on the tree that was collected.
pub fn answer_on_boxed(
    rt: &HostRuntime,
    call: &str,
    more: &str,
    boxed: Boxed,
    answers: &mut String,
) {
    mark_begin(rt);
    let tree = boxed.tree();
    mark_end(rt);
    match tree {
        Some(tree) => trees::answer_on_tree(rt, call, more, tree, answers),
        None => say(answers, "the root hasn't closed"),
    }
}

// Without memory the events end.
fn report_all<'a, C: Collector<'a>>(
    alloc: Global,
    events: &str,
    value: &'a Doc,
    into: &mut C,
) -> Result<(), Memory> {
    for sign in events.chars() {
        report_one(alloc, sign, value, into)?;
    }
    Ok(())
}

// A letter opens a node of that name, and another sign closes one, `-` and `!` one that fails.
fn report_one<'a, C: Collector<'a>>(
    alloc: Global,
    sign: char,
    value: &'a Doc,
    into: &mut C,
) -> Result<(), Memory> {
    match sign {
        'a'..='z' => into.enter(head(alloc, sign)),
        _ => into.leave(sign != '-' && sign != '!', note_of(alloc, sign, value)),
    }
}

fn head(alloc: Global, name: char) -> Head {
    let mut keyword = String::new(alloc);
    let _ = keyword.push(name);
    Head {
        keyword: Text::new(keyword),
        absolute: text(alloc, "s#"),
        instance: text(alloc, ""),
    }
}

fn text(alloc: Global, text: &str) -> Text {
    let mut out = String::new(alloc);
    say(&mut out, text);
    Text::new(out)
}

// The note of a node that closes by this sign, `)` and `-` for none.
fn note_of<'a>(alloc: Global, sign: char, value: &'a Doc) -> Note<'a> {
    match sign {
        '!' => Note::Error(text(alloc, "no \"x\"\u{1}")),
        '+' => Note::Truth,
        '=' => Note::Value(value),
        '@' => Note::Names(Names::new(names(alloc))),
        '0' => Note::Names(Names::new(Vec::new(alloc))),
        '#' => Note::Index(18446744073709551615),
        '*' => Note::Indexes(Indexes::new(vec![in alloc; 0, 2].unwrap_or(Vec::new(alloc)))),
        '1' => Note::Indexes(Indexes::new(Vec::new(alloc))),
        _ => Note::Silent,
    }
}

fn names<'a>(alloc: Global) -> Vec<&'a str> {
    let mut names = Vec::new(alloc);
    let _ = names.push("b");
    let _ = names.push("a\n\u{1f333}");
    names
}

// The verdict on a failing root over a passing node. Their texts are made before the marked call.
fn reported_by_events(rt: &HostRuntime, answers: &mut String) {
    let root = head(rt.alloc(), 'r');
    let node = head(rt.alloc(), 'a');
    let mut verdict = Verdict::new();
    mark_begin(rt);
    let _ = verdict.enter(root);
    let _ = verdict.enter(node);
    let _ = verdict.leave(true, Note::Truth);
    let _ = verdict.leave(false, Note::Silent);
    let valid = verdict.valid();
    mark_end(rt);
    push_answer(answers, valid);
}

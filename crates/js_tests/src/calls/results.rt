//! Walks of a value at an entry, and calls on the result. The words of a question: the URI of the entry, the value's
//! text, the call, and its argument.

use super::places::KnownPlace;
use super::writing::{mark_begin, mark_begin_if, mark_end, push_answer, say};
use super::{flat_lists, hand_made, number, trees};
use crate::word_at;
use js_bundle::Schemas;
use js_doc::{Doc, Memory, read};
use js_eval::{verdict, walk, walk_into};
use js_tree::{Boxed, Collector, Flat, Head, Note, Verdict};

pub fn answer_on_result(rt: &HostRuntime, schemas: &Schemas, words: &[&str], answers: &mut String) {
    match schemas.entry(rt.alloc(), word_at(words, 0)) {
        Ok(place) if schemas.has(place) => {
            if let Ok(value) = read(rt.alloc(), word_at(words, 1).as_bytes()) {
                walked(rt, &KnownPlace { schemas, place }, &value, words, answers);
            }
        }
        _ => say(answers, "an entry is a place"),
    }
}

// `verdict`, and the calls that begin with `walk`, test the walk itself.
fn walked(rt: &HostRuntime, at: &KnownPlace, value: &Doc, words: &[&str], answers: &mut String) {
    match word_at(words, 2) {
        "verdict" => {
            mark_begin(rt);
            let made = verdict(rt.alloc(), at.schemas, at.place, value);
            mark_end(rt);
            push_answer(answers, made);
        }
        "walk_into_verdict" => judged(rt, at, value, answers),
        "walk_into_boxed" => boxed(rt, at, value, answers),
        "refusing" => refused(rt, at, value, number(word_at(words, 3)), answers),
        call if call.contains("flat") => on_rows(rt, at, value, words, answers),
        _ => on_tree(rt, at, value, words, answers),
    }
}

fn judged(rt: &HostRuntime, at: &KnownPlace, value: &Doc, answers: &mut String) {
    mark_begin(rt);
    let made = walk_into(rt.alloc(), at.schemas, at.place, value, Verdict::new());
    mark_end(rt);
    match made {
        Ok(verdict) => push_answer(answers, verdict.valid()),
        Err((fault, _verdict)) => push_answer(answers, fault),
    }
}

fn boxed(rt: &HostRuntime, at: &KnownPlace, value: &Doc, answers: &mut String) {
    mark_begin(rt);
    let boxed = Boxed::new(rt.alloc());
    let made = walk_into(rt.alloc(), at.schemas, at.place, value, boxed);
    mark_end(rt);
    match made {
        Ok(boxed) => hand_made::answer_on_boxed(rt, "", "", boxed, answers),
        Err((fault, _boxed)) => push_answer(answers, fault),
    }
}

fn on_tree(rt: &HostRuntime, at: &KnownPlace, value: &Doc, words: &[&str], answers: &mut String) {
    let call = word_at(words, 2);
    mark_begin_if(rt, call == "walk");
    let made = walk(rt.alloc(), at.schemas, at.place, value);
    mark_end(rt);
    match made {
        Ok(tree) => trees::answer_on_tree(rt, call, word_at(words, 3), tree, answers),
        Err(fault) => push_answer(answers, fault),
    }
}

fn on_rows(rt: &HostRuntime, at: &KnownPlace, value: &Doc, words: &[&str], answers: &mut String) {
    let call = word_at(words, 2);
    mark_begin_if(rt, call == "walk_into_flat");
    let flat = Flat::new(rt.alloc());
    let made = walk_into(rt.alloc(), at.schemas, at.place, value, flat);
    mark_end(rt);
    match made {
        Ok(flat) => flat_lists::answer_on_flat_list(rt, call, word_at(words, 3), flat, answers),
        Err((fault, _flat)) => push_answer(answers, fault),
    }
}

/// Accepts as many calls as are left, and refuses the next.
#[derive(Drop)]
struct Refusing {
    left: usize,
}

impl<'a> Collector<'a> for Refusing {
    ghost takes = { λ _ _ _. Unit {0} };

    fn enter(&mut self, head: Head) -> Result<(), Memory> {
        drop(head);
        self.left = self.left.checked_sub(1).ok_or(Memory)?;
        Ok(())
    }

    fn leave(&mut self, _valid: bool, note: Note<'a>) -> Result<(), Memory> {
        drop(note);
        self.left = self.left.checked_sub(1).ok_or(Memory)?;
        Ok(())
    }
}

// How many calls are left after the walk, or the fault.
fn refused(rt: &HostRuntime, at: &KnownPlace, value: &Doc, left: usize, answers: &mut String) {
    match walk_into(rt.alloc(), at.schemas, at.place, value, Refusing { left }) {
        Ok(refusing) => push_answer(answers, refusing.left),
        Err((fault, _refusing)) => push_answer(answers, fault),
    }
}

//! The marks around a call, and how its answer is written.
//!
//! Answers are added to one text. A piece for which there is no memory is left out, and then the answer is wrong.
use js_doc::{Doc, Memory, Pointer, put_text};
use std::fmt::Debug;
use std::io::Write;

/// More bytes than any text of a question has.
const ROOM: usize = 16_777_216;

/// The call comes next: from here on allocations are refused.
pub fn mark_begin(rt: &HostRuntime) {
    let _ = rt.stderr().write(b"<");
}

/// The call comes next, if it is the one to mark.
pub fn mark_begin_if(rt: &HostRuntime, is_marked: bool) {
    if is_marked {
        mark_begin(rt);
    }
}

/// The call has ended.
pub fn mark_end(rt: &HostRuntime) {
    let _ = rt.stderr().write(b">");
}

/// Reserves memory, so that a call that writes to the answers asks for none.
pub fn make_room(answers: &mut String) {
    let _ = answers.reserve(ROOM);
}

/// Adds a text.
pub fn say(answers: &mut String, text: &str) {
    let _ = answers.push_str(text);
}

/// Adds a text in UTF-8.
pub fn say_bytes(answers: &mut String, bytes: &[u8]) {
    match str::from_utf8(bytes) {
        Ok(text) => say(answers, text),
        Err(_) => say(answers, "not UTF-8"),
    }
}

/// Adds an answer as `Debug` writes it.
pub fn push_answer<A: Debug + Drop>(answers: &mut String, answer: A) {
    let _ = write!(answers, "{answer:?}");
}

/// Adds the text, or the fault's name.
pub fn push_text_answer<F: Debug + Drop>(answers: &mut String, made: Result<String, F>) {
    match made {
        Ok(text) => say(answers, text.as_str()),
        Err(fault) => push_answer(answers, fault),
    }
}

/// Adds the value's text, or the fault's name.
pub fn push_value<F: Debug + Drop>(answers: &mut String, made: Result<Doc, F>) {
    match made {
        Ok(doc) => show(answers, &doc),
        Err(fault) => push_answer(answers, fault),
    }
}

/// Adds the pointer's text, or the fault's name.
pub fn push_pointer<F: Debug + Drop>(answers: &mut String, made: Result<Pointer, F>) {
    match made {
        Ok(pointer) => {
            let text = pointer.text(*answers.allocator());
            push_text_answer(answers, text);
        }
        Err(fault) => push_answer(answers, fault),
    }
}

/// Adds a value's text.
pub fn show(answers: &mut String, doc: &Doc) {
    let _ = put_text(doc, answers);
}

/// Adds the error, `holds` without one, or the fault's name.
pub fn push_error(answers: &mut String, made: Result<Option<String>, Memory>) {
    match made {
        Ok(Some(error)) => say(answers, error.as_str()),
        Ok(None) => say(answers, "holds"),
        Err(fault) => push_answer(answers, fault),
    }
}

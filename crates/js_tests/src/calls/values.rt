//! Calls of js_doc. The words of a question: the call, and the texts that it takes.
use super::writing::{
    make_room, mark_begin, mark_end, push_answer, push_pointer, push_text_answer, push_value, say,
    show,
};
use crate::word_at;
use js_doc::{
    Doc, Members, Memory, Pointer, Text, from_value, push_fragment_token, push_string, push_token,
    put_text, read, text,
};
use serde_json::Value;

/// What the call answers that makes a value of a text, or that is made on this value.
pub fn answer_on_value(rt: &HostRuntime, words: &[&str], answers: &mut String) {
    let source = word_at(words, 1).as_bytes();
    match word_at(words, 0) {
        "read" => {
            mark_begin(rt);
            let made = read(rt.alloc(), source);
            mark_end(rt);
            push_value(answers, made);
        }
        "from_value" => {
            if let Ok(value) = Value::from_slice(rt.alloc(), source) {
                converted(rt, &value, answers);
            }
        }
        call => {
            if let Ok(doc) = read(rt.alloc(), source) {
                asked_of_value(rt, call, &doc, word_at(words, 2), answers);
            }
        }
    }
}

fn converted(rt: &HostRuntime, value: &Value, answers: &mut String) {
    mark_begin(rt);
    let made = from_value(rt.alloc(), value);
    mark_end(rt);
    push_value(answers, made);
}

fn asked_of_value(rt: &HostRuntime, call: &str, doc: &Doc, more: &str, answers: &mut String) {
    match call {
        "copy" => {
            mark_begin(rt);
            let made = doc.copy(rt.alloc());
            mark_end(rt);
            push_value(answers, made);
        }
        "text" => {
            mark_begin(rt);
            let made = text(rt.alloc(), doc);
            mark_end(rt);
            push_text_answer(answers, made);
        }
        "put_text" => {
            make_room(answers);
            mark_begin(rt);
            let _ = put_text(doc, answers);
            mark_end(rt);
        }
        "equal" => {
            if let Ok(other) = read(rt.alloc(), more.as_bytes()) {
                compared(rt, doc, &other, answers);
            }
        }
        _ => {
            if let Ok(pointer) = Pointer::parse(rt.alloc(), more) {
                found_at(rt, doc, &pointer, answers);
            }
        }
    }
}

fn compared(rt: &HostRuntime, doc: &Doc, other: &Doc, answers: &mut String) {
    mark_begin(rt);
    let is_equal = *doc == *other;
    mark_end(rt);
    push_answer(answers, is_equal);
}

fn found_at(rt: &HostRuntime, doc: &Doc, pointer: &Pointer, answers: &mut String) {
    mark_begin(rt);
    let found = doc.at(pointer);
    mark_end(rt);
    match found {
        Some(found) => show(answers, found),
        None => say(answers, "none"),
    }
}

/// Writes an object after `true` is put under a name; or the value under a name, and the object's first name.
pub fn answer_on_members(rt: &HostRuntime, words: &[&str], answers: &mut String) {
    let name = word_at(words, 2);
    match read(rt.alloc(), word_at(words, 1).as_bytes()) {
        Ok(Doc::Members(members)) if word_at(words, 0) == "get" => {
            member_found(rt, &members, name, answers);
        }
        Ok(Doc::Members(members)) => member_put(rt, members, name, answers),
        _ => say(answers, "it is no object"),
    }
}

fn member_found(rt: &HostRuntime, members: &Members, name: &str, answers: &mut String) {
    mark_begin(rt);
    let found = members.get(name);
    let first = members.pairs().next();
    mark_end(rt);
    match (found, first) {
        (Some(found), Some((first, _))) => {
            show(answers, found);
            say(answers, " ");
            say(answers, first.as_str());
        }
        _ => say(answers, "none"),
    }
}

fn member_put(rt: &HostRuntime, mut members: Members, name: &str, answers: &mut String) {
    if let Ok(name) = Text::from_str(rt.alloc(), name) {
        mark_begin(rt);
        let made = members.put(name, Doc::Truth(true));
        mark_end(rt);
        push_answer(answers, made);
        say(answers, " ");
    }
    push_value(answers, Ok::<Doc, Memory>(Doc::Members(members)));
}

/// The text of the pointer that is made, or what a pointer answers.
pub fn answer_on_pointer(rt: &HostRuntime, words: &[&str], answers: &mut String) {
    let source = word_at(words, 1);
    match word_at(words, 0) {
        "parse" => {
            mark_begin(rt);
            let made = Pointer::parse(rt.alloc(), source);
            mark_end(rt);
            push_pointer(answers, made);
        }
        "from_fragment" => {
            mark_begin(rt);
            let made = Pointer::from_fragment(rt.alloc(), source);
            mark_end(rt);
            push_pointer(answers, made);
        }
        call => {
            if let Ok(mut pointer) = Pointer::parse(rt.alloc(), source) {
                asked_of_pointer(rt, call, &mut pointer, word_at(words, 2), answers);
            }
        }
    }
}

fn asked_of_pointer(
    rt: &HostRuntime,
    call: &str,
    pointer: &mut Pointer,
    token: &str,
    answers: &mut String,
) {
    let alloc = rt.alloc();
    mark_begin(rt);
    match call {
        "copy" => {
            let made = pointer.copy(alloc);
            mark_end(rt);
            push_pointer(answers, made);
        }
        "further" => {
            let made = pointer.further(alloc, token);
            mark_end(rt);
            push_pointer(answers, made);
        }
        "fragment" => {
            let made = pointer.fragment(alloc);
            mark_end(rt);
            push_text_answer(answers, made);
        }
        "text" => {
            let made = pointer.text(alloc);
            mark_end(rt);
            push_text_answer(answers, made);
        }
        _ => {
            let made = pointer.push(token);
            mark_end(rt);
            push_answer(answers, made);
            say(answers, " ");
            push_text_answer(answers, pointer.text(alloc));
        }
    }
}

/// A token as it stands in pointers and fragments, or a text as a JSON string.
pub fn answer_on_token(rt: &HostRuntime, words: &[&str], answers: &mut String) {
    let text = word_at(words, 1);
    let mut out = String::new(rt.alloc());
    mark_begin(rt);
    let made = match word_at(words, 0) {
        "push_token" => push_token(&mut out, text),
        "push_fragment_token" => push_fragment_token(&mut out, text),
        _ => push_string(&mut out, text),
    };
    mark_end(rt);
    match made {
        Ok(()) => say(answers, out.as_str()),
        Err(fault) => push_answer(answers, fault),
    }
}

//! A bundle made of documents. After an allocation is refused, the call is made once more.
use super::writing::{mark_begin, mark_begin_if, mark_end, push_answer, say};
use js_bundle::{Bundle, Refusal, Schemas};
use js_doc::{Doc, read};

/// The schemas of the documents, if they are accepted. If a marked call finds no memory, `Memory` is written first,
/// and the call is made again.
pub fn finished_schemas(
    rt: &HostRuntime,
    marked: &str,
    documents: &str,
    answers: &mut String,
) -> Option<Schemas> {
    let bundle = bundle_of(rt, marked, documents, answers);
    mark_begin_if(rt, marked == "finish");
    let made = bundle.finish(rt.alloc());
    mark_end(rt);
    match made {
        Ok(schemas) => Some(schemas),
        Err((refusal, bundle)) => {
            push_refusal(answers, refusal);
            bundle.finish(rt.alloc()).ok()
        }
    }
}

fn bundle_of(rt: &HostRuntime, marked: &str, documents: &str, answers: &mut String) -> Bundle {
    let mut bundle = Bundle::new(rt.alloc());
    for document in documents.split('\u{1e}') {
        if !document.is_empty() {
            add_document(rt, marked, &mut bundle, document, answers);
        }
    }
    bundle
}

fn add_document(
    rt: &HostRuntime,
    marked: &str,
    bundle: &mut Bundle,
    document: &str,
    answers: &mut String,
) {
    let (uri, text) = document.split_once('\u{1f}').unwrap_or((document, ""));
    if marked != "add_doc" {
        mark_begin_if(rt, marked == "add");
        let made = bundle.add(uri, text.as_bytes());
        mark_end(rt);
        if let Err(refusal) = made {
            push_refusal(answers, refusal);
            let _ = bundle.add(uri, text.as_bytes());
        }
    } else if let Ok(value) = read(rt.alloc(), text.as_bytes()) {
        add_value(rt, bundle, uri, value, answers);
    }
}

// The same with a value: the one that comes back is passed in again.
fn add_value(rt: &HostRuntime, bundle: &mut Bundle, uri: &str, value: Doc, answers: &mut String) {
    mark_begin(rt);
    let made = bundle.add_doc(uri, value);
    mark_end(rt);
    if let Err((refusal, value)) = made {
        push_refusal(answers, refusal);
        let _ = bundle.add_doc(uri, value);
    }
}

fn push_refusal(answers: &mut String, refusal: Refusal) {
    push_answer(answers, refusal.kind);
    say(answers, "\u{1e}");
}

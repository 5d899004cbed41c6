//! What finished schemas answer at a place. The words of a question: the URI of an entry, the call on the place that
//! it names, and its argument.
ghost use Rattle.std.specs.Prelude.{◌≡◌, true};
ghost use Rattle.js_bundle.specs.Schemas.{is_place};

use super::number;
use super::writing::{
    mark_begin, mark_begin_if, mark_end, push_answer, push_error, push_text_answer, say, show,
};
use crate::word_at;
use js_bundle::{Place, Schemas, Step};
use js_doc::{Doc, read};
use std::alloc::Global;

/// A place of finished schemas.
#[derive(Drop)]
pub struct KnownPlace<'a> {
    pub schemas: &'a Schemas,
    pub place: Place,
    ghost there: { is_place schemas.now place ≡ true },
}

pub fn answer_at_place(rt: &HostRuntime, schemas: &Schemas, words: &[&str], answers: &mut String) {
    mark_begin_if(rt, word_at(words, 1) == "entry");
    let found = schemas.entry(rt.alloc(), word_at(words, 0));
    mark_end(rt);
    match found {
        Ok(place) if schemas.has(place) => asked(
            rt,
            &KnownPlace { schemas, place },
            words,
            answers,
        ),
        Ok(_) => say(answers, "an entry is a place"),
        Err(fault) => push_answer(answers, fault),
    }
}

fn asked(rt: &HostRuntime, at: &KnownPlace, words: &[&str], answers: &mut String) {
    let first = word_at(words, 2);
    let second = word_at(words, 3);
    match word_at(words, 1) {
        "entry" => push_location(answers, at.schemas, Some(at.place)),
        "absolute" => {
            mark_begin(rt);
            let made = at.schemas.absolute(rt.alloc(), at.place, Some(first));
            mark_end(rt);
            push_text_answer(answers, made);
        }
        "standing" => standing(rt, at, answers),
        "alone" => below(rt, at, first, Step::Alone, answers),
        "index" => below(rt, at, first, Step::Index(number(second)), answers),
        "name" => below(rt, at, first, Step::Name(second), answers),
        "assertion" => {
            if let Ok(value) = read(rt.alloc(), second.as_bytes()) {
                said(rt, at, first, &value, answers);
            }
        }
        "pattern" => matched(rt, at, first, second, answers),
        "target" => target(rt, at, answers),
        "dynamic target" => {
            let path = path_of(rt.alloc(), at.schemas, words.get(2..).unwrap_or(&[]));
            dynamic_target(rt, at, path.as_slice(), answers);
        }
        "places" => places(rt, at.schemas, answers),
        _ => resources(rt, at.schemas, answers),
    }
}

// The absolute location of a place, or `none`.
fn push_location(answers: &mut String, schemas: &Schemas, place: Option<Place>) {
    match place {
        Some(place) if schemas.has(place) => {
            let (location, rest) = schemas.location_of(place);
            say(answers, location);
            say(answers, rest);
        }
        Some(_) => say(answers, "it is no place"),
        None => say(answers, "none"),
    }
}

// The location of a place, its schema and its keywords.
fn standing(rt: &HostRuntime, at: &KnownPlace, answers: &mut String) {
    mark_begin(rt);
    let has = at.schemas.has(at.place);
    let (start, rest) = at.schemas.location_of(at.place);
    let number = at.schemas.document(at.place);
    let pointer = at.schemas.pointer(at.place);
    let schema = at.schemas.schema(at.place);
    let names = at.schemas.keyword_names(at.place);
    let uri = at.schemas.resource(at.place);
    let rank = at.schemas.resource_number(at.place);
    let count = at.schemas.resource_count();
    mark_end(rt);
    let _ = write!(answers, "{has} {start}{rest}, document {number} at ");
    push_text_answer(answers, pointer.text(rt.alloc()));
    let _ = write!(answers, ", resource {rank} of {count}, {uri}: ");
    show(answers, schema);
    let _ = write!(answers, " {names:?}");
}

// The place at a step, by both calls that find it, and its schema.
fn below(rt: &HostRuntime, at: &KnownPlace, keyword: &str, step: Step<'_>, answers: &mut String) {
    mark_begin(rt);
    let next = at.schemas.below(at.place, keyword, step);
    let with_schema = at
        .schemas
        .schema_below(at.place, at.schemas.schema(at.place), keyword, step);
    mark_end(rt);
    push_location(answers, at.schemas, next);
    if let Some((next_again, schema)) = with_schema {
        say(answers, " ");
        push_location(answers, at.schemas, Some(next_again));
        say(answers, ": ");
        show(answers, schema);
    }
}

// What the assertion of a keyword says of a value, one of whose items matches.
fn said(rt: &HostRuntime, at: &KnownPlace, keyword: &str, value: &Doc, answers: &mut String) {
    mark_begin(rt);
    let assertion = at.schemas.assertion(at.place, keyword);
    mark_end(rt);
    match assertion {
        Some(assertion) => push_error(answers, assertion.check(rt.alloc(), value, 1)),
        None => say(answers, "no assertion"),
    }
}

// Whether a pattern holds of a text.
fn matched(rt: &HostRuntime, at: &KnownPlace, name: &str, text: &str, answers: &mut String) {
    mark_begin(rt);
    let pattern = at.schemas.pattern(at.place, name);
    mark_end(rt);
    match pattern {
        Some(pattern) => push_answer(answers, pattern.holds(rt.alloc(), text)),
        None => say(answers, "no pattern"),
    }
}

// Where `$ref` leads; without one, whether there is a `$dynamicRef`.
fn target(rt: &HostRuntime, at: &KnownPlace, answers: &mut String) {
    mark_begin(rt);
    let is_dynamic = at.schemas.has_dynamic_ref(at.place);
    let led_to = if at.schemas.has_ref(at.place) {
        Some(at.schemas.target(at.place))
    } else {
        None
    };
    mark_end(rt);
    if is_dynamic && led_to.is_none() {
        say(answers, "dynamic");
    } else {
        push_location(answers, at.schemas, led_to);
    }
}

fn path_of(alloc: Global, schemas: &Schemas, uris: &[&str]) -> Vec<Place> {
    let mut path = Vec::new(alloc);
    for uri in uris.iter() {
        if let Ok(place) = schemas.entry(alloc, uri) {
            let _ = path.push(place);
        }
    }
    path
}

// The numbers of the resources on a path; of equal neighbours one.
fn numbers_of(alloc: Global, schemas: &Schemas, path: &[Place]) -> Vec<usize> {
    let mut numbers = Vec::new(alloc);
    for place in path.iter() {
        if schemas.has(*place) {
            let number = schemas.resource_number(*place);
            if numbers.last() != Some(&number) {
                let _ = numbers.push(number);
            }
        }
    }
    numbers
}

// Where `$dynamicRef` leads at the end of a path of places: by the path, and by the numbers of its resources.
fn dynamic_target(rt: &HostRuntime, at: &KnownPlace, path: &[Place], answers: &mut String) {
    let numbers = numbers_of(rt.alloc(), at.schemas, path);
    if at.schemas.has_dynamic_ref(at.place) {
        mark_begin(rt);
        let by_path = at.schemas.dynamic_target(at.place, path);
        let by_numbers = at.schemas.dynamic_target_in(at.place, numbers.as_slice());
        mark_end(rt);
        push_location(answers, at.schemas, Some(by_path));
        say(answers, " ");
        push_location(answers, at.schemas, Some(by_numbers));
    }
}

// The absolute locations of all places, a line each.
fn places(rt: &HostRuntime, schemas: &Schemas, answers: &mut String) {
    mark_begin(rt);
    let made = schemas.places(rt.alloc());
    mark_end(rt);
    match made {
        Ok(places) => {
            for place in places.iter() {
                push_location(answers, schemas, Some(*place));
                say(answers, "\n");
            }
        }
        Err(fault) => push_answer(answers, fault),
    }
}

// The URI of each resource and the location of its root, a line each.
fn resources(rt: &HostRuntime, schemas: &Schemas, answers: &mut String) {
    mark_begin(rt);
    let made = schemas.resources(rt.alloc());
    mark_end(rt);
    match made {
        Ok(resources) => {
            for (uri, root) in resources.iter() {
                say(answers, uri);
                say(answers, ": ");
                push_location(answers, schemas, Some(*root));
                say(answers, "\n");
            }
        }
        Err(fault) => push_answer(answers, fault),
    }
}

//! Whole runs over devices in memory. The words of a question: what is run, its entry, its input; the read that
//! fails, and `interrupted` if it fails that way; how many bytes the writer takes a call, and the write or flush that
//! fails.
use super::fakes::{SlowReader, SlowWriter};
use super::number;
use super::trees::format_named;
use super::writing::{mark_begin, mark_end, push_answer, push_text_answer, say, say_bytes};
use crate::word_at;
use js_output::{
    Fault, Sink, Source, read_all, refusal_line, run, run_pair, run_places, run_suite,
};
use std::alloc::Global;
use std::fmt::Debug;
use std::io::{ErrorKind, Read, Write};

/// What the run answers, and how often its reader and its writer were called; what one more `read_all` and a flush
/// answer, how often they were called then, and whether the source and the sink have failed; and what was written.
pub fn answer_over_devices(
    rt: &HostRuntime,
    documents: &str,
    words: &[&str],
    answers: &mut String,
) {
    let kind = match word_at(words, 4) {
        "interrupted" => ErrorKind::Interrupted,
        _ => ErrorKind::Other,
    };
    let read_fails = number(word_at(words, 3)) as u64;
    let reader = SlowReader::new(word_at(words, 2).as_bytes(), read_fails, kind);
    let write_fails = number(word_at(words, 6)) as u64;
    let mut writer = SlowWriter::new(rt.alloc(), number(word_at(words, 5)), write_fails);
    let documents = documents_of(rt.alloc(), documents);
    let mut source = Source::new(reader);
    let mut out = Sink::new(&mut writer);
    performed(
        rt,
        documents.as_slice(),
        words,
        &mut source,
        &mut out,
        answers,
    );
    look_again(rt, &mut source, &mut out, answers);
    say_bytes(answers, writer.got.as_slice());
}

fn documents_of<'d>(alloc: Global, documents: &'d str) -> Vec<(&'d str, &'d [u8])> {
    let mut pairs = Vec::new(alloc);
    for document in documents.split('\u{1e}') {
        if let Some((uri, text)) = document.split_once('\u{1f}') {
            let _ = pairs.push((uri, text.as_bytes()));
        }
    }
    pairs
}

fn performed<R: Read, W: Write>(
    rt: &HostRuntime,
    documents: &[(&str, &[u8])],
    words: &[&str],
    source: &mut Source<R>,
    out: &mut Sink<W>,
    answers: &mut String,
) {
    let alloc = rt.alloc();
    match word_at(words, 0) {
        "pair" => push_outcome(answers, run_pair(alloc, source, out)),
        "suite" => push_outcome(answers, run_suite(alloc, documents, source, out)),
        "places" => push_outcome(answers, run_places(alloc, documents, out)),
        format => {
            let format = format_named(format);
            let made = run(alloc, documents, word_at(words, 1), source, format, out);
            push_outcome(answers, made);
        }
    }
}

fn push_outcome<A: Debug + Drop>(answers: &mut String, made: Result<A, Fault>) {
    match made {
        Ok(answer) => push_answer(answers, answer),
        Err(fault) => {
            let line = refusal_line(*answers.allocator(), &fault);
            push_text_answer(answers, line);
        }
    }
}

fn look_again<R: Read, W: Write>(
    rt: &HostRuntime,
    source: &mut Source<R>,
    out: &mut Sink<W>,
    answers: &mut String,
) {
    let (reads, writes) = (source.calls(), out.calls());
    let read_again = read_all(rt.alloc(), source);
    mark_begin(rt);
    let flushed = out.flush();
    let calls = (source.calls(), out.calls());
    let failed = (source.failed(), out.failed());
    mark_end(rt);
    let _ = write!(
        answers,
        ", {reads}, {writes}; {read_again:?}, {flushed:?}, {calls:?}, {failed:?}; "
    );
}

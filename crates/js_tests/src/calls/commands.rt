//! The program's work over files and devices in memory. The words of a question: standard input, and the read that
//! fails; how many bytes the output takes a call, and the write or flush that fails; then the program's words.
use super::fakes::{SlowReader, SlowWriter};
use super::number;
use super::writing::{push_answer, say, say_bytes};
use crate::word_at;
use js_command::{Files, command};
use js_output::{Fault, Sink, Source, read_all};
use std::alloc::Global;
use std::io::ErrorKind;

/// The exit status, how often the output was called, what it took, and what went to standard error.
pub fn answer_of_command(rt: &HostRuntime, words: &[&str], answers: &mut String) {
    let read_fails = number(word_at(words, 1)) as u64;
    let reader = SlowReader::new(word_at(words, 0).as_bytes(), read_fails, ErrorKind::Other);
    let write_fails = number(word_at(words, 3)) as u64;
    let mut output = SlowWriter::new(rt.alloc(), number(word_at(words, 2)), write_fails);
    let mut line = Vec::new(rt.alloc());
    let status = command(
        rt.alloc(),
        words.get(4..).unwrap_or(&[]),
        &mut InMemory {},
        &mut Source::new(reader),
        &mut Sink::new(&mut output),
        &mut Sink::new(&mut line),
    );
    push_answer(answers, status);
    say(answers, ", ");
    push_answer(answers, output.calls);
    say(answers, "; ");
    say_bytes(answers, output.got.as_slice());
    say(answers, "; ");
    say_bytes(answers, line.as_slice());
}

/// Four files: one of them is too large, and no other can be read.
#[derive(Drop)]
struct InMemory {}

impl Files for InMemory {
    fn take(&mut self, alloc: Global, path: &str) -> Result<Vec<u8>, Fault> {
        let text = match path {
            "schema" => "{\"type\":\"integer\"}",
            "refused" => "{\"type\":[]}",
            "instance" => "3",
            "large" => return Err(Fault::InputTooLarge),
            _ => return Err(Fault::Read),
        };
        read_all(alloc, &mut Source::new(text.as_bytes()))
    }
}

//! The program's arguments, and the task that they name.
ghost use Rattle.std.specs.Prelude.{◌≡◌, Ok, Some, IfOk, IfErr, ◌<◌, length, option_map, codes};
ghost use Rattle.clap.specs.Words.{found_of, first_of, all_of, rows_of, subcommand_rows_of};
ghost use Rattle.js_command.specs.Words.{request_of, words_of, pairs_in, places_by, pairs_seen};
ghost use Rattle.js_command.specs.code.Tasks.{request_seen, IsMisuse, IsNoPairs};
ghost use Rattle.js_command.specs.Found.{entered, request_in, check_in, suite_in, pairs_of};

use crate::grammar::grammar;
use crate::lists::append;
use clap::ArgMatches;
use clap::error::ErrorKind;
use js_output::Format;
use std::alloc::{AllocError, AllocFailed, Global};

/// The usage text, written if the words have none of the four forms.
pub const USAGE: &[u8] =
    b"usage: jschema (check FORMAT INSTANCE ENTRY | suite SUITE | places) [URI FILE]...\n";

/// The usage text if a URI has no file.
pub const PAIRS_USAGE: &[u8] = b"usage: URI and FILE come in pairs\n";

/// What the words ask for.
#[derive(Drop)]
pub(crate) enum Task<'a> {
    /// Validate the pair on standard input.
    Pair,
    /// Check an instance, or run a suite.
    Judge(Judgement<'a>),
    /// List the places of documents.
    Places(Vec<DocumentFile<'a>>),
}

/// What is to be judged: a file, by schema documents.
#[derive(Drop)]
pub(crate) struct Judgement<'a> {
    pub(crate) subject: Subject<'a>,
    pub(crate) file: &'a str,
    pub(crate) documents: Vec<DocumentFile<'a>>,
}

/// What a file that is judged holds.
#[derive(Drop)]
pub(crate) enum Subject<'a> {
    /// An instance. The output has this format, and the entry has this URI.
    Instance(Format, &'a str),
    /// A suite.
    Suite,
}

/// A schema document that the words name.
#[derive(Clone, Copy, Drop)]
pub struct DocumentFile<'a> {
    /// Its URI.
    pub uri: &'a str,
    /// The path of its file.
    pub file: &'a str,
}

/// Why the words name no task.
#[derive(Clone, Copy, Debug, Drop, PartialEq, Eq)]
pub enum Misuse {
    /// Memory ran out.
    Memory,
    /// They have none of the four forms.
    OtherForm,
    /// A URI has no file.
    OddPairs,
}

impl From<AllocError> for Misuse {
    ghost use Rattle.js_command.specs.declared.words.Misuse.TheVariants.{Memory};

    ghost from_gives = { λ _ m. m ≡ Memory };

    fn from(_refused: AllocError) -> Misuse {
        Misuse::Memory
    }
}

impl<T: Drop> From<AllocFailed<T>> for Misuse {
    ghost use Rattle.js_command.specs.declared.words.Misuse.TheVariants.{Memory};

    ghost from_gives = { λ _ m. m ≡ Memory };

    fn from(_refused: AllocFailed<T>) -> Misuse {
        Misuse::Memory
    }
}

impl From<clap::Error> for Misuse {
    ghost use Rattle.clap.specs.Words.{kind_of};
    ghost use Rattle.js_command.specs.Found.{misuse_of};

    ghost from_gives = { λ e m. m ≡ misuse_of (kind_of e) };

    fn from(error: clap::Error) -> Misuse {
        match error.kind() {
            ErrorKind::OutOfMemory => Misuse::Memory,
            _ => Misuse::OtherForm,
        }
    }
}

/// The task that the words name, without the program's name.
///
/// # Errors
/// See [`Misuse`]. A wrong format comes before an odd number of words.
pub(crate) fn task_of<'a>(alloc: Global, words: &'a [&'a str]) -> Result<Task<'a>, Misuse>
    ensures ok { IfOk result (λ t. request_of (words_of words.now) ≡ Ok (request_seen t)) }
    ensures err { IfErr result (IsMisuse (request_of (words_of words.now))) }
{
    if words.is_empty() {
        return Ok(Task::Pair);
    }
    let matches = matches_of(alloc, words)?;
    task_found(alloc, &matches)
}

// What `clap` finds in the words.
fn matches_of<'a>(alloc: Global, words: &'a [&'a str]) -> Result<ArgMatches<'a>, Misuse>
    requires { 0 < length words.now }
    ensures ok { IfOk result (λ m.
        entered (subcommand_rows_of m) ≡ request_of (words_of words.now)) }
    ensures err { IfErr result (IsMisuse (request_of (words_of words.now))) }
{
    let grammar = grammar(alloc)?;
    let matches = grammar.try_get_matches_from(words)?;
    Ok(matches)
}

fn task_found<'a>(alloc: Global, matches: &ArgMatches<'a>) -> Result<Task<'a>, Misuse>
    ensures ok { IfOk result (λ t.
        entered (subcommand_rows_of matches.now) ≡ Ok (request_seen t)) }
    ensures err { IfErr result (IsMisuse (entered (subcommand_rows_of matches.now))) }
{
    match matches.subcommand() {
        Some((name, found)) => task_named(alloc, name, found),
        None => Err(Misuse::OtherForm),
    }
}

fn task_named<'a>(alloc: Global, name: &str, found: &ArgMatches<'a>) -> Result<Task<'a>, Misuse>
    ensures ok { IfOk result (λ t.
        request_in name.now (rows_of (found_of found.now)) ≡ Ok (request_seen t)) }
    ensures err { IfErr result (IsMisuse (request_in name.now (rows_of (found_of found.now)))) }
{
    match name {
        "check" => check_in(alloc, found),
        "suite" => suite_in(alloc, found),
        _ => places_in(alloc, found),
    }
}

fn check_in<'a>(alloc: Global, found: &ArgMatches<'a>) -> Result<Task<'a>, Misuse>
    ensures ok { IfOk result (λ t. check_in
        (first_of (codes "FORMAT") (rows_of (found_of found.now)))
        (first_of (codes "INSTANCE") (rows_of (found_of found.now)))
        (first_of (codes "ENTRY") (rows_of (found_of found.now)))
        (pairs_of (rows_of (found_of found.now))) ≡ Ok (request_seen t)) }
    ensures err { IfErr result (IsMisuse (check_in
        (first_of (codes "FORMAT") (rows_of (found_of found.now)))
        (first_of (codes "INSTANCE") (rows_of (found_of found.now)))
        (first_of (codes "ENTRY") (rows_of (found_of found.now)))
        (pairs_of (rows_of (found_of found.now))))) }
{
    let Some(format) = word_in(found, "FORMAT") else {
        return Err(Misuse::OtherForm);
    };
    let Some(file) = word_in(found, "INSTANCE") else {
        return Err(Misuse::OtherForm);
    };
    let Some(entry) = word_in(found, "ENTRY") else {
        return Err(Misuse::OtherForm);
    };
    let Some(format) = Format::named(format) else {
        return Err(Misuse::OtherForm);
    };
    let documents = documents_in(alloc, found)?;
    Ok(Task::Judge(Judgement {
        subject: Subject::Instance(format, entry),
        file,
        documents,
    }))
}

fn suite_in<'a>(alloc: Global, found: &ArgMatches<'a>) -> Result<Task<'a>, Misuse>
    ensures ok { IfOk result (λ t. suite_in
        (first_of (codes "SUITE") (rows_of (found_of found.now)))
        (pairs_of (rows_of (found_of found.now))) ≡ Ok (request_seen t)) }
    ensures err { IfErr result (IsMisuse (suite_in
        (first_of (codes "SUITE") (rows_of (found_of found.now)))
        (pairs_of (rows_of (found_of found.now))))) }
{
    let Some(file) = word_in(found, "SUITE") else {
        return Err(Misuse::OtherForm);
    };
    let documents = documents_in(alloc, found)?;
    Ok(Task::Judge(Judgement {
        subject: Subject::Suite,
        file,
        documents,
    }))
}

fn places_in<'a>(alloc: Global, found: &ArgMatches<'a>) -> Result<Task<'a>, Misuse>
    ensures ok { IfOk result (λ t.
        places_by (pairs_of (rows_of (found_of found.now))) ≡ Ok (request_seen t)) }
    ensures err { IfErr result (IsMisuse (places_by (pairs_of (rows_of (found_of found.now))))) }
{
    let documents = documents_in(alloc, found)?;
    Ok(Task::Places(documents))
}

fn word_in<'a>(found: &ArgMatches<'a>, name: &str) -> Option<&'a str>
    ensures { option_map (λ s. s.now) result ≡ first_of name.now (rows_of (found_of found.now)) }
{
    found.get_str(name)
}

fn words_in<'f, 'a>(found: &'f ArgMatches<'a>, name: &str) -> Option<&'f [&'a str]>
    ensures { option_map (λ s. words_of s.now) result
        ≡ all_of name.now (rows_of (found_of found.now)) }
{
    found.get_strs(name)
}

fn documents_in<'a>(alloc: Global, found: &ArgMatches<'a>) -> Result<Vec<DocumentFile<'a>>, Misuse>
    ensures ok { IfOk result (λ ds.
        pairs_of (rows_of (found_of found.now)) ≡ Some (pairs_seen ds.items)) }
    ensures err { IfErr result (IsNoPairs (pairs_of (rows_of (found_of found.now)))) }
{
    match words_in(found, "PAIRS") {
        Some(words) => documents_of(alloc, words),
        None => Ok(Vec::new(alloc)),
    }
}

fn documents_of<'a>(alloc: Global, words: &[&'a str]) -> Result<Vec<DocumentFile<'a>>, Misuse>
    ensures ok { IfOk result (λ ds. pairs_in (words_of words.now) ≡ Some (pairs_seen ds.items)) }
    ensures err { IfErr result (IsNoPairs (pairs_in (words_of words.now))) }
{
    let mut documents = Vec::new(alloc);
    let mut at = 0;
    while at + 1 < words.len() {
        let document = DocumentFile {
            uri: words[at],
            file: words[at + 1],
        };
        append(&mut documents, document)?;
        at += 2;
    }
    if at < words.len() {
        return Err(Misuse::OddPairs);
    }
    Ok(documents)
}

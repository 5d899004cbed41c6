//! What the program's words ask for.
ghost use Rattle.std.specs.Prelude.{◌≡◌, Ok, IfOk, IfErr, option_map};
ghost use Rattle.js_command.specs.Words.{words_of, pairs_seen};
ghost use Rattle.js_upgrade_cli.specs.Words.{request_from, misplaced, misuse_in, upgrade_request_of};
ghost use Rattle.js_upgrade_cli.specs.code.Seen.{IsUpgradeMisuse, upgrade_request_seen, said_seen};

use crate::names::are_apart;
use crate::numbers::Numbers;
use crate::words::{SaidSoFar, UpgradeMisuse, Waiting, say_word};
use js_command::DocumentFile;
use js_upgrade::Dialect;
use std::alloc::Global;

/// Documents to be upgraded, the dialect of those that name none, which numbers they may have, and the folder of the
/// results, if there is one.
#[derive(Drop)]
pub(crate) struct UpgradeRequest<'a> {
    pub(crate) assumed: Dialect,
    pub(crate) numbers: Numbers,
    pub(crate) into: Option<&'a str>,
    pub(crate) documents: Vec<DocumentFile<'a>>,
}

/// What the words ask for, without the program's name.
///
/// # Errors
/// See [`UpgradeMisuse`].
pub(crate) fn upgrade_request_of<'a>(
    alloc: Global,
    words: &'a [&'a str],
) -> Result<UpgradeRequest<'a>, UpgradeMisuse>
    ensures ok { IfOk result (λ r. upgrade_request_of (words_of words.entry.now) ≡ Ok (upgrade_request_seen r)) }
    ensures err { IfErr result (IsUpgradeMisuse (upgrade_request_of (words_of words.entry.now))) }
{
    let mut said = SaidSoFar {
        waiting: Waiting::ForAny,
        assumed: Dialect::Draft2020,
        numbers: Numbers::Whole,
        into: None,
        uri: None,
        documents: Vec::new(alloc),
    };
    for word in words {
        say_word(&mut said, word)?;
    }
    request_from(said)
}

// What was asked for by all words.
fn request_from<'a>(said: SaidSoFar<'a>) -> Result<UpgradeRequest<'a>, UpgradeMisuse>
    ensures ok { IfOk result (λ r. request_from (said_seen said.entry) ≡ Ok (upgrade_request_seen r)) }
    ensures err { IfErr result (IsUpgradeMisuse (request_from (said_seen said.entry))) }
{
    if let Some(misuse) = misuse_in(&said) {
        return Err(misuse);
    }
    let SaidSoFar {
        assumed,
        numbers,
        into,
        documents,
        ..
    } = said;
    Ok(UpgradeRequest {
        assumed,
        numbers,
        into,
        documents,
    })
}

// Why what was said is no request.
fn misuse_in(said: &SaidSoFar) -> Option<UpgradeMisuse>
    ensures { result ≡ misuse_in (said_seen said.now) }
{
    match said.waiting {
        Waiting::ForDialect | Waiting::ForNumbers | Waiting::ForFolder => return Some(
            UpgradeMisuse::OtherForm,
        ),
        Waiting::ForAny | Waiting::ForPairs => {}
    }
    if said.uri.is_some() {
        return Some(UpgradeMisuse::OddPairs);
    }
    misplaced(said.into, said.documents.as_slice())
}

// Why the documents can't be written so: several go into a folder, where no two have one name.
fn misplaced(into: Option<&str>, documents: &[DocumentFile]) -> Option<UpgradeMisuse>
    ensures { result ≡ misplaced (option_map (λ w. w.now) into.entry) (pairs_seen documents.now) }
{
    if documents.is_empty() {
        return Some(UpgradeMisuse::OtherForm);
    }
    match into {
        None => if documents.len() == 1 {
            None
        } else {
            Some(UpgradeMisuse::NoFolder)
        },
        Some(_) => if are_apart(documents) {
            None
        } else {
            Some(UpgradeMisuse::OneName)
        },
    }
}

//! The program's words, one after another.
ghost use Rattle.std.specs.Prelude.{◌≡◌, Ok, OnOk, IfErr};
ghost use Rattle.js_upgrade_cli.specs.Words.{dialect_of, dialect_said, is_option, option_said};
ghost use Rattle.js_upgrade_cli.specs.Words.{numbers_of, numbers_said, plain_said, word_said};
ghost use Rattle.js_upgrade_cli.specs.code.Seen.{IsUpgradeMisuse, said_seen};

use crate::numbers::Numbers;
use js_command::{DocumentFile, append};
use js_upgrade::Dialect;
use std::alloc::AllocFailed;

/// The usage text, written if the words don't have the program's form.
pub const UPGRADE_USAGE: &[u8] =
    b"usage: jschema-upgrade [--default-dialect DIALECT] [--numbers RANGE] [--into FOLDER] URI FILE [URI FILE]...\n";

/// The usage text if a word that is to be a dialect is none.
pub(crate) const DIALECT_USAGE: &[u8] =
    b"usage: DIALECT is draft-03, draft-04, draft-06, draft-07, 2019-09, 2020-12 or its URI\n";

/// The usage text if a word that is to be a range of numbers is none.
pub(crate) const NUMBERS_USAGE: &[u8] = b"usage: RANGE is exact or whole\n";

/// The usage text if there are several documents, and no folder.
pub(crate) const FOLDER_USAGE: &[u8] = b"usage: several documents need --into FOLDER\n";

/// The usage text if two documents would be written to one file.
pub(crate) const NAMES_USAGE: &[u8] = b"usage: with --into each FILE needs a name of its own\n";

/// Why the words ask for nothing.
#[derive(Clone, Copy, Debug, Drop, PartialEq, Eq)]
pub enum UpgradeMisuse {
    /// Memory ran out.
    Memory,
    /// They don't have the program's form.
    OtherForm,
    /// A URI has no file.
    OddPairs,
    /// A word that is to be a dialect is none.
    NoDialect,
    /// A word that is to be a range of numbers is none.
    NoNumbers,
    /// There are several documents, and no folder.
    NoFolder,
    /// Two documents would be written to one file.
    OneName,
}

impl<T: Drop> From<AllocFailed<T>> for UpgradeMisuse {
    ghost use Rattle.js_upgrade_cli.specs.declared.words.UpgradeMisuse.TheVariants.{Memory};

    ghost from_gives = { λ _ m. m ≡ Memory };

    fn from(_refused: AllocFailed<T>) -> UpgradeMisuse {
        UpgradeMisuse::Memory
    }
}

/// What the next word is.
#[derive(Clone, Copy, Drop)]
pub(crate) enum Waiting {
    /// An option, or a word of a pair.
    ForAny,
    /// The dialect that is assumed.
    ForDialect,
    /// Which numbers are taken.
    ForNumbers,
    /// The folder.
    ForFolder,
    /// A word of a pair.
    ForPairs,
}

/// What the words so far say.
#[derive(Drop)]
pub(crate) struct SaidSoFar<'a> {
    pub(crate) waiting: Waiting,
    pub(crate) assumed: Dialect,
    pub(crate) numbers: Numbers,
    pub(crate) into: Option<&'a str>,
    /// A URI whose file is the next word of a pair.
    pub(crate) uri: Option<&'a str>,
    pub(crate) documents: Vec<DocumentFile<'a>>,
}

/// What a word says after those before it.
///
/// # Errors
/// See [`UpgradeMisuse`].
pub(crate) fn say_word<'a>(said: &mut SaidSoFar<'a>, word: &'a str) -> Result<(), UpgradeMisuse>
    ensures ok { OnOk result (word_said (said_seen said.old) word.entry.now ≡ Ok (said_seen said.new)) }
    ensures err { IfErr result (IsUpgradeMisuse (word_said (said_seen said.old) word.entry.now)) }
{
    match said.waiting {
        Waiting::ForAny => say_option(said, word),
        Waiting::ForDialect => say_dialect(said, dialect_of(word)),
        Waiting::ForNumbers => say_numbers(said, numbers_of(word)),
        Waiting::ForFolder => {
            said.waiting = Waiting::ForAny;
            said.into = Some(word);
            Ok(())
        }
        Waiting::ForPairs => say_plain(said, word),
    }
}

fn say_option<'a>(said: &mut SaidSoFar<'a>, word: &'a str) -> Result<(), UpgradeMisuse>
    ensures ok { OnOk result (option_said (said_seen said.old) word.entry.now ≡ Ok (said_seen said.new)) }
    ensures err { IfErr result (IsUpgradeMisuse (option_said (said_seen said.old) word.entry.now)) }
{
    match word {
        "--default-dialect" => said.waiting = Waiting::ForDialect,
        "--numbers" => said.waiting = Waiting::ForNumbers,
        "--into" => said.waiting = Waiting::ForFolder,
        "--" => said.waiting = Waiting::ForPairs,
        _ => {
            if is_option(word) {
                return Err(UpgradeMisuse::OtherForm);
            }
            return say_plain(said, word);
        }
    }
    Ok(())
}

// A word that begins with `-` and has more.
fn is_option(word: &str) -> bool
    ensures { result ≡ is_option word.now }
{
    let bytes = word.as_bytes();
    1 < bytes.len() && bytes[0] == b'-'
}

fn say_dialect(said: &mut SaidSoFar<'_>, dialect: Option<Dialect>) -> Result<(), UpgradeMisuse>
    ensures ok { OnOk result (dialect_said (said_seen said.old) dialect ≡ Ok (said_seen said.new)) }
    ensures err { IfErr result (IsUpgradeMisuse (dialect_said (said_seen said.old) dialect)) }
{
    let Some(dialect) = dialect else {
        return Err(UpgradeMisuse::NoDialect);
    };
    said.waiting = Waiting::ForAny;
    said.assumed = dialect;
    Ok(())
}

// The dialect that a word names, as the drafts are called, or as `$schema` names them.
fn dialect_of(word: &str) -> Option<Dialect>
    ensures { result ≡ dialect_of word.now }
{
    match word {
        "draft-03" => Some(Dialect::Draft03),
        "draft-04" => Some(Dialect::Draft04),
        "draft-06" => Some(Dialect::Draft06),
        "draft-07" => Some(Dialect::Draft07),
        "2019-09" => Some(Dialect::Draft2019),
        "2020-12" => Some(Dialect::Draft2020),
        _ => Dialect::of_uri(word),
    }
}

fn say_numbers(said: &mut SaidSoFar<'_>, numbers: Option<Numbers>) -> Result<(), UpgradeMisuse>
    ensures ok { OnOk result (numbers_said (said_seen said.old) numbers ≡ Ok (said_seen said.new)) }
    ensures err { IfErr result (IsUpgradeMisuse (numbers_said (said_seen said.old) numbers)) }
{
    let Some(numbers) = numbers else {
        return Err(UpgradeMisuse::NoNumbers);
    };
    said.waiting = Waiting::ForAny;
    said.numbers = numbers;
    Ok(())
}

// Which numbers a word says are taken.
fn numbers_of(word: &str) -> Option<Numbers>
    ensures { result ≡ numbers_of word.now }
{
    match word {
        "exact" => Some(Numbers::Exact),
        "whole" => Some(Numbers::Whole),
        _ => None,
    }
}

// A word of a pair.
fn say_plain<'a>(said: &mut SaidSoFar<'a>, word: &'a str) -> Result<(), UpgradeMisuse>
    ensures ok { OnOk result (said_seen said.new ≡ plain_said (said_seen said.old) word.entry.now) }
    ensures err { IfErr result (λ m. m ≡ UpgradeMisuse.Memory) }
{
    match said.uri {
        None => {
            said.uri = Some(word);
            Ok(())
        }
        Some(uri) => {
            said.uri = None;
            append(&mut said.documents, DocumentFile { uri, file: word })?;
            Ok(())
        }
    }
}

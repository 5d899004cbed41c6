//! Where documents are written to.
ghost use Rattle.std.specs.Prelude.{◌≡◌, ◌<◌, IfOk, MatchOption, length, string_bytes};
ghost use Rattle.std.specs.List.{after_first, position_or_len};
ghost use Rattle.js_upgrade_cli.specs.Names.{are_apart, has_file_name, is_slash, file_name_of, path_in};
ghost use Rattle.js_command.specs.Words.{pairs_seen};

use js_command::DocumentFile;
use js_doc::Memory;
use std::alloc::Global;

/// The same file in another folder.
///
/// # Errors
/// `Memory`.
pub(crate) fn path_in(alloc: Global, folder: &str, file: &str) -> Result<String, Memory>
    ensures { IfOk result (λ path. string_bytes path ≡ path_in folder.now file.now) }
{
    let mut path = String::from_str(alloc, folder)?;
    path.push('/')?;
    path.push_str(file_name_of(file))?;
    Ok(path)
}

// A file's name, without its folder.
#[tactic(auto, using(crate::proofs::LastSlash::slash_rules))]
fn file_name_of(path: &str) -> &str
    ensures { result.now ≡ file_name_of path.now }
{
    let mut name = path;
    'folders: while let Some(rest) = behind_slash(name) {
        name = rest;
    }
    name
}

// What stands behind the first slash.
fn behind_slash(path: &str) -> Option<&str>
    ensures { MatchOption result (position_or_len is_slash path.now ≡ length path.now)
        (λ rest. (rest.now ≡ after_first is_slash path.now) × (position_or_len is_slash path.now < length path.now)) }
{
    match path.split_once('/') {
        Some((_, rest)) => Some(rest),
        None => None,
    }
}

/// Whether no two files have one name.
pub(crate) fn are_apart(documents: &[DocumentFile]) -> bool
    ensures { result ≡ are_apart (pairs_seen documents.now) }
{
    for number in 0..documents.len() {
        if has_file_name(
            file_name_of(documents[number].file),
            &documents[number + 1..],
        ) {
            return false;
        }
    }
    true
}

fn has_file_name(name: &str, documents: &[DocumentFile]) -> bool
    ensures { result ≡ has_file_name name.now (pairs_seen documents.now) }
{
    for document in documents {
        if file_name_of(document.file) == name {
            return true;
        }
    }
    false
}

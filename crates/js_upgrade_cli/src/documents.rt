//! The documents that the words name, as their files hold them.
ghost use Rattle.std.specs.Prelude.{◌≡◌, IfOk, IfErr};
ghost use Rattle.js_command.specs.Answer.{AreContents};
ghost use Rattle.js_command.specs.Words.{files_of, pairs_seen};
ghost use Rattle.js_upgrade_cli.specs.Outcome.{IsUntaken};
ghost use Rattle.js_upgrade_cli.specs.code.Seen.{texts_seen};

use crate::stop::RequestStop;
use js_command::{DocumentFile, Files, append};
use std::alloc::Global;

/// A document: its URI, and what its file holds.
#[derive(Drop)]
pub(crate) struct DocumentText<'a> {
    pub(crate) uri: &'a str,
    pub(crate) text: Vec<u8>,
}

/// Reads the files of the documents, one after another. Returns why the first isn't read that can't be.
pub(crate) fn take_all<'a, F: Files>(
    alloc: Global,
    documents: &[DocumentFile<'a>],
    files: &mut F,
) -> Result<Vec<DocumentText<'a>>, RequestStop>
    ensures contents { IfOk result (λ ds.
        AreContents (F.contents files.old) (pairs_seen documents.now) (texts_seen ds.items)) }
    ensures stop { IfErr result (λ s. IsUntaken (F.contents files.old) 0 (files_of (pairs_seen documents.now))
        s.document s.fault) }
{
    let mut all = Vec::new(alloc);
    for number in 0..documents.len() {
        let document = &documents[number];
        let text = match files.take(alloc, document.file) {
            Ok(text) => text,
            Err(fault) => return Err(RequestStop {
                document: Some(number),
                fault,
            }),
        };
        let uri = document.uri;
        append(&mut all, DocumentText { uri, text })?;
    }
    Ok(all)
}

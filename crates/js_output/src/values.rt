//! A value as a line of text.
ghost use Rattle.std.specs.Prelude.{◌≡◌, ◌++◌, IfOk, OnOk};
ghost use Rattle.js_doc.specs.Seen.{value_of};
ghost use Rattle.js_output.specs.Values.{value_line};

use js_doc::{Doc, Memory, put_text};
use std::alloc::Global;

/// The compact text of a value, and a line feed.
///
/// # Errors
/// `Memory`.
pub fn value_line(alloc: Global, value: &Doc) -> Result<Vec<u8>, Memory>
    ensures { IfOk result (λ line. line.items ≡ value_line (value_of value.now)) }
{
    let mut line = Vec::new(alloc);
    push_value_line(&mut line, value)?;
    Ok(line)
}

/// Adds the compact text of a value, and a line feed.
///
/// # Errors
/// `Memory`. A prefix of them may have been added.
pub fn push_value_line(text: &mut Vec<u8>, value: &Doc) -> Result<(), Memory>
    ensures { OnOk result (text.new.items ≡ text.old.items ++ value_line (value_of value.now)) }
{
    put_text(value, text)?;
    text.push(b'\n')?;
    Ok(())
}

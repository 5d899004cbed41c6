//! Lists with an entry for each place that has one.
ghost use Rattle.std.specs.Prelude.{◌≡◌, ◌≤◌, ◌+◌, false, length, slice_get, unwrap_or, OnOk};
ghost use Rattle.js_bundle.specs.code.PlaceNumbers.{under_number};
ghost use Rattle.js_bundle.specs.code.SparseList.{HasEntryAdded, HaveSameEntries};

use js_doc::Memory;

/// Adds the entry of the place with this number, after those of the places before it. A list ends with the last place
/// that has an entry.
///
/// # Errors
/// `Memory`.
pub(crate) fn add_entry(
    entries: &mut Vec<Option<usize>>,
    number: usize,
    entry: Option<usize>,
) -> Result<(), Memory>
    requires { length entries.old.items ≤ number }
    ensures recorded { OnOk result
        (HasEntryAdded (under_number entries.old.items) number entry (under_number entries.new.items)) }
    ensures long { OnOk result (length entries.new.items ≤ number + 1) }
{
    if entry.is_none() {
        return Ok(());
    }
    fill(entries, number)?;
    entries.push(entry)?;
    Ok(())
}

// Fills the list up to this length, with places that have no entry.
fn fill(entries: &mut Vec<Option<usize>>, number: usize) -> Result<(), Memory>
    requires { length entries.old.items ≤ number }
    ensures alike { OnOk result (HaveSameEntries entries.old.items entries.new.items) }
    ensures long { OnOk result (length entries.new.items ≡ number) }
{
    for _ in entries.len()..number {
        entries.push(None)?;
    }
    Ok(())
}

/// The mark of the place with this number.
pub(crate) fn mark_at(marks: &[bool], number: usize) -> bool
    ensures { result ≡ unwrap_or (slice_get marks.now number) false }
{
    match marks.get(number) {
        Some(recorded) => *recorded,
        None => false,
    }
}

//! The JSON text of a node, written piece by piece. Its members ascend by name (Core, section 12.3).
ghost use Rattle.std.specs.Prelude.{◌≡◌, ◌++◌, ◌∷◌, [], codes, false, map, pos, true};
ghost use Rattle.js_doc.specs.BytesOut.{Puts};
ghost use Rattle.js_doc.specs.Compact.{comma_if, compact, compact_items, quoted};
ghost use Rattle.js_doc.specs.Seen.{value_of};
ghost use Rattle.js_doc.specs.Value.{items, list, text, whole};
ghost use Rattle.js_tree.specs.Form.{node_value};
ghost use Rattle.js_tree.specs.NodeText.{annotation_part, back_text, children_start, error_behind, error_part};
ghost use Rattle.js_tree.specs.NodeText.{front_text, head_text, tail_text, valid_text};
ghost use Rattle.js_tree.specs.Seen.{note_of};

use crate::note::Note;
use crate::unit::Unit;
use js_doc::{Doc, Out, Stopped, Whole, put_escaped, put_number, put_string, put_text};
use std::mem::replace;

/// Writes a node without children.
pub(crate) fn put_leaf<O: Out>(unit: &Unit, out: &mut O) -> Result<(), Stopped>
    ensures { Puts (O.progress out.old) (O.progress out.new) (compact (node_value unit.now [])) result }
{
    put_head(unit, out)?;
    put_error(&unit.note, out)?;
    put_tail(unit, out)
}

/// Writes what stands before the children of a node that has some, with the opening bracket of their list.
pub(crate) fn put_front<O: Out>(unit: &Unit, out: &mut O) -> Result<(), Stopped>
    ensures { Puts (O.progress out.old) (O.progress out.new) (front_text unit.now) result }
{
    put_head(unit, out)?;
    put_list_start(&unit.note, unit.valid, out)
}

/// Writes what stands after the list of children.
pub(crate) fn put_back<O: Out>(unit: &Unit, out: &mut O) -> Result<(), Stopped>
    ensures { Puts (O.progress out.old) (O.progress out.new) (back_text unit.now) result }
{
    put_error_behind(&unit.note, unit.valid, out)?;
    put_tail(unit, out)
}

/// Writes the members before `annotations`: the absolute keyword location, and the annotation if the note is one.
fn put_head<O: Out>(unit: &Unit, out: &mut O) -> Result<(), Stopped>
    ensures { Puts (O.progress out.old) (O.progress out.new) (head_text unit.now) result }
{
    out.put(b"{\"absoluteKeywordLocation\":\"")?;
    put_escaped(unit.absolute.as_str().as_bytes(), out)?;
    put_closed_annotation(&unit.note, out)
}

/// Writes the beginning of the list of children, and the error if it stands before them.
pub(crate) fn put_list_start<O: Out>(note: &Note, valid: bool, out: &mut O) -> Result<(), Stopped>
    ensures { Puts (O.progress out.old) (O.progress out.new) (children_start (note_of note.now) valid) result }
{
    if valid {
        return out.put(b",\"annotations\":[");
    }
    put_error(note, out)?;
    out.put(b",\"errors\":[")
}

/// Writes the error if it stands after the children.
pub(crate) fn put_error_behind<O: Out>(note: &Note, valid: bool, out: &mut O) -> Result<(), Stopped>
    ensures { Puts (O.progress out.old) (O.progress out.new) (error_behind (note_of note.now) valid) result }
{
    if valid { put_error(note, out) } else { Ok(()) }
}

/// Writes the members after `errors`: the instance location, the keyword location and the verdict.
fn put_tail<O: Out>(unit: &Unit, out: &mut O) -> Result<(), Stopped>
    ensures { Puts (O.progress out.old) (O.progress out.new) (tail_text unit.now) result }
{
    put_member(b",\"instanceLocation\":", unit.instance.as_str(), out)?;
    put_member(b",\"keywordLocation\":", unit.keyword.as_str(), out)?;
    put_valid(unit.valid, out)
}

/// Writes the verdict, which is the last member, and the closing brace.
pub(crate) fn put_valid<O: Out>(valid: bool, out: &mut O) -> Result<(), Stopped>
    ensures { Puts (O.progress out.old) (O.progress out.new) (valid_text valid) result }
{
    if valid {
        out.put(b",\"valid\":true}")
    } else {
        out.put(b",\"valid\":false}")
    }
}

/// Writes the error, if the note is one.
pub(crate) fn put_error<O: Out>(note: &Note, out: &mut O) -> Result<(), Stopped>
    ensures { Puts (O.progress out.old) (O.progress out.new) (error_part (note_of note.now)) result }
{
    match note {
        Note::Error(reason) => put_member(b",\"error\":", reason.as_str(), out),
        Note::Silent => Ok(()),
        Note::Value(_) => Ok(()),
        Note::Names(_) => Ok(()),
        Note::Index(_) => Ok(()),
        Note::Indexes(_) => Ok(()),
        Note::Truth => Ok(()),
    }
}

/// Writes the closing quotation mark of the text before it, and the annotation, if the note is one.
#[inline(always)]
pub(crate) fn put_closed_annotation<O: Out>(note: &Note, out: &mut O) -> Result<(), Stopped>
    ensures { Puts (O.progress out.old) (O.progress out.new) (34 ∷ annotation_part (note_of note.now)) result }
{
    match note {
        Note::Silent => out.put(b"\""),
        Note::Error(_) => out.put(b"\""),
        Note::Value(value) => put_value(b"\",\"annotation\":", value, out),
        Note::Names(names) => put_names(b"\",\"annotation\":[", names.as_slice(), out),
        Note::Index(index) => put_index(b"\",\"annotation\":", *index, out),
        Note::Indexes(indexes) => put_indexes(b"\",\"annotation\":[", indexes.as_slice(), out),
        Note::Truth => out.put(b"\",\"annotation\":true"),
    }
}

// Writes the value, after the text that stands before it.
fn put_value<O: Out>(start: &[u8], value: &Doc, out: &mut O) -> Result<(), Stopped>
    ensures { Puts (O.progress out.old) (O.progress out.new)
        (start.now ++ compact (value_of value.now)) result }
{
    out.put(start)?;
    put_text(value, out)
}

fn put_index<O: Out>(start: &[u8], index: u64, out: &mut O) -> Result<(), Stopped>
    ensures { Puts (O.progress out.old) (O.progress out.new)
        (start.now ++ compact (whole (pos index))) result }
{
    out.put(start)?;
    put_number(Whole::from_u64(index), out)
}

// Writes the names as an array. `start` ends in the opening bracket.
fn put_names<O: Out>(start: &[u8], names: &[&str], out: &mut O) -> Result<(), Stopped>
    ensures { Puts (O.progress out.old) (O.progress out.new)
        (start.now ++ compact_items false (items (map text (map (λ name. name.now) names.now)))) result }
{
    out.put(start)?;
    let mut later = false;
    for name in names {
        put_comma(&mut later, out)?;
        put_string(name, out)?;
    }
    out.put(b"]")
}

fn put_indexes<O: Out>(start: &[u8], indexes: &[u64], out: &mut O) -> Result<(), Stopped>
    ensures { Puts (O.progress out.old) (O.progress out.new)
        (start.now ++ compact_items false (items (map (λ index. whole (pos index)) indexes.now))) result }
{
    out.put(start)?;
    let mut later = false;
    for index in indexes {
        put_comma(&mut later, out)?;
        put_number(Whole::from_u64(*index), out)?;
    }
    out.put(b"]")
}

/// Writes a member whose value is a string. `start`: the text before that string.
fn put_member<O: Out>(start: &[u8], value: &str, out: &mut O) -> Result<(), Stopped>
    ensures { Puts (O.progress out.old) (O.progress out.new) (start.now ++ quoted value.now) result }
{
    out.put(start)?;
    put_string(value, out)
}

/// Writes a comma, unless this is the first item. The next one comes later.
pub(crate) fn put_comma<O: Out>(later: &mut bool, out: &mut O) -> Result<(), Stopped>
    ensures comma { Puts (O.progress out.old) (O.progress out.new) (comma_if later.old) result }
    ensures later { later.new ≡ true }
{
    if replace(later, true) {
        return out.put(b",");
    }
    Ok(())
}

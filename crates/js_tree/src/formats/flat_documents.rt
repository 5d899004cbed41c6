//! JSON documents made from a flat form. The program has relative rows and doesn't call this.
ghost use Rattle.std.specs.Prelude.{◌≡◌, [], IfOk, map};
ghost use Rattle.js_doc.specs.Seen.{value_of};
ghost use Rattle.js_tree.specs.Flat.{flat_form, flat_of};
ghost use Rattle.js_tree.specs.FlatState.{IsWholeTree, row_of, flat_state, whole_tree};
ghost use Rattle.js_tree.specs.Forest.{Forest};
ghost use Rattle.js_tree.specs.Form.{flag, node_values, shown, unit_list, verbose};
ghost use Rattle.js_tree.specs.OutputUnit.{OutputUnit};
ghost use Rattle.js_tree.specs.Result.{ResultTree};

use crate::collecting::flat::{Flat, Row};
use crate::formats::documents::{flag, node_doc, units_doc};
use crate::formats::{Format, Layout};
use crate::reducing::noted_rows::noted_units;
use js_doc::{Doc, Memory};
use std::alloc::Global;

/// The JSON document of a format (Core, section 12.4), from the rows of the tree that it shows. The rows must be those
/// of a whole tree.
///
/// # Errors
/// `Memory` if an allocation fails.
pub fn flat_doc(alloc: Global, flat: &Flat, format: Format) -> Result<Doc, Memory>
    requires { IsWholeTree (flat_state flat.now) }
    ensures { IfOk result (λ doc. (t : ResultTree) → flat_state flat.now ≡ whole_tree t
        → value_of doc ≡ shown format t) }
{
    let rows = flat.rows();
    match format.layout() {
        Layout::Verdict => flag_doc(alloc, rows),
        Layout::Units => unit_list_doc(alloc, rows),
        Layout::Nodes => root_doc(alloc, rows),
    }
}

fn flag_doc(alloc: Global, rows: &[Row]) -> Result<Doc, Memory>
    requires { (t : ResultTree) × (map row_of rows.now ≡ flat_form t) }
    ensures { IfOk result (λ doc. (t : ResultTree) → map row_of rows.now ≡ flat_form t
        → value_of doc ≡ flag t.root.valid) }
{
    let row = &rows[0];
    let root = &row.unit;
    flag(alloc, root.valid)
}

fn unit_list_doc(alloc: Global, rows: &[Row]) -> Result<Doc, Memory>
    requires { (t : ResultTree) × (map row_of rows.now ≡ flat_form t) }
    ensures { IfOk result (λ doc. (t : ResultTree) → map row_of rows.now ≡ flat_form t → value_of doc ≡ unit_list t) }
{
    let noted = noted_units(alloc, rows)?;
    let row = &rows[0];
    let root = &row.unit;
    units_doc(alloc, root.valid, noted.as_slice())
}

/// The document of the tree with these rows.
#[cycle(root_doc)]
fn root_doc(alloc: Global, rows: &[Row]) -> Result<Doc, Memory>
    requires { (t : ResultTree) × (map row_of rows.now ≡ flat_form t) }
    ensures { IfOk result (λ doc. (t : ResultTree) → map row_of rows.now ≡ flat_form t → value_of doc ≡ verbose t) }
{
    let children = root_docs(alloc, &rows[1..])?;
    let row = &rows[0];
    node_doc(alloc, &row.unit, children)
}

/// The documents of the trees with these rows.
#[cycle(root_doc)]
fn root_docs(alloc: Global, rows: &[Row]) -> Result<Vec<Doc>, Memory>
    requires { (f : Forest OutputUnit) × (map row_of rows.now ≡ flat_of f) }
    ensures { IfOk result (λ docs. (f : Forest OutputUnit) → map row_of rows.now ≡ flat_of f
        → map value_of docs.items ≡ node_values f) }
{
    let mut docs = Vec::new(alloc);
    let mut next = 0;
    while next < rows.len() {
        let row = &rows[next];
        let end = next + row.size;
        docs.push(root_doc(alloc, &rows[next..end])?)?;
        next = end;
    }
    Ok(docs)
}

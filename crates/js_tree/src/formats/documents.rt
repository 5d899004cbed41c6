//! What the output formats show of a tree, as JSON values (Core, section 12.4). The program writes texts and doesn't
//! call this.
ghost use Rattle.std.specs.Prelude.{◌≡◌, [], ◌∷◌, ◌++◌, List, IfOk, OnOk, codes, map, not, pos, true};
ghost use Rattle.js_doc.specs.Members.{put};
ghost use Rattle.js_doc.specs.Seen.{value_of};
ghost use Rattle.js_doc.specs.Value.{text, list, members, object, truth, whole, items};
ghost use Rattle.js_tree.specs.Forest.{forest_of};
ghost use Rattle.js_tree.specs.Form.{annotation_value, array_of_some, error_value, flag, form, list_name, node_value};
ghost use Rattle.js_tree.specs.Form.{node_values, shown, unit_list, verbose, value_if};
ghost use Rattle.js_tree.specs.code.Put.{put_some};
ghost use Rattle.js_tree.specs.Result.{ResultTree, Normal, Run, pruned};
ghost use Rattle.js_tree.specs.Seen.{note_of};
ghost use Rattle.js_tree.specs.declared.formats.Format.TheVariants.{Detailed};

use crate::formats::{Format, Layout};
use crate::note::Note;
use crate::reducing::noted_units::units;
use crate::tree::Tree;
use crate::unit::Unit;
use js_doc::{Doc, Items, Members, Memory, Text, Whole};
use std::alloc::Global;

/// The JSON document of a format, from the whole result tree (Core, section 12.4).
///
/// # Errors
/// `Memory` if an allocation fails; the tree is dropped.
pub fn form(alloc: Global, tree: Tree, format: Format) -> Result<Doc, Memory>
    ensures form { IfOk result (λ doc. value_of doc ≡ form format tree.entry) }
    ensures one_normal_form { format ≡ Detailed
        → IfOk result (λ doc. (end : ResultTree) → Run (pruned tree.entry) end → Normal end
        → value_of doc ≡ verbose end) }
{
    let tree = format.tree_of(tree);
    shown(alloc, &tree, format)
}

// What the format shows of that tree.
fn shown(alloc: Global, tree: &Tree, format: Format) -> Result<Doc, Memory>
    ensures { IfOk result (λ doc. value_of doc ≡ shown format tree.now) }
{
    match format.layout() {
        Layout::Verdict => flag(alloc, tree.unit.valid),
        Layout::Units => unit_list(alloc, tree),
        Layout::Nodes => tree_doc(alloc, tree),
    }
}

/// The JSON document of a tree: its root's node, with the nodes of its children inside (Core, section 12.4.4).
///
/// # Errors
/// `Memory` if an allocation fails.
#[cycle(tree_doc)]
pub fn tree_doc(alloc: Global, tree: &Tree) -> Result<Doc, Memory>
    ensures { IfOk result (λ doc. value_of doc ≡ verbose tree.now) }
{
    let children = tree_docs(alloc, tree.children.as_slice())?;
    node_doc(alloc, &tree.unit, children)
}

#[cycle(tree_doc)]
fn tree_docs(alloc: Global, trees: &[Tree]) -> Result<Vec<Doc>, Memory>
    ensures { IfOk result (λ docs. map value_of docs.items ≡ node_values (forest_of trees.now)) }
{
    let mut docs = Vec::with_capacity(alloc, trees.len())?;
    for tree in trees {
        docs.push(tree_doc(alloc, tree)?)?;
    }
    Ok(docs)
}

pub(crate) fn flag(alloc: Global, valid: bool) -> Result<Doc, Memory>
    ensures { IfOk result (λ doc. value_of doc ≡ flag valid) }
{
    let mut members = Members::new(alloc);
    put_member(alloc, &mut members, "valid", Doc::Truth(valid))?;
    Ok(Doc::Members(members))
}

fn unit_list(alloc: Global, tree: &Tree) -> Result<Doc, Memory>
    ensures { IfOk result (λ doc. value_of doc ≡ unit_list tree.now) }
{
    let noted = units(alloc, tree)?;
    units_doc(alloc, tree.unit.valid, noted.as_slice())
}

/// The document of these units: the verdict, and a node without children for each.
pub(crate) fn units_doc(alloc: Global, valid: bool, units: &[&Unit]) -> Result<Doc, Memory>
    ensures { IfOk result (λ doc. value_of doc ≡ object (members ((
      list_name valid,
      list (items (map (λ u. node_value u []) (map (λ unit. unit.now) units.now))),
    ) ∷
        (codes "valid", truth valid) ∷ []))) }
{
    let mut docs = Vec::with_capacity(alloc, units.len())?;
    for unit in units {
        docs.push(node_doc(alloc, unit, Vec::new(alloc))?)?;
    }
    list_doc(alloc, valid, docs)
}

/// The document of a list of units: the verdict, and the documents of the units.
fn list_doc(alloc: Global, valid: bool, docs: Vec<Doc>) -> Result<Doc, Memory>
    ensures { IfOk result (λ doc. value_of doc
        ≡ object (members ((list_name valid, list (items (map value_of docs.items))) ∷
        (codes "valid", truth valid) ∷ []))) }
{
    let mut members = Members::new(alloc);
    put_member(
        alloc,
        &mut members,
        list_name(valid),
        Doc::List(Items::new(docs)),
    )?;
    put_member(alloc, &mut members, "valid", Doc::Truth(valid))?;
    Ok(Doc::Members(members))
}

/// The document of a node, with those of its children inside.
pub(crate) fn node_doc(alloc: Global, unit: &Unit, children: Vec<Doc>) -> Result<Doc, Memory>
    ensures { IfOk result (λ doc. value_of doc ≡ node_value unit.now (map value_of children.items)) }
{
    let mut members = Members::new(alloc);
    put_note(alloc, &mut members, &unit.note)?;
    put_children(alloc, &mut members, unit.valid, children)?;
    put_text_member(
        alloc,
        &mut members,
        "absoluteKeywordLocation",
        &unit.absolute,
    )?;
    put_text_member(alloc, &mut members, "instanceLocation", &unit.instance)?;
    put_text_member(alloc, &mut members, "keywordLocation", &unit.keyword)?;
    put_member(alloc, &mut members, "valid", Doc::Truth(unit.valid))?;
    Ok(Doc::Members(members))
}

fn put_note(alloc: Global, members: &mut Members, note: &Note) -> Result<(), Memory>
    ensures { OnOk result (members.new ≡ put_some (codes "error") (error_value (note_of note.now))
        (put_some (codes "annotation") (annotation_value (note_of note.now)) members.old)) }
{
    match note {
        Note::Silent => Ok(()),
        Note::Error(reason) => put_text_member(alloc, members, "error", reason),
        Note::Value(value) => put_member(alloc, members, "annotation", value.copy(alloc)?),
        Note::Names(names) => put_member(
            alloc,
            members,
            "annotation",
            texts(alloc, names.as_slice())?,
        ),
        Note::Index(index) => put_member(
            alloc,
            members,
            "annotation",
            Doc::Whole(Whole::from_u64(*index)),
        ),
        Note::Indexes(indexes) => put_member(
            alloc,
            members,
            "annotation",
            wholes(alloc, indexes.as_slice())?,
        ),
        Note::Truth => put_member(alloc, members, "annotation", Doc::Truth(true)),
    }
}

/// Adds the children, if there are any: as `annotations` if the node passes, as `errors` if it fails.
fn put_children(
    alloc: Global,
    members: &mut Members,
    valid: bool,
    children: Vec<Doc>,
) -> Result<(), Memory>
    ensures { OnOk result (members.new ≡ put_some (codes "errors")
        (value_if (not valid) (array_of_some (map value_of children.items)))
        (put_some (codes "annotations") (value_if valid (array_of_some (map value_of children.items))) members.old)) }
{
    if children.is_empty() {
        return Ok(());
    }
    put_member(
        alloc,
        members,
        list_name(valid),
        Doc::List(Items::new(children)),
    )
}

fn list_name(valid: bool) -> &'static str
    ensures { result.now ≡ list_name valid }
{
    if valid { "annotations" } else { "errors" }
}

fn put_text_member(
    alloc: Global,
    members: &mut Members,
    name: &str,
    value: &Text,
) -> Result<(), Memory>
    ensures { OnOk result (members.new ≡ put name.now (text value.now) members.old) }
{
    put_member(alloc, members, name, Doc::Text(value.copy()?))
}

fn put_member(alloc: Global, members: &mut Members, name: &str, doc: Doc) -> Result<(), Memory>
    ensures { OnOk result (members.new ≡ put name.now (value_of doc) members.old) }
{
    match Text::from_str(alloc, name) {
        Ok(name) => members.put(name, doc),
        Err(refused) => {
            drop(doc);
            Err(refused)
        }
    }
}

fn texts(alloc: Global, names: &[&str]) -> Result<Doc, Memory>
    ensures { IfOk result (λ doc. value_of doc ≡ list (items (map text (map (λ name. name.now) names.now)))) }
{
    let mut docs = Vec::with_capacity(alloc, names.len())?;
    for name in names {
        docs.push(Doc::Text(Text::from_str(alloc, name)?))?;
    }
    Ok(Doc::List(Items::new(docs)))
}

fn wholes(alloc: Global, numbers: &[u64]) -> Result<Doc, Memory>
    ensures { IfOk result (λ doc. value_of doc ≡ list (items (map (λ number. whole (pos number)) numbers.now))) }
{
    let mut docs = Vec::with_capacity(alloc, numbers.len())?;
    for number in numbers {
        docs.push(Doc::Whole(Whole::from_u64(*number)))?;
    }
    Ok(Doc::List(Items::new(docs)))
}

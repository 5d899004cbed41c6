//! The places that the keywords of each place hold, by their numbers.
ghost use Rattle.std.specs.Prelude.{◌≡◌, ◌++◌, ◌∷◌, ◌<◌, [], length, map, slice_set, OnOk, IfOk};
ghost use Rattle.js_doc.specs.Seen.{value_of};
ghost use Rattle.js_doc.specs.Value as spec;
ghost use Rattle.js_keyword.specs.Keyword.{which_keyword};
ghost use Rattle.js_bundle.specs.Place.{holding};
ghost use Rattle.js_bundle.specs.Seen.{document_of};
ghost use Rattle.js_bundle.specs.code.Edges.{edges_at, edges_from, edges_held};
ghost use Rattle.js_bundle.specs.code.Edges.{edges_of, edges_of_items, edges_of_keywords, edges_of_members};
ghost use Rattle.js_bundle.specs.code.Edges.{held_by_keywords, held_of, numbers_held, numbers_of_items};
ghost use Rattle.js_bundle.specs.code.Edges.{numbers_of_members, one_entry};

use crate::document::Document;
use crate::scan::holding::holding_of;
use js_doc::{Doc, Members, Memory};
use js_keyword::{Holding, Keyword};
use std::alloc::Global;

/// A keyword of a place, and the places that it holds, in the order of its argument.
#[derive(Drop)]
pub(crate) struct HeldPlaces {
    pub(crate) keyword: Keyword,
    pub(crate) places: Vec<usize>,
}

/// The places that stand directly below a place, by keyword ascending. A keyword that holds no schemas has no entry.
pub(crate) struct Edges {
    pub(crate) keywords: Vec<HeldPlaces>,
}

// By hand, so that it is proved here alone, and crates that own edges call it.
impl Drop for Edges {
    fn drop(self) {
        let Edges { keywords } = self;
    }
}

/// The edges of each place of the documents, in scan order.
///
/// # Errors
/// `Memory`.
pub(crate) fn edges_in(alloc: Global, documents: &[Document]) -> Result<Vec<Edges>, Memory>
    ensures { IfOk result (λ v. map edges_of v.items ≡ edges_from 0 (map document_of documents.now)) }
{
    let mut edges = Vec::new(alloc);
    for number in 0..documents.len() {
        link_schema(&mut edges, &documents[number].root)?;
    }
    Ok(edges)
}

// The place comes before those that it holds, and what it holds is known after them.
#[cycle(edges)]
fn link_schema(edges: &mut Vec<Edges>, schema: &Doc) -> Result<(), Memory>
    ensures { OnOk result (map edges_of edges.new.items ≡ map edges_of edges.old.items
        ++ edges_at (length edges.old.items) (value_of schema.now)) }
{
    let number = edges.len();
    push_none(edges)?;
    match schema {
        Doc::Members(members) => {
            let keywords = keywords_of(edges, members)?;
            set_keywords(edges, number, keywords);
            Ok(())
        }
        _ => Ok(()),
    }
}

// A place of which no keyword is known to hold any.
fn push_none(edges: &mut Vec<Edges>) -> Result<(), Memory>
    ensures { OnOk result (map edges_of edges.new.items ≡ map edges_of edges.old.items ++ [] ∷ []) }
{
    let keywords = Vec::new(*edges.allocator());
    edges.push(Edges { keywords })?;
    Ok(())
}

// What the keywords of the place with this number hold.
#[tactic(auto, using(crate::proofs::Indexing::EdgesNext::set_map))]
fn set_keywords(edges: &mut Vec<Edges>, number: usize, keywords: Vec<HeldPlaces>)
    requires { number < length edges.now.items }
    ensures { map edges_of edges.new.items
        ≡ slice_set (map edges_of edges.old.items) number (map held_of keywords.items) }
{
    edges[number] = Edges { keywords };
}

#[cycle(edges)]
fn keywords_of(edges: &mut Vec<Edges>, members: &Members) -> Result<Vec<HeldPlaces>, Memory>
    ensures edges { OnOk result (map edges_of edges.new.items ≡ map edges_of edges.old.items
        ++ edges_of_keywords (length edges.old.items) (spec.members members.now)) }
    ensures held { IfOk result
        (λ v. map held_of v.items ≡ held_by_keywords (length edges.old.items) (spec.members members.now)) }
{
    let mut held = Vec::new(*edges.allocator());
    for (keyword, argument) in members.pairs() {
        link_keyword(edges, &mut held, keyword.as_str(), argument)?;
    }
    Ok(held)
}

#[cycle(edges)]
fn link_keyword(
    edges: &mut Vec<Edges>,
    held: &mut Vec<HeldPlaces>,
    keyword: &str,
    argument: &Doc,
) -> Result<(), Memory>
    ensures edges { OnOk result (map edges_of edges.new.items ≡ map edges_of edges.old.items
        ++ edges_held (holding keyword.now) (length edges.old.items) (value_of argument.now)) }
    ensures held { OnOk result (map held_of held.new.items ≡ map held_of held.old.items
        ++ one_entry (holding keyword.now) (
          which_keyword keyword.now,
          numbers_held (holding keyword.now) (length edges.old.items) (value_of argument.now),
        )) }
{
    let holding = holding_of(keyword);
    if matches!(holding, Holding::Nothing) {
        return Ok(());
    }
    let mut places = Vec::new(*edges.allocator());
    link_held(edges, &mut places, holding, argument)?;
    held.push(HeldPlaces {
        keyword: Keyword::of(keyword),
        places,
    })?;
    Ok(())
}

#[cycle(edges)]
fn link_held(
    edges: &mut Vec<Edges>,
    places: &mut Vec<usize>,
    holding: Holding,
    argument: &Doc,
) -> Result<(), Memory>
    ensures edges { OnOk result (map edges_of edges.new.items ≡ map edges_of edges.old.items
        ++ edges_held holding (length edges.old.items) (value_of argument.now)) }
    ensures places { OnOk result (places.new.items ≡ places.old.items
        ++ numbers_held holding (length edges.old.items) (value_of argument.now)) }
{
    match (holding, argument) {
        (Holding::One, schema) => link_one(edges, places, schema),
        (Holding::Listed, Doc::List(items)) => link_items(edges, places, items.as_slice()),
        (Holding::Named, Doc::Members(members)) => link_members(edges, places, members),
        _ => Ok(()),
    }
}

#[cycle(edges)]
fn link_items(
    edges: &mut Vec<Edges>,
    places: &mut Vec<usize>,
    schemas: &[Doc],
) -> Result<(), Memory>
    ensures edges { OnOk result (map edges_of edges.new.items ≡ map edges_of edges.old.items
        ++ edges_of_items (length edges.old.items) (spec.items (map value_of schemas.now))) }
    ensures places { OnOk result (places.new.items ≡ places.old.items
        ++ numbers_of_items (length edges.old.items) (spec.items (map value_of schemas.now))) }
{
    for i in 0..schemas.len() {
        link_one(edges, places, &schemas[i])?;
    }
    Ok(())
}

#[cycle(edges)]
fn link_members(
    edges: &mut Vec<Edges>,
    places: &mut Vec<usize>,
    members: &Members,
) -> Result<(), Memory>
    ensures edges { OnOk result (map edges_of edges.new.items ≡ map edges_of edges.old.items
        ++ edges_of_members (length edges.old.items) (spec.members members.now)) }
    ensures places { OnOk result (places.new.items ≡ places.old.items
        ++ numbers_of_members (length edges.old.items) (spec.members members.now)) }
{
    for (_, schema) in members.pairs() {
        link_one(edges, places, schema)?;
    }
    Ok(())
}

// A schema is a place, with the next number.
#[cycle(edges)]
fn link_one(edges: &mut Vec<Edges>, places: &mut Vec<usize>, schema: &Doc) -> Result<(), Memory>
    ensures edges { OnOk result (map edges_of edges.new.items ≡ map edges_of edges.old.items
        ++ edges_at (length edges.old.items) (value_of schema.now)) }
    ensures places { OnOk result (places.new.items ≡ places.old.items ++ length edges.old.items ∷ []) }
{
    places.push(edges.len())?;
    link_schema(edges, schema)
}

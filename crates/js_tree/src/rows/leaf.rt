//! A keyword's leaf, added to relative rows without being an open node in between.
ghost use Rattle.std.specs.Prelude.{◌≡◌, ◌≤◌, ◌∷◌, [], IfOk, IsTrue, List, ℕ, length, true};
ghost use Rattle.std.specs.List.{list_all};
ghost use Rattle.js_doc.specs.Escapes.{stands};
ghost use Rattle.js_tree.specs.Seen.{note_of};
ghost use Rattle.js_tree.specs.Rows.RelativeState.{HasLeaf, OpenNode as Open, TakesLeafAt, open_nodes};

use crate::note::Note;
use crate::rows::relative_rows::{MOST, OpenNode, RelativeRow, RelativeRows, goes};
use js_doc::Memory;

impl<'a> RelativeRows<'a> {
    /// Whether a keyword's leaf may be added below a schema's node at these locations (`add_leaf`). True where that
    /// node is the innermost open one, unless rows or open nodes are as many as a vector can hold.
    pub fn takes_leaf(&self, keyword: &str, instance: &str) -> bool
        ensures { result ≡ true → TakesLeafAt self.now keyword.now instance.now }
    {
        self.rows.len() < MOST
            && self.nodes.len() < MOST
            && is_innermost(self.nodes.as_slice(), keyword.len(), instance.len())
    }

    /// The node of a keyword opens and closes at once, with its verdict and its note: below the node of its schema and
    /// for the same value. Its absolute location adds a slash and this name to that of its schema. The name must stand
    /// in a JSON string as it is (`stand_as_they_are` of js_doc). The same as `enter_keyword` and `leave`, but cheaper,
    /// where `takes_leaf` holds.
    ///
    /// # Errors
    /// `Memory` if an allocation fails.
    pub fn add_leaf(
        &mut self,
        schema: &'a str,
        name: &'a str,
        valid: bool,
        note: Note<'a>,
    ) -> Result<(), Memory>
        requires { list_all stands name.now ≡ true }
        ensures { (keyword instance : List ℕ) → TakesLeafAt self.old keyword instance
            → IfOk result (λ _. HasLeaf keyword schema.now name.now instance valid (note_of note.entry)
            self.old self.new) }
    {
        if goes(self.trims, &note, 1) {
            note.end_silent();
            return Ok(());
        }
        let name = name.as_bytes();
        let row = RelativeRow {
            valid,
            keyword_slash: true,
            absolute_slash: true,
            keyword: name,
            instance: &[],
            schema,
            absolute: name,
            note,
            size: 1,
        };
        self.rows.push(row)?;
        Ok(())
    }
}

// Whether a node with locations of these lengths is the innermost open one; its instance location may be longer.
#[inline(always)]
fn is_innermost(nodes: &[OpenNode], keyword: usize, instance: usize) -> bool
    ensures { IsTrue result → (o : Open) × (others : List Open) × (open_nodes nodes.now [] ≡ o ∷ others)
        × (o.keyword ≡ keyword) × (instance ≤ o.instance) }
{
    match nodes.last() {
        Some(node) => node.keyword == keyword && instance <= node.instance,
        None => false,
    }
}

//! A result as relative rows: of each location a row keeps only what it adds to that of the node above.
ghost use Rattle.std.specs.Prelude.{◌≡◌, ◌==◌, ◌<◌, ◌||◌, ◌∷◌, [], ◌++◌, IfOk, IsTrue, OnOk, drop, length, not, true};
ghost use Rattle.std.specs.Prelude.{vec_capacity};
ghost use Rattle.std.specs.List.{list_all};
ghost use Rattle.json.specs.Print.{escape};
ghost use Rattle.js_doc.specs.Escapes.{stands};
ghost use Rattle.js_tree.specs.Seen.{note_of};
ghost use Rattle.js_tree.specs.Rows.RelativeState.{AreRowsOf, AreTrimmedOf, AreWhole, DropsSilentLeaf, IsRootAt};
ghost use Rattle.js_tree.specs.Rows.RelativeState.{node_above};
ghost use Rattle.js_tree.specs.Rows.RelativeState.{open_node, open_nodes, part, relative_after, relative_start};
ghost use Rattle.js_tree.specs.Rows.RelativeState.{relative_state, row_goes, trimming_start};

use crate::note::Note;
use bumpalo::Bump;
use js_doc::{Memory, put_escaped, stand_as_they_are};
use std::alloc::Global;
use std::mem::replace;

/// A row of `RelativeRows`: a node, without what the rows above it say of its locations.
#[derive(Drop)]
pub struct RelativeRow<'a> {
    pub(crate) valid: bool,
    // Whether a slash stands before `keyword`, and before `absolute`. A keyword's name is borrowed where it stands,
    // without the slash that locations have before it.
    pub(crate) keyword_slash: bool,
    pub(crate) absolute_slash: bool,
    // The parts that its keyword location and its instance location add to those of the node above, with JSON escapes,
    // since they are written more than once.
    pub(crate) keyword: &'a [u8],
    pub(crate) instance: &'a [u8],
    // The absolute location of its schema, and the part that its own adds to it, with JSON escapes.
    pub(crate) schema: &'a str,
    pub(crate) absolute: &'a [u8],
    pub(crate) note: Note<'a>,
    // How many nodes its subtree has, itself included; 0 while it is open.
    pub(crate) size: usize,
}

// A vector has no more elements.
pub(crate) const MOST: usize = usize::MAX / 2;

// An open node: the number of its row, and the lengths of its whole locations.
#[derive(Clone, Copy)]
pub(crate) struct OpenNode {
    pub number: usize,
    pub keyword: usize,
    pub instance: usize,
}

/// Collects the nodes of a tree in preorder, as `Flat` does, but with relative rows. A node takes the memory of its row
/// and at most a few bytes of the arena, however deep it is.
#[derive(Drop)]
pub struct RelativeRows<'a> {
    pub(crate) arena: &'a Bump,
    pub(crate) rows: Vec<RelativeRow<'a>>,
    // The open nodes, the innermost last.
    pub(crate) nodes: Vec<OpenNode>,
    // What goes into the arena, while it is escaped.
    scratch: Vec<u8>,
    // Whether nodes without a note below which no row is left have no rows.
    pub(crate) trims: bool,
}

impl<'a> RelativeRows<'a> {
    ghost use Rattle.js_tree.specs.Events.{opening, closing};
    ghost use Rattle.js_tree.specs.Result.{ResultTree};
    ghost use Rattle.js_tree.specs.Trimmed.{trimmed_tree};

    /// No nodes yet. It allocates nothing.
    pub fn new(alloc: Global, arena: &'a Bump) -> RelativeRows<'a>
        ensures { relative_state result ≡ relative_start }
    {
        RelativeRows {
            arena,
            rows: Vec::new(alloc),
            nodes: Vec::new(alloc),
            scratch: Vec::new(alloc),
            trims: false,
        }
    }

    /// No nodes yet, and it will keep no rows of those that have no note and no rows left below them. Of such nodes
    /// only the verbose format shows anything (JSON Schema Core, sections 12.4.2 to 12.4.4). It allocates nothing.
    pub fn trimming(alloc: Global, arena: &'a Bump) -> RelativeRows<'a>
        ensures { relative_state result ≡ trimming_start }
    {
        RelativeRows {
            arena,
            rows: Vec::new(alloc),
            nodes: Vec::new(alloc),
            scratch: Vec::new(alloc),
            trims: true,
        }
    }

    /// A node opens. `token` is what its absolute location adds to that of its schema (JSON Schema Core, section 12.3).
    ///
    /// # Errors
    /// `Memory` if an allocation fails.
    pub fn enter(
        &mut self,
        keyword: &str,
        schema: &'a str,
        token: &str,
        instance: &str,
    ) -> Result<(), Memory>
        ensures { IfOk result (λ _. relative_state self.new ≡ relative_after (relative_state self.old)
            (opening keyword.now (schema.now ++ token.now) instance.now)) }
    {
        if self.may_open() {
            self.make_room()?;
            let above = innermost(self.nodes.as_slice());
            let keyword = keyword.as_bytes();
            let instance = instance.as_bytes();
            let scratch = &mut self.scratch;
            let added = behind(keyword, above.keyword);
            let kept = in_arena(self.arena, scratch, added)?;
            let added_instance = behind(instance, above.instance);
            let row = RelativeRow {
                valid: false,
                keyword_slash: false,
                absolute_slash: false,
                keyword: kept,
                instance: shared_or_in_arena(self.arena, scratch, added_instance, added, kept)?,
                schema,
                absolute: shared_or_in_arena(self.arena, scratch, token.as_bytes(), added, kept)?,
                note: Note::Silent,
                size: 0,
            };
            self.open(row, keyword.len(), instance.len());
        }
        Ok(())
    }

    /// The node of a keyword opens. Its absolute location adds a slash and this name to that of its schema. The name
    /// must stand in a JSON string as it is (`stand_as_they_are` of js_doc). Cheaper than `enter`: if the keyword
    /// location adds the same, the row borrows the name.
    ///
    /// # Errors
    /// `Memory` if an allocation fails.
    pub fn enter_keyword(
        &mut self,
        keyword: &str,
        schema: &'a str,
        name: &'a str,
        instance: &str,
    ) -> Result<(), Memory>
        requires { list_all stands name.now ≡ true }
        ensures { IfOk result (λ _. relative_state self.new ≡ relative_after (relative_state self.old)
            (opening keyword.now (schema.now ++ 47 ∷ name.now) instance.now)) }
    {
        if self.may_open() {
            self.make_room()?;
            let above = innermost(self.nodes.as_slice());
            let keyword = keyword.as_bytes();
            let instance = instance.as_bytes();
            let name = name.as_bytes();
            let scratch = &mut self.scratch;
            let added = behind(keyword, above.keyword);
            let (slash, kept) = name_or_kept(self.arena, scratch, name, added)?;
            let row = RelativeRow {
                valid: false,
                keyword_slash: slash,
                absolute_slash: true,
                keyword: kept,
                instance: in_arena(self.arena, scratch, behind(instance, above.instance))?,
                schema,
                absolute: name,
                note: Note::Silent,
                size: 0,
            };
            self.open(row, keyword.len(), instance.len());
        }
        Ok(())
    }

    /// The innermost open node closes, with its verdict and its note. It allocates nothing.
    #[inline(always)]
    pub fn leave(&mut self, valid: bool, note: Note<'a>)
        ensures { relative_state self.new ≡ relative_after (relative_state self.old) (closing valid
            (note_of note.entry)) }
    {
        if let Some(node) = self.nodes.pop() {
            let number = node.number;
            let count = self.rows.len();
            if number < count {
                let size = count - number;
                if goes(self.trims, &note, size) {
                    self.rows.truncate(number);
                    note.end_silent();
                } else {
                    let row = &mut self.rows[number];
                    row.valid = valid;
                    drop(replace(&mut row.note, note));
                    row.size = size;
                }
            } else {
                drop(note);
            }
        } else {
            drop(note);
        }
    }

    /// Whether a node that opens and closes at once, passing and without a note, would leave the rows as they are. The
    /// caller may then leave it out. True with `trimming`, unless the rows are as many as a vector can hold.
    #[inline(always)]
    pub fn drops_silent(&self) -> bool
        ensures { result ≡ true → DropsSilentLeaf self.now }
    {
        self.trims && self.rows.len() < MOST && self.nodes.len() < MOST
    }

    /// Puts back the row of the root if it went with the others: with this absolute location of its schema and this
    /// verdict. The rows are then those of the trimmed tree, whose root stays.
    ///
    /// # Errors
    /// `Memory` if an allocation fails.
    pub fn put_root_back(&mut self, absolute: &'a str, valid: bool) -> Result<(), Memory>
        ensures { (t : ResultTree) → AreTrimmedOf self.old t → IsRootAt absolute.now valid t.root
            → IfOk result (λ _. AreRowsOf self.new (trimmed_tree t)) }
    {
        if self.rows.is_empty() {
            self.trims = false;
            self.enter("", absolute, "", "")?;
            self.leave(valid, Note::Silent);
        }
        Ok(())
    }

    // Whether a node may open. Without an open node there is either no row yet, or the root has closed.
    fn may_open(&self) -> bool
        ensures { result ≡ (not (length self.now.nodes.items == 0) || length self.now.rows.items == 0) }
    {
        !self.nodes.is_empty() || self.rows.is_empty()
    }

    // Makes room for the row of one more node, and for the node while it is open.
    fn make_room(&mut self) -> Result<(), Memory>
        ensures rows { self.new.rows.items ≡ self.old.rows.items }
        ensures nodes { self.new.nodes.items ≡ self.old.nodes.items }
        ensures trims { self.new.trims ≡ self.old.trims }
        ensures room { OnOk result ((length self.new.rows.items < vec_capacity self.new.rows)
            × (length self.new.nodes.items < vec_capacity self.new.nodes)) }
    {
        self.rows.reserve(1)?;
        self.nodes.reserve(1)?;
        Ok(())
    }

    // Opens a node with this row, whose whole locations are so long.
    #[inline(always)]
    fn open(&mut self, row: RelativeRow<'a>, keyword_length: usize, instance_length: usize)
        requires { (length self.old.rows.items < vec_capacity self.old.rows)
            × (length self.old.nodes.items < vec_capacity self.old.nodes) }
        ensures rows { self.new.rows.items ≡ self.old.rows.items ++ row.entry ∷ [] }
        ensures nodes { open_nodes self.new.nodes.items []
            ≡ record { number = length self.old.rows.items; keyword = keyword_length; instance = instance_length }
            ∷ open_nodes self.old.nodes.items [] }
        ensures trims { self.new.trims ≡ self.old.trims }
    {
        let number = self.rows.len();
        self.rows.push_reserved(row);
        self.nodes.push_reserved(OpenNode {
            number,
            keyword: keyword_length,
            instance: instance_length,
        });
    }

    /// The verdict of the root. The rows must be those of a whole tree.
    pub fn is_valid(&self) -> bool
        requires { AreWhole self.now }
        ensures { (t : ResultTree) → AreRowsOf self.now t → result ≡ t.root.valid }
    {
        let rows = self.rows.as_slice();
        let root = &rows[0];
        root.valid
    }
}

// Whether the row of a node that closes goes: it has no note, and of the `size` rows of its subtree only it is left.
pub(crate) fn goes(trims: bool, note: &Note<'_>, size: usize) -> bool
    ensures { result ≡ row_goes trims (note_of note.now) size }
{
    trims && size == 1 && !note.is_some()
}

// The innermost open node. If none is open, both lengths are 0.
fn innermost(nodes: &[OpenNode]) -> OpenNode
    ensures { open_node result ≡ node_above (open_nodes nodes.now []) }
{
    match nodes.last() {
        Some(node) => *node,
        None => OpenNode {
            number: 0,
            keyword: 0,
            instance: 0,
        },
    }
}

// The text without its first `length` bytes.
pub(crate) fn behind(text: &[u8], length: usize) -> &[u8]
    ensures { result.now ≡ drop length text.now }
{
    if length < text.len() {
        &text[length..]
    } else {
        &[]
    }
}

// The bytes with their escapes, in the arena. Mostly there are none.
#[inline(always)]
fn in_arena<'a>(arena: &'a Bump, scratch: &mut Vec<u8>, bytes: &[u8]) -> Result<&'a [u8], Memory>
    ensures { IfOk result (λ b. b.now ≡ escape bytes.now) }
{
    if bytes.is_empty() {
        return Ok(&[]);
    }
    some_in_arena(arena, scratch, bytes)
}

#[inline(never)]
fn some_in_arena<'a>(
    arena: &'a Bump,
    scratch: &mut Vec<u8>,
    bytes: &[u8],
) -> Result<&'a [u8], Memory>
    ensures { IfOk result (λ b. b.now ≡ escape bytes.now) }
{
    if stand_as_they_are(bytes) {
        let kept = arena.try_alloc_slice_copy(bytes)?;
        return Ok(kept);
    }
    scratch.clear();
    put_escaped(bytes, scratch)?;
    let kept = arena.try_alloc_slice_copy(scratch.as_slice())?;
    Ok(kept)
}

// The name, and that a slash stands before it, if these are what is added. Otherwise what is added, in the arena.
fn name_or_kept<'a>(
    arena: &'a Bump,
    scratch: &mut Vec<u8>,
    name: &'a [u8],
    added: &[u8],
) -> Result<(bool, &'a [u8]), Memory>
    requires { list_all stands name.now ≡ true }
    ensures { IfOk result (λ p. part p.0 p.1.now ≡ escape added.now) }
{
    if is_token(added, name) {
        return Ok((true, name));
    }
    let kept = in_arena(arena, scratch, added)?;
    Ok((false, kept))
}

// Whether what is added is a slash and the name.
fn is_token(added: &[u8], name: &[u8]) -> bool
    ensures { IsTrue result → added.now ≡ 47 ∷ name.now }
{
    if added.is_empty() {
        return false;
    }
    added[0] == b'/' && &added[1..] == name
}

// The bytes with their escapes: what is kept of those that are added to the keyword location, if they are the same, and
// otherwise in the arena. Most keywords' names add the same to both keyword locations, and most schemas that are
// applied to members add the same to the keyword location and the instance location.
fn shared_or_in_arena<'a>(
    arena: &'a Bump,
    scratch: &mut Vec<u8>,
    bytes: &[u8],
    added: &[u8],
    kept: &'a [u8],
) -> Result<&'a [u8], Memory>
    ensures { kept.now ≡ escape added.now → IfOk result (λ b. b.now ≡ escape bytes.now) }
{
    if bytes == added {
        return Ok(kept);
    }
    in_arena(arena, scratch, bytes)
}

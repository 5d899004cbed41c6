//! The locations of a node, put together from the parts that it and the nodes above it add.
ghost use Rattle.std.specs.Prelude.{◌≡◌, ◌+◌, ◌≤◌, ◌∷◌, [], ◌++◌, List, ℕ, IfOk, length, vec_capacity};
ghost use Rattle.json.specs.Print.{escape};
ghost use Rattle.js_doc.specs.BytesOut.{Puts};
ghost use Rattle.js_tree.specs.NodeText.{end_text, valid_text};
ghost use Rattle.js_tree.specs.Rows.Locations.{AreAt, HasRoom, HasRoomFor, IsBack, IsDown, IsUp, instances_added};
ghost use Rattle.js_tree.specs.Rows.Locations.{keyword_start, keywords_added};
ghost use Rattle.js_tree.specs.Rows.RelativeState.{part};
ghost use Rattle.js_tree.specs.code.RelativeText.{AreOfNode, IsAbsolute};

use crate::collecting::collector::Head;
use crate::rows::gathered::{Gathered, with_room};
use crate::rows::opening::Opening;
use crate::rows::relative_rows::{RelativeRow, RelativeRows, behind};
use crate::rows::unescaping::text_of;
use js_doc::{Memory, Out, Stopped};
use std::alloc::Global;
use std::mem::replace;

/// The keyword location and the instance location of one node, while relative rows are written (JSON Schema Core,
/// sections 12.3.1 and 12.3.3).
#[derive(Drop)]
pub struct Locations {
    // Each with what stands before it, so that one call of `put` writes both.
    keyword: Vec<u8>,
    instance: Vec<u8>,
    // How the node's text begins.
    pub(crate) opening: Opening,
    // The memory for text that is gathered before it goes out.
    gathered: Gathered,
}

// What stands before the keyword location.
const KEYWORD_START: &[u8] = b"\",\"keywordLocation\":\"";
// What stands before the instance location. The first byte ends the text before it, unless that isn't a string.
const INSTANCE_START: &[u8] = b"\",\"instanceLocation\":\"";

impl Locations {
    /// Empty locations, with memory reserved for those of each node of the rows, so that writing allocates nothing. The
    /// parts of all rows together are an upper limit of their length. Reserved memory that is never used costs nothing.
    ///
    /// # Errors
    /// `Memory` if an allocation fails.
    pub fn new(alloc: Global, rows: &RelativeRows) -> Result<Locations, Memory>
        ensures { IfOk result (λ at. HasRoomFor at rows.now) }
    {
        let (keyword, instance) = added(rows.rows.as_slice())?;
        Ok(Locations {
            keyword: with_room(alloc, KEYWORD_START, keyword)?,
            instance: with_room(alloc, INSTANCE_START, instance)?,
            opening: Opening::new(alloc)?,
            gathered: Gathered::new(alloc)?,
        })
    }

    /// Hands on the memory for text that is gathered, which it has once.
    pub(crate) fn take_gathered(&mut self) -> Gathered
        ensures { IsBack self.old self.new }
    {
        let alloc = *self.keyword.allocator();
        replace(&mut self.gathered, Gathered::without_memory(alloc))
    }

    /// The locations of the row's node, as texts of their own.
    ///
    /// # Errors
    /// `Memory` if an allocation fails.
    pub(crate) fn head(&self, alloc: Global, row: &RelativeRow) -> Result<Head, Memory>
        requires { AreOfNode self.now row.now }
        ensures { (keyword absolute instance : List ℕ) → AreAt self.now keyword instance → IsAbsolute row.now absolute
            → IfOk result (λ head. (head.keyword ≡ keyword) × (head.absolute ≡ absolute)
            × (head.instance ≡ instance)) }
    {
        let keyword = behind(self.keyword.as_slice(), KEYWORD_START.len());
        let instance = behind(self.instance.as_slice(), INSTANCE_START.len());
        Ok(Head {
            keyword: text_of(alloc, "", false, keyword)?,
            absolute: text_of(alloc, row.schema, row.absolute_slash, row.absolute)?,
            instance: text_of(alloc, "", false, instance)?,
        })
    }

    /// Goes from the node above to the node of the row. It allocates nothing.
    #[inline(always)]
    pub(crate) fn go_to_node(&mut self, row: &RelativeRow)
        requires { HasRoom self.old (row.now ∷ []) }
        ensures { IsDown self.old row.now self.new }
    {
        add_part(&mut self.keyword, row.keyword_slash, row.keyword);
        add_text(&mut self.instance, row.instance);
    }

    /// Goes back from the node of the row to the node above.
    pub(crate) fn go_back(&mut self, row: &RelativeRow)
        ensures { IsUp self.old row.now self.new }
    {
        take_part(&mut self.keyword, row.keyword_slash, row.keyword);
        let instance = self.instance.len().saturating_sub(row.instance.len());
        self.instance.truncate(instance);
    }

    /// Writes the last members of the node: its instance location, its keyword location and its verdict.
    pub(crate) fn put_end<O: Out>(&self, valid: bool, out: &mut O) -> Result<(), Stopped>
        ensures { (keyword instance : List ℕ) → AreAt self.now keyword instance
            → Puts (O.progress out.old) (O.progress out.new) (end_text instance keyword valid) result }
    {
        self.put_from(behind(self.instance.as_slice(), 1), valid, out)
    }

    /// Writes the same, and before it the closing quotation mark of the text that stands there.
    pub(crate) fn put_closing<O: Out>(&self, valid: bool, out: &mut O) -> Result<(), Stopped>
        ensures { (keyword instance : List ℕ) → AreAt self.now keyword instance
            → Puts (O.progress out.old) (O.progress out.new) (34 ∷ end_text instance keyword valid) result }
    {
        self.put_from(self.instance.as_slice(), valid, out)
    }

    // Writes the instance location, given with what stands before it, and what follows.
    #[inline(always)]
    fn put_from<O: Out>(&self, instance: &[u8], valid: bool, out: &mut O) -> Result<(), Stopped>
        ensures { (keyword there : List ℕ) → AreAt self.now keyword there
            → Puts (O.progress out.old) (O.progress out.new)
            (instance.now ++ (keyword_start ++ (escape keyword ++ 34 ∷ valid_text valid))) result }
    {
        out.put(instance)?;
        out.put(self.keyword.as_slice())?;
        put_last(valid, out)
    }
}

// The number of bytes in all parts that the rows add, to keyword locations and to instance locations.
fn added(rows: &[RelativeRow]) -> Result<(usize, usize), Memory>
    ensures { IfOk result (λ sums. (sums.0 ≡ keywords_added rows.now) × (sums.1 ≡ instances_added rows.now)) }
{
    let mut keyword: usize = 0;
    let mut instance: usize = 0;
    for row in rows {
        keyword = with_part(keyword, row.keyword_slash, row.keyword)?;
        instance = instance.checked_add(row.instance.len()).ok_or(Memory)?;
    }
    Ok((keyword, instance))
}

// How many bytes there are with this part too.
fn with_part(count: usize, slash: bool, text: &[u8]) -> Result<usize, Memory>
    ensures { IfOk result (λ n. n ≡ count + length (part slash text.now)) }
{
    let more = count.checked_add(text.len()).ok_or(Memory)?;
    more.checked_add(usize::from(slash)).ok_or(Memory)
}

// Adds a part to a location, which has the memory for it.
fn add_part(location: &mut Vec<u8>, slash: bool, text: &[u8])
    requires { length location.old.items + length (part slash text.now) ≤ vec_capacity location.old }
    ensures items { location.new.items ≡ location.old.items ++ part slash text.now }
    ensures capacity { vec_capacity location.old ≤ vec_capacity location.new }
{
    if slash {
        let _ = location.push(b'/');
    }
    let _ = location.extend_from_slice(text);
}

// Adds text to a location, which has the memory for it. Most rows add none to instance locations.
#[inline(always)]
fn add_text(location: &mut Vec<u8>, text: &[u8])
    requires { length location.old.items + length text.now ≤ vec_capacity location.old }
    ensures items { location.new.items ≡ location.old.items ++ text.now }
    ensures capacity { vec_capacity location.old ≤ vec_capacity location.new }
{
    if text.is_empty() {
        return;
    }
    let _ = location.extend_from_slice(text);
}

// Takes the part that was added last away again.
fn take_part(location: &mut Vec<u8>, slash: bool, text: &[u8])
    ensures items { (above : List ℕ) → location.old.items ≡ above ++ part slash text.now → location.new.items ≡ above }
    ensures capacity { vec_capacity location.old ≤ vec_capacity location.new }
{
    let end = location.len().saturating_sub(text.len());
    if slash {
        location.truncate(end.saturating_sub(1));
    } else {
        location.truncate(end);
    }
}

// Writes the closing quotation mark of the keyword location, and the last member.
#[inline(always)]
fn put_last<O: Out>(valid: bool, out: &mut O) -> Result<(), Stopped>
    ensures { Puts (O.progress out.old) (O.progress out.new) (34 ∷ valid_text valid) result }
{
    if valid {
        out.put(b"\",\"valid\":true}")
    } else {
        out.put(b"\",\"valid\":false}")
    }
}

/// Writes a part of a location.
pub(crate) fn put_part<O: Out>(slash: bool, text: &[u8], out: &mut O) -> Result<(), Stopped>
    ensures { Puts (O.progress out.old) (O.progress out.new) (part slash text.now) result }
{
    if !slash {
        return out.put(text);
    }
    out.put(b"/")?;
    out.put(text)
}

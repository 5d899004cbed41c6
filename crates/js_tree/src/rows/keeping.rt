//! The rows of the tree that pruning and condensing leave, from those of the whole tree.
ghost use Rattle.std.specs.Prelude.{◌≡◌, ◌+◌, ◌≤◌, ◌++◌, ◌∷◌, [], IfOk, IsTrue, List, OnOk, ℕ, drop, false};
ghost use Rattle.std.specs.Prelude.{length, map};
ghost use Rattle.js_tree.specs.OutputUnit.{OutputUnit};
ghost use Rattle.js_tree.specs.Result.{ResultTree, kept, pruned};
ghost use Rattle.js_tree.specs.Rows.Marks.{AreMarksOf};
ghost use Rattle.js_tree.specs.Rows.Relative.{escaped_unit, placed_unit};
ghost use Rattle.js_tree.specs.Rows.RelativeState.{AreRowsOf, AreWhole, part, relative_row};
ghost use Rattle.js_tree.specs.code.KeptBetween.{AreLonger, AreMarksOfTrees, AreSame, IsEnd, IsMarked, IsPending};
ghost use Rattle.js_tree.specs.code.KeptBetween.{KeepsTree, KeepsTrees, StaysPending, left_below, left_of_tree};
ghost use Rattle.js_tree.specs.code.KeptBetween.{over_what_is_left};

use crate::note::Note;
use crate::rows::marks::{Left, RelativeMarks};
use crate::rows::relative_rows::{RelativeRow, RelativeRows, behind};
use crate::rows::trees::tree_end;
use bumpalo::Bump;
use js_doc::Memory;
use std::alloc::Global;
use std::mem::replace;

// What the nodes that go add to the locations of the nodes below them, from the root down, with JSON escapes.
#[derive(Drop)]
struct Between {
    keyword: Vec<u8>,
    instance: Vec<u8>,
}

// How long these are.
#[derive(Clone, Copy)]
struct Lengths {
    keyword: usize,
    instance: usize,
}

// The rows that are kept, and what the next of them needs.
#[derive(Drop)]
struct Keeper<'a> {
    arena: &'a Bump,
    between: Between,
    // How long that was at the last node that stays. What is behind it is still to be added.
    start: Lengths,
    kept: Vec<RelativeRow<'a>>,
}

/// The rows of what pruning and condensing leave of the rows' tree: the tree of the detailed format (JSON Schema Core,
/// section 12.4.3). The notes are moved. A row borrows what it borrowed, unless nodes between it and the one above are
/// gone: then what they and it add to a location is put together in the arena. Takes linear time.
///
/// # Errors
/// `Memory` if an allocation fails.
pub fn kept_rows<'a>(alloc: Global, rows: RelativeRows<'a>) -> Result<RelativeRows<'a>, Memory>
    requires { AreWhole rows }
    ensures { (t : ResultTree) → AreRowsOf rows.entry t → IfOk result (λ k. AreRowsOf k (kept (pruned t))) }
{
    let marks = RelativeMarks::new(alloc, &rows)?;
    keep_marked(alloc, rows, &marks)
}

// The rows of what the marks say is left.
fn keep_marked<'a>(
    alloc: Global,
    rows: RelativeRows<'a>,
    marks: &RelativeMarks,
) -> Result<RelativeRows<'a>, Memory>
    requires whole { AreWhole rows }
    requires marks { AreMarksOf marks.now rows }
    ensures { (t : ResultTree) → AreRowsOf rows.entry t → IfOk result (λ k. AreRowsOf k (kept (pruned t))) }
{
    let mut rows = rows;
    let marks = marks.marks.as_slice();
    // No more rows stay. Reserved memory that is never used costs nothing.
    let kept = Vec::with_capacity(alloc, marks.len())?;
    let between = Between {
        keyword: Vec::new(alloc),
        instance: Vec::new(alloc),
    };
    let start = between.end();
    let mut keeper = Keeper {
        arena: rows.arena,
        between,
        start,
        kept,
    };
    keeper.keep_node(&mut rows.rows, marks)?;
    let Keeper {
        arena: _,
        between: _,
        start: _,
        kept,
    } = keeper;
    rows.rows = kept;
    Ok(rows)
}

impl Between {
    // How long they are.
    fn end(&self) -> Lengths
        ensures { IsEnd self.now result }
    {
        Lengths {
            keyword: self.keyword.len(),
            instance: self.instance.len(),
        }
    }

    // Adds what the row adds.
    fn add(&mut self, row: &RelativeRow) -> Result<(), Memory>
        ensures { OnOk result (AreLonger self.old row.now self.new) }
    {
        add_part(&mut self.keyword, row.keyword_slash, row.keyword)?;
        add_text(&mut self.instance, row.instance)
    }

    // Takes away what was added behind this.
    fn go_back(&mut self, end: Lengths)
        ensures { (before : Between) (row : RelativeRow) → IsEnd before end → AreLonger before row self.old
            → AreSame before self.new }
    {
        self.keyword.truncate(end.keyword);
        self.instance.truncate(end.instance);
    }

    // Whether nothing is behind this.
    fn is_at(&self, start: Lengths) -> bool
        ensures { IsTrue result → (length self.now.keyword.items ≤ start.keyword)
            × (length self.now.instance.items ≤ start.instance) }
    {
        self.keyword.len() <= start.keyword && self.instance.len() <= start.instance
    }

    // Adds the row of a node that stays, with what is behind the start before what its old row adds, and with this
    // size. The note is moved. It isn't inlined, so that the stack holds no row on each level.
    #[inline(never)]
    fn add_row<'a>(
        &mut self,
        arena: &'a Bump,
        row: &mut RelativeRow<'a>,
        start: Lengths,
        size: usize,
        kept: &mut Vec<RelativeRow<'a>>,
    ) -> Result<(), Memory>
        ensures row { (u : OutputUnit) (keyword instance : List ℕ) → IsPending self.old start keyword instance
            → (relative_row row.old).0 ≡ escaped_unit u → OnOk result (map relative_row kept.new.items
            ≡ map relative_row kept.old.items ++ (escaped_unit (placed_unit keyword instance u), size) ∷ []) }
        ensures count { OnOk result (length kept.new.items ≡ length kept.old.items + 1) }
        ensures same { OnOk result (AreSame self.old self.new) }
    {
        if self.is_at(start) {
            return move_row(row, size, kept);
        }
        self.prepend_pending(arena, row, start)?;
        move_row(row, size, kept)
    }

    // Puts what is behind the start before what the row adds.
    fn prepend_pending<'a>(
        &mut self,
        arena: &'a Bump,
        row: &mut RelativeRow<'a>,
        start: Lengths,
    ) -> Result<(), Memory>
        ensures row { (u : OutputUnit) (keyword instance : List ℕ) → IsPending self.old start keyword instance
            → (relative_row row.old).0 ≡ escaped_unit u
            → OnOk result ((relative_row row.new).0 ≡ escaped_unit (placed_unit keyword instance u)) }
        ensures same { OnOk result (AreSame self.old self.new) }
    {
        let slash = row.keyword_slash;
        let (slash, keyword) = joined(arena, &mut self.keyword, start.keyword, slash, row.keyword)?;
        let from = start.instance;
        let (_, instance) = joined(arena, &mut self.instance, from, false, row.instance)?;
        row.keyword_slash = slash;
        row.keyword = keyword;
        row.instance = instance;
        Ok(())
    }
}

// Adds the row as it is, with this size. The note is moved.
#[inline(always)]
fn move_row<'a>(
    row: &mut RelativeRow<'a>,
    size: usize,
    kept: &mut Vec<RelativeRow<'a>>,
) -> Result<(), Memory>
    ensures row { OnOk result (map relative_row kept.new.items
        ≡ map relative_row kept.old.items ++ ((relative_row row.old).0, size) ∷ []) }
    ensures count { OnOk result (length kept.new.items ≡ length kept.old.items + 1) }
{
    kept.reserve(1)?;
    kept.push_reserved(RelativeRow {
        valid: row.valid,
        keyword_slash: row.keyword_slash,
        absolute_slash: row.absolute_slash,
        keyword: row.keyword,
        instance: row.instance,
        schema: row.schema,
        absolute: row.absolute,
        note: replace(&mut row.note, Note::Silent),
        size,
    });
    Ok(())
}

impl<'a> Keeper<'a> {
    // Adds the rows of what is left of the trees of the rows.
    #[cycle(keep_trees)]
    fn keep_trees(&mut self, rows: &mut [RelativeRow<'a>], marks: &[Left]) -> Result<(), Memory>
        requires { AreMarksOfTrees rows.old marks.now }
        ensures rows { KeepsTrees self.old rows.old marks.now self.new result }
        ensures same { OnOk result (StaysPending self.old self.new) }
    {
        let mut next = 0;
        while next < rows.len() {
            let first = next;
            next = tree_end(rows, first);
            self.keep_tree(&mut rows[first..next], &marks[first..next])?;
        }
        Ok(())
    }

    // Adds the rows of what is left of the tree of the rows.
    #[cycle(keep_trees)]
    #[inline(always)]
    fn keep_tree(&mut self, rows: &mut [RelativeRow<'a>], marks: &[Left]) -> Result<(), Memory>
        requires { IsMarked rows.old marks.now }
        ensures rows { KeepsTree left_of_tree self.old rows.old marks.now self.new result }
        ensures same { OnOk result (StaysPending self.old self.new) }
    {
        let mark = &marks[0];
        let stays = mark.stays;
        let some = mark.below;
        if stays {
            return self.keep_node(rows, marks);
        }
        if some {
            return self.keep_below(rows, marks);
        }
        Ok(())
    }

    // Adds the row of the first row's node, and those of what is left below it.
    #[cycle(keep_trees)]
    #[inline(always)]
    fn keep_node(&mut self, rows: &mut [RelativeRow<'a>], marks: &[Left]) -> Result<(), Memory>
        requires { IsMarked rows.old marks.now }
        ensures rows { KeepsTree over_what_is_left self.old rows.old marks.now self.new result }
        ensures same { OnOk result (StaysPending self.old self.new) }
    {
        let arena = self.arena;
        let start = self.start;
        let count = rows.len();
        let kept = &mut self.kept;
        if count == 1 {
            return self.between.add_row(arena, &mut rows[0], start, 1, kept);
        }
        let number = kept.len();
        self.between.add_row(arena, &mut rows[0], start, 0, kept)?;
        let end = self.between.end();
        self.start = end;
        self.keep_trees(&mut rows[1..], &marks[1..])?;
        self.start = start;
        let size = self.kept.len() - number;
        let row = &mut self.kept[number];
        row.size = size;
        Ok(())
    }

    // Adds the rows of what is left below the first row's node, which goes.
    #[cycle(keep_trees)]
    fn keep_below(&mut self, rows: &mut [RelativeRow<'a>], marks: &[Left]) -> Result<(), Memory>
        requires { IsMarked rows.old marks.now }
        ensures rows { KeepsTree left_below self.old rows.old marks.now self.new result }
        ensures same { OnOk result (StaysPending self.old self.new) }
    {
        let end = self.between.end();
        self.between.add(&rows[0])?;
        self.keep_trees(&mut rows[1..], &marks[1..])?;
        self.between.go_back(end);
        Ok(())
    }
}

// Adds a part to what is there.
fn add_part(location: &mut Vec<u8>, slash: bool, text: &[u8]) -> Result<(), Memory>
    ensures { OnOk result (location.new.items ≡ location.old.items ++ part slash text.now) }
{
    if slash {
        location.push(b'/')?;
    }
    location.extend_from_slice(text)?;
    Ok(())
}

// Adds text to what is there. Most rows add none to instance locations.
#[inline(always)]
fn add_text(location: &mut Vec<u8>, text: &[u8]) -> Result<(), Memory>
    ensures { OnOk result (location.new.items ≡ location.old.items ++ text.now) }
{
    if text.is_empty() {
        return Ok(());
    }
    location.extend_from_slice(text)?;
    Ok(())
}

// What is behind the start, and then this part. If nothing is behind it, that is the part itself; otherwise both go
// into the arena, with the slash.
#[inline(always)]
fn joined<'a>(
    arena: &'a Bump,
    location: &mut Vec<u8>,
    start: usize,
    slash: bool,
    text: &'a [u8],
) -> Result<(bool, &'a [u8]), Memory>
    ensures joined { start ≤ length location.old.items
        → IfOk result (λ p. part p.0 p.1.now ≡ drop start location.old.items ++ part slash text.now) }
    ensures plain { IfOk result (λ p. slash ≡ false → p.0 ≡ false) }
    ensures same { OnOk result (location.new.items ≡ location.old.items) }
{
    if location.len() <= start {
        return Ok((slash, text));
    }
    let kept = joined_in_arena(arena, location, start, slash, text)?;
    Ok((false, kept))
}

#[inline(never)]
fn joined_in_arena<'a>(
    arena: &'a Bump,
    location: &mut Vec<u8>,
    start: usize,
    slash: bool,
    text: &[u8],
) -> Result<&'a [u8], Memory>
    ensures joined { start ≤ length location.old.items
        → IfOk result (λ kept. kept.now ≡ drop start location.old.items ++ part slash text.now) }
    ensures same { OnOk result (location.new.items ≡ location.old.items) }
{
    let end = location.len();
    add_part(location, slash, text)?;
    let kept = arena.try_alloc_slice_copy(behind(location.as_slice(), start))?;
    location.truncate(end);
    Ok(kept)
}

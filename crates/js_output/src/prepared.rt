//! What a format shows of the result for an instance, ready to be written.
ghost use Rattle.std.specs.Prelude.{◌≡◌, ◌∷◌, ◌++◌, [], Bool, IfErr, IfOk, true};
ghost use Rattle.js_doc.specs.Compact.{compact};
ghost use Rattle.js_doc.specs.Seen.{value_of};
ghost use Rattle.js_bundle.specs.Schemas.{is_place, place_at};
ghost use Rattle.js_output.specs.Device.{SendsOrFails, Unflushed};
ghost use Rattle.js_output.specs.Outcome.{IsWalkFault};
ghost use Rattle.js_output.specs.code.Prepared.{AreRowsOf, Merged, ResultTree, Value, form, kept, pruned};
ghost use Rattle.js_output.specs.code.Prepared.{ArePrepared, IsPrepared, IsPreparedFor, rows_form};

use crate::fault::Fault;
use crate::sink::Sink;
use crate::writing::put_line;
use bumpalo::Bump;
use js_bundle::{Place, Schemas};
use js_doc::Doc;
use js_eval::{Limits, verdict_within, walk_noted_rows_within, walk_rows_within};
use js_tree::{Format, Locations, RelativeRows, Tree, is_surely_merged, kept_rows, merged_tree};
use std::alloc::Global;
use std::io::Write;

/// What a format shows of a result. To write it allocates nothing.
#[derive(Drop)]
pub(crate) enum Prepared<'a> {
    /// The verdict alone.
    Verdict(bool),
    /// Rows, with room for their locations: for basic the units with a note are shown, for other formats all nodes.
    Rows(Format, RelativeRows<'a>, Locations),
    /// A tree, of which all nodes are shown.
    Tree(Tree<'a>),
}

impl<'a> Prepared<'a> {
    /// Judges the instance at the place. For basic no rows are made of nodes of which it shows nothing, and for
    /// detailed and merged only those of the nodes that condensing keeps. What is shown may borrow from the arena.
    pub(crate) fn new(
        alloc: Global,
        arena: &'a Bump,
        schemas: &'a Schemas,
        place: Place,
        format: Format,
        limits: Limits,
        instance: &'a Doc,
    ) -> Result<Prepared<'a>, Fault>
        requires { is_place schemas.now place ≡ true }
        ensures prepared { IfOk result (IsPreparedFor limits schemas.now
            (place_at schemas.now place) (value_of instance.now) format) }
        ensures fault { IfErr result (IsWalkFault limits schemas.now
            (place_at schemas.now place) (value_of instance.now)) }
    {
        match format {
            Format::Flag => {
                let valid = verdict_within(alloc, schemas, place, instance, limits)?;
                Ok(Prepared::Verdict(valid))
            }
            Format::Basic => {
                let rows = walk_noted_rows_within(alloc, arena, schemas, place, instance, limits)?;
                with_room(alloc, format, rows)
            }
            Format::Detailed => {
                let noted = walk_noted_rows_within(alloc, arena, schemas, place, instance, limits)?;
                let rows = kept_rows(alloc, noted)?;
                with_room(alloc, format, rows)
            }
            Format::Merged => {
                let noted = walk_noted_rows_within(alloc, arena, schemas, place, instance, limits)?;
                let rows = kept_rows(alloc, noted)?;
                prepared_merged(alloc, rows)
            }
            Format::Verbose => {
                let rows = walk_rows_within(alloc, arena, schemas, place, instance, limits)?;
                with_room(alloc, format, rows)
            }
        }
    }

    /// The verdict.
    pub(crate) fn root_valid(&self) -> bool
        requires { ArePrepared self.now }
        ensures { (valid : Bool) (value : Value) → IsPrepared self.now valid value → result ≡ valid }
    {
        match self {
            Prepared::Verdict(valid) => *valid,
            Prepared::Rows(_, rows, _) => rows.is_valid(),
            Prepared::Tree(tree) => tree.unit.valid,
        }
    }

    /// Writes the compact text, and a line feed.
    pub(crate) fn write<W: Write>(self, out: &mut Sink<W>) -> Result<(), Fault>
        requires { ArePrepared self }
        ensures sent { (valid : Bool) (value : Value) → IsPrepared self.entry valid value
            → SendsOrFails W.contents out.old out.new (compact value ++ 10 ∷ []) result }
        ensures unflushed { Unflushed out.old out.new }
        ensures stays { out.old.failed ≡ true → out.new ≡ out.old }
    {
        if out.failed() {
            return Err(Fault::Write);
        }
        put_line(self, &mut out.writing)?;
        Ok(())
    }
}

// The rows, with room for their locations.
fn with_room<'a>(
    alloc: Global,
    format: Format,
    rows: RelativeRows<'a>,
) -> Result<Prepared<'a>, Fault>
    ensures shown { (t : ResultTree) → AreRowsOf rows.entry t
        → IfOk result (λ s. IsPrepared s t.root.valid (rows_form format t)) }
    ensures memory { IfErr result (λ e. e ≡ Fault.Memory) }
{
    let locations = Locations::new(alloc, &rows)?;
    Ok(Prepared::Rows(format, rows, locations))
}

// The rows of what condensing keeps if merging leaves it as it is, which is the usual case; otherwise the merged tree.
fn prepared_merged<'a>(alloc: Global, rows: RelativeRows<'a>) -> Result<Prepared<'a>, Fault>
    requires { (t : ResultTree) × AreRowsOf rows (kept (pruned t)) }
    ensures shown { (t : ResultTree) → AreRowsOf rows.entry (kept (pruned t))
        → IfOk result (λ s. IsPrepared s t.root.valid (form Merged t)) }
    ensures memory { IfErr result (λ e. e ≡ Fault.Memory) }
{
    if is_surely_merged(&rows) {
        return with_room(alloc, Format::Merged, rows);
    }
    let tree = merged_tree(alloc, rows)?;
    Ok(Prepared::Tree(tree))
}

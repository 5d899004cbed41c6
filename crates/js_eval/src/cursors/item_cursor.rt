//! Applications item by item (Core, sections 10.2.1, 10.3.1 and 11.2): each schema of a list on the value, or a schema
//! on each item of an array.
ghost use Rattle.std.specs.Prelude.{◌≡◌, ◌∷◌, [], MatchOption};
ghost use Rattle.js_eval.specs.code.Applied.{IsHeld};
ghost use Rattle.js_eval.specs.code.Asked.{IsApplied, IsNext};
ghost use Rattle.js_eval.specs.code.Cursors.{items_asked, items_left};
ghost use Rattle.js_eval.specs.code.Terms.{value_of};

use crate::cursors::application::{AppliedTo, Subschemas, apply_to_part};
use crate::instance::Applied;
use crate::marks::is_marked;
use js_bundle::{Schemas, Step};
use js_doc::Doc;

/// The applications that a keyword still has to ask for, one for each item.
#[derive(Drop)]
pub(crate) struct ItemCursor<'a> {
    pub held: Subschemas<'a>,
    pub to: AppliedTo<'a>,
    pub items: &'a [Doc],
    /// The index of the next item.
    pub next: usize,
    /// Marks the items that are skipped. An item without a mark isn't.
    pub passed_over: Vec<bool>,
}

impl<'a> ItemCursor<'a> {
    /// The next application, or None after the last.
    pub fn next_on_item(&mut self, schemas: &'a Schemas) -> Option<Applied<'a>>
        requires { IsHeld schemas.now self.old.held }
        ensures next { IsNext schemas.now (items_asked schemas.now self.old) result (items_asked schemas.now self.new) }
        ensures is { MatchOption result (Unit {0}) (λ a. IsApplied schemas.now a) }
        ensures held { IsHeld schemas.now self.new.held }
    {
        let (index, item) = next_item(self.items, self.passed_over.as_slice(), &mut self.next)?;
        Some(apply_to_part(schemas, &self.held, &self.to, Step::Index(index), item))
    }
}

// The next item that isn't skipped, and its index.
fn next_item<'a>(
    items: &'a [Doc],
    passed_over: &[bool],
    next: &mut usize,
) -> Option<(usize, &'a Doc)>
    ensures { MatchOption result (items_left passed_over.now next.old items.now ≡ [])
        (λ e. items_left passed_over.now next.old items.now
        ≡ (e.0, value_of e.1.now) ∷ items_left passed_over.now next.new items.now) }
{
    for index in *next..items.len() {
        if !is_marked(passed_over, index) {
            *next = index + 1;
            return Some((index, &items[index]));
        }
    }
    None
}

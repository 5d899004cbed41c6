//! The applications of a keyword with a list of schemas (Core, section 10.2.1): each of them, on the value itself.
ghost use Rattle.std.specs.Prelude.{MatchOption};
ghost use Rattle.js_eval.specs.code.Asked.{IsApplied, IsNext};
ghost use Rattle.js_eval.specs.code.ListLeft.{IsList, list_asked};

use crate::cursors::application::apply_at_rank;
use crate::instance::{Applied, Instance};
use crate::order::keyword::KeywordAt;
use js_bundle::{Schemas, Step};
use js_doc::Doc;

/// The schemas of a keyword's list that are still to come.
#[derive(Drop)]
pub(crate) struct ListCursor<'a> {
    pub at: KeywordAt<'a>,
    pub list: &'a [Doc],
    /// The index of the next schema.
    pub next: usize,
    pub value: Instance<'a>,
}

impl<'a> ListCursor<'a> {
    /// The next application, or None after the last.
    pub fn next_in_list(&mut self, schemas: &Schemas) -> Option<Applied<'a>>
        requires { IsList schemas.now self.old }
        ensures next { IsNext schemas.now (list_asked schemas.now self.old) result (list_asked schemas.now self.new) }
        ensures applied { MatchOption result (Unit {0}) (λ a. IsApplied schemas.now a) }
        ensures is { IsList schemas.now self.new }
    {
        let index = self.next;
        let list = self.list;
        if index >= list.len() {
            return None;
        }
        let held = &list[index];
        self.next = index + 1;
        let step = Step::Index(index);
        Some(apply_at_rank(
            schemas,
            &self.at,
            step,
            index,
            held,
            Step::Alone,
            self.value,
        ))
    }
}

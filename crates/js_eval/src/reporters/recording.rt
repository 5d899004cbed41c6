//! The reporter that keeps the result of a walk as rows.
ghost use Rattle.std.specs.Prelude.{◌≡◌, ◌++◌, OnOk, string_bytes, true};
ghost use Rattle.js_doc.specs.Fragment.{fragment_token};
ghost use Rattle.js_tree.specs.Rows.RelativeState.{TakesLeafAt, relative_after, relative_state};
ghost use Rattle.js_eval.specs.code.Standard.{IsWrittenAsItIs};

use crate::evaluation::{HeldText, KeywordVerdict, Reporter, Trail, World};
use crate::finished_world::FinishedSchemas;
use crate::instance::Instance;
use crate::keywords::notes::{Findings, make_keyword_note, make_schema_note};
use crate::order::keyword::{Member, is_written_as_it_is};
use js_bundle::Place;
use js_doc::{Doc, Memory, push_fragment_token};
use js_tree::RelativeRows;
use std::alloc::Global;

/// Adds a row for each node of the result. Its methods aren't inlined: that keeps the notes that they make out of the
/// recursive function's stack frame.
#[derive(Drop)]
pub(crate) struct Recording<'a> {
    pub rows: RelativeRows<'a>,
    // What the absolute location of a keyword adds to what its row borrows, where that isn't just a slash and its name.
    // One string serves all keywords.
    pub token: String,
}

impl<'a> Reporter<FinishedSchemas<'a>, HeldText> for Recording<'a> {
    ghost takes = { λ c e d. relative_state d.rows ≡ relative_after (relative_state c.rows) e };

    #[inline(always)]
    fn drops_silent(&self) -> bool {
        self.rows.drops_silent()
    }

    #[inline(never)]
    fn open_schema(
        &mut self,
        _alloc: Global,
        world: &FinishedSchemas<'a>,
        place: Place,
        keyword_location: &Trail<HeldText>,
        instance_location: &Trail<HeldText>,
    ) -> Result<(), Memory> {
        let (absolute, rest) = world.schemas.location_of(place);
        self.rows.enter(
            keyword_location.as_str(),
            absolute,
            rest,
            instance_location.as_str(),
        )
    }

    #[inline(never)]
    fn open_keyword(
        &mut self,
        _alloc: Global,
        world: &FinishedSchemas<'a>,
        place: Place,
        keyword: Member<'a>,
        keyword_location: &Trail<HeldText>,
        instance_location: &Trail<HeldText>,
    ) -> Result<(), Memory> {
        let (schema, rest) = world.schemas.location_of(place);
        if rest.is_empty() && is_written_as_it_is(keyword.which, keyword.name) {
            return self.rows.enter_keyword(
                keyword_location.as_str(),
                schema,
                keyword.name,
                instance_location.as_str(),
            );
        }
        set_token(&mut self.token, rest, keyword.name)?;
        self.rows.enter(
            keyword_location.as_str(),
            schema,
            self.token.as_str(),
            instance_location.as_str(),
        )
    }

    #[inline(never)]
    fn close_keyword(
        &mut self,
        alloc: Global,
        world: &FinishedSchemas<'a>,
        place: Place,
        value: Instance<'a>,
        keyword: Member<'a>,
        judged: KeywordVerdict,
        matching: u64,
        names: &[&'a str],
        indexes: &[usize],
    ) -> Result<(), Memory> {
        let findings = Findings {
            judged,
            matching,
            names,
            indexes,
        };
        let note = make_keyword_note(alloc, world, place, value, keyword, findings)?;
        self.rows.leave(judged.passes, note);
        Ok(())
    }

    #[inline(never)]
    fn leaf_keyword(
        &mut self,
        alloc: Global,
        world: &FinishedSchemas<'a>,
        place: Place,
        value: Instance<'a>,
        keyword: Member<'a>,
        judged: KeywordVerdict,
        matching: u64,
        keyword_location: &mut Trail<HeldText>,
        instance_location: &Trail<HeldText>,
    ) -> Result<(), Memory> {
        let findings = Findings::of_leaf(judged, matching);
        let note = make_keyword_note(alloc, world, place, value, keyword, findings)?;
        let (schema, rest) = world.schemas.location_of(place);
        if rest.is_empty() && self.takes_leaf(keyword, keyword_location, instance_location) {
            let name = keyword.name;
            return self.rows.add_leaf(schema, name, judged.passes, note);
        }
        let here = keyword_location.mark();
        world.go_to_keyword(keyword, keyword_location)?;
        self.open_keyword(
            alloc,
            world,
            place,
            keyword,
            keyword_location,
            instance_location,
        )?;
        self.rows.leave(judged.passes, note);
        keyword_location.cut(here);
        Ok(())
    }

    #[inline(never)]
    fn close_schema(
        &mut self,
        alloc: Global,
        world: &FinishedSchemas<'a>,
        place: Place,
        schema: &'a Doc,
        valid: bool,
    ) -> Result<(), Memory> {
        let note = make_schema_note(alloc, world, place, schema)?;
        self.rows.leave(valid, note);
        Ok(())
    }
}

impl<'a> Recording<'a> {
    // Whether the row of a keyword's leaf may be added at once, below a schema's node at these locations.
    fn takes_leaf(
        &self,
        keyword: Member<'a>,
        keyword_location: &Trail<HeldText>,
        instance_location: &Trail<HeldText>,
    ) -> bool
        ensures name { result ≡ true → IsWrittenAsItIs keyword.entry.name.now }
        ensures at { result ≡ true → TakesLeafAt self.now.rows keyword_location.now instance_location.now }
    {
        if !is_written_as_it_is(keyword.which, keyword.name) {
            return false;
        }
        self.rows
            .takes_leaf(keyword_location.as_str(), instance_location.as_str())
    }
}

// Sets the token to the rest of the location of a place, and what that of a keyword adds to it.
fn set_token(token: &mut String, rest: &str, name: &str) -> Result<(), Memory>
    ensures { OnOk result (string_bytes token.new ≡ rest.now ++ fragment_token name.now) }
{
    token.clear();
    token.push_str(rest)?;
    push_fragment_token(token, name)?;
    Ok(())
}

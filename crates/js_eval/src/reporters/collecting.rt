//! The reporter that passes the result of a walk to a collector.
ghost use Rattle.std.specs.Prelude.{OnOk};
ghost use Rattle.js_tree.specs.Events.{opening};

use crate::evaluation::{HeldText, KeywordVerdict, Reporter, Trail, World};
use crate::finished_world::FinishedSchemas;
use crate::instance::Instance;
use crate::keywords::notes::{Findings, make_keyword_note, make_schema_note};
use crate::order::keyword::Member;
use crate::reporters::absolute::{absolute_keyword, absolute_schema};
use js_bundle::Place;
use js_doc::{Doc, Memory, Text};
use js_tree::{Collector, Head};
use std::alloc::Global;
use std::marker::PhantomData;

/// Passes each node to a collector, with its three locations and its note. Its methods aren't inlined: that keeps
/// what they allocate out of the recursive function's stack frame.
pub(crate) struct Collecting<'a, C> {
    pub collector: C,
    pub notes: PhantomData<&'a Doc>,
}

impl<'a, C: Collector<'a>> Reporter<FinishedSchemas<'a>, HeldText> for Collecting<'a, C> {
    ghost takes = { λ c e d. C.takes c.collector e d.collector };

    #[inline(never)]
    fn open_schema(
        &mut self,
        alloc: Global,
        world: &FinishedSchemas<'a>,
        place: Place,
        keyword_location: &Trail<HeldText>,
        instance_location: &Trail<HeldText>,
    ) -> Result<(), Memory> {
        let absolute = absolute_schema(alloc, world.schemas, place)?;
        self.open(keyword_location, absolute, instance_location)
    }

    #[inline(never)]
    fn open_keyword(
        &mut self,
        alloc: Global,
        world: &FinishedSchemas<'a>,
        place: Place,
        keyword: Member<'a>,
        keyword_location: &Trail<HeldText>,
        instance_location: &Trail<HeldText>,
    ) -> Result<(), Memory> {
        let absolute = absolute_keyword(alloc, world.schemas, place, keyword.name)?;
        self.open(keyword_location, absolute, instance_location)
    }

    #[inline(never)]
    fn close_keyword(
        &mut self,
        alloc: Global,
        world: &FinishedSchemas<'a>,
        place: Place,
        value: Instance<'a>,
        keyword: Member<'a>,
        judged: KeywordVerdict,
        matching: u64,
        names: &[&'a str],
        indexes: &[usize],
    ) -> Result<(), Memory> {
        let findings = Findings {
            judged,
            matching,
            names,
            indexes,
        };
        let note = make_keyword_note(alloc, world, place, value, keyword, findings)?;
        self.collector.leave(judged.passes, note)
    }

    #[inline(never)]
    fn leaf_keyword(
        &mut self,
        alloc: Global,
        world: &FinishedSchemas<'a>,
        place: Place,
        value: Instance<'a>,
        keyword: Member<'a>,
        judged: KeywordVerdict,
        matching: u64,
        keyword_location: &mut Trail<HeldText>,
        instance_location: &Trail<HeldText>,
    ) -> Result<(), Memory> {
        let findings = Findings::of_leaf(judged, matching);
        let note = make_keyword_note(alloc, world, place, value, keyword, findings)?;
        let here = keyword_location.mark();
        world.go_to_keyword(keyword, keyword_location)?;
        self.open_keyword(
            alloc,
            world,
            place,
            keyword,
            keyword_location,
            instance_location,
        )?;
        self.collector.leave(judged.passes, note)?;
        keyword_location.cut(here);
        Ok(())
    }

    #[inline(never)]
    fn close_schema(
        &mut self,
        alloc: Global,
        world: &FinishedSchemas<'a>,
        place: Place,
        schema: &'a Doc,
        valid: bool,
    ) -> Result<(), Memory> {
        let note = make_schema_note(alloc, world, place, schema)?;
        self.collector.leave(valid, note)
    }
}

impl<'a, C: Collector<'a>> Collecting<'a, C> {
    // Passes on the three locations of a node that opens (JSON Schema Core, sections 12.3.1 to 12.3.3).
    fn open(
        &mut self,
        keyword: &Trail<HeldText>,
        absolute: Text,
        instance: &Trail<HeldText>,
    ) -> Result<(), Memory>
        ensures { OnOk result (C.takes self.old.collector (opening keyword.now absolute instance.now)
            self.new.collector) }
    {
        let head = Head {
            keyword: keyword.copy_text()?,
            absolute,
            instance: instance.copy_text()?,
        };
        self.collector.enter(head)
    }
}

//! Reporters: they receive the events of a walk.
ghost use Rattle.std.specs.Prelude.{◌≡◌, true, Some, None, map, OnOk};
ghost use Rattle.js_tree.specs.Events.{Event, opening, closing};
ghost use Rattle.js_eval.specs.Walk.Reported.{DropsSilent};
ghost use Rattle.js_eval.specs.Walk.Progress.{IsKeywordAt, LeafReported, says_at, schema_says};

use crate::evaluation::pointer_text::PointerText;
use crate::evaluation::tally::KeywordVerdict;
use crate::evaluation::trail::Trail;
use crate::evaluation::world::World;
use js_bundle::Place;
use js_doc::Memory;
use std::alloc::Global;

/// A receiver of a walk's events: each node of the result opens, and closes after the nodes below it. It borrows the
/// position of the walk and what is known there, and makes locations and notes only if it needs them.
pub(crate) trait Reporter<W: World, H: PointerText + Drop> {
    /// Whether an event leads from one state of the reporter to another. It holds of each call that returns Ok.
    ghost takes: { Self → Event → Self → Type 0 };

    /// Whether the reporter ignores all events, so that a walk needn't visit keywords that apply no schemas.
    #[inline(always)]
    fn is_quiet(&self) -> bool
        ensures { result ≡ true → (c d : Self) (e : Event) → takes c e d }
    {
        false
    }

    /// Whether the reporter keeps nothing of a leaf that passes and has no note, so that a walk needn't report it.
    #[inline(always)]
    fn drops_silent(&self) -> bool
        ensures { result ≡ true → DropsSilent takes self.now }
    {
        false
    }

    /// The node of a schema opens.
    fn open_schema(
        &mut self,
        alloc: Global,
        world: &W,
        place: Place,
        keyword_location: &Trail<H>,
        instance_location: &Trail<H>,
    ) -> Result<(), Memory>
        requires { W.is_place world.now place ≡ true }
        ensures { OnOk result (takes self.old
            (opening keyword_location.now
            ((W.schemas world.now).absolute (W.site world.now place) None)
            instance_location.now) self.new) };

    /// The node of a keyword opens.
    fn open_keyword(
        &mut self,
        alloc: Global,
        world: &W,
        place: Place,
        keyword: W::Keyword,
        keyword_location: &Trail<H>,
        instance_location: &Trail<H>,
    ) -> Result<(), Memory>
        requires { W.is_place world.now place ≡ true }
        ensures { OnOk result (takes self.old
            (opening keyword_location.now
            ((W.schemas world.now).absolute (W.site world.now place) (Some ((W.keyword_of keyword).0)))
            instance_location.now) self.new) };

    /// The node of a keyword closes. `judged`: whether it passes, and how many of its applications succeed; `matching`:
    /// the number of items that match the adjacent `contains`; `names`, `indexes`: the members and items that it has
    /// evaluated if it passes.
    fn close_keyword(
        &mut self,
        alloc: Global,
        world: &W,
        place: Place,
        value: W::Value,
        keyword: W::Keyword,
        judged: KeywordVerdict,
        matching: u64,
        names: &[W::Name],
        indexes: &[usize],
    ) -> Result<(), Memory>
        requires place { W.is_place world.now place ≡ true }
        requires keyword { IsKeywordAt (W.schemas world.now) (W.site world.now place) (W.keyword_of keyword) }
        ensures { OnOk result (takes self.old
            (closing judged.passes (says_at (W.schemas world.now) (W.site world.now place) (W.value_of value) matching
            (W.keyword_of keyword)
            judged.succeeded (map W.text_of names.now) indexes.now judged.passes)) self.new) };

    /// The node of a keyword that applies no schema opens and closes at once: the same as `open_keyword` and then
    /// `close_keyword`. `keyword_location` is that of its schema; it comes back as it was.
    fn leaf_keyword(
        &mut self,
        alloc: Global,
        world: &W,
        place: Place,
        value: W::Value,
        keyword: W::Keyword,
        judged: KeywordVerdict,
        matching: u64,
        keyword_location: &mut Trail<H>,
        instance_location: &Trail<H>,
    ) -> Result<(), Memory>
        requires place { W.is_place world.now place ≡ true }
        requires keyword { IsKeywordAt (W.schemas world.now) (W.site world.now place) (W.keyword_of keyword) }
        ensures reported { OnOk result (LeafReported (W.schemas world.now) takes (W.site world.now place)
            (W.value_of value) (W.keyword_of keyword) matching judged.passes judged.succeeded keyword_location.old
            instance_location.now self.old self.new) }
        ensures back { OnOk result (keyword_location.new ≡ keyword_location.old) };

    /// The node of a schema closes.
    fn close_schema(
        &mut self,
        alloc: Global,
        world: &W,
        place: Place,
        schema: W::Schema,
        valid: bool,
    ) -> Result<(), Memory>
        requires place { W.is_place world.now place ≡ true }
        requires schema { W.stands_at world.now place schema }
        ensures { OnOk result (takes self.old
            (closing valid (schema_says (W.schemas world.now) (W.site world.now place))) self.new) };
}

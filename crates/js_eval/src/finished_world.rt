//! Finished schemas and their patterns, as a walk uses them.
ghost use Rattle.std.specs.Prelude.{◌≡◌, None, OnOk, Some, map, option_to_list};
ghost use Rattle.js_eval.specs.Evaluated.{index_in_step, name_in_step};
ghost use Rattle.js_eval.specs.Walk.Progress.{at_step};
ghost use Rattle.js_eval.specs.code.Terms.{instance_of, is_place, numbered_site, schemas_of, step_of};

use crate::cursors::asking::{Asking, next_asked};
use crate::evaluation::{Others, PointerText, ScopedPath, Tally, Trail, World};
use crate::instance::{Applied, Instance};
use crate::keywords::applications::{Facts, Scene, asking_of_keyword};
use crate::keywords::others::judge_others;
use crate::keywords::passing::judge_keyword;
use crate::order::applying::applies;
use crate::order::keyword::{KeywordAt, Member, is_written_as_it_is};
use crate::order::keyword_cursor::Keywords;
use crate::schema::is_accepting;
use crate::schema_lookup::names_at;
use crate::searching::pattern_answers::keep_all;
use crate::searching::searchers::Searchers;
use js_bundle::{Place, Schemas, Step};
use js_doc::{Doc, Memory};
use js_keyword::Keyword;
use std::alloc::Global;

/// Finished schemas, and the searchers for their patterns. `'a` is the lifetime of the schemas and of the instance.
#[derive(Drop)]
pub(crate) struct FinishedSchemas<'a> {
    pub schemas: &'a Schemas,
    pub searchers: Searchers<'a>,
}

impl<'a> World for FinishedSchemas<'a> {
    ghost use Rattle.js_bundle.specs.Schemas.{is_place};
    ghost use Rattle.js_doc.specs.Seen as seen;
    ghost use Rattle.js_eval.specs.code.Applied.{applied_of};
    ghost use Rattle.js_eval.specs.code.Asked as here;
    ghost use Rattle.js_eval.specs.Bundle.{schemas_of};
    ghost use Rattle.js_eval.specs.code.KeywordsLeft as left;
    ghost use Rattle.js_eval.specs.Seen.{instance_of, keyword_of};
    ghost use Rattle.js_eval.specs.Sited.{numbered_site, resource_of};

    type Value = Instance<'a>;

    type Name = &'a str;

    type Schema = &'a Doc;

    type Keyword = Member<'a>;

    type Keywords = Keywords<'a>;

    type Application = Applied<'a>;

    type Asking = Asking<'a>;

    ghost schemas = { λ h. schemas_of h.schemas.now };

    ghost is_place = { λ h n. is_place h.schemas.now n };

    ghost site = { λ h n. numbered_site h.schemas.now n };

    ghost stands_at = { λ h n schema. seen.value_of schema.now ≡ (numbered_site h.schemas.now n).schema };

    ghost resource = { λ h n. resource_of h.schemas.now n };

    ghost value_of = { instance_of };

    ghost text_of = { λ name. name.now };

    ghost keyword_of = { keyword_of };

    ghost listed = { left.keywords_in };

    ghost application_of = { λ h a. applied_of h.schemas.now a };

    ghost place_of = { λ a. a.place };

    ghost schema_of = { λ a. a.schema };

    ghost asked = { λ h a. here.asked h.schemas.now a };

    ghost is_asking = { λ h a. here.IsAsking h.schemas.now a };

    #[tactic(auto, unfolding(crate::specs::Walk::Progress::accepts_at))]
    fn accepts(&self, _place: Place, schema: &'a Doc) -> bool {
        is_accepting(schema)
    }

    #[tactic(auto, unfolding(crate::specs::Walk::Visited::AppliesNone, crate::specs::Walk::Progress::keywords_at))]
    fn may_apply(&self, place: Place, schema: &'a Doc) -> bool {
        Keywords::may_apply(names_at(self.schemas, place), schema)
    }

    fn resource(&self, place: Place) -> usize {
        self.schemas.resource_number(place)
    }

    fn others(
        &self,
        alloc: Global,
        place: Place,
        value: Instance<'a>,
        matching: u64,
    ) -> Result<Others, Memory> {
        judge_others(alloc, self.schemas, &self.searchers, place, value, matching)
    }

    #[tactic(auto, unfolding(crate::specs::Walk::Progress::keywords_at))]
    fn keywords(&self, place: Place, schema: &'a Doc, quiet: bool) -> Keywords<'a> {
        Keywords::new(names_at(self.schemas, place), schema, quiet)
    }

    fn next_keyword(&self, keywords: &mut Keywords<'a>) -> Option<Member<'a>> {
        keywords.next()
    }

    #[tactic(auto, unfolding(crate::specs::Walk::Progress::kind_at))]
    fn kind(&self, keyword: Member<'a>) -> Keyword {
        keyword.which
    }

    #[tactic(auto, unfolding(crate::specs::Walk::Progress::asked_by))]
    fn asks(&self, keyword: Member<'a>) -> bool {
        applies(keyword.which)
    }

    #[tactic(auto, unfolding(crate::specs::Walk::Progress::asked_by, crate::specs::Walk::Progress::IsKeywordAt))]
    fn asking(
        &self,
        alloc: Global,
        scope: ScopedPath,
        place: Place,
        schema: &'a Doc,
        value: Instance<'a>,
        keyword: Member<'a>,
        condition: Option<bool>,
        names: &[&'a str],
        indexes: &[usize],
    ) -> Result<Asking<'a>, Memory> {
        if matches!(keyword.which, Keyword::AdditionalProperties) {
            keep_all(alloc, self.schemas, &self.searchers, place, schema, value)?;
        }
        let at = KeywordAt {
            place,
            schema,
            keyword,
        };
        let scene = Scene {
            path: scope.path,
            scope: scope.resources,
            value,
        };
        let facts = Facts {
            condition,
            names,
            indexes,
        };
        asking_of_keyword(alloc, self.schemas, &at, &self.searchers, scene, facts)
    }

    fn next(&self, alloc: Global, asking: &mut Asking<'a>) -> Result<Option<Applied<'a>>, Memory> {
        next_asked(alloc, self.schemas, &self.searchers, asking)
    }

    fn place(&self, application: Applied<'a>) -> Place {
        place_of(application.place, application.step, application.value.doc())
    }

    fn schema(&self, application: Applied<'a>) -> &'a Doc {
        schema_of(
            application.schema,
            application.step,
            application.value.doc(),
        )
    }

    fn value(&self, application: Applied<'a>) -> Instance<'a> {
        value_of(application.step, application.value, application.value.doc())
    }

    fn member(&self, application: Applied<'a>) -> Option<&'a str> {
        member_at(application.at, application.value.doc())
    }

    fn item(&self, application: Applied<'a>) -> Option<usize> {
        item_at(application.at, application.value.doc())
    }

    fn passes(
        &self,
        alloc: Global,
        place: Place,
        schema: &'a Doc,
        value: Instance<'a>,
        keyword: Member<'a>,
        tally: Tally,
        matching: u64,
    ) -> Result<bool, Memory> {
        judge_keyword(
            alloc,
            self.schemas,
            &self.searchers,
            place,
            schema,
            value,
            keyword,
            tally,
            matching,
        )
    }

    #[tactic(auto, unfolding(crate::specs::Walk::Progress::at_name))]
    fn go_to_keyword<H: PointerText + Drop>(
        &self,
        keyword: Member<'a>,
        trail: &mut Trail<H>,
    ) -> Result<(), Memory> {
        if is_written_as_it_is(keyword.which, keyword.name) {
            trail.push_kept(keyword.name)
        } else {
            trail.push_name(keyword.name)
        }
    }

    fn go_to_application<H: PointerText + Drop>(
        &self,
        application: Applied<'a>,
        keyword: &mut Trail<H>,
        instance: &mut Trail<H>,
    ) -> Result<(), Memory> {
        go(application.step, application.value.doc(), keyword)?;
        go(application.at, application.value.doc(), instance)
    }
}

// The parts of an application. Each of these functions takes a step and a document too, even to ignore them: a function
// that takes apart a struct has to mention each type in it.

fn place_of<'a>(place: Place, _step: Step<'a>, _doc: Option<&'a Doc>) -> Place
    ensures { result ≡ place }
{
    place
}

fn schema_of<'a>(schema: &'a Doc, _step: Step<'a>, _doc: Option<&'a Doc>) -> &'a Doc
    ensures { result ≡ schema.entry }
{
    schema
}

fn value_of<'a>(_step: Step<'a>, value: Instance<'a>, _doc: Option<&'a Doc>) -> Instance<'a>
    ensures { instance_of result ≡ instance_of value.entry }
{
    value
}

fn member_at<'a>(at: Step<'a>, _doc: Option<&'a Doc>) -> Option<&'a str>
    ensures { map (λ name. name.now) (option_to_list result) ≡ name_in_step (step_of at.entry) }
{
    match at {
        Step::Name(name) => Some(name),
        Step::Alone | Step::Index(_) => None,
    }
}

fn item_at<'a>(at: Step<'a>, _doc: Option<&'a Doc>) -> Option<usize>
    ensures { option_to_list result ≡ index_in_step (step_of at.entry) }
{
    match at {
        Step::Index(index) => Some(index),
        Step::Alone | Step::Name(_) => None,
    }
}

// Appends the step to the trail.
#[tactic(auto, unfolding(crate::specs::Walk::Progress::at_step))]
fn go<'a, H: PointerText + Drop>(
    step: Step<'a>,
    _doc: Option<&'a Doc>,
    trail: &mut Trail<H>,
) -> Result<(), Memory>
    ensures { OnOk result (trail.new ≡ at_step trail.old (step_of step.entry)) }
{
    match step {
        Step::Alone => Ok(()),
        Step::Index(index) => trail.push_index(index),
        Step::Name(name) => trail.push_name(name),
    }
}

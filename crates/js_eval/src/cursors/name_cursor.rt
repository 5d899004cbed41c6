//! The applications of `properties`, name by name (Core, section 10.3.2.1): the schema of each name that a member has,
//! on the member. The members are looked up name by name; or, since names and members both ascend, the two are gone
//! through side by side.
ghost use Rattle.std.specs.Prelude.{◌≡◌, ◌∷◌, ◌+◌, ◌<◌, ◌^◌, [], MatchOption, Some, filter, length, map, slice_get};
ghost use Rattle.js_doc.specs.Members.{IsAscending};
ghost use Rattle.js_doc.specs.Value as doc;
ghost use Rattle.js_keyword.specs.declared.argument_form.Holding.TheVariants as held;
ghost use Rattle.js_bundle.specs.Schemas.{fits};
ghost use Rattle.js_eval.specs.code.Asked.{IsApplied, IsNext};
ghost use Rattle.js_eval.specs.code.NamesLeft.{AreLeft, IsNames, members_among, names_asked, names_left};
ghost use Rattle.js_eval.specs.code.Starting.{HoldsBy, IsAtPlace, on_namesakes};
ghost use Rattle.js_eval.specs.code.Terms.{Documents, entries, has, pair_of, value_of};

use crate::cursors::application::apply_at_rank;
use crate::instance::{Applied, Instance};
use crate::order::keyword::KeywordAt;
use js_bundle::{Schemas, Step};
use js_doc::{Doc, Members, Pairs, name_order};
use std::cmp::Ordering;

/// The names in `properties` that are still to come, and the members to find them among.
#[derive(Drop)]
pub(crate) struct NameCursor<'a> {
    pub at: KeywordAt<'a>,
    pub names: Pairs<'a>,
    /// The number of names before the next one.
    pub rank: usize,
    pub among: Among<'a>,
}

/// The members that may have the next name.
#[derive(Drop)]
pub(crate) enum Among<'a> {
    /// All: each name is looked up.
    All(&'a Members),
    /// Those behind the last that had a name.
    Left(Pairs<'a>),
}

impl<'a> NameCursor<'a> {
    /// The schema of each name that a member has, applied to the member.
    pub fn new(at: &KeywordAt<'a>, named: &'a Members, among: Among<'a>) -> NameCursor<'a>
        requires at { HoldsBy (fits held.Named) at.now }
        requires named { named.now ≡ entries (value_of at.now.keyword.argument.now) }
        requires ascend { IsAscending (members_among among) }
        ensures asked { (documents : Documents) → names_asked documents result
            ≡ on_namesakes documents at.now (filter (λ m. has m.0 named.now) (members_among among.entry)) }
        ensures is { (documents : Documents) → IsAtPlace documents at.now → IsNames documents result }
    {
        NameCursor {
            at: KeywordAt {
                place: at.place,
                schema: at.schema,
                keyword: at.keyword,
            },
            names: named.pairs(),
            rank: 0,
            among,
        }
    }

    /// The next application, or None after the last.
    pub fn next_of_names(&mut self, schemas: &Schemas) -> Option<Applied<'a>>
        requires { IsNames schemas.now self.old }
        ensures next { IsNext schemas.now (names_asked schemas.now self.old) result (names_asked schemas.now self.new) }
        ensures applied { MatchOption result (Unit {0}) (λ a. IsApplied schemas.now a) }
        ensures is { IsNames schemas.now self.new }
    {
        let (rank, name, held, member) = self.among.next_name(&mut self.names, &mut self.rank)?;
        let step = Step::Name(name);
        let value = Instance::Doc(member);
        Some(apply_at_rank(schemas, &self.at, step, rank, held, step, value))
    }
}

impl<'a> Among<'a> {
    // The next name that a member has: its rank among all names, the name, its schema and the member.
    fn next_name(
        &mut self,
        names: &mut Pairs<'a>,
        rank: &mut usize,
    ) -> Option<(usize, &'a str, &'a Doc, &'a Doc)>
        requires few { rank.old + length names.old < 2 ^ 64 }
        requires ascend { IsAscending (map pair_of names.old) × IsAscending (members_among self.old) }
        ensures next { MatchOption result (names_left (members_among self.old) names.old ≡ [])
            (λ f. names_left (members_among self.old) names.old
            ≡ (f.1.now, value_of f.3.now) ∷ names_left (members_among self.new) names.new) }
        ensures left { (all : doc.Named) → AreLeft all rank.old names.old → AreLeft all rank.new names.new
            × MatchOption result (Unit {0}) (λ f. slice_get all f.0 ≡ Some (f.1.now, value_of f.2.now)) }
        ensures few { rank.new + length names.new < 2 ^ 64 }
        ensures ascend { IsAscending (map pair_of names.new) × IsAscending (members_among self.new) }
    {
        match self {
            Among::All(members) => next_looked_up(names, rank, members),
            Among::Left(members) => next_in_step(names, rank, members),
        }
    }
}

fn next_looked_up<'a>(
    names: &mut Pairs<'a>,
    rank: &mut usize,
    members: &'a Members,
) -> Option<(usize, &'a str, &'a Doc, &'a Doc)>
    requires few { rank.old + length names.old < 2 ^ 64 }
    requires ascend { IsAscending (map pair_of names.old) × IsAscending members.now }
    ensures next { MatchOption result (names_left members.now names.old ≡ [])
        (λ f. names_left members.now names.old
        ≡ (f.1.now, value_of f.3.now) ∷ names_left members.now names.new) }
    ensures left { (all : doc.Named) → AreLeft all rank.old names.old → AreLeft all rank.new names.new
        × MatchOption result (Unit {0}) (λ f. slice_get all f.0 ≡ Some (f.1.now, value_of f.2.now)) }
    ensures few { rank.new + length names.new < 2 ^ 64 }
    ensures ascend { IsAscending (map pair_of names.new) }
{
    while let Some((name, schema)) = names.next() {
        let at = *rank;
        *rank = at + 1;
        let name = name.as_str();
        if let Some(member) = members.get(name) {
            return Some((at, name, schema, member));
        }
    }
    None
}

// It compares the first names of both sides, and passes over the lesser one until they are equal.
fn next_in_step<'a>(
    names: &mut Pairs<'a>,
    rank: &mut usize,
    members: &mut Pairs<'a>,
) -> Option<(usize, &'a str, &'a Doc, &'a Doc)>
    requires few { rank.old + length names.old < 2 ^ 64 }
    requires ascend { IsAscending (map pair_of names.old) × IsAscending (map pair_of members.old) }
    ensures next { MatchOption result (names_left (map pair_of members.old) names.old ≡ [])
        (λ f. names_left (map pair_of members.old) names.old
        ≡ (f.1.now, value_of f.3.now) ∷ names_left (map pair_of members.new) names.new) }
    ensures left { (all : doc.Named) → AreLeft all rank.old names.old → AreLeft all rank.new names.new
        × MatchOption result (Unit {0}) (λ f. slice_get all f.0 ≡ Some (f.1.now, value_of f.2.now)) }
    ensures few { rank.new + length names.new < 2 ^ 64 }
    ensures ascend { IsAscending (map pair_of names.new) × IsAscending (map pair_of members.new) }
{
    let (mut name, mut schema) = names.next()?;
    let mut at = *rank;
    *rank = at + 1;
    let (mut key, mut member) = members.next()?;
    loop {
        match name_order(name.as_str(), key.as_str()) {
            Ordering::Less => {
                (name, schema) = names.next()?;
                at += 1;
                *rank = at + 1;
            }
            Ordering::Equal => return Some((at, name.as_str(), schema, member)),
            Ordering::Greater => (key, member) = members.next()?,
        }
    }
}

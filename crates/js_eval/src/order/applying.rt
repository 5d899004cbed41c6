//! The members of a schema that apply schemas, one after another, each as a keyword with its turn (see `turn`).
ghost use Rattle.std.specs.Prelude.{◌≡◌, ◌∷◌, [], MatchOption, Some, filter, option_map, slice_get, true};
ghost use Rattle.js_eval.specs.code.Applicator.{applicators_from, has_applicator};
ghost use Rattle.js_eval.specs.code.Standard.{keyword_names_of};
ghost use Rattle.js_eval.specs.code.Turns.{turn_of};
ghost use Rattle.js_eval.specs.Seen.{keyword_of};
ghost use Rattle.js_eval.specs.Walk.Visited.{is_visited, may_apply};

use crate::order::keyword::Member;
use crate::order::keyword_in_turn::keyword_in_turn;
use crate::order::turn::Turn;
use js_doc::Members;
use js_keyword::Keyword;

/// All members, which keyword of the standard each of them is, and how many are behind. A member that applies schemas
/// is got by its rank, without comparing names, and the others cost no more than a look at what they are.
#[derive(Drop)]
pub(crate) struct Applying<'a> {
    names: &'a [Keyword],
    pub(crate) members: &'a Members,
    /// The rank of the next member.
    pub(crate) rank: usize,
    ghost in_step: { names.now ≡ keyword_names_of members.now },
}

impl<'a> Applying<'a> {
    /// Before the first of the members.
    pub(crate) fn new(names: &'a [Keyword], members: &'a Members) -> Applying<'a>
        requires { names.now ≡ keyword_names_of members.now }
        ensures { applicators_from result.members.now result.rank ≡ filter (is_visited true) members.now }
    {
        Applying {
            names,
            members,
            rank: 0,
        }
    }

    /// The next member that applies schemas, as a keyword, and its turn.
    pub(crate) fn next_applicator(&mut self) -> Option<(Turn, Member<'a>)>
        ensures { MatchOption result
            ((applicators_from self.old.members.now self.old.rank ≡ [])
            × (applicators_from self.new.members.now self.new.rank ≡ []))
            (λ m. (applicators_from self.old.members.now self.old.rank
            ≡ keyword_of m.1 ∷ applicators_from self.new.members.now self.new.rank)
            × (m.0 ≡ turn_of m.1.name.now)) }
    {
        while self.rank < self.names.len() {
            let rank = self.rank;
            let which = self.names[rank];
            self.rank = rank + 1;
            if applies(which) {
                let (turn, keyword) = keyword_at(self.members, rank, which)?;
                return Some((turn, keyword));
            }
        }
        None
    }
}

// The member at the rank, as a keyword, and its turn.
#[tactic(auto, using(crate::proofs::Applicators::named_at))]
fn keyword_at<'a>(members: &'a Members, rank: usize, which: Keyword) -> Option<(Turn, Member<'a>)>
    requires { slice_get (keyword_names_of members.now) rank ≡ Some which }
    ensures keyword { option_map (λ m. keyword_of m.1) result ≡ slice_get members.now rank }
    ensures turn { MatchOption result (Unit {0}) (λ m. m.0 ≡ turn_of m.1.name.now) }
{
    let (name, argument) = members.nth(rank)?;
    Some(keyword_in_turn(which, name, argument))
}

/// Whether one of them applies schemas.
pub(crate) fn has_applicator(names: &[Keyword]) -> bool
    ensures { result ≡ has_applicator names.now }
{
    names.iter().any(|which| applies(*which))
}

/// Whether a keyword applies schemas (Core, sections 8.2.3, 10 and 11).
#[tactic(auto, using(crate::proofs::Applicators::applying_is))]
pub(crate) fn applies(which: Keyword) -> bool
    ensures { result ≡ may_apply which }
{
    which.applies()
}

//! The members of a schema, one after another, each as a keyword with its turn (see `turn`).
ghost use Rattle.std.specs.Prelude.{◌≡◌, ◌∷◌, [], List, MatchOption, map};
ghost use Rattle.js_keyword.specs.declared.keyword.Keyword.{Keyword as Which};
ghost use Rattle.js_doc.specs.Seen.{pair_of};
ghost use Rattle.js_eval.specs.code.Standard.{keyword_names_of};

use crate::order::applying::Applying;
use crate::order::keyword::Member;
use crate::order::keyword_in_turn::keyword_in_turn;
use crate::order::turn::Turn;
use js_doc::{Doc, Members, Pairs};
use js_keyword::{Keyword, OtherKeyword};

/// The members that are left, and which keyword of the standard each of them is.
#[derive(Drop)]
pub(crate) struct Every<'a> {
    names: &'a [Keyword],
    pub(crate) left: Pairs<'a>,
    ghost in_step: { names.now ≡ keyword_names_of (map pair_of left) },
}

impl<'a> Every<'a> {
    ghost use Rattle.js_doc.specs.Members.{IsAscending};
    ghost use Rattle.js_eval.specs.Seen.{keyword_of};
    ghost use Rattle.js_eval.specs.code.Turns.{turn_of};

    /// Before the first of the members.
    pub(crate) fn new(names: &'a [Keyword], members: &'a Members) -> Every<'a>
        requires { names.now ≡ keyword_names_of members.now }
        ensures all { map pair_of result.left ≡ members.now }
        ensures ascending { IsAscending members.now }
    {
        Every {
            names,
            left: members.pairs(),
        }
    }

    /// The next member, as a keyword, and its turn.
    #[inline(always)]
    pub(crate) fn next_member(&mut self) -> Option<(Turn, Member<'a>)>
        ensures { MatchOption result ((map pair_of self.old.left ≡ []) × (map pair_of self.new.left ≡ []))
            (λ m. (map pair_of self.old.left ≡ keyword_of m.1 ∷ map pair_of self.new.left)
            × (m.0 ≡ turn_of m.1.name.now)) }
    {
        match self.left.next() {
            Some((name, argument)) => {
                let name = name.as_str();
                let (which, names) = first_name(self.names);
                self.names = names;
                Some(keyword_in_turn(which, name, argument))
            }
            None => None,
        }
    }
}

// The first name and the others.
fn first_name(names: &[Keyword]) -> (Keyword, &[Keyword])
    ensures { (which : Which) (others : List Which) → names.now ≡ which ∷ others
        → (result.0 ≡ which) × (result.1.now ≡ others) }
{
    match names.split_first() {
        Some((first, others)) => (*first, others),
        None => (Keyword::Other(OtherKeyword::Unknown), names), // never: each member has a name
    }
}

/// The members that are left: of all, or of those alone that apply schemas.
#[derive(Drop)]
pub(crate) enum InTurn<'a> {
    Every(Every<'a>),
    Applying(Applying<'a>),
}

impl<'a> InTurn<'a> {
    ghost use Rattle.js_eval.specs.Seen.{keyword_of};
    ghost use Rattle.js_eval.specs.code.KeywordsLeft.{members_left};
    ghost use Rattle.js_eval.specs.code.Turns.{turn_of};

    /// The next member, as a keyword, and its turn.
    #[inline(always)]
    pub(crate) fn next_in_turn(&mut self) -> Option<(Turn, Member<'a>)>
        ensures { MatchOption result ((members_left self.old ≡ []) × (members_left self.new ≡ []))
            (λ m. (members_left self.old ≡ keyword_of m.1 ∷ members_left self.new)
            × (m.0 ≡ turn_of m.1.name.now)) }
    {
        match self {
            InTurn::Every(every) => every.next_member(),
            InTurn::Applying(applying) => applying.next_applicator(),
        }
    }
}

//! Keywords and their turns, by name.
ghost use Rattle.std.specs.Prelude.{◌≡◌};
ghost use Rattle.js_keyword.specs.Keyword.{which_keyword};
ghost use Rattle.js_eval.specs.code.Standard.{turn_by_keyword, turn_by_side};
ghost use Rattle.js_eval.specs.code.Terms.{keyword_of, value_of};
ghost use Rattle.js_eval.specs.code.Turns.{turn_of};

use crate::order::keyword::Member;
use crate::order::turn::Turn;
use js_doc::Doc;
use js_keyword::{Keyword, OtherKeyword};

/// The keyword with this name and argument, given which keyword of the standard it is, and its turn.
#[inline(always)]
#[tactic(auto, using(crate::proofs::Standard::turn_if_named))]
pub(crate) fn keyword_in_turn<'a>(
    which: Keyword,
    name: &'a str,
    argument: &'a Doc,
) -> (Turn, Member<'a>)
    requires { which ≡ which_keyword name.now }
    ensures turn { result.0 ≡ turn_of name.now }
    ensures keyword { keyword_of result.1 ≡ (name.now, value_of argument.now) }
    ensures name { result.1.name.now ≡ name.now }
{
    let turn = turn_by_keyword(which, name);
    let keyword = Member {
        name,
        which,
        argument,
    };
    (turn, keyword)
}

fn turn_by_keyword(which: Keyword, name: &str) -> Turn
    ensures { result ≡ turn_by_keyword which name.now }
{
    match which {
        Keyword::Ref => Turn::First,
        Keyword::DynamicRef => Turn::First,
        Keyword::AllOf => Turn::First,
        Keyword::AnyOf => Turn::First,
        Keyword::OneOf => Turn::Last,
        Keyword::Not => Turn::Last,
        Keyword::If => Turn::First,
        Keyword::Then => Turn::Last,
        Keyword::Else => Turn::Second,
        Keyword::DependentSchemas => Turn::First,
        Keyword::PrefixItems => Turn::Last,
        Keyword::Items => Turn::Last,
        Keyword::Contains => Turn::First,
        Keyword::Properties => Turn::Last,
        Keyword::PatternProperties => Turn::Last,
        Keyword::AdditionalProperties => Turn::First,
        Keyword::PropertyNames => Turn::Last,
        Keyword::UnevaluatedItems => Turn::Last,
        Keyword::UnevaluatedProperties => Turn::Last,
        Keyword::Assertion(_) => turn_by_side(name),
        Keyword::Other(OtherKeyword::Unknown) => turn_by_side(name),
        Keyword::Other(_) => Turn::Never,
    }
}

// By the side of `if` on which the name stands.
fn turn_by_side(name: &str) -> Turn
    ensures { result ≡ turn_by_side name.now }
{
    if name > Keyword::If.name() {
        Turn::Last
    } else {
        Turn::First
    }
}

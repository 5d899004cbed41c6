//! The keywords of a schema that a walk visits, one after another, in the order of their nodes.
ghost use Rattle.std.specs.Prelude.{◌≡◌, ◌++◌, ◌∷◌, [], List, MatchOption, false, filter, true};
ghost use Rattle.js_doc.specs.Members.{IsAscending};
ghost use Rattle.js_eval.specs.Keywords as table;
ghost use Rattle.js_eval.specs.code.KeywordsLeft.{deferred_or, keywords_in, keywords_left, members_left};
ghost use Rattle.js_eval.specs.code.Standard.{keyword_names_of};
ghost use Rattle.js_eval.specs.code.Terms.{entries, keyword_of, value_of};
ghost use Rattle.js_eval.specs.code.Turns.{ever, in_order};
ghost use Rattle.js_eval.specs.Walk.Visited.{is_visited};

use crate::instance::{names_ascend, object_in};
use crate::order::applying::{Applying, has_applicator};
use crate::order::in_turn::{Every, InTurn};
use crate::order::keyword::Member;
use crate::order::turn::{Turn, is_ever};
use js_doc::{Doc, Members};
use js_keyword::Keyword;

/// The keywords of a schema that are still to come.
#[derive(Drop)]
pub(crate) enum Keywords<'a> {
    /// There is none: the schema is `true` or `false`.
    Nothing,
    /// The keywords of an object.
    Of(KeywordCursor<'a>),
}

/// The keywords of an object that are still to come. They ascend by name, except that `else` comes right after `if`.
/// One pass over the members is enough: `else` is deferred until the first name after `if`, and then that keyword is
/// deferred until `else` is out.
#[derive(Drop)]
pub(crate) struct KeywordCursor<'a> {
    pub(crate) is_past_if: bool,
    pub(crate) deferred: Option<Member<'a>>,
    pub(crate) left: InTurn<'a>,
}

impl<'a> Keywords<'a> {
    /// The keywords of a schema that a walk visits. `names`: which keyword of the standard each of its members is.
    pub(crate) fn new(names: &'a [Keyword], schema: &'a Doc, quiet: bool) -> Keywords<'a>
        requires { names.now ≡ keyword_names_of (entries (value_of schema.now)) }
        ensures all { keywords_in result ≡ filter (is_visited quiet) (table.keywords (value_of schema.now)) }
        ensures ascending { IsAscending (entries (value_of schema.now)) }
    {
        match object_in(schema) {
            Some(members) => Keywords::among(names, members, quiet),
            None => Keywords::Nothing,
        }
    }

    /// Whether a keyword of a schema may apply schemas. `names`: which keyword of the standard each of its members is.
    pub(crate) fn may_apply(names: &[Keyword], schema: &Doc) -> bool
        requires { names.now ≡ keyword_names_of (entries (value_of schema.now)) }
        ensures none { result ≡ false → filter (is_visited true) (table.keywords (value_of schema.now)) ≡ [] }
        ensures ascending { IsAscending (entries (value_of schema.now)) }
    {
        match object_in(schema) {
            Some(members) => {
                names_ascend(members);
                has_applicator(names)
            }
            None => false,
        }
    }

    fn among(names: &'a [Keyword], members: &'a Members, quiet: bool) -> Keywords<'a>
        requires { names.now ≡ keyword_names_of members.now }
        ensures all { keywords_in result ≡ in_order (filter (is_visited quiet) members.now) }
        ensures ascending { IsAscending members.now }
    {
        if quiet {
            Keywords::applying(names, members)
        } else {
            Keywords::Of(KeywordCursor::new(InTurn::Every(Every::new(names, members))))
        }
    }

    fn applying(names: &'a [Keyword], members: &'a Members) -> Keywords<'a>
        requires { names.now ≡ keyword_names_of members.now }
        ensures all { keywords_in result ≡ in_order (filter (is_visited true) members.now) }
        ensures ascending { IsAscending members.now }
    {
        names_ascend(members);
        Keywords::Of(KeywordCursor::new(InTurn::Applying(Applying::new(names, members))))
    }

    /// The next keyword. It isn't inlined, to keep its locals out of the recursive function's stack frame.
    #[inline(never)]
    pub(crate) fn next(&mut self) -> Option<Member<'a>>
        ensures { MatchOption result (keywords_in self.old ≡ [])
            (λ k. keywords_in self.old ≡ keyword_of k ∷ keywords_in self.new) }
    {
        match self {
            Keywords::Nothing => None,
            Keywords::Of(cursor) => cursor.next(),
        }
    }
}

impl<'a> KeywordCursor<'a> {
    fn new(left: InTurn<'a>) -> KeywordCursor<'a>
        requires { IsAscending (members_left left) }
        ensures { keywords_left result ≡ in_order (members_left left.entry) }
    {
        KeywordCursor {
            is_past_if: false,
            deferred: None,
            left,
        }
    }

    fn next(&mut self) -> Option<Member<'a>>
        ensures { MatchOption result (keywords_left self.old ≡ [])
            (λ k. keywords_left self.old ≡ keyword_of k ∷ keywords_left self.new) }
    {
        if self.is_past_if {
            self.next_after_if()
        } else {
            self.next_up_to_if()
        }
    }

    fn next_up_to_if(&mut self) -> Option<Member<'a>>
        requires { self.old.is_past_if ≡ false }
        ensures { MatchOption result (keywords_left self.old ≡ [])
            (λ k. keywords_left self.old ≡ keyword_of k ∷ keywords_left self.new) }
    {
        while let Some((turn, keyword)) = self.left.next_in_turn() {
            match turn {
                Turn::Never => {}
                Turn::First => return Some(keyword),
                Turn::Second => self.deferred = deferred_or(self.deferred, keyword),
                Turn::Last => {
                    self.is_past_if = true;
                    return Some(deferred_before(&mut self.deferred, keyword));
                }
            }
        }
        self.is_past_if = true;
        self.next_after_if()
    }

    fn next_after_if(&mut self) -> Option<Member<'a>>
        requires { self.old.is_past_if ≡ true }
        ensures { MatchOption result (keywords_left self.old ≡ [])
            (λ k. keywords_left self.old ≡ keyword_of k ∷ keywords_left self.new) }
    {
        match self.deferred {
            Some(keyword) => {
                self.deferred = None;
                Some(keyword)
            }
            None => next_ever(&mut self.left),
        }
    }
}

// The keyword that is deferred already, or else this one.
fn deferred_or<'a>(deferred: Option<Member<'a>>, keyword: Member<'a>) -> Option<Member<'a>>
    ensures { (others : List table.Member)
        → deferred_or result others ≡ deferred_or deferred.entry (keyword_of keyword.entry ∷ []) }
{
    match deferred {
        Some(deferred) => Some(deferred),
        None => Some(keyword),
    }
}

// Returns the deferred keyword and defers this one in its place; without a deferred one, returns this one.
fn deferred_before<'a>(deferred: &mut Option<Member<'a>>, keyword: Member<'a>) -> Member<'a>
    ensures { (left : List table.Member)
        → deferred_or deferred.old [] ++ keyword_of keyword.entry ∷ left
        ≡ keyword_of result ∷ (deferred_or deferred.new [] ++ left) }
{
    match *deferred {
        Some(before) => {
            *deferred = Some(keyword);
            before
        }
        None => keyword,
    }
}

// The next member that has a node.
fn next_ever<'a>(left: &mut InTurn<'a>) -> Option<Member<'a>>
    ensures { MatchOption result (ever (members_left left.old) ≡ [])
        (λ k. ever (members_left left.old) ≡ keyword_of k ∷ ever (members_left left.new)) }
{
    while let Some((turn, keyword)) = left.next_in_turn() {
        if is_ever(turn) {
            return Some(keyword);
        }
    }
    None
}

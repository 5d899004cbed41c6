//! Values that schemas are applied to, and applications.
ghost use Rattle.std.specs.Prelude.{◌≡◌, [], MatchOption, map};
ghost use Rattle.js_doc.specs.Members.{IsAscending};
ghost use Rattle.js_eval.specs.code.Terms.{entries, instance_of, value_of, values};

use js_bundle::{Place, Step};
use js_doc::{Doc, Members};

/// What a schema is applied to: a value of the instance, or the name of a member, as a string (Core, section 10.3.2.4).
#[derive(Clone, Copy)]
pub(crate) enum Instance<'a> {
    Doc(&'a Doc),
    Name(&'a str),
}

/// An application: a schema applied to a value.
#[derive(Clone, Copy)]
pub(crate) struct Applied<'a> {
    /// The schema's place.
    pub(crate) place: Place,
    /// The schema.
    pub(crate) schema: &'a Doc,
    /// The step from the keyword to the schema.
    pub(crate) step: Step<'a>,
    /// The step from the value that the keyword is evaluated on to the value that the schema is applied to.
    pub(crate) at: Step<'a>,
    /// That value.
    pub(crate) value: Instance<'a>,
}

impl<'a> Instance<'a> {
    /// The value, unless it is the name of a member.
    pub(crate) fn doc(self) -> Option<&'a Doc>
        ensures { MatchOption result (Unit {0}) (λ d. value_of d.now ≡ instance_of self.entry) }
    {
        match self {
            Instance::Doc(doc) => Some(doc),
            Instance::Name(_) => None,
        }
    }

    /// The items, or none if it isn't an array.
    pub(crate) fn array(self) -> &'a [Doc]
        ensures { map value_of result.now ≡ values (instance_of self.entry) }
    {
        match self {
            Instance::Doc(doc) => array_in(doc),
            Instance::Name(_) => &[],
        }
    }

    /// The members, if it is an object.
    pub(crate) fn object(self) -> Option<&'a Members>
        ensures { MatchOption result (entries (instance_of self.entry) ≡ [])
            (λ ms. ms.now ≡ entries (instance_of self.entry)) }
    {
        match self {
            Instance::Doc(doc) => object_in(doc),
            Instance::Name(_) => None,
        }
    }
}

/// The items, or none if it isn't an array.
pub(crate) fn array_in(doc: &Doc) -> &[Doc]
    ensures { map value_of result.now ≡ values (value_of doc.now) }
{
    match doc {
        Doc::List(items) => items.as_slice(),
        _ => &[],
    }
}

/// The members, if it is an object.
pub(crate) fn object_in(doc: &Doc) -> Option<&Members>
    ensures { MatchOption result (entries (value_of doc.now) ≡ []) (λ ms. ms.now ≡ entries (value_of doc.now)) }
{
    match doc {
        Doc::Members(members) => Some(members),
        _ => None,
    }
}

/// Shows the prover that the names of members ascend. It does nothing.
pub(crate) fn names_ascend(members: &Members)
    ensures { IsAscending members.now }
{
    let _ = members.pairs();
}

//! What the applications of a keyword start from.
ghost use Rattle.std.specs.Prelude.{◌≡◌, [], MatchOption};
ghost use Rattle.js_eval.specs.code.Terms.{entries, value_of};

use crate::instance::{Instance, object_in};
use crate::order::keyword::KeywordAt;
use js_bundle::Schemas;
use js_doc::Members;
use std::alloc::Global;

/// A keyword of finished schemas, and the value that it is evaluated on.
#[derive(Drop)]
pub(crate) struct CursorStart<'s, 'a> {
    pub alloc: Global,
    pub schemas: &'a Schemas,
    pub at: &'s KeywordAt<'a>,
    pub value: Instance<'a>,
}

impl<'a> CursorStart<'_, 'a> {
    /// The members of the keyword's argument, if it is an object.
    pub fn argument_members(&self) -> Option<&'a Members>
        ensures { MatchOption result (entries (value_of self.now.at.now.keyword.argument.now) ≡ [])
            (λ ms. ms.now ≡ entries (value_of self.now.at.now.keyword.argument.now)) }
    {
        let at = self.at;
        let keyword = at.keyword;
        object_in(keyword.argument)
    }
}

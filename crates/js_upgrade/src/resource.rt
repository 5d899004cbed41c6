//! What a URI without a fragment names.
ghost use Rattle.std.specs.Prelude.{◌≡◌};
ghost use Rattle.js_doc.specs.Seen.{value_of};
ghost use Rattle.js_upgrade.specs.code.UsualRoot.{DefinesThose, is_usual_root};

use crate::dialect::Dialect;
use js_doc::{Doc, Members};

/// A resource: its URI, the dialect of what stands around it, its root, and the copies among the root's definitions.
#[derive(Drop)]
pub struct Resource<'d> {
    pub uri: String,
    pub dialect: Dialect,
    pub root: &'d Doc,
    pub copies: Option<&'d Members>,
    /// Whether references to its definitions are usual.
    pub usual: bool,
    /// Its definitions, so that they aren't looked up for each reference.
    pub definitions: Option<&'d Members>,
    ghost defined: { DefinesThose definitions dialect (value_of root.now) },
    ghost usual_by: { usual ≡ is_usual_root dialect (value_of root.now) },
}

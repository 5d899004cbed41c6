//! The walk: evaluates a value against the schema at a place. It evaluates each application once, and reports each node
//! of the result when it opens and when it closes.

mod dynamic_scope;
mod fault;
mod keeping;
mod leaf;
mod limits;
mod path;
mod pointer_text;
mod recursion;
mod reporter;
mod start;
mod steps;
mod tally;
mod trail;
mod unseen;
mod walk_state;
mod world;

pub use fault::WalkFault;
pub use limits::Limits;
pub(crate) use path::{Path, ScopedPath};
pub(crate) use pointer_text::{HeldText, PointerText, UnseenText};
pub(crate) use reporter::Reporter;
pub(crate) use start::walk_from;
pub(crate) use tally::{KeywordVerdict, Others, Tally};
pub(crate) use trail::Trail;
pub(crate) use world::World;

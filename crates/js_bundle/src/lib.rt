//! Schema documents with their URIs: where schemas stand in them, what identifies them, what references lead to,
//! and what is refused.
//!
//! A *place* is a position at which a schema stands. `scan` finds the places of documents, in order; `index` holds the
//! tables by which they are found again: by URI, position and name, by what holds them, by resource. `check` refuses or
//! keeps documents, and `finished` is what finished schemas answer.
#![tactic(auto)]

mod bundle;
mod check;
mod document;
mod finished;
mod index;
mod keyword;
pub mod laws;
mod place;
pub mod place_laws;
mod refusal;
mod scan;
mod schemas;
pub mod sharing_laws;
pub mod uri;

pub use bundle::Bundle;
pub use document::Document;
pub use place::{Place, Step};
pub use refusal::{EntryFault, Refusal, RefusalKind};
pub use schemas::Schemas;

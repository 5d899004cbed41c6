//! What threads may share. Each law is the contract of a function that does nothing.
ghost use Rattle.std.specs.Thread.{IsSend, IsSync};
ghost use Rattle.js_bundle.specs.contracts.schemas.Schemas as Finished;

use crate::check::checked_site::CheckedSite;
use crate::check::references::References;
use crate::document::Document;
use crate::index::Index;
use crate::index::edges::Edges;
use crate::index::keyword_table::KeywordTable;
use crate::index::resource_table::Resources;
use crate::index::stored_location::StoredLocation;
use crate::schemas::Schemas;
use js_assert::sharing_laws::{assertions_cross, patterns_cross};
use js_doc::Text;
use std::sync::Arc;

/// Schemas may be sent to another thread, and shared by several.
pub fn schemas_cross()
    ensures send { IsSend Finished.the_row }
    ensures sync { IsSync Finished.the_row }
{
    assertions_cross();
    patterns_cross();
    crosses::<Vec<Document>>();
    crosses::<Vec<CheckedSite>>();
    crosses::<Text>();
    crosses::<Vec<usize>>();
    crosses::<KeywordTable>();
    crosses::<References>();
    crosses::<Vec<StoredLocation>>();
    crosses::<Index>();
    crosses::<Resources>();
    crosses::<Vec<Edges>>();
}

/// An `Arc` of finished schemas may be sent to another thread and shared by several.
pub fn handles_cross() {
    schemas_cross();
    crosses::<Arc<Schemas>>();
}

// What is asked, as a fact.
fn crosses<T: Send + Sync>()
    ensures send { IsSend T.row }
    ensures sync { IsSync T.row }
{}

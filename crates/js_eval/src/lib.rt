//! Evaluation of JSON Schema (JSON Schema Core 2020-12): what each keyword applies, verdicts, evaluated parts, notes,
//! and the result tree.
//!
//! A *place* is a schema's position in the finished documents of `js_bundle`. An *application* is a subschema that a
//! keyword applies to a value; a keyword *asks for* its applications one after another. A *walk* evaluates a value
//! against the schema at a place, and reports each node of the result tree when it opens and, after the nodes below it,
//! when it closes. These reports are the *events*.
//!
//! `evaluation` has the recursion, over any `World` and any `Reporter`; `order` the keywords of a schema and their
//! order; `keywords` what each applies, when it passes and its note; `finished_world` the `World` of finished schemas;
//! `public_walks` the public calls.
#![tactic(auto)]

mod cursors;
mod evaluation;
mod finished_world;
mod instance;
mod keywords;
pub mod laws;
mod marks;
mod order;
mod public_walks;
mod reporters;
mod schema;
mod schema_lookup;
mod searching;

pub use evaluation::{Limits, WalkFault};
pub use public_walks::{
    verdict, verdict_within, walk, walk_into, walk_into_within, walk_noted_rows,
    walk_noted_rows_within, walk_rows, walk_rows_within,
};

//! Results of JSON Schema (JSON Schema Core 2020-12, section 12): as rows and as trees; pruning, condensing to a normal
//! form, merging, and the five output formats.
//!
//! A node of a result tree stands for one application of a schema, or for one of its keywords. It holds an output unit:
//! a verdict, three locations, and a *note*, which is an error, an annotation or nothing. A unit is *noted* if it has
//! an error or an annotation.
//!
//! The program has a result as `rows`, and `formats` writes them. `collecting` and `reducing` are for whole trees: they
//! receive a result's nodes, and prune, condense and merge trees and flat forms. Of these the program only merges.
#![tactic(auto)]

mod collecting;
mod formats;
pub mod laws;
mod note;
mod reducing;
mod rows;
pub mod rows_laws;
mod tree;
mod unit;

pub use collecting::boxed::Boxed;
pub use collecting::collector::{Collector, Head};
pub use collecting::flat::{Flat, Row};
pub use collecting::verdict::Verdict;
pub use formats::Format;
pub use formats::basic::put_basic;
pub use formats::documents::{form, tree_doc};
pub use formats::flag::put_flag;
pub use formats::flat_documents::flat_doc;
pub use formats::flat_text::put_flat;
pub use formats::merged::put_tree;
pub use formats::verbose::put_verbose;
pub use note::{Indexes, Names, Note};
pub use reducing::compacting::{flat_condense, flat_prune};
pub use reducing::condensing::{condense, is_normal};
pub use reducing::merging::{is_merged, merge_condense};
pub use reducing::moves::{Move, NoMove, Rule, apply, replay};
pub use reducing::noted_rows::flat_units;
pub use reducing::noted_units::units;
pub use reducing::pruning::prune;
pub use rows::keeping::kept_rows;
pub use rows::locations::Locations;
pub use rows::merging::{is_surely_merged, merged_tree};
pub use rows::relative_rows::{RelativeRow, RelativeRows};
pub use tree::{Tree, Trees};
pub use unit::Unit;

//! Bytes in, bytes out: schema documents and an instance as texts, the output as bytes.
//!
//! What a caller needs of the crates below stands here too: documents that are read once and checked many times take
//! `read`, `Schemas::entry` and `verdict`, and no output is written.
#![tactic(auto)]

mod documents;
mod entry;
mod fault;
mod fault_line;
mod finished;
mod input;
mod judging;
pub mod laws;
mod pair_of_texts;
mod places;
mod prepared;
mod running;
mod sink;
mod source;
mod suite;
mod suite_judging;
mod suite_lines;
mod suite_text;
mod text;
mod values;
mod writing;

pub use documents::{add_document_text, finish_bundle, unread_document};
pub use fault::{Fault, SuiteFault};
pub use fault_line::refusal_line;
pub use finished::{judge, judge_within, run_finished, run_finished_within};
pub use input::read_all;
pub use js_bundle::{Bundle, EntryFault, Place, Refusal, RefusalKind, Schemas};
pub use js_doc::{Doc, ReadFault, read};
pub use js_eval::{Limits, WalkFault, verdict, verdict_within};
pub use js_tree::Format;
pub use pair_of_texts::run_pair;
pub use places::{list_places, run_places};
pub use running::{run, run_text};
pub use sink::Sink;
pub use source::Source;
pub use suite::{run_suite, run_suite_text};
pub use suite_lines::Counts;
pub use values::{push_value_line, value_line};

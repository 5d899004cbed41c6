//! The keywords of JSON Schema that judge a value by themselves (Validation, section 6), and patterns.
#![tactic(auto)]

mod any_type;
mod argument_shape;
mod arrays;
mod assertion;
mod choices;
mod fault;
mod instance_type;
pub mod laws;
mod missing;
mod numbers;
mod objects;
mod pattern;
mod searcher;
pub mod sharing_laws;
mod strings;
mod text_parts;
mod unique;

pub use assertion::Assertion;
pub use fault::KeywordFault;
pub use pattern::{Pattern, PatternFault};
pub use searcher::Searcher;

//! Numbers of JSON as people write them, among the integers from -2^63 to 2^64 - 1.
#![tactic(auto)]

mod bound;
mod change;
mod decimal;
mod error;
mod instance;
pub mod laws;
mod limit;
mod members;
mod number_keyword;
mod numerator;
mod rewriting;
mod rounding;
mod schema;
mod schema_dialect;

pub use bound::Bound;
pub use decimal::Decimal;
pub use error::TextError;
pub use instance::exact_instance;
pub use limit::Limit;
pub use schema::exact_schema;

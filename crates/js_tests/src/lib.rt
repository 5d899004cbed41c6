//! Tests of the library crates' calls, and nothing else: each crate that they call is proved once, without tests.
//!
//! `hostile/run single` has one test, `calls::by_itself`, make call after call, and compares the answers with worked
//! examples and with the reference. `usage` is the example of `docs/USING.md`.
#![tactic(auto)]

mod words;

pub use words::word_at;

#[cfg(test)]
mod calls;
#[cfg(test)]
mod usage;

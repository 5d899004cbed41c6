//! JSON values whose numbers are integers in plain digits, read from bytes and written to text; JSON Pointers, and
//! where in a text the values at pointers stand.
#![tactic(auto)]

mod bytes_out;
mod conversion;
mod copying;
mod doc;
mod equality;
mod fragment;
mod from_tokens;
mod items;
pub mod laws;
mod lookup;
mod members;
mod memory;
mod names;
mod order;
mod pairs;
mod places;
mod pointer;
mod pointer_reading;
mod positions;
mod printing;
mod quoting;
mod reading;
mod runs;
mod string;
mod token;
mod whole;

pub use bytes_out::{Out, Stopped};
pub use doc::Doc;
pub use items::Items;
pub use members::Members;
pub use memory::Memory;
pub use names::name_order;
pub use pairs::Pairs;
pub use pointer::Pointer;
pub use pointer_reading::PointerFault;
pub use positions::{Position, Spot, Spots, line_and_column, position_of, positions_of};
pub use printing::{put_number, put_text, text};
pub use quoting::{push_string, put_escaped, put_quoted, put_string};
pub use reading::{ReadFault, from_value, read};
pub use runs::stand_as_they_are;
pub use string::{Text, character_count};
pub use token::{Notation, Token, is_plain_token, push_fragment_token, push_token, push_token_in};
pub use whole::Whole;

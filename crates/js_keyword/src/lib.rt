//! The keywords of JSON Schema 2020-12: their names, what they do, and what their arguments are.
#![tactic(auto)]

mod argument_form;
mod assertion_keyword;
mod keyword;
mod other_keyword;

pub use argument_form::{ArgumentForm, Holding};
pub use assertion_keyword::{
    AnyTypeKeyword, ArrayKeyword, AssertionKeyword, NumberKeyword, ObjectKeyword, StringKeyword,
};
pub use keyword::Keyword;
pub use other_keyword::OtherKeyword;

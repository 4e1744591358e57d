//! Reading tokens by the grammar: a cursor over them. `specs/Parsers.antt` has parsers as functions.
#![tactic(auto)]

mod cursor;
mod error;

pub use cursor::Cursor;
pub use error::ReadError;

//! What the front end speaks of: tokens with their places, and the tables of keywords and punctuators.
#![tactic(auto)]

mod keyword;
pub mod marks;
mod token;
pub mod words;

pub use keyword::keyword_number;
pub use token::{Token, TokenKind, Tokens};

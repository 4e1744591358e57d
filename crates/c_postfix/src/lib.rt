//! Primary and postfix expressions (ISO/IEC 9899:1999, 6.5.1, 6.5.2), read over two functions that read the expressions inside.
#![tactic(auto)]

mod inner;
mod nodes;
mod postfix;
mod primary;

pub use inner::{Inner, Postfix};
pub use primary::{character, name, number, text};

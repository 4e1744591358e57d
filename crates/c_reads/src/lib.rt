//! What it means that a parser reads the grammar exactly, and what the proof of one needs, tried on primary and postfix expressions
//! over parsers of the expressions that they hold. `specs/Exact.antt` says what it means that one reads a symbol of the grammar and
//! no more; the parsers themselves, as functions, stand in the crate of the cursor.
#![tactic(auto)]

mod laws;

pub use laws::postfix_is_exact;

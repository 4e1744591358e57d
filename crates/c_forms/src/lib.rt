//! The forms of expressions over operands that have types: which types they may have, what is converted, and what the
//! whole has (ISO/IEC 9899:1999, 6.3, 6.5 and 6.6). Faults stand at the operator or name.
#![tactic(auto)]

mod access;
mod arithmetic;
mod assignments;
mod calls;
mod choices;
mod comparisons;
mod constants;
mod conversions;
mod integers;
mod nodes;
mod pointers;
mod prefixes;
mod values;

pub use access::{address_of, deref, member, record_of, subscript};
pub use arithmetic::binary;
pub use assignments::{assign, bump, modifiable, update};
pub use calls::{argument, call, callee, counted};
pub use choices::{both, choose, comma, condition, either};
pub use comparisons::compare;
pub use constants::{Constant, constant_of, is_null};
pub use conversions::{cast, convert, null};
pub use integers::{promote, promoted, to_int, usual};
pub use nodes::node;
pub use prefixes::{negate, plus, size_of, unary};
pub use values::{is_lvalue, value};

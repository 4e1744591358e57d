//! The integer types of C and their operators.
#![tactic(auto)]

mod binary;
mod comparison;
mod conversion;
mod fitting;
mod int_type;
mod operator;
mod shift;
mod unary;

pub use binary::apply;
pub use comparison::compare;
pub use conversion::{convert, wrap};
pub use int_type::{IntType, greatest, is_inside, is_signed, least, modulus, width};
pub use operator::{Cmp, Op, UnOp, Undefined};
pub use shift::{is_count, over_power, times_power};
pub use unary::apply_unary;

//! The operators of `i128` as operators over all integers, each in a function of its own, and what numbers need to
//! know of products, quotients, remainders and bits.
#![tactic(auto)]

mod arithmetic;
mod bits;

pub use arithmetic::{difference, is_same, is_zero, negation, product, quotient, remainder, sum};
pub use bits::{bitwise_and, bitwise_or, bitwise_xor, power_of_two, shifted_right};

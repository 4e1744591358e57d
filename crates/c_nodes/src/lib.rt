//! Small functions that make the nodes of syntax trees.
#![tactic(auto)]

mod declarators;
mod expressions;
mod initialisers;
mod statements;

pub use declarators::{absent, declarator, named, nested, type_name};
pub use expressions::{
    address_of, arrow, assign, binary, both, bump, call, cast, character, choose, comma, compare,
    deref, either, index, member, name, negate, number, plus, size_of, size_of_name, text, unary,
};
pub use initialisers::{braced, declaration, one_value};
pub use statements::{
    break_out, case, compound, default, do_while, first_declaration, first_expression,
    first_nothing, for_loop, give_back, go_on, if_else, plain, statement, switch, while_loop,
};

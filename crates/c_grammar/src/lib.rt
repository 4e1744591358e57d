//! What a file of C is: which tokens make a file, and its tree. The definitions stand in `specs/`, and what is proved of them
//! is promised by functions without a body.
#![tactic(auto)]

mod laws;

pub use laws::{
    bad_tokens_are_no_file, beginnings_are_runs, first_bad_is_unique, fronts_begin,
    limits_are_passed_once, numbers_are_those_of_the_tables, runs_are_joined, trees_are_unique,
};

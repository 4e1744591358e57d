//! Tests of the front end as a whole: expressions with the types, conversions and sites that they get, types with their sizes and
//! likeness, the steps that statements become, programs that do not fit, and how deep steps and objects may stand inside one another.
//! The tables come from a second implementation.
#![tactic(auto)]

#[cfg(test)]
mod core_words;
#[cfg(test)]
mod deep_shapes;
#[cfg(test)]
mod deep_steps;
#[cfg(test)]
mod expression_rows;
#[cfg(test)]
mod expressions;
#[cfg(test)]
mod fitting;
#[cfg(test)]
mod programs;
#[cfg(test)]
mod steps;
#[cfg(test)]
mod type_rows;
#[cfg(test)]
mod typed_words;
#[cfg(test)]
mod types;

//! What no contract says of the integers of C, of intervals and of difference-bound matrices: rows of values from outside.
#![tactic(auto)]

#[cfg(test)]
mod boundaries;
#[cfg(test)]
mod boundary_rows;
#[cfg(test)]
mod forms;
#[cfg(test)]
mod incremental;
#[cfg(test)]
mod matrices;
#[cfg(test)]
mod operators;
#[cfg(test)]
mod words;

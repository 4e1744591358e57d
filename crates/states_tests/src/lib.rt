//! States of the analysis and what steps make of them, against tables that another implementation printed.
#![tactic(auto)]

#[cfg(test)]
mod commands;
#[cfg(test)]
mod fact_lines;
#[cfg(test)]
mod running;
#[cfg(test)]
mod running_table;
#[cfg(test)]
mod shown;
#[cfg(test)]
mod state_table;
#[cfg(test)]
mod states;
#[cfg(test)]
mod step_lines;
#[cfg(test)]
mod step_table;
#[cfg(test)]
mod steps;

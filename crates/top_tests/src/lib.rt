//! What no contract says of the command line, the report, the sources of trials, and the call that `main` makes.
#![tactic(auto)]

#[cfg(test)]
mod alone;
#[cfg(test)]
mod command_lines;
#[cfg(test)]
mod fault_lines;
#[cfg(test)]
mod reports;
#[cfg(test)]
mod sources;

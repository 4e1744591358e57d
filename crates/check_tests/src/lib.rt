//! What no contract says of checks over a database: worked rows, images, crashes and threads.
#![tactic(auto)]

#[cfg(test)]
mod calls;
#[cfg(test)]
mod commands;
#[cfg(test)]
mod databases;
#[cfg(test)]
mod texts;

//! Tests of disks, journals, leases and tables: the bytes of the format, each case of opening, a crash at each call, and a
//! work that goes on from what any crash leaves.
#![tactic(auto)]

#[cfg(test)]
mod crashes;
#[cfg(test)]
mod disks;
#[cfg(test)]
mod files;
#[cfg(test)]
mod finished;
#[cfg(test)]
mod leases;
#[cfg(test)]
mod rows;
mod steps;
mod whole;

pub use steps::Steps;
pub use whole::{NotAdded, append_all, append_one, open_whole};

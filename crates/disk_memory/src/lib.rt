//! Disks in memory, which keep each call and so tell what a crash at any moment may leave. One form fails when it is told
//! to, the other never.
#![tactic(auto)]

mod disks;
mod filling;
mod images;
mod medium;
mod memory_disk;
mod named;
mod sure_disk;

pub use disks::{MemoryDisks, SureDisks};
pub use memory_disk::MemoryDisk;
pub use sure_disk::SureDisk;

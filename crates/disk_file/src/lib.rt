//! The files, streams, disks and the clock of the system, as the traits of `sv_outside` ask for them. They tell nothing of
//! content; what they promise is when a failure is counted.
#![tactic(auto)]

mod host_clock;
mod host_disk;
mod host_disks;
mod host_file;
mod host_sink;
mod host_sources;
mod medium;

pub use host_clock::HostClock;
pub use host_disk::HostDisk;
pub use host_disks::HostDisks;
pub use host_sink::HostSink;
pub use host_sources::HostSources;

//! What a program reads from and writes to: sources of bytes, sinks of bytes and disks, each with a
//! count of its faults.
//!
//! Each may tell the bytes that it has, and always tells how many faults it has met. `Failed` comes
//! just from the calls in which that count rose. The forms in memory tell all; those over std's
//! readers, writers and files tell the count alone.
//!
//! A disk keeps bytes by their places, and has moments:
//!
//! ```text
//! moment  0 -- write --> 1 -- write --> 2 -- sync --> 3
//! a stop  |              |              |             |
//! leaves  the bytes      any bytes      any bytes     the bytes,
//!         of then        in its range   in both       both writes in them
//! ```
//!
//! What a stop at a moment may leave, told once, stays told: no later call takes it back.
#![tactic(auto)]

mod adapters;
mod crash;
mod device;
mod device_disk;
mod disk;
mod failed;
mod file_disk;
mod key;
mod made;
mod memory;
mod memory_device;
mod memory_disk;
mod ours;
mod reading;
mod schedule;
mod showing;
mod sink;
mod source;

pub use adapters::{StdSink, StdSource};
pub use device::Device;
pub use device_disk::DeviceDisk;
pub use disk::{Disk, calls_keep_to_their_time};
pub use failed::Failed;
pub use file_disk::FileDisk;
pub use key::Key;
pub use memory::{MemorySink, MemorySource};
pub use memory_device::MemoryDevice;
pub use memory_disk::MemoryDisk;
pub use showing::Showing;
pub use sink::Sink;
pub use source::Source;

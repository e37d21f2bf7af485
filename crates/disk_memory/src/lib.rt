//! A disk in memory that writes through: a crash leaves just the files that it shows.
//!
//! Promise: `MemoryDisk` meets each clause of `Disk` and is honest always. So these clauses do not contradict each other,
//! and there is a disk of which they say something.
#![tactic(auto)]

mod files;
mod memory_disk;

pub use memory_disk::MemoryDisk;

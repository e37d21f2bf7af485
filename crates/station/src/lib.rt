//! A station opened as a store, for every kind of base, and one function that runs a command on it.
//!
//! The contract for the commands: the link file is read as the disk shows it, at most a MiB, and never before its lock
//! is held. `run_command` turns each promise of a command about a store into one about the disk.
//!
//! Begin with `opening` (the trait of a kind of station) and `running`. They use `locks` (the locks of a station) and
//! `paths` (the own name in paths). `reading` and `links` read the link file; `progress` has progress while a base file
//! is read. `before` is what a program does with the store before the command. `lending` lends the disk of a store to a
//! job. `packets` opens the packet files of `toss`, `packet_reader` reads them, `held_bytes` are those in memory.
#![tactic(auto)]

mod before;
mod held_bytes;
mod lending;
mod links;
mod locks;
mod opening;
mod packet_reader;
mod packets;
mod paths;
mod progress;
mod reading;
mod running;

pub use before::{BeforeCommand, Nothing, Unread};
pub use held_bytes::HeldBytes;
pub use lending::{DiskJob, LendStation, OwnPaths};
pub use links::{links_held, lock_and_read_links, lock_both, lock_links, take_lock};
pub use locks::Locks;
pub use opening::{OpenStation, Opened, Stopped, lock_and_open};
pub use packet_reader::PacketSource;
pub use packets::{PacketsOnDisk, packets_on_disk};
pub use paths::system_name;
pub use progress::Followed;
pub use running::{Ended, run_command};

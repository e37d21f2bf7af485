//! Sessions of two stations on an honest disk. Nothing is assumed of the disk: it is the one of disk_memory.
//!
//! Promise: at one station a message is posted and scanned, its packet is tossed at the other, on the same disk, and that
//! one is scanned too. If the session ends well, its commands are steps of theorem 5, at stations that meet the premises of
//! that theorem, also if a power cut ends the first scan anywhere. In the end nothing waits, so the message is at both
//! stations once each packet came.
//!
//! Begin with `kinds`: a station with a base folder and one with a base file, in both orders. `session` has the commands for
//! any kinds. `in_memory` has locks and lists of earlier packets: a stopped scan left one.
#![tactic(auto)]

mod commands;
mod in_memory;
mod judged;
mod kinds;
mod session;
#[cfg(test)]
mod tests;

pub use commands::{put_out, run_on};
pub use in_memory::{MemoryLock, NoneStaged, OneStaged, Quiet};
pub use judged::judge;
pub use kinds::{Files, file_to_folder, folder_to_file};
pub use session::{Letter, Sent, begin, post_on, receive, scan_on, send, toss_on};

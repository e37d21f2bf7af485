//! The packets of `toss` and `scan` on the files of the system: those that are read, those that a scan stages, and the note of
//! the folder that has them. The listed packets of earlier scans are noted unchanged (`remember`, `copies_of`). All else is
//! proved to be safe and to end, and no more. Begin with `scan_files`, the files of the system for a scan.
#![tactic(auto)]

mod expecting;
mod left_files;
mod outbound_note;
mod scan_files;
mod streams;

pub use expecting::expected_keys;
pub use left_files::LeftFiles;
pub use outbound_note::note_outbound;
pub use scan_files::{ScanEnd, ScanFiles};
pub use streams::{PacketInput, PacketStreams, Tossing};

//! Nodelists (FTS-5000) and their checksum. Bytes are one nodelist at most, or have one first fault (`one_nodelist`).
//! The bytes that `write` sent of a nodelist are read as that nodelist (`written_nodelist_read_back`). `find` gives the
//! first line with an address, which follows from the lines before. Begin with `nodelist`, then `line`, `place` (zone
//! and net) and `hub`.
#![tactic(auto)]

mod crc;
mod crc_table;
mod cutting;
mod fault;
mod hub;
mod keyword;
mod laws;
mod line;
mod nodelist;
mod place;
mod reading;
mod stated;
mod writing;

pub use crc::crc16;
pub use fault::NodeFault;
pub use keyword::Keyword;
pub use laws::{one_nodelist, written_nodelist_read_back};
pub use line::Line;
pub use nodelist::Nodelist;
pub use stated::{CrcLine, crc_line};

//! How a command of `echonet` ends: faults, statuses and printed lines. It also has the words of the command line, and
//! reads link files and nodelists. A fault has one status. If standard output failed, the answer says so, and a
//! beginning of the lines was written. Begin with `fault`, `status` and `printing`.
#![tactic(auto)]

mod fault;
mod inputs;
mod limits;
mod locked;
mod options;
mod packet_names;
mod printing;
mod progress;
mod shown;
mod status;

pub use fault::Fault;
pub use inputs::{link_files, nodelist_given};
pub use limits::{LIMITS, capped_limits};
pub use locked::FileLock;
pub use options::{parse_address, parse_number, parse_serial, parse_stamp};
pub use packet_names::{PacketName, StreamPackets};
pub use printing::{flush_piece, print_rest};
pub use progress::MessageProgress;
pub use status::{Status, ended};

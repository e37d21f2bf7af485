//! Files that are written whole: a crash leaves the old file or the new one, and packets together with a commit. Begin
//! with `replacing` (a file), then `outgoing`, `staged`, `appending` and `naming` (packets).
#![tactic(auto)]

mod appending;
mod dropping;
mod filling;
mod finishing;
mod keeping;
mod listing;
mod naming;
mod outgoing;
mod paths;
mod placing_error;
mod replacing;
mod staged;
mod staging;
mod trying;

pub use appending::{Pieces, append_each, append_piece, sync_packets};
pub use dropping::drop_staging;
pub use finishing::{Left, finish_stopped};
pub use keeping::{KeptRange, replace_around};
pub use listing::{ListStaged, StagedPacket};
pub use naming::{name_packet, name_packets};
pub use outgoing::Outgoing;
pub use paths::staging_path;
pub use placing_error::PlacingError;
pub use replacing::replace_file;
pub use staged::make_packets;
pub use staging::{fill_file, stage_file};
pub use trying::try_link;

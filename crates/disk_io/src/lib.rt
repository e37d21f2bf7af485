//! Bytes in and out: devices that count their failures, and the trait `Disk` of files that a crash may cut short.
//! Bytes that are not synced may be torn anywhere; a path that is not synced may be lost. Begin with `source` and
//! `sink` for devices, with `disk` for files.
#![tactic(auto)]

mod ahead;
mod buffered;
mod disk;
mod disk_error;
mod failure;
mod fixed;
mod folder;
mod part;
mod sink;
mod source;
mod synced;
mod trial;
mod watched;
mod whole;

pub use buffered::Buffered;
pub use disk::Disk;
pub use disk_error::DiskError;
pub use failure::Failure;
pub use fixed::{Broken, are_bytes, read_fixed};
pub use folder::{parent_folder, sync_parent_folder};
pub use part::{fill_with_part, read_part};
pub use sink::{Sink, send};
pub use source::{Source, fill, fill_buffer};
pub use synced::write_synced;
pub use trial::Trial;
pub use watched::Watched;
pub use whole::read_file;

//! A base folder as a store: a command reads and writes only what it handles. A message is found exactly if one has
//! the key, whatever the digests are. A crash leaves the base that was committed before, or the one held. Begin with
//! `folder`, `reading` and `folder_store`.
#![tactic(auto)]

mod adding;
mod alone;
mod extent;
mod finding;
mod folder;
mod folder_store;
mod front;
mod laws;
mod leaving;
mod owning;
mod purging;
mod read_ahead;
mod reading;
mod sought;
mod vouching;
mod waiting;

pub use alone::{bytes_alone, read_alone};
pub use extent::{Extent, read_at, stored_at};
pub use folder::Folder;
pub use folder_store::FolderStore;
pub use laws::one_message_more;
pub use read_ahead::{Buffers, ReadAhead};
pub use sought::{Id, Sought, is_stored};

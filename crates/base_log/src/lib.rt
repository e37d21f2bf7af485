//! The files of a base folder: messages and keys that only grow, and a log of commits. Whatever a crash leaves, the
//! folder holds the bytes from before a commit or from after it. A commit counts once its record's gate is open (1). A
//! closed gate (any other byte) follows the last record, and is synced before more is written. Begin with `log`,
//! `committing` and `opening`.
#![tactic(auto)]

mod anew;
mod committing;
mod folder_error;
mod judging;
mod log;
mod making;
mod names;
mod opening;
mod removing;
mod staging;

pub use anew::stage_anew;
pub use committing::commit;
pub use folder_error::FolderError;
pub use judging::{file_len, judge, read_log};
pub use log::{CommitRecord, End, FolderIdentity, Log};
pub use names::Names;
pub use opening::open;
pub use removing::remove_files;
pub use staging::{GrowingFile, stage_bytes, stage_nothing};

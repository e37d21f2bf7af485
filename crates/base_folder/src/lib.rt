//! A base folder for the commands: judged, opened and claimed, read message by message, and filled with the messages
//! of another base. A folder is a base or has one fault, reported like that of a base file. Reading changes nothing;
//! all is read again if a second read of the log does not confirm the first. Begin with `opening` and `looking`.
#![tactic(auto)]

mod as_file;
mod distinct;
mod fetching;
mod fill_error;
mod filling;
mod judging;
mod laws;
mod looking;
mod open_error;
mod opening;
mod owning;
mod readers;
mod reading;
mod send_error;
mod source;

pub use as_file::{base_file_bytes, send_file};
pub use distinct::Distinct;
pub use fetching::fetch_message;
pub use fill_error::FillError;
pub use filling::fill;
pub use judging::log_end;
pub use laws::an_empty_folder_is_an_empty_base;
pub use looking::{LookedFolder, look};
pub use open_error::OpenError;
pub use opening::{open_base, open_own};
pub use owning::{judge_owner, system_address, system_number};
pub use readers::{BaseReader, FolderReader, read_folder};
pub use reading::{ReadingProgress, start_number};
pub use send_error::SendError;
pub use source::MessageSource;

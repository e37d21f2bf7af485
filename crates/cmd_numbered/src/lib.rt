//! Messages of a base for the readers of the field. They become numbered files of a folder, each a stored message
//! (FTS-0001), or are added to a JAM base. A packet of scanned messages can be made again. Just the messages asked for
//! are exported, in order. Begin with `numbering`, `adding` and `resending`.
#![tactic(auto)]

mod adding;
mod finding;
mod folder;
mod jam_export_error;
mod names;
mod numbering;
mod resending;
mod telling;

pub use adding::{Adding, JamBase, JamEnd, JamExport, export_jam};
pub use finding::{Answered, PostedWords, find_answered, is_posted, own_serial};
pub use folder::{LastFile, MessageFile, MessageFolder};
pub use jam_export_error::JamExportError;
pub use names::{is_left, stored_number};
pub use numbering::{ExportError, Exported, export_files};
pub use resending::resend;
pub use telling::{refuse_message, tell_added, tell_cuts, tell_exported, tell_refused};

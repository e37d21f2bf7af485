//! The base of a station on the files of the system: which BASE is a folder, its messages, and the files on which a base is
//! replaced. A base of either kind is one source of messages (`EitherBase`). The rest is proved to be safe and to end, and
//! no more. Begin with `messages`, which opens a base.
#![tactic(auto)]

mod base_files;
mod folders;
mod hard_links;
mod messages;

pub use base_files::{BASE_START, BaseFiles, system_error, target_staging};
pub use folders::{drawn_key, flush_name, hash_state, is_folder, is_strange, is_unused};
pub use hard_links::break_hard_links;
pub use messages::{
    BaseMessages, EitherBase, Messages, check_base, load_file, messages_fault, open_base,
    open_folder,
};

//! Link files: the address and name of a system, its areas and their links. Bytes are one link file or have one fault.
//! A link file that was read has its system in range, and each area and each link once. Begin with `link_file`.
#![tactic(auto)]

mod fault;
mod laws;
mod link_file;

pub use fault::LinkFault;
pub use laws::{link_file_law, one_link_file_or_fault};
pub use link_file::{LinkFile, has_control_byte, is_skipped, split_line};

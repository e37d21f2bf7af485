//! Exports messages of a base in the forms that other programs read: mailbox and JSON. Each function is safe and ends;
//! the forms are tested (export.cases). A message has a count of the U+FFFD that replace characters that its charset
//! does not have. Begin with `form`.
#![tactic(auto)]

mod body;
mod form;
mod header;
mod json_line;
mod label;
mod lists;
mod mail;
mod members;

pub use form::{Form, push_message};
pub use json_line::MessageState;
pub use label::without_zeros;

//! What the commands of `echonet` print, as lines that are added to a text. Of the lines of `show` and `check` a call that
//! ends well added just those that the definitions in specs/ give, at the end; other lines are tested. One that lacked
//! memory may have added a part. Begin with `show_text` (a packet) and `said` (the parts of a text).
#![tactic(auto)]

mod base_text;
mod list_form;
mod nodelist_text;
mod picture_text;
mod said;
mod show_text;
mod verdict_text;

pub use base_text::push_base_total;
pub use list_form::{ListForm, push_listed};
pub use nodelist_text::{push_crc, push_entry, push_found, push_list_total};
pub use picture_text::push_picture;
pub use said::push_echo;
pub use show_text::{push_end, push_fields, push_header, push_text};
pub use verdict_text::{push_absences, push_verdict};

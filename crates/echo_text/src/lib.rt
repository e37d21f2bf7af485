//! Echomail texts (FTS-0004, FTS-0009). `read_text` of the text that `write_text` made for an `Echo` gives that
//! `Echo`, no token dropped (`written_text_read_back`). Begin with `echo` (a parsed text), then `reading` and
//! `writing`; `laws` and `id_laws` state what holds.
#![tactic(auto)]

mod area;
mod echo;
mod fault;
mod found;
mod id_laws;
mod kept;
mod laws;
mod line_slices;
mod lines;
mod listed;
mod msgid;
mod reading;
mod tail;
mod words;
mod writing;

pub use area::{MAX_TAG, is_kept_tag, is_tag};
pub use echo::{Echo, EchoRoom, EchoView, FrontView};
pub use fault::TextFault;
pub use id_laws::{
    doubled_quotes_undone, ids_differ, one_id_is_spelled, test_of_ids, written_id_read_back,
};
pub use kept::{KeptView, Lines};
pub use laws::{kept_as_they_stand, one_reading, one_writing, written_text_read_back};
pub use line_slices::LineSlices;
pub use lines::{push_line, push_lines, split_line};
pub use msgid::{MsgId, parse_hex};
pub use reading::{read_into_room, read_text, view_front, view_text};
pub use words::{after_feeds, after_word, begins, is_control, is_tear, trimmed};
pub use writing::{overwrite_text, write_text};

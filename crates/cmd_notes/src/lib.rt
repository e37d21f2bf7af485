//! Notes that explain the faults of commands: the state of a path, or the line, word or packet that is wrong. Those on
//! the faults of an area are in cmd_net. It is proved to be safe and to end, and no more; rows in examples/cases test the
//! words of notes, and which reason applies. Begin with `reasons` and `notes`.
#![tactic(auto)]

mod file_notes;
mod heard;
mod notes;
mod packets;
mod reasons;
mod states;
mod word_notes;

pub use file_notes::push_line_note;
pub use heard::KeptLines;
pub use notes::ExplainedCommand;

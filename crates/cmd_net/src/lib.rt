//! The commands that read no base: `show`, `nodelist`, `links`, `check`, `why`, `picture` and `replay`, each on the
//! files that its words name. The crates that they call promise what they print. Of `check` it is proved that it leaves out
//! no file (`checking`). The others are proved to be safe and to end, and no more; rows in examples/cases test the words of
//! notes, and which one applies.
//! Begin with `commands`, then `noting`, the notes on the faults of an area.
#![tactic(auto)]

mod answer_notes;
mod checked_notes;
mod checking;
mod commands;
mod linking;
mod nets;
mod note_words;
mod noting;
mod placing;
mod printing;
mod supposing;

pub use commands::run_net;

//! JAM bases (JAM-001): messages of a base as headers with subfields, texts and index entries, and the state of an
//! existing JAM base. A call that succeeds appends just the bytes that the definitions give. Damaged files are
//! refused. Begin with `message`; `standing` reads an existing base, `unsent` what an editor wrote.
#![tactic(auto)]

mod content;
mod crc;
mod fields;
mod fixed;
mod links;
mod long;
mod message;
mod moment;
mod same;
mod standing;
mod subfields;
mod unsent;

pub use crc::jam_crc;
pub use fixed::{new_fixed, next_counts};
pub use links::link_replies;
pub use message::{Jam, push_jam};
pub use moment::date_seconds;
pub use same::is_same;
pub use standing::{Last, Standing, read_standing};
pub use unsent::{ATTRIBUTE_AT, JamDraft, has_id, read_jam, read_unsent, sent_attribute};

//! Stored messages (FTS-0001): files of one message each, `*.MSG`, which editors and other tossers read and write. The
//! file of an editor is read for posting, or refused exactly if it is not to be posted. What is written is tested
//! (export.cases, posting.cases). Begin with `stored` and `reading`.
#![tactic(auto)]

mod origin;
mod reading;
mod stored;

pub use origin::origin_address;
pub use reading::{
    StoredDraft, StoredFault, behind_mark, extract_body, first_value, is_seen, read_stored,
};
pub use stored::{address_in_origin, push_bytes, push_stored, written_text};

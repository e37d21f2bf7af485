//! The steps of a system: how posting, tossing, scanning and purging change its base (`posting`, `tossing`, `scanned`
//! and `purged` of specs/). Each keeps the rules of a base. Begin with specs/Posting and specs/Tossing.
#![tactic(auto)]

mod draft;
mod fault;
mod laws;
mod moment;
mod outcome;
mod packet;
mod reply_ids;
mod stamp;

pub use draft::Draft;
pub use fault::{PostFault, ScanFault};
pub use laws::{
    base_laws, copy_laws, posting_laws, posting_refusals, scan_law, toss_law, toss_outcomes,
};
pub use moment::{date_time, is_stamp};
pub use outcome::Outcome;
pub use packet::{Packet, message_size};
pub use reply_ids::is_reply_id;
pub use stamp::Stamp;

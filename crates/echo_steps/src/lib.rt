//! The tosser: what one system does to its base, in any store. `post_step`, `toss_step` and `scan_step` are the steps of
//! model_steps; `toss_packet` makes the step of each message of a packet. They commit nothing. Begin with `tossing`.
#![tactic(auto)]

mod counting;
mod drafting;
mod fault;
mod grouping;
mod laws;
mod outgoing;
mod packets;
mod packing;
mod posting;
mod receiving;
mod refusing;
mod resending;
mod scanning;
mod sets;
mod step_error;
mod tally;
mod tossing;
mod ways;

pub use counting::{CountedPacket, count_packets, link_set};
pub use echo_links::LinkFile;
pub use fault::{TossCause, TossFault};
pub use grouping::{Group, gather_group, group_copies};
pub use laws::packet_laws;
pub use model_steps::{Draft, Outcome, Packet, PostFault, Stamp};
pub use packets::{check_destination, toss_packet};
pub use packing::packet_header;
pub use posting::post_step;
pub use refusing::{ReplyRule, allows_reply, judge_draft};
pub use resending::{Resend, is_resendable, push_exported, push_resent};
pub use scanning::scan_step;
pub use step_error::{PostStepError, ScanStepError, StoppedToss, TossStepError};
pub use tally::Tally;
pub use tossing::toss_step;

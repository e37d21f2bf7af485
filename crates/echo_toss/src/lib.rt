//! A tosser: one system with its link file and its base in memory, which posts, tosses, scans and purges (FTS-0004).
//! Each call of `Tosser` is one step of the model on the whole system, and a refused call leaves the system unchanged.
//! `save` and `load` are exactly the base file. Begin with `tosser`, then with specs/Steps.
#![tactic(auto)]

mod posting;
mod purging;
mod scanning;
mod storing;
mod tosser;
mod tossing;

pub use base_file::{BaseFault, saved_base_law};
pub use echo_filed::Filed;
pub use echo_links::{LinkFault, LinkFile};
pub use echo_steps::{ReplyRule, Tally, TossCause, TossFault, packet_laws};
pub use model_steps::{Draft, Outcome, Packet, PostFault, ScanFault, Stamp};
pub use tosser::Tosser;

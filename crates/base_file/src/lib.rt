//! The base of a system: its filed messages and a cursor, in memory, and its base file. Bytes are one base or have one
//! fault. A saved base is read back unchanged. Begin with `base`; `piece` judges a base file in pieces, and `alone`
//! reads one message by itself.
#![tactic(auto)]

mod alone;
mod base;
mod fault;
mod judging;
mod known_lists;
mod laws;
mod piece;
mod purging;
mod range;
mod room;
mod tags;

pub use alone::read_message;
pub use base::{Base, Head};
pub use fault::BaseFault;
pub use laws::{loaded_base_law, one_base_or_fault, saved_again_law, saved_base_law};
pub use piece::{Next, judge_next, parse_head};
pub use range::PurgeRange;
pub use room::MessageRoom;

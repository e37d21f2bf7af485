//! Repair: a packet of all messages of an area for one link, and lists of the ids that a base has. The packet has
//! exact copies, whoever sent them and whatever their SEEN-BY lists. It leaves out messages whose ids the given list
//! names. A list is refused exactly at its first wrong line. Begin with `sending` (the packet).
#![tactic(auto)]

mod gathering;
mod known;
mod laws;
mod linking;
mod listing;
mod reading;
mod send_fault;
mod sending;
mod words;

pub use known::KnownIds;
pub use laws::{
    printed_lists_name_what_a_base_knows, repairs_send_the_rest, right_lists_are_printed_ones,
    words_are_those_of_ids,
};
pub use linking::check_linked;
pub use listing::list_ids;
pub use reading::read_ids;
pub use send_fault::SendFault;
pub use sending::{push_nothing, send_all};

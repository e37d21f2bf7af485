//! Addresses of FidoNet systems, and the shortened lists of SEEN-BY and PATH lines (FTS-0004). All formats share its
//! decimal numbers, blanks, sorted lists and a small type for lists. `read_list` of a written line gives its entries,
//! none dropped. The devices of `disk_io` have their names here too. Begin with `address`, then `listing` and
//! `shortening`.
#![tactic(auto)]

mod address;
mod ascending;
mod blanks;
mod digits;
mod fault;
mod items;
mod laws;
mod listing;
mod places;
mod shortening;

pub use address::{Address, NetNode};
pub use ascending::put_in_order;
pub use blanks::is_blank;
pub use digits::number;
pub use disk_io::{Sink, Source, Trial, Watched};
pub use fault::AddrFault;
pub use items::Items;
pub use laws::{address_order, address_read_back, one_spelling, written_lines_read_back};
pub use listing::{add_list, next_token, read_list};
pub use shortening::{push_path, push_seen, write_path, write_seen};

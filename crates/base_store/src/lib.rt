//! The trait `Store`: messages and a cursor, wherever they are kept. It also has the keys of a base folder: for each
//! message its place, and a digest that finds it by its key. The caller compares whole keys, so two messages with one
//! digest cost time and never a wrong answer. Begin with `store` (the traits), and with `entries` for keys.
#![tactic(auto)]

mod chains;
mod digest;
mod entries;
mod expected;
mod index;
mod laws;
mod memory_store;
mod noting;
mod sip;
mod store;
mod store_error;

pub use chains::Chains;
pub use digest::{Digest, digest_of_key};
pub use entries::{entry, message_end, message_start, stored_digest};
pub use index::Index;
pub use laws::{
    an_index_stays_one, each_message_has_its_entry, each_message_is_where_recorded,
    equal_keys_have_one_digest,
};
pub use memory_store::MemoryStore;
pub use noting::note_look;
pub use sip::SipDigest;
pub use store::{PurgedStore, Store};
pub use store_error::StoreError;

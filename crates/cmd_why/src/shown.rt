//! The harm that is shown, with its run.

use echo_addr::{Address, Items};
use model_plan::Move;

/// The harm, by one message.
#[derive(Clone, Copy)]
pub enum Harm {
    /// The carrier of this address is sent it this many times.
    SentAgain(Address, usize),
    /// The carrier of this address is sent it, and posted it.
    SentOwn(Address),
    /// The area has settled, and the carrier of this address lacks it.
    NeverGets(Address),
    /// It is in a packet to an address that no file has, and so never comes to rest.
    NeverSettles,
}

/// A run that does harm: the index of the system that posts, the id of the message, the moves after it, and the harm.
#[derive(Drop)]
pub struct Shown {
    pub poster: usize,
    pub id: Items<u8>,
    pub moves: Items<Move>,
    pub harm: Harm,
}

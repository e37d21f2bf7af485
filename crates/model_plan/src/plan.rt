//! Plans of runs: their moves, and the harm that they are to show.

use echo_addr::Address;

/// What may follow a posting.
#[derive(Clone, Copy)]
pub enum Move {
    /// The system of this index scans, at midnight, the first of January 2000.
    Scan(usize),
    /// The packet of this index comes.
    Deliver(usize),
}

/// A guess of what goes wrong; systems go by their index.
#[derive(Clone, Copy)]
pub enum Guess {
    /// The system is sent the message again.
    Again(usize),
    /// The system that posted it is sent it.
    Own,
    /// All has settled, and the system has not got it.
    Lacking(usize),
    /// It goes to this address, which no file has.
    Nobody(Address),
}

/// A posting, the moves after it, and a guess of what goes wrong then.
#[derive(Drop)]
pub struct Plan {
    pub poster: usize,
    pub moves: Vec<Move>,
    pub guess: Guess,
}

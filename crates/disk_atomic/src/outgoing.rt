//! A packet that goes out: its path and its staging path.

use echo_addr::Address;

/// A packet that will be sent: its path, its staging path until a commit, and the address that it is for. Its bytes are
/// made while they are written.
#[derive(Clone, Copy)]
pub struct Outgoing<'a> {
    pub path: &'a [u8],
    pub staging: &'a [u8],
    pub to: Address,
}

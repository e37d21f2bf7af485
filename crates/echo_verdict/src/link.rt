//! A link of a system in an area.

use echo_addr::Address;

/// A link of an area: the system that lists it, and the system that is listed.
#[derive(Clone, Copy, PartialEq, Eq, PartialOrd, Ord)]
pub struct Link {
    pub from: Address,
    pub to: Address,
}

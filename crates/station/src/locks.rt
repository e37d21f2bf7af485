//! The locks of a station.

/// The lock of a link file, and that of a base, if its kind has one.
#[derive(Drop)]
pub struct Locks<L, K> {
    pub links: L,
    pub base: K,
}

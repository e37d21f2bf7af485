//! The trait of all that watches a replay.

/// Receives after each event how many happened, and how many there are in all.
pub trait ReplayProgress {
    fn tell(&self, happened: usize, events: usize);
}

/// Reports nothing.
#[derive(Clone, Copy)]
pub struct Unreported;

impl ReplayProgress for Unreported {
    fn tell(&self, _happened: usize, _events: usize) {}
}

//! A base file in memory: the entries of its messages, or the whole base.
use crate::entries::Entries;
use base_file::Base;
use std::hash::BuildHasher;

/// A base file in memory.
#[derive(Drop)]
pub enum Held<S: BuildHasher> {
    /// The messages stay in the file.
    Apart(Entries),
    /// They are in memory: the file does not exist, has version 1, or one of its messages will change.
    Whole(Base<S>),
}

//! The trait of all that watches how far a command is.

/// Watches the progress of a command.
pub trait MessageProgress {
    /// The command is at the message of this number, counted from 0, of so many.
    fn tell(&self, place: usize, messages: usize);
}

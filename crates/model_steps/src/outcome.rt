//! What becomes of a received message.

/// The outcome of a tossed message: the first of these that applies.
#[derive(Clone, Copy, Debug, PartialEq, Eq)]
pub enum Outcome {
    /// The text has no AREA line in front.
    NotEcho,
    /// The tag of the AREA line is not 1 to 60 bytes from `!` to `~`.
    BadTag,
    /// The link file has no such area.
    NoArea,
    /// The sender is not a link of the area.
    NotLinked,
    /// The base has a message of the same key.
    Known,
    /// The message is now the last of the base.
    Filed,
}

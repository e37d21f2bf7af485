//! The limits of a reader of packets.

ghost use Rattle.std.specs.Prelude.{◌≡◌};

/// How many bytes a name may have before its 00 (FTS-0001).
pub const MAX_NAME: usize = 35;

/// How many bytes a subject may have before its 00 (FTS-0001).
pub const MAX_SUBJECT: usize = 71;

/// How much a reader takes: a text has at most `text` bytes, a packet at most `messages` messages.
#[derive(Clone, Copy, Debug, PartialEq, Eq)]
pub struct Limits {
    pub text: usize,
    pub messages: u64,
}

impl Limits {
    /// The greatest values.
    pub const NONE: Limits = Limits {
        text: usize::MAX,
        messages: u64::MAX,
    };
}

/// A law: `Limits::NONE` takes texts of any length and any number of messages.
pub fn no_limits()
    ensures { Limits.NONE ≡ record { text = usize.MAX; messages = u64.MAX } }
{}

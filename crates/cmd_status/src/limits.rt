//! The limits of `show` and `toss`.

ghost use Rattle.std.specs.Prelude.{◌≡◌};
ghost use Rattle.cmd_status.specs.Limits.{limits_for};

use echo_packet::Limits;

/// The limits of `show` and `toss`: texts of 16 MiB and any number of messages.
pub const LIMITS: Limits = Limits {
    text: 16_777_216,
    messages: u64::MAX,
};

/// With texts of at most this many bytes, if that is less.
pub fn capped_limits(most: u64) -> Limits
    ensures { result ≡ limits_for most }
{
    Limits {
        text: most.min(LIMITS.text as u64) as usize,
        messages: LIMITS.messages,
    }
}

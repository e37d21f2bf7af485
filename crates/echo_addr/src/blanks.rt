//! The blanks of message texts.

ghost use Rattle.std.specs.Prelude.{◌≡◌};
ghost use Rattle.echo_addr.specs.Entries.{is_blank};

/// Whether the byte is a blank of message texts: 20, 09 or 0A.
pub fn is_blank(byte: u8) -> bool
    ensures { result ≡ is_blank byte }
{
    byte == b' ' || byte == b'\t' || byte == b'\n'
}

//! Numbers of two and four bytes, the low byte first.
ghost use Rattle.std.specs.Prelude.{◌≡◌};
ghost use Rattle.echo_packet.specs.Header.{number_at, word};
ghost use Rattle.echo_filed.specs.Stored.{long, long_at};

pub(crate) fn word_bytes(n: u16) -> [u8; 2]
    ensures { result ≡ word n }
{
    [(n % 256) as u8, (n / 256) as u8]
}

/// The bytes of a number of four bytes.
pub fn long_bytes(n: u32) -> [u8; 4]
    ensures { result ≡ long n }
{
    let low = word_bytes((n % 65536) as u16);
    let high = word_bytes((n / 65536) as u16);
    [low[0], low[1], high[0], high[1]]
}

pub(crate) fn word_of(bytes: [u8; 2]) -> u16
    ensures { result ≡ number_at 0 bytes }
{
    u16::from(bytes[0]) + 256 * u16::from(bytes[1])
}

pub(crate) fn long_of(bytes: [u8; 4]) -> u32
    ensures { result ≡ long_at 0 bytes }
{
    let low = word_of([bytes[0], bytes[1]]);
    let high = word_of([bytes[2], bytes[3]]);
    u32::from(low) + 65536 * u32::from(high)
}

//! The checksum by which JAM finds names and ids.

ghost use Rattle.std.specs.{Prelude.◌≡◌, Prelude.◌^◌, Char.to_ascii_lowercase};
ghost use Rattle.echo_jam.specs.Crc.{crc_bit, crc_byte, jam_crc};

/// The CRC of a name or an id, in small letters.
pub fn jam_crc(bytes: &[u8]) -> u32
    ensures { result ≡ jam_crc bytes.now }
{
    let mut crc = u32::MAX;
    'bytes: for byte in bytes {
        crc = crc_byte(crc, byte.to_ascii_lowercase());
    }
    crc
}

fn crc_byte(crc: u32, byte: u8) -> u32
    ensures { result ≡ crc_byte crc byte }
{
    let first = crc_bit(crc_bit(crc_bit(crc_bit(crc ^ byte as u32))));
    crc_bit(crc_bit(crc_bit(crc_bit(first))))
}

fn crc_bit(crc: u32) -> u32
    ensures { result ≡ crc_bit crc }
{
    if crc % 2 == 1 {
        (crc / 2) ^ 0xEDB8_8320
    } else {
        crc / 2
    }
}

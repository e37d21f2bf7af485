//! The checksum of a nodelist (FTS-5000).

ghost use Rattle.std.specs.Prelude.{◌≡◌, ℕ, suc, List, [], ◌∷◌, ◌++◌};
ghost use Rattle.echo_nodelist.specs.{Crc.crc, Tables.AreTables, Tables.IsTable};

use crate::crc_table::TABLE;

/// The checksums of each byte followed by one byte 00, by two, and so on.
#[derive(Drop)]
struct Tables {
    one: [u16; 256],
    two: [u16; 256],
    three: [u16; 256],
    four: [u16; 256],
    five: [u16; 256],
    six: [u16; 256],
    seven: [u16; 256],
}

/// The checksum of the bytes: polynomial x^16 + x^12 + x^5 + 1, initial value 0, most significant
/// bit first, no final change.
pub fn crc16(bytes: &[u8]) -> u16
    ensures { result ≡ crc bytes.now }
{
    let tables = tables_of_zeros();
    let mut register: u16 = 0;
    let mut rest = bytes;
    'eights: while let [a, b, c, d, e, f, g, h, later @ ..] = rest {
        register = with_eight(&tables, register, [*a, *b, *c, *d, *e, *f, *g, *h]);
        rest = later;
    }
    with_bytes(register, rest)
}

fn with_bytes(start: u16, more: &[u8]) -> u16
    ensures { (bytes : List ℕ) → crc bytes ≡ start → result ≡ crc (bytes ++ more.now) }
{
    let mut register = start;
    'bytes: for byte in more {
        register = with_byte(register, *byte);
    }
    register
}

fn with_eight(tables: &Tables, register: u16, eight: [u8; 8]) -> u16
    requires { AreTables tables.now }
    ensures { (bytes : List ℕ) → crc bytes ≡ register → result ≡ crc (bytes ++ eight) }
{
    let [a, b, c, d, e, f, g, h] = eight;
    let first = (register >> 8) as u8 ^ a;
    let second = (register % 256) as u8 ^ b;
    tables.seven[first as usize]
        ^ (tables.six[second as usize]
            ^ (tables.five[c as usize]
                ^ (tables.four[d as usize]
                    ^ (tables.three[e as usize]
                        ^ (tables.two[f as usize]
                            ^ (tables.one[g as usize] ^ TABLE[h as usize]))))))
}

fn tables_of_zeros() -> Tables
    ensures { AreTables result }
{
    let one = after_zero(&TABLE);
    let two = after_zero(&one);
    let three = after_zero(&two);
    let four = after_zero(&three);
    let five = after_zero(&four);
    let six = after_zero(&five);
    let seven = after_zero(&six);
    Tables {
        one,
        two,
        three,
        four,
        five,
        six,
        seven,
    }
}

fn after_zero(table: &[u16; 256]) -> [u16; 256]
    ensures { (zeros : ℕ) → IsTable zeros table.now → IsTable (suc zeros) result }
{
    let mut next = [0; 256];
    'entries: for (i, entry) in table.iter().enumerate() {
        next[i] = with_byte(*entry, 0);
    }
    next
}

fn with_byte(register: u16, byte: u8) -> u16
    ensures { (bytes : List ℕ) → crc bytes ≡ register → result ≡ crc (bytes ++ byte ∷ []) }
{
    of_byte((register >> 8) as u8 ^ byte) ^ (register << 8)
}

fn of_byte(byte: u8) -> u16
    ensures { result ≡ crc (byte ∷ []) }
{
    TABLE[byte as usize]
}

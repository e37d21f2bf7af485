//! The checksum that the first line of a nodelist states.

ghost use Rattle.std.specs.{Prelude.◌≡◌, Prelude.◌≤◌, Prelude.◌↔◌, Prelude.false, Prelude.length, Prelude.IsNone, Prelude.IfSome, List.after_first, List.before_first, List.suffix_len};
ghost use Rattle.echo_nodelist.specs.{CrcLine.crc_line_of, CrcLine.is_space, CrcLine.states_crc, CrcLine.stated_crc, CrcLine.without_back_spaces, Raw.is_feed};

use crate::crc::crc16;
use crate::cutting::{before_end, cut, without_return};
use echo_addr::number;

/// The checksum that the first line of a nodelist states for the bytes after it.
#[derive(Clone, Copy, Debug, PartialEq, Eq, Hash)]
pub enum CrcLine {
    /// It doesn't end with a colon, blanks 20 and five decimal digits.
    Absent,
    /// The stated number is the computed one.
    Match(u32),
    Mismatch { stated: u32, computed: u32 },
}

/// How many digits state a checksum.
const DIGITS: usize = 5;

/// A number above each that those digits write.
const TOO_LARGE: u32 = 100_000;

/// Compares the checksum that the first line states with that of the bytes from the second line on,
/// up to the first 1A.
pub fn crc_line(bytes: &[u8]) -> CrcLine
    ensures { result ≡ crc_line_of bytes.now }
{
    let text = before_end(bytes);
    let (first, later) = first_piece(text);
    let Some(stated) = stated_number(without_return(first)) else {
        return CrcLine::Absent;
    };
    let computed = u32::from(crc16(later));
    if stated == computed {
        CrcLine::Match(stated)
    } else {
        CrcLine::Mismatch { stated, computed }
    }
}

fn first_piece(text: &[u8]) -> (&[u8], &[u8])
    ensures before { result.0.now ≡ before_first is_feed text.now }
    ensures after { result.1.now ≡ after_first is_feed text.now }
{
    match cut(b'\n', text) {
        Some(parts) => parts,
        None => (text, &text[text.len()..]),
    }
}

fn stated_number(line: &[u8]) -> Option<u32>
    ensures none { IsNone result ↔ (states_crc line.now ≡ false) }
    ensures value { IfSome result (λ n. n ≡ stated_crc line.now) }
{
    let at = line.len().checked_sub(DIGITS)?;
    let (before, digits) = line.split_at(at);
    if without_spaces(before).last() != Some(&b':') {
        return None;
    }
    number(TOO_LARGE, digits)
}

fn without_spaces(bytes: &[u8]) -> &[u8]
    ensures { result.now ≡ without_back_spaces bytes.now }
{
    &bytes[..bytes.len() - spaces(bytes)]
}

fn spaces(bytes: &[u8]) -> usize
    ensures exact { result ≡ suffix_len is_space bytes.now }
    ensures within { result ≤ length bytes.now }
{
    bytes.iter().rev().take_while(|b| **b == b' ').count()
}

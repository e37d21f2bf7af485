//! Stamps in the form of a DateTime (FTS-0001).

ghost use Rattle.std.specs.{Prelude.◌≡◌, Prelude.◌+◌, Prelude.◌*◌, Prelude.◌/◌, Prelude.◌%◌, Prelude.◌-◌, Prelude.true, Int.is_in_range};
ghost use Rattle.model_steps.specs.Stamps.{date_of, is_stamp};

use crate::stamp::Stamp;

/// The months as a DateTime has them (FTS-0001).
const MONTHS: [u8; 36] = *b"JanFebMarAprMayJunJulAugSepOctNovDec";

/// Whether each part of the stamp is in its range.
pub fn is_stamp(stamp: Stamp) -> bool
    ensures { result ≡ is_stamp stamp }
{
    is_within(1980, 2079, stamp.year)
        && is_within(1, 12, stamp.month)
        && is_within(1, 31, stamp.day)
        && is_within(0, 23, stamp.hour)
        && is_within(0, 59, stamp.minute)
        && is_within(0, 59, stamp.second)
}

fn is_within(low: u16, high: u16, part: u16) -> bool
    ensures { result ≡ is_in_range low high part }
{
    low <= part && part <= high
}

/// The DateTime of the stamp (FTS-0001): `DD Mon YY  hh:mm:ss` and 00.
pub fn date_time(stamp: Stamp) -> [u8; 20]
    requires { is_stamp stamp ≡ true }
    ensures { result ≡ date_of stamp }
{
    let month = 3 * (stamp.month as usize - 1);
    [
        tens(stamp.day),
        ones(stamp.day),
        b' ',
        MONTHS[month],
        MONTHS[month + 1],
        MONTHS[month + 2],
        b' ',
        tens(stamp.year),
        ones(stamp.year),
        b' ',
        b' ',
        tens(stamp.hour),
        ones(stamp.hour),
        b':',
        tens(stamp.minute),
        ones(stamp.minute),
        b':',
        tens(stamp.second),
        ones(stamp.second),
        0,
    ]
}

fn tens(number: u16) -> u8
    ensures { result ≡ 48 + number / 10 % 10 }
{
    b'0' + (number / 10 % 10) as u8
}

fn ones(number: u16) -> u8
    ensures { result ≡ 48 + number % 10 }
{
    b'0' + (number % 10) as u8
}

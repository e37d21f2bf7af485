//! The clock, for words that leave the stamp or the serial to it.

use crate::local::seconds_ahead;
use crate::moment::{clock_stamp, utc_stamp};
use cmd_status::{Fault, parse_serial, parse_stamp};
use model_steps::Stamp;
use std::time::{SystemTime, UNIX_EPOCH};

const CLOCK: &str = "clock";

const SERIALS: u64 = 1 << 32;

/// The stamp that the word names: for `now` the clock's in UTC, for `local` the clock's in the system's time zone.
pub fn named_stamp<'a>(rt: &HostRuntime, word: &str) -> Result<Stamp, Fault<'a>> {
    let stamp = match word {
        "now" => utc_stamp(seconds(rt)?),
        "local" => {
            let since = seconds(rt)?;
            clock_stamp(since, seconds_ahead(rt, since)?)
        }
        _ => return parse_stamp(word),
    };
    match stamp {
        Some(stamp) => Ok(stamp),
        None => Err(Fault::BadStamp),
    }
}

/// The serial that the word names, and whether a later free one will do, as with `auto` (the seconds since 1970).
pub fn named_serial<'a>(rt: &HostRuntime, word: &str) -> Result<(u32, bool), Fault<'a>> {
    if word != "auto" {
        return Ok((parse_serial(word)?, false));
    }
    Ok((created_now(rt)?, true))
}

/// The seconds since 1970 as a number of four bytes.
pub fn created_now<'a>(rt: &HostRuntime) -> Result<u32, Fault<'a>> {
    Ok((seconds(rt)? % SERIALS) as u32)
}

fn seconds<'a>(rt: &HostRuntime) -> Result<u64, Fault<'a>> {
    let now = SystemTime::now(rt).map_err(|_| Fault::CannotUse(CLOCK))?;
    match now.duration_since(UNIX_EPOCH) {
        Ok(since) => Ok(since.as_secs()),
        Err(_) => Err(Fault::CannotUse(CLOCK)),
    }
}

//! The time zone of the system: that of `TZ`, or else of `/etc/localtime`, or else UTC.

use cmd_status::Fault;
use jiff_core::{Error, Offset, Timestamp};
use jiff_tz::{SystemTimeZone, TimeZoneDatabase, Tzif};
use std::env;
use std::io::ErrorKind;

const ZONE: &str = "time zone";

/// The folder with the files of time zones.
const ZONES: &str = "/usr/share/zoneinfo";

/// The most bytes of such a file.
const MAX_ZONE: usize = 1_048_576;

/// How many seconds the system's time zone was ahead of UTC this many seconds after 1970 began.
pub(crate) fn seconds_ahead<'a>(rt: &HostRuntime, seconds: u64) -> Result<i32, Fault<'a>> {
    let nanoseconds = i128::from(seconds) * 1_000_000_000;
    match Timestamp::from_nanosecond(nanoseconds) {
        Ok(at) => Ok(offset_at(rt, at)?.seconds),
        Err(_) => Err(Fault::BadStamp),
    }
}

fn offset_at<'a>(rt: &HostRuntime, at: Timestamp) -> Result<Offset, Fault<'a>> {
    match SystemTimeZone::read(rt) {
        Ok(zone) => offset_in(rt, &zone, at),
        Err(error) if is_none_set(rt, &error) => Ok(Offset::UTC),
        Err(error) => Err(zone_fault(&error)),
    }
}

fn offset_in<'a>(
    rt: &HostRuntime,
    zone: &SystemTimeZone,
    at: Timestamp,
) -> Result<Offset, Fault<'a>> {
    let known = TimeZoneDatabase::new(rt.alloc());
    match zone.time_zone(&known) {
        Ok(found) => Ok(found.to_offset(at)),
        Err(error) => offset_by_name(rt, zone, &error, at),
    }
}

// The offset of a time zone that has only a name. A name without a file is that of a file in the folder.
fn offset_by_name<'a>(
    rt: &HostRuntime,
    zone: &SystemTimeZone,
    error: &Error,
    at: Timestamp,
) -> Result<Offset, Fault<'a>> {
    match (error, zone) {
        (Error::TimeZoneNotFound, SystemTimeZone::Name { name, .. }) => {
            offset_named(rt, name.as_str(), at)
        }
        _ => Err(zone_fault(error)),
    }
}

fn offset_named<'a>(rt: &HostRuntime, name: &str, at: Timestamp) -> Result<Offset, Fault<'a>> {
    let path = format!(in rt.alloc(); "{ZONES}/{name}")?;
    let Ok(bytes) = disk_system::read_file(rt.alloc(), rt, path.as_str(), MAX_ZONE) else {
        return Err(Fault::CannotUse(ZONE));
    };
    match Tzif::parse(rt.alloc(), None, &bytes) {
        Ok(table) => Ok(table.to_offset(at)),
        Err(error) => Err(zone_fault(&error)),
    }
}

// Whether no time zone is set, and the system has no file of one.
fn is_none_set(rt: &HostRuntime, error: &Error) -> bool {
    matches!(error, Error::Io(ErrorKind::NotFound)) && env::var(rt, "TZ").is_err()
}

fn zone_fault<'a>(error: &Error) -> Fault<'a> {
    match error {
        Error::OutOfMemory => Fault::OutOfMemory,
        _ => Fault::CannotUse(ZONE),
    }
}

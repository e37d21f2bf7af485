//! A moment: date and time without a zone.

/// A date and time. A posting or scan accepts year 1980 to 2079, month 1 to 12, day 1 to 31, hour 0 to 23,
/// minute and second 0 to 59. It does not check that the month has that day.
#[derive(Clone, Copy, Debug, PartialEq, Eq)]
pub struct Stamp {
    pub year: u16,
    pub month: u16,
    pub day: u16,
    pub hour: u16,
    pub minute: u16,
    pub second: u16,
}

//! The moment of the clock as a stamp.

ghost use Rattle.std.specs.Prelude.{◌≡◌, ℕ, Some, IfSome, MatchOption, pos};
ghost use Rattle.jiff_core.specs.{Calendar.IsEpochDay, Date.epoch_day};
ghost use Rattle.cmd_input.specs.Moment.{IsMomentAt, IsShownAt};
ghost use Rattle.model_steps.specs.declared.stamp.Stamp as model;

use jiff_core::civil::Date;
use model_steps::Stamp;

const A_DAY: u64 = 86_400;

/// The stamp this many seconds after 1970 began, in UTC without leap seconds. None if its year has over four digits.
pub fn utc_stamp(seconds: u64) -> Option<Stamp>
    ensures moment { IfSome result (IsMomentAt seconds) }
    ensures only { (stamp : model.Stamp) → IsMomentAt seconds stamp → result ≡ Some stamp }
{
    let date = date_at(seconds / A_DAY)?;
    let year = year_of(date)?;
    let time = seconds % A_DAY;
    Some(Stamp {
        year,
        month: date.month as u16,
        day: date.day as u16,
        hour: (time / 3600) as u16,
        minute: (time / 60 % 60) as u16,
        second: (time % 60) as u16,
    })
}

/// The stamp that a clock this many seconds ahead of UTC shows, this many seconds after 1970 began.
pub fn clock_stamp(seconds: u64, ahead: i32) -> Option<Stamp>
    ensures { IfSome result (IsShownAt seconds ahead) }
{
    let later = i64::try_from(seconds).ok()?.checked_add(i64::from(ahead))?;
    let shown = u64::try_from(later).ok()?;
    let stamp = utc_stamp(shown)?;
    Some(stamp)
}

// The date of the day with this number. The first day of 1970 has the number 0.
fn date_at(day: u64) -> Option<Date>
    ensures { MatchOption result (IsEpochDay (pos day) → ⊥) (λ date. epoch_day date ≡ pos day) }
{
    let day = i64::try_from(day).ok()?;
    Date::from_unix_epoch_day(day).ok()
}

fn year_of(date: Date) -> Option<u16>
    ensures is { IfSome result (λ year. date.year ≡ pos year) }
    ensures only { (year : ℕ) → date.year ≡ pos year → result ≡ Some year }
{
    u16::try_from(date.year).ok()
}

//! Civil time.
ghost use Rattle.jiff.specs.Words.{civil_nanos};
ghost use Rattle.std.specs.Prelude.{◌≡◌, ◌≤◌, ◌<◌, ◌*ℤ◌, pos, IfOk, IsOk, Ok};
ghost use Rattle.wb_journal.specs.Civil.{IsCivilTime, civil};

use crate::Moment;
use jiff::civil::DateTime;
use jiff::tz::Offset;
use jiff::{Error, Timestamp};
use std::alloc::AllocError;

/// A civil date and time.
#[derive(Clone, Copy, Debug, PartialEq, Eq)]
pub struct Civil {
    /// 1970 to 9999.
    pub year: u16,
    /// 1 to 12.
    pub month: u8,
    /// 1 to 31.
    pub day: u8,
    /// 0 to 23.
    pub hour: u8,
    /// 0 to 59.
    pub minute: u8,
    /// 0 to 59.
    pub second: u8,
}

/// The date and time of a moment, in UTC. The calendar takes no memory today, so it is always there.
pub fn civil_of(moment: Moment) -> Result<Civil, AllocError>
    ensures succeeds { IsOk result }
    ensures value { IfOk result (λ shown. shown ≡ civil moment) }
    ensures right { IfOk result (IsCivilTime moment) }
{
    match utc(moment.seconds()) {
        Ok(at) => Ok(Civil {
            year: at.year() as u16,
            month: at.month() as u8,
            day: at.day() as u8,
            hour: at.hour() as u8,
            minute: at.minute() as u8,
            second: at.second() as u8,
        }),
        Err(_) => unreachable!(),
    }
}

/// The same, as the calendar's own.
fn utc(seconds: u64) -> Result<DateTime, Error>
    requires { seconds ≤ 253402207200 }
    ensures ok { IsOk result }
    ensures value { IfOk result (λ at. civil_nanos at ≡ pos seconds *ℤ pos 1000000000) }
{
    let timestamp = Timestamp::from_second(seconds as i64)?;
    Ok(Offset::UTC.to_datetime(timestamp))
}

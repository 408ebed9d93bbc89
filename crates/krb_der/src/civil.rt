//! Civil dates with a time of day, and their seconds since 1970.
ghost use Rattle.std.specs.Prelude.{◌≡◌, if◌then◌else◌, Some, None};

use jiff_core::civil::{Date, DateTime, Time};

/// The numbers of a date and a time of day, which may not exist in the calendar. Months and days count from 1.
#[derive(Clone, Copy)]
pub(crate) struct CivilTime {
    pub(crate) year: u16,
    pub(crate) month: u8,
    pub(crate) day: u8,
    pub(crate) hour: u8,
    pub(crate) minute: u8,
    pub(crate) second: u8,
}

impl CivilTime {
    ghost use Rattle.krb_der.specs.Civil.{FitsDigits, IsCivilSecond, civil_at, civil_second, is_civil};

    /// Returns the date and time of day of this second.
    pub(crate) fn at(seconds: i64) -> CivilTime
        requires { IsCivilSecond seconds }
        ensures value { result ≡ civil_at seconds }
        ensures fits { FitsDigits result }
    {
        // The library counts in nanoseconds. Its instants end a day before the end of the year 9999, but its civil
        // times don't.
        let DateTime { date, time } = DateTime::from_nanosecond_in_range(
            i128::from(seconds) * 1_000_000_000,
        );
        CivilTime {
            year: date.year as u16,
            month: date.month,
            day: date.day,
            hour: time.hour,
            minute: time.minute,
            second: time.second,
        }
    }

    /// Returns the seconds since 1970-01-01T00:00:00, if the calendar has the date and time of day.
    #[tactic(auto, unfolding(crate::specs::Civil::is_civil))]
    pub(crate) fn to_second(self) -> Option<i64>
        requires { FitsDigits self }
        ensures { result ≡ (if is_civil self then Some (civil_second self) else None) }
    {
        let Ok(date) = Date::new(self.year as i16, self.month as i8, self.day as i8) else {
            return None;
        };
        let Ok(time) = Time::new(self.hour as i8, self.minute as i8, self.second as i8, 0) else {
            return None;
        };
        Some(DateTime { date, time }.to_second())
    }
}

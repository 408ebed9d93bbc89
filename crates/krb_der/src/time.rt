//! KerberosTime (RFC 4120, section 5.2.3).
ghost use Rattle.std.specs.Prelude.{◌≡◌, ℤ, if◌then◌else◌, Some, None, IfSome, IsTrue};
ghost use Rattle.std.specs.Option.{SomeIff};
ghost use Rattle.krb_der.specs.Civil.{IsCivilSecond};
ghost use Rattle.krb_der.specs.Time.{is_time, time_octets, time_value};

use crate::civil::CivilTime;
use crate::digits::{is_spelled, spelled, spelling};
use std::marker::Model;

// 0000-01-01T00:00:00Z
const FIRST_SECOND: i64 = -62_167_219_200;

// 9999-12-31T23:59:59Z
const LAST_SECOND: i64 = 253_402_300_799;

/// A KerberosTime: whole seconds since 1970-01-01T00:00:00Z, in the years 0000 to 9999.
#[derive(Clone, Copy, Debug, PartialEq, Eq, PartialOrd, Ord)]
pub struct KTime {
    seconds: i64,
}

impl Model for KTime {
    ghost Value = { ℤ };

    ghost view = { λ t. t.seconds };

    ghost invariant = { λ t. IsCivilSecond t.seconds };

    ghost inverse = { λ z. record { seconds = z } };
}

impl KTime {
    /// Returns the time this many seconds after 1970-01-01T00:00:00Z, if it is in the years 0000 to 9999.
    pub fn new(seconds: i64) -> Option<KTime>
        // Promise: a time is made exactly from the seconds of the years 0000 to 9999.
        ensures { SomeIff result (IsCivilSecond seconds) seconds }
    {
        if seconds < FIRST_SECOND || seconds > LAST_SECOND {
            return None;
        }
        Some(KTime { seconds })
    }

    /// Returns the time this many seconds after 1970-01-01T00:00:00Z, which must be in range.
    pub fn of(seconds: i64) -> KTime
        requires { IsCivilSecond seconds }
        // Promise, as KTime::new: a time is made ..
        ensures { result ≡ seconds }
    {
        KTime { seconds }
    }

    /// Returns its seconds since 1970-01-01T00:00:00Z.
    pub fn seconds(self) -> i64
        // Promise (value, range), as KTime::new: a time is made ..
        ensures value { result ≡ self }
        ensures range { IsCivilSecond result }
    {
        self.seconds
    }

    /// Returns the time that the bytes spell. They must be fifteen, YYYYMMDDHHMMSSZ, with a date of the calendar and a
    /// time of day up to 23:59:59: no fraction, no leap second and no other time zone.
    #[tactic(auto, unfolding(crate::specs::Time::is_time, crate::specs::Time::time_value))]
    pub fn from_octets(octets: &[u8]) -> Option<KTime>
        // Promise (value, one_spelling): a time is read exactly if the bytes are a civil date with a time of day; each
        // time has one encoding.
        ensures value { result ≡ (if is_time octets.now then Some (time_value octets.now) else None) }
        ensures one_spelling { IfSome result (λ t. octets.now ≡ time_octets t) }
    {
        if !is_spelled(octets) {
            return None;
        }
        let seconds = spelled(octets).to_second()?;
        Some(KTime { seconds })
    }

    /// Returns its fifteen bytes, YYYYMMDDHHMMSSZ.
    #[tactic(auto, using(crate::proofs::TimeLaws::time_again), unfolding(crate::specs::Time::time_octets))]
    pub fn to_octets(self) -> [u8; 15]
        // Promise (octets, is_time, value): reading the bytes that a time is written in gives that time again.
        ensures octets { result ≡ time_octets self }
        // Reading the result gives this time again.
        ensures is_time { IsTrue (is_time result) }
        ensures value { time_value result ≡ self }
    {
        spelling(CivilTime::at(self.seconds))
    }
}

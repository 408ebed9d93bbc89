//! Moments in time.
ghost use Rattle.std.specs.Prelude.{◌≡◌, ◌↔◌, IsSome, IfSome};
ghost use Rattle.krb_elements.specs.Simple.{IsMicrosecond};
ghost use Rattle.krb_fields.specs.Moment.{IsSecond};

use krb_der::KTime;
use krb_elements::Microseconds;

/// The clock skew: by how many seconds the clocks of two parties may differ (RFC 4120, section 8.2).
pub const SKEW: i64 = 300;

/// A moment in UTC, as in a KerberosTime with its Microseconds (RFC 4120, sections 5.2.3 and 5.2.4).
#[derive(Clone, Copy, Debug, PartialEq, Eq)]
pub struct Moment {
    /// Whole seconds since the start of 1970, 0 to 253402300799 (the end of the year 9999).
    pub sec: i64,
    /// Microseconds, 0 to 999999.
    pub usec: u32,
    pub ghost sec_in_range: { IsSecond sec },
    pub ghost usec_in_range: { IsMicrosecond usec },
}

impl Moment {
    /// The last second that a moment can have: 9999-12-31 23:59:59.
    pub const LAST_SECOND: i64 = 253_402_300_799;

    /// Returns the moment, if both numbers are in range.
    pub fn new(sec: i64, usec: u32) -> Option<Moment>
        // Promise (found, value): a moment is made exactly if both numbers are in range, and returns both as a message
        // has them.
        ensures found { IsSome result ↔ (IsSecond sec × IsMicrosecond usec) }
        ensures value { IfSome result (λ at. (at.sec ≡ sec) × (at.usec ≡ usec)) }
    {
        if (0..=Moment::LAST_SECOND).contains(&sec) && usec < 1_000_000 {
            Some(Moment { sec, usec })
        } else {
            None
        }
    }

    /// Returns its whole seconds, as a message has them.
    pub fn time(self) -> KTime
        // Promise, as Moment::new: a moment is made ..
        ensures { result ≡ self.sec }
    {
        KTime::of(self.sec)
    }

    /// Returns its microseconds, as a message has them.
    pub fn microseconds(self) -> Microseconds
        // Promise, as Moment::new: a moment is made ..
        ensures { result ≡ self.usec }
    {
        Microseconds::of(self.usec)
    }
}

//! The clock of a KDC that refuses because the clocks differ (RFC 4120, section 7.5.9).
ghost use Rattle.std.specs.Prelude.{◌≡◌, ◌-ℤ◌, true, false, IfNone, IfSome};
ghost use Rattle.client_login.specs.Clocks.{IsByClock, IsByError, is_within_skew};

use crate::client::KdcClient;
use crate::faults::{LoginError, TicketError};
use krb_fields::{Code, Moment, SKEW};

impl<X> KdcClient<X> {
    /// Sets the moment by the clock of a KDC that refuses because the clocks differ. Returns by how many seconds its
    /// clock is ahead; the fault names the KDC. Returns `None` in three cases: the KDC refuses for another reason; the
    /// clocks differ by at most 300 seconds, which happens if a KDC was just restarted; or a KDC's clock was taken
    /// before and the moment has not been set since.
    ///
    /// Anyone on the path can name any time, so a program should say that it took one.
    pub fn take_clock(&mut self, fault: TicketError) -> Option<i64>
        // Promise: a KDC's time is taken only if a login's error names this KDC and is its error 37; by the clause
        // `err` of `log_in`, the KDC then answered a request with this error.
        // Promise: after a KDC's time was taken, the moment is in the second that the error states.
        ensures taken { IfSome result (λ ahead. IsByClock fault self.new.at) }
        // Promise (ahead, beyond): a KDC's time is taken only if its clock differs by more than 300 seconds, and the
        // difference is returned.
        ensures ahead { IfSome result (λ ahead. ahead ≡ self.new.at.sec -ℤ self.old.at.sec) }
        // It is off by more than the clock skew.
        ensures beyond { IfSome result (λ ahead. is_within_skew ahead ≡ false) }
        // Promise (once, kdcs, unchanged): **a KDC's time is taken once**, until the caller sets the moment anew.
        ensures once { IfSome result (λ ahead. (self.old.is_by_kdc ≡ false) × (self.new.is_by_kdc ≡ true)) }
        ensures kdcs { self.new.kdcs ≡ self.old.kdcs }
        ensures unchanged { IfNone result (self.new ≡ self.old) }
    {
        if self.is_by_kdc {
            return None;
        }
        let Some(at) = by_clock(fault, self.at) else {
            return None;
        };
        let ahead = at.sec - self.at.sec;
        if is_within_skew(ahead) {
            return None;
        }
        self.at = at;
        self.is_by_kdc = true;
        Some(ahead)
    }
}

fn is_within_skew(ahead: i64) -> bool
    ensures { result ≡ is_within_skew ahead }
{
    ahead.unsigned_abs() <= SKEW.unsigned_abs()
}

/// Returns the moment on the clock of the KDC that the fault names, if that refuses because the clocks differ.
fn by_clock(fault: TicketError, at: Moment) -> Option<Moment>
    ensures { IfSome result (λ next. IsByClock fault next) }
{
    if fault.kdc.is_none() {
        return None;
    }
    by_error(fault.why, at)
}

/// Returns the moment on the clock of a KDC that refuses because the clocks differ, if it is from 1970 on.
fn by_error(why: LoginError, at: Moment) -> Option<Moment>
    ensures { IfSome result (λ next. IsByError why next) }
{
    match why {
        LoginError::Refused(error) if error.code == Code::KrbApErrSkew as i32 => {
            Moment::new(error.stime, at.usec)
        }
        _ => None,
    }
}

//! The moments of the requests of one command.
ghost use Rattle.client_login.specs.Moments.{IsNext};

use krb_fields::Moment;

/// Returns the moment a microsecond later; the last one of the year 9999 stays. A KDC accepts each moment of a client
/// once, so each request with a ticket has its own.
pub(crate) fn next_moment(at: Moment) -> Moment
    // Promise, as KdcClient::log_in: after a call the client's moment is as ..
    ensures { IsNext at result }
{
    if at.usec < 999_999 {
        return Moment {
            sec: at.sec,
            usec: at.usec + 1,
        };
    }
    if at.sec < Moment::LAST_SECOND {
        return Moment {
            sec: at.sec + 1,
            usec: 0,
        };
    }
    at
}

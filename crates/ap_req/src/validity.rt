//! Whether a ticket is valid at a moment, by its times (RFC 4120, section 3.2.3).
ghost use Rattle.std.specs.Prelude.{◌≡◌};
ghost use Rattle.ap_req.specs.Validity.{has_ended, has_not_started, ticket_terms};

use krb_fields::{Moment, SKEW};
use krb_types::EncTicketPart;
use ticket_times::TicketTerms;

/// Returns the flags and times of a ticket.
pub fn ticket_terms(part: &EncTicketPart) -> TicketTerms
    // Promise: `has_not_started` and `has_ended` say whether a ticket starts or ended outside the clock skew.
    ensures { result ≡ ticket_terms part.now }
{
    TicketTerms {
        flags: part.flags,
        authtime: part.authtime,
        starttime: part.starttime,
        endtime: part.endtime,
        renew_till: part.renew_till,
    }
}

/// Checks whether the ticket starts later than the clock skew allows.
pub fn has_not_started(ticket: &TicketTerms, at: Moment) -> bool
    // Promise, as ticket_terms: `has_not_started` and `has_ended` say ..
    ensures { result ≡ has_not_started ticket.now at.sec }
{
    at.sec + SKEW < ticket.start()
}

/// Checks whether the ticket ended before the clock skew.
pub fn has_ended(ticket: &TicketTerms, at: Moment) -> bool
    // Promise, as ticket_terms: `has_not_started` and `has_ended` say ..
    ensures { result ≡ has_ended ticket.now at.sec }
{
    ticket.endtime.seconds() < at.sec - SKEW
}

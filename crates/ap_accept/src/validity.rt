//! Whether a ticket is valid (RFC 4120, section 3.2.3).
ghost use Rattle.std.specs.Prelude.{◌≡◌};
ghost use Rattle.rule_lists.specs.Refusals.{first_holding};
ghost use Rattle.ap_accept.specs.Validity.{is_not_yet_valid, validity_rules};

use ap_req::{ApRefusal, has_ended, has_not_started};
use krb_fields::{Moment, TicketFlag};
use rule_lists::first_holding;
use ticket_times::TicketTerms;

/// Returns the first rule that makes the ticket invalid at this moment.
pub fn ticket_refusal(ticket: &TicketTerms, at: Moment) -> Option<ApRefusal>
    ensures { result ≡ first_holding (validity_rules ticket.now at.sec) }
{
    first_holding(&validity_rules(ticket, at))
}

fn validity_rules(ticket: &TicketTerms, at: Moment) -> [(bool, ApRefusal); 2]
    ensures { result ≡ validity_rules ticket.now at.sec }
{
    [
        (is_not_yet_valid(ticket, at), ApRefusal::NotYetValid),
        (has_ended(ticket, at), ApRefusal::TicketExpired),
    ]
}

/// Checks whether the ticket starts later than the clock skew allows, or has yet to be validated.
fn is_not_yet_valid(ticket: &TicketTerms, at: Moment) -> bool
    ensures { result ≡ is_not_yet_valid ticket.now at.sec }
{
    has_not_started(ticket, at) || ticket.has(TicketFlag::Invalid)
}

//! The flags of a ticket (RFC 4120 sections 2 and 5.3).
ghost use Rattle.krb_fields.specs.TicketFlag.{ticket_flag_number};

use crate::flags::NamedBit;

/// A flag of a ticket.
#[derive(Clone, Copy, Debug, PartialEq, Eq)]
pub enum TicketFlag {
    /// A ticket-granting ticket for other addresses may be requested with it.
    Forwardable = 1,
    /// It was forwarded, or comes from a ticket that was.
    Forwarded = 2,
    /// A ticket for other addresses may be requested with it, but no ticket-granting ticket.
    Proxiable = 3,
    /// It is a proxy ticket.
    Proxy = 4,
    /// A postdated ticket may be requested with it.
    MayPostdate = 5,
    /// It was postdated: its authtime says when its client authenticated.
    Postdated = 6,
    /// It has to be validated before it is used.
    Invalid = 7,
    /// It can be renewed until its renew-till.
    Renewable = 8,
    /// An AS exchange issued it.
    Initial = 9,
    /// Its client was preauthenticated.
    PreAuthent = 10,
    /// Its client was preauthenticated by hardware.
    HwAuthent = 11,
    /// A KDC checked the realms between client and service.
    TransitedPolicyChecked = 12,
    /// The realm trusts its service with forwarded tickets.
    OkAsDelegate = 13,
}

impl NamedBit for TicketFlag {
    ghost bit_number = { ticket_flag_number };

    fn number(self) -> u32 {
        self as u32
    }
}

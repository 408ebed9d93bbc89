//! The contents of tickets and of accepted AP-REQs.
use crate::asking::{Parts, REALM};
use cred_files::Principal;
use krb_der::KTime;
use krb_fields::Name;
use std::alloc::Global;
use ticket_times::TicketTerms;

/// The flags and times of a ticket. Times are in seconds since 1970.
#[derive(Clone, Copy)]
pub struct Terms {
    pub flags: u32,
    pub authtime: i64,
    pub starttime: Option<i64>,
    pub endtime: i64,
    pub renew_till: Option<i64>,
}

fn is_at(time: Option<KTime>, second: Option<i64>) -> bool {
    match (time, second) {
        (Some(time), Some(second)) => time.seconds() == second,
        (None, None) => true,
        _ => false,
    }
}

/// Checks whether the ticket has these flags and times.
pub fn is_granted(ticket: &TicketTerms, terms: &Terms) -> bool {
    ticket.flags.bits() == terms.flags
        && is_at(Some(ticket.authtime), Some(terms.authtime))
        && is_at(ticket.starttime, terms.starttime)
        && is_at(Some(ticket.endtime), Some(terms.endtime))
        && is_at(ticket.renew_till, terms.renew_till)
}

/// Checks whether this is the client of that name in `A.B`.
pub fn is_client(alloc: Global, found: &Principal, parts: Parts) -> bool {
    match Name::new(alloc, parts.0, parts.1) {
        Ok(name) => found.is(REALM, &name),
        Err(_) => false,
    }
}

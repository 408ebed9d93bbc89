//! The terms in the service's row for the types that a request lists, and the times of the ticket.
ghost use Rattle.std.specs.Prelude.{◌≡◌, IfOk};
ghost use Rattle.tgs_exchange.specs.Terms.{admission_of, terms, times_of};

use crate::view::TgsView;
use kdc_replies::{ServiceTerms, service_terms};
use krb_fields::Moment;
use krb_types::ReqBodyRef;
use principal_rows::{Limits, Policy};
use std::alloc::{AllocError, Global};
use ticket_times::{TicketTerms, Times, tgs_times};

/// A client that has a row, and a service that has a key of a requested type.
#[derive(Drop)]
pub struct Terms {
    /// The policy of the client's row.
    pub client_policy: Policy,
    /// The service's name, policy and keys.
    pub service: ServiceTerms,
}

/// The terms and times of a ticket to be issued.
#[derive(Drop)]
pub struct Admission {
    /// The client's policy, and the service with its keys.
    pub terms: Terms,
    /// The ticket's start, end and renew-till.
    pub times: Times,
}

/// Returns the terms of a request; `None` if the name or a row is absent, or there is no common type.
pub fn find_terms(
    alloc: Global,
    view: &TgsView<'_>,
    body: &ReqBodyRef<'_>,
) -> Result<Option<Terms>, AllocError>
    ensures { IfOk result (λ found. found ≡ terms view.now body.now) }
{
    let Some(sname) = &body.sname else {
        return Ok(None);
    };
    let Some(client_row) = view.client else {
        return Ok(None);
    };
    let Some(service_row) = view.service else {
        return Ok(None);
    };
    let Some(service) = service_terms(alloc, &body.etype, sname, service_row)? else {
        return Ok(None);
    };
    Ok(Some(Terms {
        client_policy: client_row.policy,
        service,
    }))
}

/// Returns the times of a ticket by these terms; `None` without terms, or if it would end no later than it starts.
pub fn allowed_times(
    limits: &Limits,
    at: Moment,
    ticket: &TicketTerms,
    body: &ReqBodyRef<'_>,
    terms: &Option<Terms>,
) -> Option<Times>
    ensures { result ≡ times_of limits.now at.sec ticket.now body.now terms.now }
{
    match terms {
        Some(terms) => tgs_times(
            at,
            ticket,
            &terms.client_policy,
            &terms.service.policy,
            limits,
            body,
        ),
        None => None,
    }
}

/// Returns the admission, if there are both terms and times.
pub fn complete_admission(terms: Option<Terms>, times: Option<Times>) -> Option<Admission>
    ensures { result ≡ admission_of terms times }
{
    let Some(terms) = terms else {
        return None;
    };
    let Some(times) = times else {
        return None;
    };
    Some(Admission { terms, times })
}

//! The keys for the encryption types that a request asks for, and the times of the ticket.
ghost use Rattle.std.specs.Prelude.{◌≡◌, IfOk};
ghost use Rattle.as_exchange.specs.Terms.{admission_of, terms, common_terms, times_of};

use crate::view::AsView;
use enctypes::Key;
use kdc_replies::{ServiceTerms, service_terms};
use krb_elements::SeqRef;
use krb_fields::{Moment, Name, NameRef};
use krb_types::ReqBodyRef;
use preauth::{Outcome, first_key};
use principal_rows::{Limits, Policy, Row};
use std::alloc::{AllocError, Global};
use ticket_times::{Times, as_times};

/// A client and a service that have keys of the requested encryption types.
#[derive(Drop)]
pub struct Terms {
    /// The cname of the request, with its name-type as sent.
    pub client_name: Name,
    /// The policy of the client's row.
    pub client_policy: Policy,
    /// The client's current key of the first requested encryption type for which it has one.
    pub reply_key: Key,
    /// Its key version.
    pub reply_version: u32,
    /// The service's name, policy and keys.
    pub service: ServiceTerms,
}

/// All that a ticket is issued from.
#[derive(Drop)]
pub struct Admission {
    /// The client and the service, with their keys.
    pub terms: Terms,
    /// The ticket's start, end and renew-till.
    pub times: Times,
    /// The outcome of the client's timestamp.
    pub timestamp: Outcome,
}

/// Returns the terms of a request, or `None` if a name or a row is absent or there is no common encryption type.
pub fn find_terms(
    alloc: Global,
    view: &AsView<'_>,
    body: &ReqBodyRef<'_>,
) -> Result<Option<Terms>, AllocError>
    ensures { IfOk result (λ found. found ≡ terms view.now body.now) }
{
    let Some(cname) = &body.cname else {
        return Ok(None);
    };
    let Some(sname) = &body.sname else {
        return Ok(None);
    };
    let Some(client) = view.client else {
        return Ok(None);
    };
    let Some(service) = view.service else {
        return Ok(None);
    };
    common_terms(alloc, &body.etype, cname, sname, client, service)
}

fn common_terms(
    alloc: Global,
    types: &SeqRef<'_, i32>,
    cname: &NameRef<'_>,
    sname: &NameRef<'_>,
    client_row: &Row,
    service_row: &Row,
) -> Result<Option<Terms>, AllocError>
    ensures { IfOk result (λ found. found ≡ common_terms types.now cname.now sname.now client_row.now service_row.now) }
{
    let version = client_row.versions.current();
    let Some(reply_key) = first_key(&version.keys, types) else {
        return Ok(None);
    };
    let Some(service) = service_terms(alloc, types, sname, service_row)? else {
        return Ok(None);
    };
    Ok(Some(Terms {
        client_name: cname.to_name(alloc)?,
        client_policy: client_row.policy,
        reply_key: *reply_key,
        reply_version: version.number,
        service,
    }))
}

/// Returns the times of a ticket with these terms, or `None` if there are no terms or it would not end after it starts.
pub fn allowed_times(
    limits: &Limits,
    at: Moment,
    body: &ReqBodyRef<'_>,
    terms: &Option<Terms>,
) -> Option<Times>
    ensures { result ≡ times_of limits.now at.sec body.now terms.now }
{
    match terms {
        Some(terms) => as_times(
            at,
            &terms.client_policy,
            &terms.service.policy,
            limits,
            body,
        ),
        None => None,
    }
}

/// Returns the admission, if there are terms and times.
pub fn complete_admission(
    timestamp: Outcome,
    terms: Option<Terms>,
    times: Option<Times>,
) -> Option<Admission>
    ensures { result ≡ admission_of timestamp terms times }
{
    let Some(terms) = terms else {
        return None;
    };
    let Some(times) = times else {
        return None;
    };
    Some(Admission {
        terms,
        times,
        timestamp,
    })
}

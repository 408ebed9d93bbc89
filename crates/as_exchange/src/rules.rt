//! The rules of the AS exchange (RFC 4120, section 3.1.3), one condition each.
ghost use Rattle.std.specs.Prelude.{◌≡◌, IfOk, option_copied};
ghost use Rattle.as_exchange.specs.Rules.{is_bad_version, is_bad_message_type, is_client_unknown, is_service_unknown};
ghost use Rattle.as_exchange.specs.Rules.{has_expired_password, is_client_locked, asks_bad_option, needs_preauth};
ghost use Rattle.as_exchange.specs.Rules.{lacks_preauth, forbids_postdating, is_service_denied};
ghost use Rattle.as_exchange.specs.Rules.{is_postdating_refused, is_bad, is_timestamp_skewed, is_absent, is_good};
ghost use Rattle.as_exchange.specs.Rules.{timestamp_of};
ghost use Rattle.as_exchange.specs.Rules.{rules_by, admitted_by};

use crate::refusal::AsRefusal;
use crate::terms::{Admission, Terms, allowed_times, complete_admission};
use crate::view::AsView;
use kdc_replies::{Incoming, denies_tickets, has_come, is_disabled, is_expired};
use krb_fields::numbers::{AS_REQ, PVNO};
use krb_fields::{KdcOption, Moment};
use krb_types::{KdcReqRef, ReqBodyRef};
use preauth::{Outcome, check_timestamp, is_locked};
use principal_rows::Row;
use rule_lists::decide;
use std::alloc::{AllocError, Global};
use ticket_times::{Times, asks, starts_too_late};

/// Returns the admission, or the first rule that refuses the request.
pub fn admitted(
    view: &AsView<'_>,
    at: Moment,
    message: &KdcReqRef<'_>,
    timestamp: Outcome,
    terms: Option<Terms>,
) -> Result<Admission, AsRefusal>
    ensures { result ≡ admitted_by view.now at.sec message.now timestamp terms }
{
    let times = allowed_times(view.limits, at, &message.body.value, &terms);
    let rules = rules_by(view, at, message, timestamp, &terms, &times);
    let admission = complete_admission(timestamp, terms, times);
    // If no rule refuses, there are terms and times. So this fallback is never the reason.
    decide(&rules, admission, AsRefusal::NeverValid)
}

/// Returns all rules in the order in which they are checked.
fn rules_by(
    view: &AsView<'_>,
    at: Moment,
    message: &KdcReqRef<'_>,
    timestamp: Outcome,
    terms: &Option<Terms>,
    times: &Option<Times>,
) -> [(bool, AsRefusal); 19]
    ensures { result ≡ rules_by view.now at.sec message.now timestamp terms.now times.now }
{
    let body = &message.body.value;
    [
        (is_bad_version(message), AsRefusal::BadVersion),
        (is_bad_message_type(message), AsRefusal::BadMessageType),
        (is_client_unknown(view, body), AsRefusal::ClientUnknown),
        (is_service_unknown(view, body), AsRefusal::ServiceUnknown),
        (is_service_denied(view, body), AsRefusal::ServiceDenied),
        (is_disabled(view.client), AsRefusal::ClientDisabled),
        (is_client_locked(view, at), AsRefusal::ClientLocked),
        (is_expired(view.client, at), AsRefusal::ClientExpired),
        (
            has_expired_password(view.client, at),
            AsRefusal::PasswordExpired,
        ),
        (is_disabled(view.service), AsRefusal::ServiceRevoked),
        (is_expired(view.service, at), AsRefusal::ServiceExpired),
        (asks_bad_option(body), AsRefusal::BadOption),
        (terms.is_none(), AsRefusal::NoCommonType),
        (is_bad(timestamp), AsRefusal::PreauthFailed),
        (is_timestamp_skewed(timestamp), AsRefusal::TimestampSkewed),
        (
            lacks_preauth(view.client, timestamp),
            AsRefusal::PreauthRequired,
        ),
        (
            is_postdating_refused(view, body),
            AsRefusal::PostdatingRefused,
        ),
        (starts_too_late(at.sec, body), AsRefusal::StartsTooLate),
        (times.is_none(), AsRefusal::NeverValid),
    ]
}

/// Returns the outcome of the timestamp, for a client that has a row.
pub fn timestamp_outcome(
    alloc: Global,
    client: Option<&Row>,
    incoming: &Incoming<'_>,
    message: &KdcReqRef<'_>,
) -> Result<Outcome, AllocError>
    ensures { IfOk result (λ timestamp. timestamp
        ≡ timestamp_of (option_copied client.entry) incoming.now.at.sec message.now) }
{
    match client {
        Some(row) => {
            let padata = message.padata.as_ref();
            check_timestamp(alloc, incoming.ready, row, incoming.at, padata)
        }
        None => Ok(Outcome::Absent),
    }
}

fn is_bad_version(message: &KdcReqRef<'_>) -> bool
    ensures { result ≡ is_bad_version message.now }
{
    message.pvno != PVNO
}

fn is_bad_message_type(message: &KdcReqRef<'_>) -> bool
    ensures { result ≡ is_bad_message_type message.now }
{
    message.msg_type != i32::from(AS_REQ)
}

/// Checks whether the realm is another one, no client is named, or the client has no row.
fn is_client_unknown(view: &AsView<'_>, body: &ReqBodyRef<'_>) -> bool
    ensures { result ≡ is_client_unknown view.now body.now }
{
    body.realm.as_slice() != view.realm || body.cname.is_none() || view.client.is_none()
}

/// Checks whether no service is named, or the service has no row.
fn is_service_unknown(view: &AsView<'_>, body: &ReqBodyRef<'_>) -> bool
    ensures { result ≡ is_service_unknown view.now body.now }
{
    body.sname.is_none() || view.service.is_none()
}

/// Checks whether the client is locked by its failures for its current key version.
fn is_client_locked(view: &AsView<'_>, at: Moment) -> bool
    ensures { result ≡ is_client_locked view.now at.sec }
{
    is_locked(view.current_failures(), view.limits, at)
}

/// Checks whether no tickets may be issued for the service.
fn is_service_denied(view: &AsView<'_>, body: &ReqBodyRef<'_>) -> bool
    ensures { result ≡ is_service_denied view.now body.now }
{
    denies_tickets(view.realm, body.sname.as_ref(), view.service)
}

fn has_expired_password(row: Option<&Row>, at: Moment) -> bool
    ensures { result ≡ has_expired_password (option_copied row.entry) at.sec }
{
    match row {
        Some(row) => has_come(row.policy.password_expires, at),
        None => false,
    }
}

/// Checks for options that only a TGS-REQ may have.
fn asks_bad_option(body: &ReqBodyRef<'_>) -> bool
    ensures { result ≡ asks_bad_option body.now }
{
    asks(body, KdcOption::Forwarded)
        || asks(body, KdcOption::Proxy)
        || asks(body, KdcOption::EncTktInSkey)
        || asks(body, KdcOption::Renew)
        || asks(body, KdcOption::Validate)
}

/// Checks whether the client's row requires a timestamp and the request has none.
fn lacks_preauth(row: Option<&Row>, timestamp: Outcome) -> bool
    ensures { result ≡ lacks_preauth (option_copied row.entry) timestamp }
{
    is_absent(timestamp) && needs_preauth(row)
}

fn needs_preauth(row: Option<&Row>) -> bool
    ensures { result ≡ needs_preauth (option_copied row.entry) }
{
    match row {
        Some(row) => row.policy.preauth,
        None => false,
    }
}

fn is_postdating_refused(view: &AsView<'_>, body: &ReqBodyRef<'_>) -> bool
    ensures { result ≡ is_postdating_refused view.now body.now }
{
    let postdating = asks(body, KdcOption::Postdated) || asks(body, KdcOption::AllowPostdate);
    postdating && (forbids_postdating(view.client) || forbids_postdating(view.service))
}

fn forbids_postdating(row: Option<&Row>) -> bool
    ensures { result ≡ forbids_postdating (option_copied row.entry) }
{
    match row {
        Some(row) => !row.policy.postdate,
        None => false,
    }
}

fn is_bad(timestamp: Outcome) -> bool
    ensures { result ≡ is_bad timestamp }
{
    matches!(timestamp, Outcome::Bad)
}

fn is_timestamp_skewed(timestamp: Outcome) -> bool
    ensures { result ≡ is_timestamp_skewed timestamp }
{
    matches!(timestamp, Outcome::Skewed)
}

fn is_absent(timestamp: Outcome) -> bool
    ensures { result ≡ is_absent timestamp }
{
    matches!(timestamp, Outcome::Absent)
}

/// Checks whether a current key decrypts the timestamp, and its time is within the clock skew.
pub fn is_good(timestamp: Outcome) -> bool
    ensures { result ≡ is_good timestamp }
{
    matches!(timestamp, Outcome::Good)
}

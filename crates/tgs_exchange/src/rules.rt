//! The rules of the TGS exchange after decryption, one condition each: those of the ticket's times (RFC 4120, section
//! 3.2.3), of revoked tickets (section 3.3.3.1) and of the request (section 3.3.3).
ghost use Rattle.std.specs.Prelude.{◌≡◌, option_copied};
ghost use Rattle.tgs_exchange.specs.Rules.{admitted_by, asks_bad_option, client_rules};
ghost use Rattle.tgs_exchange.specs.Rules.{has_nothing_to_validate, is_before, is_for_other_service};
ghost use Rattle.tgs_exchange.specs.Rules.{is_not_yet_valid, is_renewed_too_late, is_service_unknown};
ghost use Rattle.tgs_exchange.specs.Rules.{is_ticket_revoked, is_validated_too_early, lacks_flag, rules_by};
ghost use Rattle.tgs_exchange.specs.Rules.{is_service_denied, starts_late};

use crate::terms::{Admission, Terms, allowed_times, complete_admission};
use crate::view::TgsView;
use ap_req::{ApRefusal, has_ended, has_not_started, ticket_terms};
use kdc_replies::{denies_tickets, is_disabled, is_expired};
use krb_fields::{KdcOption, Moment, Name, Second, TicketFlag};
use krb_types::ReqBodyRef;
use principal_rows::Row;
use rule_lists::decide;
use tgs_opening::{Presented, TgsRefusal, is_named};
use ticket_times::{TicketTerms, Times, asks, keeps_ticket, starts_too_late};

/// Returns the rules of the client, in order. `authtime` is the second when it was first authenticated.
pub fn client_rules(view: &TgsView<'_>, at: Moment, authtime: i64) -> [(bool, TgsRefusal); 4]
    ensures { result ≡ client_rules view.now at.sec authtime }
{
    [
        (view.client.is_none(), TgsRefusal::ClientUnknown),
        (is_disabled(view.client), TgsRefusal::ClientDisabled),
        (is_expired(view.client, at), TgsRefusal::ClientExpired),
        (
            is_ticket_revoked(view.client, authtime),
            TgsRefusal::TicketRevoked,
        ),
    ]
}

/// Returns the admission, or the first rule that refuses.
pub fn admitted(
    view: &TgsView<'_>,
    at: Moment,
    body: &ReqBodyRef<'_>,
    presented: &Presented,
    terms: Option<Terms>,
) -> Result<Admission, TgsRefusal>
    ensures { result ≡ admitted_by view.now at.sec body.now presented.now terms }
{
    let ticket = ticket_terms(&presented.ticket);
    let times = allowed_times(view.limits, at, &ticket, body, &terms);
    let rules = rules_by(view, at, body, presented, &terms, &times);
    let admission = complete_admission(terms, times);
    // If no rule holds, there are terms and times, so the last reason is never given for any other cause.
    decide(&rules, admission, TgsRefusal::NeverValid)
}

/// Returns all rules, in order.
fn rules_by(
    view: &TgsView<'_>,
    at: Moment,
    body: &ReqBodyRef<'_>,
    presented: &Presented,
    terms: &Option<Terms>,
    times: &Option<Times>,
) -> [(bool, TgsRefusal); 15]
    ensures { result ≡ rules_by view.now at.sec body.now presented.now terms.now times.now }
{
    let ticket = &ticket_terms(&presented.ticket);
    [
        (
            is_not_yet_valid(ticket, at, body),
            TgsRefusal::Ap(ApRefusal::NotYetValid),
        ),
        (
            has_ended(ticket, at),
            TgsRefusal::Ap(ApRefusal::TicketExpired),
        ),
        (is_service_unknown(view, body), TgsRefusal::ServiceUnknown),
        (is_service_denied(view, body), TgsRefusal::ServiceDenied),
        (is_disabled(view.service), TgsRefusal::ServiceRevoked),
        (is_expired(view.service, at), TgsRefusal::ServiceExpired),
        (
            is_for_other_service(body, &presented.ticket_service),
            TgsRefusal::OtherService,
        ),
        (
            body.enc_authorization_data.is_some(),
            TgsRefusal::AuthorizationData,
        ),
        (asks_bad_option(body, ticket), TgsRefusal::BadOption),
        (
            has_nothing_to_validate(body, ticket),
            TgsRefusal::NothingToValidate,
        ),
        (
            is_validated_too_early(body, ticket, at),
            TgsRefusal::ValidatedTooEarly,
        ),
        (
            is_renewed_too_late(body, ticket, at),
            TgsRefusal::RenewedTooLate,
        ),
        (terms.is_none(), TgsRefusal::NoCommonType),
        (starts_late(body, at), TgsRefusal::StartsTooLate),
        (times.is_none(), TgsRefusal::NeverValid),
    ]
}

/// Checks whether the client was first authenticated before the moment that revokes its earlier tickets (section
/// 3.3.3.1).
fn is_ticket_revoked(row: Option<&Row>, authtime: i64) -> bool
    ensures { result ≡ is_ticket_revoked (option_copied row.entry) authtime }
{
    match row {
        Some(row) => is_before(authtime, row.policy.revoked_before),
        None => false,
    }
}

fn is_before(time: i64, revoked_before: Option<Second>) -> bool
    ensures { result ≡ is_before time revoked_before }
{
    match revoked_before {
        Some(moment) => time < moment.get(),
        None => false,
    }
}

/// Checks whether the ticket starts later than the clock skew allows, or has yet to be validated, and this request
/// doesn't ask for that.
fn is_not_yet_valid(ticket: &TicketTerms, at: Moment, body: &ReqBodyRef<'_>) -> bool
    ensures { result ≡ is_not_yet_valid ticket.now at.sec body.now }
{
    has_not_started(ticket, at)
        || (ticket.has(TicketFlag::Invalid) && !asks(body, KdcOption::Validate))
}

/// Checks whether the realm isn't ours, no service is named, or it has no row.
fn is_service_unknown(view: &TgsView<'_>, body: &ReqBodyRef<'_>) -> bool
    ensures { result ≡ is_service_unknown view.now body.now }
{
    body.realm.as_slice() != view.realm || body.sname.is_none() || view.service.is_none()
}

/// Checks whether no tickets may be issued for the service.
fn is_service_denied(view: &TgsView<'_>, body: &ReqBodyRef<'_>) -> bool
    ensures { result ≡ is_service_denied view.now body.now }
{
    denies_tickets(view.realm, body.sname.as_ref(), view.service)
}

/// Checks whether the ticket is to be renewed or validated for another service than its own.
fn is_for_other_service(body: &ReqBodyRef<'_>, ticket_service: &Name) -> bool
    ensures { result ≡ is_for_other_service body.now ticket_service.now }
{
    keeps_ticket(body) && !is_named(body.sname.as_ref(), ticket_service)
}

/// Checks for ENC-TKT-IN-SKEY; RENEW with VALIDATE; or an option whose flag the ticket lacks.
fn asks_bad_option(body: &ReqBodyRef<'_>, ticket: &TicketTerms) -> bool
    ensures { result ≡ asks_bad_option body.now ticket.now }
{
    asks(body, KdcOption::EncTktInSkey)
        || (asks(body, KdcOption::Renew) && asks(body, KdcOption::Validate))
        || lacks_flag(
            body,
            ticket,
            KdcOption::Forwardable,
            TicketFlag::Forwardable,
        )
        || lacks_flag(body, ticket, KdcOption::Forwarded, TicketFlag::Forwardable)
        || lacks_flag(body, ticket, KdcOption::Proxiable, TicketFlag::Proxiable)
        || lacks_flag(body, ticket, KdcOption::Proxy, TicketFlag::Proxiable)
        || lacks_flag(
            body,
            ticket,
            KdcOption::AllowPostdate,
            TicketFlag::MayPostdate,
        )
        || lacks_flag(body, ticket, KdcOption::Postdated, TicketFlag::MayPostdate)
        || lacks_flag(body, ticket, KdcOption::Renewable, TicketFlag::Renewable)
        || lacks_flag(body, ticket, KdcOption::Renew, TicketFlag::Renewable)
}

/// Checks whether the request has this option, and the ticket lacks the flag that it needs.
fn lacks_flag(
    body: &ReqBodyRef<'_>,
    ticket: &TicketTerms,
    option: KdcOption,
    flag: TicketFlag,
) -> bool
    ensures { result ≡ lacks_flag body.now ticket.now option flag }
{
    asks(body, option) && !ticket.has(flag)
}

fn has_nothing_to_validate(body: &ReqBodyRef<'_>, ticket: &TicketTerms) -> bool
    ensures { result ≡ has_nothing_to_validate body.now ticket.now }
{
    asks(body, KdcOption::Validate) && !ticket.has(TicketFlag::Invalid)
}

fn is_validated_too_early(body: &ReqBodyRef<'_>, ticket: &TicketTerms, at: Moment) -> bool
    ensures { result ≡ is_validated_too_early body.now ticket.now at.sec }
{
    asks(body, KdcOption::Validate) && at.sec < ticket.start()
}

fn is_renewed_too_late(body: &ReqBodyRef<'_>, ticket: &TicketTerms, at: Moment) -> bool
    ensures { result ≡ is_renewed_too_late body.now ticket.now at.sec }
{
    asks(body, KdcOption::Renew) && ticket.renewal() < at.sec
}

/// Checks whether a new ticket's start is requested without POSTDATED, and lies beyond the clock skew.
fn starts_late(body: &ReqBodyRef<'_>, at: Moment) -> bool
    ensures { result ≡ starts_late body.now at.sec }
{
    !keeps_ticket(body) && starts_too_late(at.sec, body)
}

//! The times of a ticket (RFC 4120 sections 3.1.3 and 3.3.3).
ghost use Rattle.std.specs.Prelude.{◌≡◌, ◌≤ℤ◌, IfSome};
ghost use Rattle.std.specs.Option.{unwrap_or};
ghost use Rattle.krb_der.specs.Civil.{IsCivilSecond};
ghost use Rattle.krb_fields.specs.Moment.{IsSecond};
ghost use Rattle.ticket_times.specs.Least.{last_second, least};
ghost use Rattle.ticket_times.specs.Times.{bound_asked, later, starts_too_late, start_of, end_of, wanted};
ghost use Rattle.ticket_times.specs.Times.{renewable_until, renew_till_of};
ghost use Rattle.ticket_times.specs.Times.{IsTimes, valid_times, fresh_times, as_times, kept_renewal, validated_times};
ghost use Rattle.ticket_times.specs.Times.{lived_again, renewed_ends, renewed_times, tgs_times};

use crate::TicketTerms;
use crate::asked::asks;
use crate::ceiling::Ceiling;
use crate::earliest::earliest;
use krb_der::KTime;
use krb_fields::{KdcOption, Moment, SKEW, TicketFlag};
use krb_types::ReqBodyRef;
use principal_rows::{Limits, Policy};

/// The times of a new ticket.
#[derive(Clone, Copy, Debug, PartialEq, Eq)]
pub struct Times {
    /// When the ticket starts.
    pub start: KTime,
    /// When the ticket expires.
    pub end: KTime,
    /// Until when the ticket is renewable; `None` if it isn't.
    pub renew_till: Option<KTime>,
}

/// Returns the times of a ticket of the AS exchange, or `None` if it would not end after it starts.
pub fn as_times(
    at: Moment,
    client: &Policy,
    service: &Policy,
    limits: &Limits,
    body: &ReqBodyRef<'_>,
) -> Option<Times>
    // Promise (value, range): the times of a ticket are those of the definition: civil seconds, the end after the
    // start; `starts_too_late` says whether a request asks for a start that needs POSTDATED without this option.
    ensures value { result ≡ as_times at.sec client.now service.now limits.now body.now }
    ensures range { IfSome result IsTimes }
{
    fresh_times(at.sec, &Ceiling::none(), client, service, limits, body)
}

/// Returns the times of a ticket of the TGS exchange, which is requested with this ticket, or `None` if it would not
/// end after it starts.
pub fn tgs_times(
    at: Moment,
    ticket: &TicketTerms,
    client: &Policy,
    service: &Policy,
    limits: &Limits,
    body: &ReqBodyRef<'_>,
) -> Option<Times>
    // Promise (value, range), as as_times: the times of a ..
    ensures value { result ≡ tgs_times at.sec ticket.now client.now service.now limits.now body.now }
    ensures range { IfSome result IsTimes }
{
    if asks(body, KdcOption::Validate) {
        return validated_times(ticket);
    }
    if asks(body, KdcOption::Renew) {
        return renewed_times(at.sec, ticket);
    }
    fresh_times(at.sec, &Ceiling::of(ticket), client, service, limits, body)
}

/// Returns the times of a new ticket.
fn fresh_times(
    now: i64,
    ceiling: &Ceiling,
    client: &Policy,
    service: &Policy,
    limits: &Limits,
    body: &ReqBodyRef<'_>,
) -> Option<Times>
    requires { IsSecond now }
    ensures value { result ≡ fresh_times now ceiling.now client.now service.now limits.now body.now }
    ensures range { IfSome result IsTimes }
{
    let start = ticket_start(now, body);
    let end = latest_end(start, ceiling, client, service, limits, body);
    let renew_till = match wanted(ceiling, body, end) {
        Some(wanted) => renewable_until(start, wanted, ceiling, client, service, limits),
        None => None,
    };
    valid_times(start, end, renew_till)
}

/// Returns the times of a validated ticket, which keeps those that it had.
fn validated_times(ticket: &TicketTerms) -> Option<Times>
    ensures value { result ≡ validated_times ticket.now }
    ensures range { IfSome result IsTimes }
{
    valid_times(
        ticket.start(),
        ticket.endtime.seconds(),
        kept_renewal(ticket),
    )
}

/// Returns the times of a renewed ticket: it keeps its lifetime, but ends no later than its renew-till.
fn renewed_times(now: i64, ticket: &TicketTerms) -> Option<Times>
    requires { IsSecond now }
    ensures value { result ≡ renewed_times now ticket.now }
    ensures range { IfSome result IsTimes }
{
    valid_times(now, renewed_end(now, ticket), kept_renewal(ticket))
}

fn renewed_end(now: i64, ticket: &TicketTerms) -> i64
    requires { IsSecond now }
    ensures value { result ≡ least (renewed_ends now ticket.now) }
    ensures last { result ≤ℤ last_second }
{
    earliest(&[lived_again(now, ticket), ticket.renewal()])
}

/// Returns the end of a ticket that starts now and has the lifetime of this one.
fn lived_again(now: i64, ticket: &TicketTerms) -> i64
    requires { IsSecond now }
    ensures { result ≡ lived_again now ticket.now }
{
    now + (ticket.endtime.seconds() - ticket.start())
}

/// Returns the renew-till of a ticket that is renewed or validated.
fn kept_renewal(ticket: &TicketTerms) -> Option<KTime>
    ensures value { result ≡ kept_renewal ticket.now }
    ensures range { IfSome result IsCivilSecond }
{
    if ticket.has(TicketFlag::Renewable) {
        Some(KTime::of(ticket.renewal()))
    } else {
        None
    }
}

/// Returns these times, if the end is after the start.
fn valid_times(start: i64, end: i64, renew_till: Option<KTime>) -> Option<Times>
    requires start { IsCivilSecond start }
    requires end { end ≤ℤ last_second }
    requires renew_till { IfSome renew_till IsCivilSecond }
    ensures value { result ≡ valid_times start end renew_till }
    ensures range { IfSome result IsTimes }
{
    if end <= start {
        return None;
    }
    Some(Times {
        start: KTime::of(start),
        end: KTime::of(end),
        renew_till,
    })
}

/// Checks whether the request asks for a start beyond the clock skew without the option POSTDATED.
pub fn starts_too_late(now: i64, body: &ReqBodyRef<'_>) -> bool
    requires { IsSecond now }
    // Promise, as as_times: the times of a ..
    ensures { result ≡ starts_too_late now body.now }
{
    !asks(body, KdcOption::Postdated) && now + SKEW < from_or(now, body)
}

fn ticket_start(now: i64, body: &ReqBodyRef<'_>) -> i64
    requires { IsSecond now }
    ensures value { result ≡ start_of now body.now }
    ensures range { IsSecond result }
{
    if asks(body, KdcOption::Postdated) {
        now.max(from_or(now, body))
    } else {
        now
    }
}

/// Returns the requested start, or now.
fn from_or(now: i64, body: &ReqBodyRef<'_>) -> i64
    requires { IsSecond now }
    ensures value { result ≡ unwrap_or body.now.from now }
    ensures range { result ≤ℤ last_second }
{
    match body.from {
        Some(from) => from.seconds(),
        None => now,
    }
}

/// Returns the latest end of a ticket with this start.
fn latest_end(
    start: i64,
    ceiling: &Ceiling,
    client: &Policy,
    service: &Policy,
    limits: &Limits,
    body: &ReqBodyRef<'_>,
) -> i64
    requires { IsSecond start }
    ensures value { result ≡ end_of start ceiling.now client.now service.now limits.now body.now }
    ensures last { result ≤ℤ last_second }
{
    earliest(&[
        bound_asked(body.till),
        ceiling.end,
        later(start, client.greatest_life),
        later(start, service.greatest_life),
        later(start, limits.greatest_life),
        Moment::LAST_SECOND,
    ])
}

/// Returns until when the ticket should be renewable, if at all.
fn wanted(ceiling: &Ceiling, body: &ReqBodyRef<'_>, end: i64) -> Option<i64>
    ensures { result ≡ wanted ceiling.now body.now end }
{
    if asks(body, KdcOption::Renewable) {
        return Some(match body.rtime {
            Some(rtime) => bound_asked(rtime),
            None => Moment::LAST_SECOND,
        });
    }
    let till = body.till.seconds();
    if asks(body, KdcOption::RenewableOk) && ceiling.renewable_ok && till != 0 && end < till {
        return Some(till);
    }
    None
}

/// Returns until when a ticket with this start is renewable, or `None` if that would not be after its start.
fn renewable_until(
    start: i64,
    wanted: i64,
    ceiling: &Ceiling,
    client: &Policy,
    service: &Policy,
    limits: &Limits,
) -> Option<KTime>
    requires { IsSecond start }
    ensures value { result ≡ renewable_until start wanted ceiling.now client.now service.now limits.now }
    ensures range { IfSome result IsCivilSecond }
{
    let until = earliest(&[
        wanted,
        ceiling.renew_till,
        later(start, client.greatest_renewable),
        later(start, service.greatest_renewable),
        later(start, limits.greatest_renewable),
        Moment::LAST_SECOND,
    ]);
    if start < until {
        Some(KTime::of(until))
    } else {
        None
    }
}

/// Returns a requested time; zero asks for no bound.
fn bound_asked(time: KTime) -> i64
    ensures { result ≡ bound_asked time }
{
    if time.seconds() == 0 {
        Moment::LAST_SECOND
    } else {
        time.seconds()
    }
}

fn later(time: i64, seconds: u32) -> i64
    requires { IsSecond time }
    ensures { result ≡ later time seconds }
{
    time + i64::from(seconds)
}

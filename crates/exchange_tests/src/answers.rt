//! Tests of the calls that answer a request once it is read: `as_answer`, `tgs_open` and `tgs_answer`. Each is called
//! by itself, and again if memory ran out.
ghost use Rattle.std.specs.Prelude.{◌≡◌, ◌<◌, true, length, IfOk, IfSome, option_copied};
ghost use Rattle.as_exchange.specs.Known.{IsKnown as IsKnownLogin};
ghost use Rattle.kdc_core.specs.Contents.{IsShortData, IsShortName};
ghost use Rattle.krb_fields.specs.NameLimits.{IsWithinLimits};
ghost use Rattle.tgs_exchange.specs.Known.{IsKnown};
ghost use Rattle.tgs_opening.specs.Tickets.{tgs_data};

use crate::fixtures::{BEGIN, END, JUDGED, holds, is_spelled, mark, octets};
use crate::kdcs::{addition, extended, first_database, limits, moment, random_octets};
use as_exchange::{AsAnswer, AsView, as_answer};
use encrypted_data::ReadyKeys;
use kdc_replies::Incoming;
use krb_fields::NameRef;
use krb_fields::numbers::PA_TGS_REQ;
use krb_types::{Exchange, KdcReqRef, read_kdc_req};
use preauth::first_padata;
use principal_rows::{Limits, Row};
use principals::Database;
use replay::{Failures, Kept, ReplayCache};
use std::alloc::{AllocError, Global};
use std::test::Fail;
use tgs_exchange::{TgsAnswer, TgsView, tgs_answer};
use tgs_opening::{OpeningRefusal, Presented, TicketView, tgs_open};

/// Returns the database of `LOGIN` and `TGS_REQ`: the keys of `krbtgt/A.B`, `u` and `h` count up from 128, 64 and 160.
fn realm(alloc: Global) -> Result<Database, Fail> {
    let (user, service) = (
        addition(alloc, b'u', (64, 1))?,
        addition(alloc, b'h', (160, 1))?,
    );
    let first = first_database(alloc, b"A.B", (128, 1))?;
    match extended(alloc, first, &user) {
        Ok(database) => extended(alloc, database, &service),
        Err(fail) => Err(fail),
    }
}

/// Reads a request, if it is short enough that the calls may answer it.
fn read_short(request: &[u8]) -> Option<(Exchange, KdcReqRef<'_>)>
    ensures sname { IfSome result (λ found. IsShortName found.1) }
{
    if request.len() > 65_535 {
        return None;
    }
    let Ok(found) = read_kdc_req(request) else {
        return None;
    };
    Some(found)
}

/// Checks whether a name, if there is one, is within the limits, as that of a principal with a row is.
fn may_have_row(alloc: Global, name: Option<&NameRef<'_>>) -> bool
    ensures { result ≡ true → IfSome (option_copied name.entry) (λ n. IsWithinLimits n.components) }
{
    let Some(name) = name else {
        return true;
    };
    match name.to_name(alloc) {
        Ok(name) => name.is_within_limits(),
        Err(_) => false,
    }
}

fn row<'d>(database: &'d Database, name: Option<&NameRef<'_>>) -> Option<&'d Row> {
    database.get_ref(name?)
}

// ---- an AS-REQ

/// Returns what a login is answered from, if its client and its service have rows.
fn as_view<'d>(
    alloc: Global,
    database: &'d Database,
    limits: &'d Limits,
    message: &KdcReqRef<'_>,
) -> Option<AsView<'d>>
    requires { IsShortName message.now }
    ensures { IfSome result (λ view. IsKnownLogin view message.now.body.value) }
{
    let body = &message.body.value;
    if !may_have_row(alloc, body.cname.as_ref()) || !may_have_row(alloc, body.sname.as_ref()) {
        return None;
    }
    let client = row(database, body.cname.as_ref())?;
    let service = row(database, body.sname.as_ref())?;
    Some(AsView {
        realm: database.realm(),
        limits,
        client: Some(client),
        service: Some(service),
        failures: Failures::none(),
    })
}

/// Answers an AS-REQ, by a second call if memory ran out in the first one.
fn as_answered(
    alloc: Global,
    view: &AsView<'_>,
    incoming: &Incoming<'_>,
    message: &KdcReqRef<'_>,
) -> Result<AsAnswer, AllocError>
    requires { IsKnownLogin view.now message.now.body.value }
{
    mark(alloc, BEGIN);
    let first = as_answer(alloc, view, incoming, message);
    mark(alloc, END);
    match first {
        Ok(answer) => Ok(answer),
        Err(AllocError) => as_answer(alloc, view, incoming, message),
    }
}

/// Checks whether `LOGIN` gets `LOGIN_REP`.
fn is_login_answered(
    alloc: Global,
    database: &Database,
    incoming: &Incoming<'_>,
) -> Result<bool, Fail> {
    let limits = limits(0)?;
    let (_, message) = read_short(incoming.octets).ok_or("a short request")?;
    let view = as_view(alloc, database, &limits, &message).ok_or("two rows")?;
    let answer = as_answered(alloc, &view, incoming, &message)?;
    Ok(is_spelled(&answer.reply, "LOGIN_REP"))
}

// ---- a TGS-REQ

/// Checks that the AP-REQ in a request is short enough for the calls.
fn has_short_data(message: &KdcReqRef<'_>) -> bool
    ensures { result ≡ true → IfSome (tgs_data message.now) (λ value. length value < 2147483648) }
{
    match first_padata(PA_TGS_REQ, message.padata.as_ref()) {
        Some(value) => value.as_slice().len() < 65_536,
        None => true,
    }
}

/// Decrypts what a TGS-REQ presents, by a second call if memory ran out in the first one.
fn opened(
    alloc: Global,
    view: &TicketView<'_>,
    message: &KdcReqRef<'_>,
) -> Result<Result<Presented, OpeningRefusal>, AllocError>
    requires { IfSome (tgs_data message.now) (λ value. length value < 2147483648) }
    ensures { IfOk result (λ found. IfOk found (λ presented. IsShortData presented)) }
{
    mark(alloc, BEGIN);
    let first = tgs_open(alloc, view, message);
    mark(alloc, END);
    match first {
        Ok(found) => Ok(found),
        Err(AllocError) => tgs_open(alloc, view, message),
    }
}

/// Returns what a TGS-REQ is answered from, if its client and its service have rows.
fn tgs_view<'d>(
    alloc: Global,
    database: &'d Database,
    limits: &'d Limits,
    cache: &'d ReplayCache<Kept>,
    message: &KdcReqRef<'_>,
    presented: &Presented,
) -> Option<TgsView<'d>>
    requires sname { IsShortName message.now }
    requires authorization { IsShortData presented.now }
    ensures { IfSome result (λ view. IsKnown view message.now.body.value presented.now) }
{
    let body = &message.body.value;
    let client_name = &presented.ticket.cname;
    if !client_name.is_within_limits() || !may_have_row(alloc, body.sname.as_ref()) {
        return None;
    }
    let client = database.get(client_name)?;
    let service = row(database, body.sname.as_ref())?;
    Some(TgsView {
        realm: database.realm(),
        limits,
        client: Some(client),
        service: Some(service),
        cache,
    })
}

/// Answers a TGS-REQ, by a second call if memory ran out in the first one.
fn tgs_answered(
    alloc: Global,
    view: &TgsView<'_>,
    incoming: &Incoming<'_>,
    message: &KdcReqRef<'_>,
    presented: &Presented,
) -> Result<TgsAnswer, AllocError>
    requires { IsKnown view.now message.now.body.value presented.now }
{
    let body = &message.body.value;
    mark(alloc, BEGIN);
    let first = tgs_answer(alloc, view, incoming, body, presented);
    mark(alloc, END);
    match first {
        Ok(answer) => Ok(answer),
        Err(AllocError) => tgs_answer(alloc, view, incoming, body, presented),
    }
}

/// Checks whether `TGS_REQ` gets `TGS_REP`.
fn is_ticket_issued(
    alloc: Global,
    database: &Database,
    incoming: &Incoming<'_>,
) -> Result<bool, Fail> {
    let limits = limits(0)?;
    let (_, message) = read_short(incoming.octets).ok_or("a short request")?;
    if !has_short_data(&message) {
        return Err(Fail::from("a short AP-REQ"));
    }
    let view = TicketView {
        realm: database.realm(),
        tgs: database.tgs(),
        service: row(database, message.body.value.sname.as_ref()),
        ready: incoming.ready,
    };
    match opened(alloc, &view, &message)? {
        Ok(presented) => is_presented_answered(
            alloc, database, &limits, incoming, &message, &presented,
        ),
        Err(_) => Ok(false),
    }
}

/// Checks whether a request that presents this gets `TGS_REP`.
fn is_presented_answered(
    alloc: Global,
    database: &Database,
    limits: &Limits,
    incoming: &Incoming<'_>,
    message: &KdcReqRef<'_>,
    presented: &Presented,
) -> Result<bool, Fail>
    requires sname { IsShortName message.now }
    requires authorization { IsShortData presented.now }
{
    let cache = ReplayCache::empty(alloc, 0);
    let view = tgs_view(alloc, database, limits, &cache, message, presented).ok_or("two rows")?;
    let answer = tgs_answered(alloc, &view, incoming, message, presented)?;
    Ok(is_spelled(&answer.reply, "TGS_REP"))
}

// ---- both

/// Checks whether a request that comes at midnight, while the KDC draws these random bytes, gets its reply.
fn is_answered(
    alloc: Global,
    exchange: Exchange,
    request: &str,
    random: &str,
) -> Result<bool, Fail> {
    let database = realm(alloc)?;
    let request = octets(alloc, request)?;
    let random = random_octets(random)?;
    let ready = ReadyKeys::new(alloc)?;
    let incoming = Incoming {
        at: moment(0)?,
        random: &random,
        room: 1400,
        octets: &request,
        ready: &ready,
    };
    match exchange {
        Exchange::As => is_login_answered(alloc, &database, &incoming),
        Exchange::Tgs => is_ticket_issued(alloc, &database, &incoming),
    }
}

#[test]
fn a_login_is_answered_after_memory_ran_out(rt: HostRuntime) -> Result<(), Fail> {
    let is_right = is_answered(rt.alloc(), Exchange::As, "LOGIN", "LOGIN_RANDOM")?;
    holds(&rt, is_right, "LOGIN_REP");
    mark(rt.alloc(), JUDGED);
    Ok(())
}

#[test]
fn a_ticket_is_opened_and_issued_after_memory_ran_out(rt: HostRuntime) -> Result<(), Fail> {
    let is_right = is_answered(rt.alloc(), Exchange::Tgs, "TGS_REQ", "UP_FROM_64")?;
    holds(&rt, is_right, "TGS_REP");
    mark(rt.alloc(), JUDGED);
    Ok(())
}

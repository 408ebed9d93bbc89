//! What a client requests from a KDC (RFC 4120, section 5.4.1).
ghost use Rattle.std.specs.Prelude.{◌≡◌, ◌<◌, ◌^◌, IfOk};
ghost use Rattle.client_login.specs.Asking.{renewal_option, renewal_options, first_asked, from_of, further_asked};
ghost use Rattle.client_login.specs.Asking.{options_of, rtime_of, till_by, till_of, time_after, up_to_last, with_if};
ghost use Rattle.client_login.specs.Asking.{with_kept};
ghost use Rattle.client_login.specs.Keys.{offered};

use client_core::Asked;
use cred_files::Principal;
use enctypes::Etype;
use krb_der::KTime;
use krb_elements::Seq;
use krb_fields::{Flags, KdcOption, Moment, Name};
use std::alloc::{AllocError, Global};

/// A client that logs in, and its first ticket.
#[derive(Drop)]
pub struct Login {
    /// The client, with its realm.
    pub client: Principal,
    /// A service of the client's realm, usually [`krb_fields::tgs_name`].
    pub service: Name,
    /// What the client requests of the ticket.
    pub request: TicketRequest,
}

/// The properties that a client requests of its first ticket.
#[derive(Clone, Copy)]
pub struct TicketRequest {
    /// The lifetime in seconds; absent: the longest that the KDC gives.
    pub lifetime: Option<u32>,
    /// The seconds until it starts; absent: it starts at once. A ticket that starts later has to be validated then.
    pub start: Option<u32>,
    /// Whether it is to be renewable (RFC 4120, section 2.3).
    pub renewable: bool,
    /// How long a renewable ticket can be renewed, in seconds from its start; absent: the longest that the KDC gives.
    pub renew_lifetime: Option<u32>,
    /// Whether it is to be forwardable (RFC 4120, section 2.6).
    pub forwardable: bool,
    /// Whether it is to be proxiable (RFC 4120, section 2.5).
    pub proxiable: bool,
}

impl TicketRequest {
    /// A ticket that starts at once, with the longest lifetime that the KDC gives and without options.
    pub const PLAIN: TicketRequest = TicketRequest {
        lifetime: None,
        start: None,
        renewable: false,
        renew_lifetime: None,
        forwardable: false,
        proxiable: false,
    };
}

/// What to do with a ticket that the client has.
#[derive(Clone, Copy)]
pub enum Renewal {
    /// It gets a later end.
    Renew,
    /// It becomes valid, once it has started.
    Validate,
}

/// Returns the request for a first ticket.
pub(crate) fn first_asked(
    alloc: Global,
    login: &Login,
    etypes: Seq<Etype>,
    at: Moment,
    nonce: u32,
) -> Result<Asked, AllocError>
    // Promise: a request has the options, the start and the end of the definition; it has the types of the client's
    // keys in a keytab, or else all four.
    ensures { IfOk result (λ asked. asked ≡ first_asked login.now etypes at.sec nonce) }
{
    let request = &login.request;
    Ok(Asked {
        options: options(request),
        client: login.client.name.copy(alloc)?,
        realm: login.client.realm.copy(alloc)?,
        service: login.service.copy(alloc)?,
        from: from(request, at),
        till: till(request, at),
        rtime: rtime(request, at),
        nonce,
        etypes,
    })
}

/// A ticket that a client wants with a ticket-granting ticket.
#[derive(Clone, Copy)]
pub(crate) struct FurtherTicket<'a> {
    /// The options. `krb_fields::KdcOption` names the bits.
    pub options: Flags,
    /// The client of the ticket-granting ticket, with its realm.
    pub client: &'a Principal,
    /// A service of the client's realm.
    pub service: &'a Name,
}

/// Returns the request for a ticket with a ticket-granting ticket. It is to end as late as that one.
pub(crate) fn further_asked(
    alloc: Global,
    wanted: &FurtherTicket<'_>,
    nonce: u32,
) -> Result<Asked, AllocError>
    // Promise, as first_asked: a request has the ..
    ensures { IfOk result (λ asked.
        asked ≡ further_asked wanted.now.options wanted.now.client.now wanted.now.service.now nonce) }
{
    Ok(Asked {
        options: wanted.options,
        client: wanted.client.name.copy(alloc)?,
        realm: wanted.client.realm.copy(alloc)?,
        service: wanted.service.copy(alloc)?,
        from: None,
        till: KTime::of(0),
        rtime: None,
        nonce,
        etypes: offered(alloc)?,
    })
}

/// Returns the encryption types that a client accepts, in order of preference.
pub(crate) fn offered(alloc: Global) -> Result<Seq<Etype>, AllocError>
    ensures { IfOk result (λ etypes. etypes ≡ offered) }
{
    let mut etypes = Seq::new(alloc);
    etypes.push(Etype::Aes256CtsHmacSha1_96)?;
    etypes.push(Etype::Aes128CtsHmacSha1_96)?;
    etypes.push(Etype::Aes256CtsHmacSha384_192)?;
    etypes.push(Etype::Aes128CtsHmacSha256_128)?;
    Ok(etypes)
}

fn options(request: &TicketRequest) -> Flags
    ensures { result ≡ options_of request.now }
{
    let options = with_if(Flags::from_bits(0), request.renewable, KdcOption::Renewable);
    let options = with_if(options, request.forwardable, KdcOption::Forwardable);
    let options = with_if(options, request.proxiable, KdcOption::Proxiable);
    with_if(options, request.start.is_some(), KdcOption::Postdated)
}

fn with_if(options: Flags, wanted: bool, option: KdcOption) -> Flags
    ensures { result ≡ with_if wanted option options }
{
    if wanted {
        options.with(option)
    } else {
        options
    }
}

/// Returns the options that renew or validate a ticket with these flags. If the ticket has the flag of an option, the
/// option is requested again, because some KDCs clear the flag otherwise.
pub(crate) fn renewal_options(renewal: Renewal, flags: Flags) -> Flags
    // Promise, as first_asked: a request has the ..
    ensures { result ≡ renewal_options renewal flags }
{
    let options = with_if(Flags::from_bits(0), true, renewal_option(renewal));
    let options = with_kept(options, flags, KdcOption::Forwardable);
    let options = with_kept(options, flags, KdcOption::Proxiable);
    let options = with_kept(options, flags, KdcOption::AllowPostdate);
    with_kept(options, flags, KdcOption::Renewable)
}

fn renewal_option(renewal: Renewal) -> KdcOption
    ensures { result ≡ renewal_option renewal }
{
    match renewal {
        Renewal::Renew => KdcOption::Renew,
        Renewal::Validate => KdcOption::Validate,
    }
}

/// Adds an option if the flags have it. An option and the flag that it gives a ticket have the same number.
fn with_kept(options: Flags, flags: Flags, option: KdcOption) -> Flags
    ensures { result ≡ with_kept flags option options }
{
    with_if(options, flags.has(option), option)
}

/// Returns the time this many seconds from now, but no later than the end of the year 9999.
fn time_after(at: Moment, seconds: u64) -> KTime
    requires { seconds < 2 ^ 33 }
    ensures { result ≡ time_after at.sec seconds }
{
    KTime::of(up_to_last(at.sec + seconds as i64))
}

fn up_to_last(second: i64) -> i64
    ensures { result ≡ up_to_last second }
{
    if second > Moment::LAST_SECOND {
        Moment::LAST_SECOND
    } else {
        second
    }
}

fn from(request: &TicketRequest, at: Moment) -> Option<KTime>
    ensures { result ≡ from_of at.sec request.now }
{
    match request.start {
        Some(start) => Some(time_after(at, u64::from(start))),
        None => None,
    }
}

/// Returns the end to request.
fn till(request: &TicketRequest, at: Moment) -> KTime
    ensures { result ≡ till_of at.sec request.now }
{
    end_after(at, request.start.unwrap_or(0), request.lifetime)
}

/// Returns until when the ticket is to be renewable.
fn rtime(request: &TicketRequest, at: Moment) -> Option<KTime>
    ensures { result ≡ rtime_of at.sec request.now }
{
    if request.renewable {
        Some(end_after(at, request.start.unwrap_or(0), request.renew_lifetime))
    } else {
        None
    }
}

/// Returns the time this long after the start, in seconds; the start of 1970 requests no bound.
fn end_after(at: Moment, start: u32, life: Option<u32>) -> KTime
    ensures { result ≡ till_by at.sec start life }
{
    match life {
        Some(life) => time_after(at, u64::from(life) + u64::from(start)),
        None => KTime::of(0),
    }
}

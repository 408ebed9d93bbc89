//! The way of a ticket from the client's first request to the service.
ghost use Rattle.std.specs.Prelude.{IfOk};
ghost use Rattle.client_core.specs.Presenting.{IsShortChecksum};

use crate::asking::{MIDNIGHT, Parts, USER, WANT, Want, asked, moment, request, service_asked};
use crate::contents::{Terms, is_client, is_granted};
use crate::fixtures::{counted_key, has_octets_from, is_spelled, up};
use crate::outcomes::{Outcome, outcome_by};
use crate::paths::realm::{Types, USER_FIRST, kdc};
use crate::services::{limits, opened};
use ap_accept::{Accepted, Acceptor, ApFault};
use client_core::{KeyRole, ReplyError, session_key};
use cred_files::Credential;
use enctypes::Key;
use kdc_core::Kdc;
use krb_fields::Moment;
use krb_joined::{Answering, Client, Issuing, PathEnd, Reader, Sealing, end_to_end, obtain};
use std::alloc::{AllocError, Global};
use std::test::Fail;

/// A request of a ticket's path. The first one is an AS-REQ with a timestamp; each later one is a TGS-REQ with the
/// ticket from the request before it. Times are in seconds after midnight.
#[derive(Clone, Copy)]
pub struct Leg {
    /// When it is sent and answered.
    pub at: u32,
    pub options: u32,
    pub service: Parts,
    /// When the ticket is to start.
    pub from: Option<i64>,
}

impl Leg {
    /// Returns the first random byte of the KDC.
    fn octet(&self) -> u8 {
        (self.at % 256) as u8
    }
}

/// How a path ends.
#[derive(Clone, Copy, PartialEq, Eq)]
pub enum End {
    /// The service learns what was granted and sent.
    Accepted,
    /// The service learns something else.
    Other,
    NoReply,
    /// The client does not accept the KDC's reply.
    NotTaken(Outcome),
    NotPresentable,
    NotAccepted(ApFault),
    NotAnswered,
    /// The service accepts, and the client runs out of memory for its answer.
    Unheard,
    Memory,
}

fn end_by(end: &PathEnd) -> End {
    match end {
        PathEnd::NoReply => End::NoReply,
        PathEnd::NotTaken(ReplyError::Memory) => End::Memory,
        PathEnd::NotTaken(fault) => End::NotTaken(outcome_by(fault)),
        PathEnd::NotPresentable => End::NotPresentable,
        PathEnd::NotAccepted(ApFault::Memory) => End::Memory,
        PathEnd::NotAccepted(fault) => End::NotAccepted(*fault),
        PathEnd::NotAnswered(ReplyError::Memory) => End::Unheard,
        PathEnd::NotAnswered(_) => End::NotAnswered,
        PathEnd::Memory => End::Memory,
    }
}

/// The requests of a path, what happens to the last one and to its ticket, and how the path ends. Times are in seconds
/// after the last request is sent, but those of the ticket in seconds after midnight.
#[derive(Clone, Copy)]
pub struct Way {
    pub legs: &'static [Leg],
    /// If the last request comes twice, by how many seconds later the client presents the ticket then. `end` is the end
    /// of the second time. The KDC has other random bytes then.
    pub again: Option<u32>,
    /// Whether the request lacks its last byte.
    pub is_cut: bool,
    /// When the KDC answers.
    pub answered: u32,
    /// What is added to the nonce that the client expects.
    pub nonce: u32,
    /// The byte from which those of the key count up with which the client decrypts an AS-REP.
    pub key: u8,
    /// The service's keytab.
    pub keytab: &'static str,
    /// When the client presents the ticket.
    pub presented: u32,
    /// When the service checks it.
    pub accepted: u32,
    pub end: End,
    /// The flags, the start, the end and the last renewal of the ticket.
    pub flags: u32,
    pub start: i64,
    pub expiry: i64,
    pub renew_till: Option<i64>,
}

/// The choices of a client and of a service.
#[derive(Clone, Copy)]
pub struct Choice {
    /// Whether each TGS-REQ has a subkey.
    pub tgs_subkey: bool,
    /// Whether the AP-REQ has a subkey, a sequence number and a checksum.
    pub subkey: bool,
    pub mutual_required: bool,
    /// The first byte of the service's confounder.
    pub first: u8,
    /// The AP-REP, if that is known.
    pub ap_rep: Option<&'static str>,
}

/// What a path is taken with.
#[derive(Clone, Copy)]
pub struct Trip {
    pub types: Types,
    pub choice: Choice,
    /// What is added to the random bytes of the KDC.
    pub random: u8,
    /// What is added to the second when the client presents the ticket.
    pub later: u32,
}

/// A leg of a path.
#[derive(Clone, Copy)]
struct Step<'w> {
    way: &'w Way,
    leg: Leg,
    trip: Trip,
    /// Whether its ticket is presented.
    is_last: bool,
}

/// The realm in which a path is taken, and the credentials that were found on it.
#[derive(Drop)]
struct Realm {
    kdc: Kdc,
    acceptor: Acceptor,
    found: Vec<Credential>,
}

/// How a request is made and answered.
#[derive(Drop)]
struct Asking {
    /// The key of the request: that of the timestamp, or the subkey, if there is one.
    key: Option<Key>,
    client: Client,
    issuing: Issuing,
}

/// Returns the key of the request, and how the client reads the reply.
fn keys(step: Step<'_>, found: &[Credential], at: Moment) -> (Option<Key>, Reader) {
    let (way, trip) = (step.way, step.trip);
    let reply = trip.types.reply;
    let Some(credential) = found.last() else {
        let reader = Reader {
            role: KeyRole::Client,
            key: counted_key(reply, way.key),
            at,
        };
        return (Some(counted_key(reply, USER_FIRST)), reader);
    };
    let subkey = counted_key(reply, 32);
    match session_key(credential) {
        Some(key) if !trip.choice.tgs_subkey => {
            let reader = Reader {
                role: KeyRole::Session,
                key,
                at,
            };
            (None, reader)
        }
        _ => {
            let reader = Reader {
                role: KeyRole::Subkey,
                key: subkey,
                at,
            };
            (Some(subkey), reader)
        }
    }
}

/// Returns the client of the path.
fn client(
    alloc: Global,
    step: Step<'_>,
    reader: Reader,
    presenting: Sealing,
) -> Result<Client, AllocError>
    ensures { IfOk result (λ client. IsShortChecksum client.wanted.checksum) }
{
    let (leg, types, choice) = (step.leg, step.trip.types, step.trip.choice);
    let more = if choice.subkey {
        Some((counted_key(types.reply, 96), u32::MAX))
    } else {
        None
    };
    let want = Want {
        options: leg.options,
        service: leg.service,
        from: leg.from,
        nonce: leg.at,
        ..WANT
    };
    let wanted = service_asked(alloc, choice.mutual_required, more)?;
    let asked = asked(alloc, &want, &[types.reply, types.service])?;
    Ok(Client {
        asked,
        reader,
        wanted,
        presenting,
    })
}

/// Checks whether the service learns what the client chose to send.
fn is_as_sent(accepted: &Accepted, trip: Trip) -> bool {
    let choice = trip.choice;
    let has_subkey = match &accepted.subkey {
        Some(key) => choice.subkey && has_octets_from(key, trip.types.reply, 96),
        None => !choice.subkey,
    };
    let has_number = match accepted.seq_number {
        Some(number) => choice.subkey && number.get() == 4_294_967_295,
        None => !choice.subkey,
    };
    let has_checksum = match &accepted.cksum {
        Some(cksum) => {
            choice.subkey && cksum.number == 0x8003 && cksum.octets.as_slice() == b"abc".as_slice()
        }
        None => !choice.subkey,
    };
    let is_answered = match (&accepted.ap_rep, choice.ap_rep) {
        (Some(octets), Some(digits)) => is_spelled(octets.as_slice(), digits),
        (found, _) => found.is_some() == choice.mutual_required,
    };
    has_subkey && has_number && has_checksum && is_answered
}

/// Checks whether the service learns that, and what was granted.
fn is_due(alloc: Global, accepted: &Accepted, step: Step<'_>) -> bool {
    let (way, leg, trip) = (step.way, step.leg, step.trip);
    let terms = Terms {
        flags: way.flags,
        authtime: MIDNIGHT.wrapping_add(i64::from(way.answered)),
        starttime: Some(MIDNIGHT.wrapping_add(way.start)),
        endtime: MIDNIGHT.wrapping_add(way.expiry),
        renew_till: match way.renew_till {
            Some(after) => Some(MIDNIGHT.wrapping_add(after)),
            None => None,
        },
    };
    // A key made from random bytes is these bytes (RFC 3961, section 5.3).
    has_octets_from(&accepted.session_key, trip.types.service, leg.octet())
        && is_client(alloc, &accepted.client, USER)
        && is_granted(&accepted.ticket, &terms)
        && is_as_sent(accepted, trip)
}

/// Takes the last leg with this request, and presents its ticket.
fn arrive(alloc: Global, realm: &mut Realm, step: Step<'_>, asking: &Asking, request: &[u8]) -> End
    requires { IsShortChecksum asking.now.client.wanted.checksum }
{
    let answering = Answering {
        issuing: asking.issuing,
        accepting: Sealing {
            at: moment(i64::from(step.leg.at.wrapping_add(step.way.accepted)), 7),
            confounder: up(step.trip.choice.first),
        },
    };
    let (kdc, acceptor) = (&mut realm.kdc, &mut realm.acceptor);
    match end_to_end(alloc, kdc, acceptor, &answering, request, &asking.client) {
        Ok(accepted) => {
            if is_due(alloc, &accepted, step) {
                End::Accepted
            } else {
                End::Other
            }
        }
        Err(end) => end_by(&end),
    }
}

/// Takes a leg before the last one with this request, and keeps its credential.
fn take(alloc: Global, realm: &mut Realm, asking: &Asking, request: &[u8]) -> Result<End, Fail> {
    let (kdc, issuing) = (&mut realm.kdc, &asking.issuing);
    match obtain(alloc, kdc, issuing, request, &asking.client) {
        Ok(credential) => {
            realm.found.push(credential)?;
            Ok(End::Accepted)
        }
        Err(end) => Ok(end_by(&end)),
    }
}

/// Sends the request of a leg.
fn send(alloc: Global, realm: &mut Realm, step: Step<'_>, mut asking: Asking) -> Result<End, Fail>
    requires { IsShortChecksum asking.client.wanted.checksum }
{
    let leg = step.leg;
    let at = moment(i64::from(leg.at), 0);
    let mut octets = request(
        alloc,
        &asking.client.asked,
        realm.found.last(),
        asking.key,
        at,
        0,
    )?;
    if !step.is_last {
        return take(alloc, realm, &asking, &octets);
    }
    if step.way.is_cut {
        let _ = octets.pop();
    }
    asking.client.asked.nonce = leg.at.wrapping_add(step.way.nonce);
    Ok(arrive(alloc, realm, step, &asking, &octets))
}

/// Takes a leg with the ticket from the one before it.
fn go(alloc: Global, realm: &mut Realm, step: Step<'_>) -> Result<End, Fail> {
    let (way, leg, trip) = (step.way, step.leg, step.trip);
    let answered = moment(i64::from(leg.at.wrapping_add(way.answered)), 0);
    let presented = leg.at.wrapping_add(way.presented).wrapping_add(trip.later);
    let (key, reader) = keys(step, &realm.found, answered);
    let presenting = Sealing {
        at: moment(i64::from(presented), 7),
        confounder: up(200),
    };
    let asking = Asking {
        key,
        client: client(alloc, step, reader, presenting)?,
        issuing: Issuing {
            at: answered,
            random: up(leg.octet().wrapping_add(trip.random)),
            room: 1400,
        },
    };
    send(alloc, realm, step, asking)
}

/// Returns how a leg ends if it continues after running out of memory. The service's replay cache is kept.
fn go_at_last(alloc: Global, realm: &mut Realm, step: Step<'_>) -> Result<End, Fail> {
    match go(alloc, realm, step)? {
        End::Memory => go(alloc, realm, step),
        End::Unheard => Ok(End::Accepted),
        end => Ok(end),
    }
}

/// Checks whether the path ends as expected in an unused realm.
fn is_ended(alloc: Global, realm: &mut Realm, way: &Way, trip: &Trip) -> Result<bool, Fail> {
    let Some((last, before)) = way.legs.split_last() else {
        return Ok(false);
    };
    let last = Step {
        way,
        leg: *last,
        trip: *trip,
        is_last: true,
    };
    for leg in before {
        let step = Step {
            leg: *leg,
            is_last: false,
            ..last
        };
        if go_at_last(alloc, realm, step)? != End::Accepted {
            return Ok(false);
        }
    }
    let first = go_at_last(alloc, realm, last)?;
    let Some(later) = way.again else {
        return Ok(first == way.end);
    };
    let second = Trip {
        random: 64,
        later,
        ..*trip
    };
    let end = go_at_last(
        alloc,
        realm,
        Step {
            trip: second,
            ..last
        },
    )?;
    Ok(first == End::Accepted && end == way.end)
}

/// Checks the same in a new realm. Only this function owns one.
fn is_ended_anew(alloc: Global, way: &Way, trip: &Trip) -> Result<bool, Fail> {
    let limits = limits(64)?;
    let mut realm = Realm {
        acceptor: opened(alloc, way.keytab, limits.remembered)?,
        kdc: kdc(alloc, trip.types, limits)?,
        found: Vec::new(alloc),
    };
    is_ended(alloc, &mut realm, way, trip)
}

/// Checks the paths, each in a new realm with these keys.
pub fn are_ended(alloc: Global, ways: &[Way], types: Types, choice: &Choice) -> Result<(), Fail> {
    let trip = Trip {
        types,
        choice: *choice,
        random: 0,
        later: 0,
    };
    for (place, way) in ways.iter().enumerate() {
        if !is_ended_anew(alloc, way, &trip)? {
            return Err(Fail::new(place));
        }
    }
    Ok(())
}

//! Tests of the times and flags of tickets (`ticket_times`).
use crate::expect::same;
use krb_der::{DerFault, KTime};
use krb_elements::read;
use krb_fields::{Flags, Moment};
use krb_types::ReqBodyRef;
use principal_rows::{Limits, Policy};
use ticket_times::{TicketTerms, Times, as_flags, as_times, starts_too_late, tgs_flags, tgs_times};

/// 2024-01-01 00:00:00.
const MIDNIGHT: i64 = 1_704_067_200;

/// A body without cname, from, sname and rtime, with no option and till zero.
const BODY: &[u8; 49] = b"\x30\x2f\
    \xa0\x07\x03\x05\x00\x00\x00\x00\x00\
    \xa2\x05\x1b\x03A.B\
    \xa5\x11\x18\x0f19700101000000Z\
    \xa7\x03\x02\x01\x01\
    \xa8\x05\x30\x03\x02\x01\x12";

/// The same with a `from` an hour after midnight.
const BODY_FROM: &[u8; 68] = b"\x30\x42\
    \xa0\x07\x03\x05\x00\x00\x00\x00\x00\
    \xa2\x05\x1b\x03A.B\
    \xa4\x11\x18\x0f20240101010000Z\
    \xa5\x11\x18\x0f19700101000000Z\
    \xa7\x03\x02\x01\x01\
    \xa8\x05\x30\x03\x02\x01\x12";

const NO_BOUND: &[u8; 15] = b"19700101000000Z";

const THAT_DAY: &[u8; 15] = b"20240101000000Z";

const NEXT_DAY: &[u8; 15] = b"20240102000000Z";

const POSTDATED: u32 = 0x0600_0000;

const RENEWABLE_OK: u32 = 0x10;

const RENEW: u32 = 0x2;

const VALIDATE: u32 = 0x1;

fn body(options: u32, till: &[u8; 15]) -> [u8; 49] {
    let mut body = *BODY;
    body[7..11].copy_from_slice(&options.to_be_bytes());
    body[22..37].copy_from_slice(till);
    body
}

fn late_body(options: u32) -> [u8; 68] {
    let mut body = *BODY_FROM;
    body[7..11].copy_from_slice(&options.to_be_bytes());
    body
}

/// Returns the time this many seconds after midnight.
fn time(later: u32) -> KTime {
    KTime::new(MIDNIGHT + i64::from(later)).unwrap()
}

/// Returns the limits of a realm with a ticket lifetime of 36,000 seconds.
fn limits(renewable: u32) -> Limits {
    Limits::new(64, 0, 0, 36_000, renewable).unwrap()
}

/// Returns the times and flags from the AS exchange at midnight, with lifetimes of 36,000 seconds.
fn granted(octets: &[u8], renewable: u32) -> Result<Option<(Times, Flags)>, DerFault> {
    let policy = Policy::default();
    let at = Moment {
        sec: MIDNIGHT,
        usec: 0,
    };
    let body: ReqBodyRef<'_> = read(octets)?;
    Ok(
        match as_times(at, &policy, &policy, &limits(renewable), &body) {
            Some(times) => Some((times, as_flags(&body, &policy, &policy, false, &times))),
            None => None,
        },
    )
}

/// Checks whether a request at midnight asks for a start that is too late without POSTDATED.
fn starts_late(octets: &[u8]) -> Result<bool, DerFault> {
    let body: ReqBodyRef<'_> = read(octets)?;
    Ok(starts_too_late(MIDNIGHT, &body))
}

/// Seconds after midnight: the start, the end, and until when the ticket is renewable; and its flags.
type Given = (u32, u32, Option<u32>, u32);

fn times((start, end, renew_till, bits): Given) -> (Times, Flags) {
    let times = Times {
        start: time(start),
        end: time(end),
        renew_till: match renew_till {
            Some(later) => Some(time(later)),
            None => None,
        },
    };
    (times, Flags::from_bits(bits))
}

fn wanted(given: &Option<Given>) -> Option<(Times, Flags)> {
    match given {
        Some(given) => Some(times(*given)),
        None => None,
    }
}

/// Options, the requested end, the greatest renewable lifetime of the realm, and the times. A ticket has the lifetime
/// that the realm allows, one that ends early is renewable, and none ends before it starts.
const FROM_MIDNIGHT: &[(u32, &[u8; 15], u32, Option<Given>)] = &[
    (0, NO_BOUND, 0, Some((0, 36_000, None, 0x0040_0000))),
    (
        RENEWABLE_OK,
        NO_BOUND,
        0,
        Some((0, 36_000, None, 0x0040_0000)),
    ),
    (
        RENEWABLE_OK,
        NEXT_DAY,
        604_800,
        Some((0, 36_000, Some(86_400), 0x00c0_0000)),
    ),
    (0, THAT_DAY, 0, None),
];

#[test]
fn an_as_exchange_gives_these_times(rt: HostRuntime) {
    for (options, till, renewable, given) in FROM_MIDNIGHT {
        let found = granted(&body(*options, *till), *renewable);
        same(&rt, &(options, renewable), &found, &Ok(wanted(given)));
    }
    // A later start is for postdated tickets.
    let postdated = late_body(POSTDATED);
    let found = (
        granted(&postdated, 0),
        starts_late(&postdated),
        starts_late(&late_body(0)),
    );
    let given = times((3_600, 39_600, None, 0x0740_0000));
    same(
        &rt,
        &"POSTDATED",
        &found,
        &(Ok(Some(given)), Ok(false), Ok(true)),
    );
}

/// Returns the times and flags from the TGS exchange with this ticket of midnight, this many seconds later.
fn exchanged(options: u32, given: Given, later: u32) -> Result<Option<(Times, Flags)>, DerFault> {
    let policy = Policy::default();
    let at = Moment {
        sec: MIDNIGHT + i64::from(later),
        usec: 0,
    };
    let (times, flags) = times(given);
    let ticket = TicketTerms {
        flags,
        authtime: time(0),
        starttime: Some(times.start),
        endtime: times.end,
        renew_till: times.renew_till,
    };
    let octets = body(options, NO_BOUND);
    let body: ReqBodyRef<'_> = read(&octets)?;
    Ok(
        match tgs_times(at, &ticket, &policy, &policy, &limits(0), &body) {
            Some(times) => Some((times, tgs_flags(&body, &ticket, &policy, &times))),
            None => None,
        },
    )
}

/// Options, a ticket, how long after midnight it is presented, and the new times. A renewed ticket has the same
/// lifetime again, a validated one keeps its times, and another ends with the old one.
const LATER: &[(u32, Given, u32, Given)] = &[
    (
        RENEW,
        RENEWABLE,
        36_300,
        (36_300, 72_300, Some(86_400), 0x0080_0000),
    ),
    (
        VALIDATE,
        (3_600, 39_600, None, 0x0740_0000),
        3_600,
        (3_600, 39_600, None, 0x0600_0000),
    ),
    (0, RENEWABLE, 35_000, (35_000, 36_000, None, 0)),
];

/// A ticket that is renewable until the next day.
const RENEWABLE: Given = (0, 36_000, Some(86_400), 0x00c0_0000);

#[test]
fn a_tgs_exchange_gives_these_times(rt: HostRuntime) {
    for (options, ticket, later, given) in LATER {
        let found = exchanged(*options, *ticket, *later);
        same(&rt, options, &found, &Ok(Some(times(*given))));
    }
}

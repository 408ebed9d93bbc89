//! Tests of the requests of a client and of what it takes for a reply, also from a KDC that is not its own or is
//! faulty.
use crate::asking::{
    HOST, MIDNIGHT, POSTDATED, Parts, REALM, TGS, WANT, Want, asked, moment, request, service_asked,
};
use crate::client::messages::{
    AP_REP, AP_REQ, AS_REP, OTHER_NAME, OTHER_REALM, PREAUTH_REQUIRED, REPEATED, STAMPED,
};
use crate::fixtures::{BEGIN, END, JUDGED, counted_key, is_spelled, mark, octets, up};
use crate::outcomes::Outcome::{CannotOpen, Differs, Memory, NotAReply, Other, Refused, Taken};
use crate::outcomes::{Outcome, outcome_by};
use client_core::{
    Asked, EtypeInfo2, Mismatch, ReplyError, ap_request, is_presentable, password_key,
    read_ap_reply, read_as_reply, read_tgs_reply,
};
use cred_files::Credential;
use enctypes::{Etype, Key};
use krb_elements::{KerberosString, Octets, Seq};
use krb_fields::{Moment, Name};
use krb_types::EtypeInfo2Entry;
use std::alloc::{AllocError, Global};
use std::test::Fail;

/// The encryption types of all requests here.
const ETYPES: &[Etype] = &[Etype::Aes256CtsHmacSha1_96];

/// An exchange with a KDC.
#[derive(Clone, Copy)]
enum Kind {
    /// The Authentication Service exchange: `u` asks for a ticket for `krbtgt/A.B`, and then for one for `h` with it.
    As,
    /// The Ticket-Granting Service exchange: `u` asks for a ticket for `h`, and then presents it.
    Tgs,
}

impl Kind {
    fn service(self) -> Parts {
        match self {
            Kind::As => TGS,
            Kind::Tgs => HOST,
        }
    }

    /// Returns the reply.
    fn reply(self) -> &'static str {
        match self {
            Kind::As => AS_REP,
            Kind::Tgs => "TGS_REP",
        }
    }

    /// Returns the first bytes of the key that decrypts it, and of the session key in it. Other bytes count up from
    /// there.
    fn keys(self) -> (u8, u8) {
        match self {
            Kind::As => (64, 0),
            Kind::Tgs => (0, 64),
        }
    }
}

/// Returns a key of encryption type 18.
fn key(first: u8) -> Key {
    counted_key(Etype::Aes256CtsHmacSha1_96, first)
}

/// Returns whether these bytes are written.
fn written(found: Result<Vec<u8>, AllocError>, digits: &str) -> Outcome {
    match found {
        Ok(found) => {
            if is_spelled(&found, digits) {
                Taken
            } else {
                Other
            }
        }
        Err(AllocError) => Memory,
    }
}

/// Returns the AP-REQ with this credential; no bytes if it can't be presented.
fn ap_req(alloc: Global, credential: &Credential) -> Result<Vec<u8>, AllocError> {
    let wanted = service_asked(alloc, true, Some((key(32), 9)))?;
    if !is_presentable(credential) {
        return Ok(Vec::new(alloc));
    }
    ap_request(alloc, credential, moment(0, 7), &wanted, &up(192))
}

fn tgs_req(alloc: Global, credential: &Credential) -> Result<Vec<u8>, AllocError> {
    let want = Want {
        service: HOST,
        ..WANT
    };
    let asked = asked(alloc, &want, ETYPES)?;
    request(alloc, &asked, Some(credential), None, moment(0, 0), 192)
}

/// Returns the key of a timestamp, if there is one.
fn stamp(first: Option<u8>) -> Option<Key> {
    match first {
        Some(first) => Some(key(first)),
        None => None,
    }
}

/// Returns the AS-REQ, with a timestamp under the key from this byte on, if there is one.
fn as_req(alloc: Global, first: Option<u8>) -> Result<Vec<u8>, AllocError> {
    let asked = asked(alloc, &WANT, ETYPES)?;
    request(alloc, &asked, None, stamp(first), moment(0, 7), 192)
}

/// The first byte of a timestamp's key, and the AS-REQ.
const AS_REQS: &[(Option<u8>, &str)] = &[(None, "BASIC"), (Some(64), STAMPED)];

/// Checks whether the AS-REQ has these bytes, in a second call if memory ran out in the first one.
fn is_as_req(alloc: Global, first: Option<u8>, digits: &str) -> bool {
    mark(alloc, BEGIN);
    let found = written(as_req(alloc, first), digits);
    mark(alloc, END);
    match found {
        Memory => matches!(written(as_req(alloc, first), digits), Taken),
        found => matches!(found, Taken),
    }
}

#[test]
fn as_requests_are_written(rt: HostRuntime) -> Result<(), Fail> {
    for (first, digits) in AS_REQS {
        assert!(rt; is_as_req(rt.alloc(), *first, digits));
        mark(rt.alloc(), JUDGED);
    }
    Ok(())
}

/// Checks whether the credential has the reply's session key, of type 18, and the times of a ticket of ten hours.
fn is_whole(credential: &Credential, kind: Kind) -> bool {
    let (_, first) = kind.keys();
    credential.key.key_type == 18
        && credential.key.octets.as_slice() == key(first).bytes()
        && credential.times.start_time.seconds() == MIDNIGHT
        && credential.times.end_time.seconds() == MIDNIGHT + 36_000
        && credential.times.renew_till.seconds() == 0
}

/// Returns whether the credential has these contents, and the next request with it is the expected one.
fn taken(alloc: Global, credential: &Credential, kind: Kind) -> Outcome {
    if !is_whole(credential, kind) {
        return Other;
    }
    match kind {
        Kind::As => written(tgs_req(alloc, credential), "TGS_REQ"),
        Kind::Tgs => written(ap_req(alloc, credential), AP_REQ),
    }
}

/// How a client reads a reply, and how it differs from one that is expected.
#[derive(Clone, Copy)]
struct Twist {
    /// What it asked for, but for the service.
    want: Want,
    /// For which other service it asked.
    service: Option<Parts>,
    /// By how many seconds its clock is off.
    clock: i64,
    /// What is added to the first byte of the key.
    key: u8,
    /// Whether it reads a TGS-REP as one that is encrypted under a subkey.
    is_subkey: bool,
    /// What comes in the place of the reply.
    reply: Option<&'static str>,
    outcome: Outcome,
}

const NOTHING: Twist = Twist {
    want: WANT,
    service: None,
    clock: 0,
    key: 0,
    is_subkey: false,
    reply: None,
    outcome: Taken,
};

/// Requests that differ from those of the replies.
const TWISTS: &[Twist] = &[
    NOTHING,
    Twist {
        want: Want {
            client: (1, &[b"v"]),
            ..WANT
        },
        outcome: Differs(Mismatch::Client),
        ..NOTHING
    },
    Twist {
        want: Want {
            realm: b"A.C",
            ..WANT
        },
        outcome: Differs(Mismatch::Client),
        ..NOTHING
    },
    Twist {
        service: Some((1, &[b"x"])),
        outcome: Differs(Mismatch::Service),
        ..NOTHING
    },
    Twist {
        want: Want { nonce: 2, ..WANT },
        outcome: Differs(Mismatch::Nonce),
        ..NOTHING
    },
    Twist {
        want: Want {
            till: Some(35_999),
            ..WANT
        },
        outcome: Differs(Mismatch::Times),
        ..NOTHING
    },
    Twist {
        want: Want {
            till: Some(36_000),
            ..WANT
        },
        ..NOTHING
    },
    Twist {
        want: Want {
            till: Some(36_001),
            ..WANT
        },
        ..NOTHING
    },
    Twist {
        clock: 300,
        ..NOTHING
    },
    Twist {
        clock: 301,
        outcome: Differs(Mismatch::Times),
        ..NOTHING
    },
    Twist {
        clock: -300,
        ..NOTHING
    },
    Twist {
        clock: -301,
        outcome: Differs(Mismatch::Times),
        ..NOTHING
    },
    // a postdated ticket
    Twist {
        want: Want {
            options: POSTDATED,
            ..WANT
        },
        clock: 301,
        ..NOTHING
    },
    Twist {
        key: 1,
        outcome: CannotOpen,
        ..NOTHING
    },
];

/// What comes in the place of an AS-REP.
const AS_REPLIES: &[Twist] = &[
    Twist {
        reply: Some("CLIENT_UNKNOWN"),
        outcome: Refused(6, None),
        ..NOTHING
    },
    Twist {
        reply: Some(PREAUTH_REQUIRED),
        outcome: Refused(25, Some(*b"abc")),
        ..NOTHING
    },
    Twist {
        reply: Some("TGS_REP"),
        outcome: NotAReply,
        ..NOTHING
    },
];

/// What comes in the place of a TGS-REP.
const TGS_REPLIES: &[Twist] = &[
    Twist {
        reply: Some("CLIENT_UNKNOWN"),
        outcome: Refused(6, None),
        ..NOTHING
    },
    Twist {
        reply: Some(AS_REP),
        outcome: NotAReply,
        ..NOTHING
    },
    Twist {
        reply: Some(OTHER_NAME),
        outcome: Differs(Mismatch::Service),
        ..NOTHING
    },
    Twist {
        reply: Some(OTHER_REALM),
        outcome: Differs(Mismatch::Service),
        ..NOTHING
    },
    // A reply that is encrypted under the session key is none under a subkey.
    Twist {
        is_subkey: true,
        outcome: CannotOpen,
        ..NOTHING
    },
];

/// Reads these bytes as the reply.
fn read(
    alloc: Global,
    kind: Kind,
    twist: &Twist,
    asked: &Asked,
    reply: &[u8],
) -> Result<Credential, ReplyError> {
    let (first, _) = kind.keys();
    let key = key(first.wrapping_add(twist.key));
    let at = moment(twist.clock, 0);
    match kind {
        Kind::As => read_as_reply(alloc, asked, &key, at, reply),
        Kind::Tgs => read_tgs_reply(alloc, asked, &key, twist.is_subkey, at, reply),
    }
}

fn judge(alloc: Global, kind: Kind, twist: &Twist, asked: &Asked, reply: &[u8]) -> Outcome {
    match read(alloc, kind, twist, asked, reply) {
        Ok(credential) => taken(alloc, &credential, kind),
        Err(fault) => outcome_by(&fault),
    }
}

/// Checks whether the reply comes out as expected, in a second call if memory ran out in the first one.
fn is_due(alloc: Global, kind: Kind, twist: &Twist) -> Result<bool, Fail> {
    let want = Want {
        service: twist.service.unwrap_or(kind.service()),
        ..twist.want
    };
    let reply = octets(alloc, twist.reply.unwrap_or(kind.reply()))?;
    let asked = asked(alloc, &want, ETYPES)?;
    mark(alloc, BEGIN);
    let mut found = judge(alloc, kind, twist, &asked, &reply);
    mark(alloc, END);
    if found == Memory {
        found = judge(alloc, kind, twist, &asked, &reply);
    }
    Ok(found == twist.outcome)
}

fn are_due(alloc: Global, kind: Kind, twists: &[Twist]) -> Result<(), Fail> {
    for (place, twist) in twists.iter().enumerate() {
        if !is_due(alloc, kind, twist)? {
            return Err(Fail::new(place));
        }
        mark(alloc, JUDGED);
    }
    Ok(())
}

#[test]
fn replies_give_credentials_or_are_rejected(rt: HostRuntime) -> Result<(), Fail> {
    for (kind, twists) in [
        (Kind::As, TWISTS),
        (Kind::Tgs, TWISTS),
        (Kind::As, AS_REPLIES),
        (Kind::Tgs, TGS_REPLIES),
    ] {
        are_due(rt.alloc(), kind, twists)?;
    }
    Ok(())
}

/// The first byte of a key, the second and the microseconds of the AP-REQ, and the outcome of the AP-REP.
const AP_REPLIES: &[(u8, i64, u32, &str, Outcome)] = &[
    (64, 0, 7, AP_REP, Taken),
    (64, 0, 8, AP_REP, Differs(Mismatch::Times)),
    (64, 1, 7, AP_REP, Differs(Mismatch::Times)),
    (64, -1, 7, AP_REP, Differs(Mismatch::Times)),
    (0, 0, 7, AP_REP, CannotOpen),
    (64, 0, 7, AP_REQ, NotAReply),
    (64, 0, 7, REPEATED, Refused(34, None)),
];

/// Returns whether an AP-REP with this moment repeats that of the AP-REQ.
fn repeated(second: i64, usec: u32, at: Moment) -> Outcome {
    if second == at.sec && usec == at.usec {
        Taken
    } else {
        Other
    }
}

/// Returns the outcome of these bytes as the AP-REP.
fn ap_reply_outcome(alloc: Global, first: u8, at: Moment, reply: &[u8]) -> Outcome {
    match read_ap_reply(alloc, &key(first), at, reply) {
        Ok(part) => repeated(part.ctime.seconds(), part.cusec.get(), at),
        Err(fault) => outcome_by(&fault),
    }
}

/// Returns the outcome like `ap_reply_outcome`, by a second call if memory ran out in the first one.
fn ap_reply_outcome_at_last(
    alloc: Global,
    first: u8,
    at: Moment,
    digits: &str,
) -> Result<Outcome, Fail> {
    let reply = octets(alloc, digits)?;
    mark(alloc, BEGIN);
    let mut found = ap_reply_outcome(alloc, first, at, &reply);
    mark(alloc, END);
    if found == Memory {
        found = ap_reply_outcome(alloc, first, at, &reply);
    }
    Ok(found)
}

#[test]
fn an_ap_reply_repeats_the_moment(rt: HostRuntime) -> Result<(), Fail> {
    for (first, after, usec, digits, due) in AP_REPLIES {
        let found = ap_reply_outcome_at_last(rt.alloc(), *first, moment(*after, *usec), digits)?;
        assert!(rt; found == *due);
        mark(rt.alloc(), JUDGED);
    }
    Ok(())
}

/// Returns an entry with type 18, the salt `ATHENA.MIT.EDUraeburn`, and a count of 1.
fn entry(alloc: Global) -> Result<EtypeInfo2Entry, AllocError> {
    Ok(EtypeInfo2Entry {
        etype: 18,
        salt: Some(KerberosString::from_slice(alloc, b"ATHENA.MIT.EDUraeburn")?),
        s2kparams: Some(Octets::from_slice(alloc, &[0, 0, 0, 1])?),
    })
}

/// Returns an ETYPE-INFO2 with this entry.
fn info(alloc: Global) -> Result<EtypeInfo2, AllocError> {
    let mut info = Seq::new(alloc);
    info.push(entry(alloc)?)?;
    Ok(info)
}

/// The key of `password` for it (RFC 3962, appendix B).
const PASSWORD_KEY: &str = "fe697b52bc0d3ce14432ba036a92e65bbb52280990a2fa27883998d72af30161";

/// Returns whether the key of `password` has these bytes.
fn derived(alloc: Global, name: &Name, info: &EtypeInfo2) -> Outcome {
    match password_key(alloc, b"password", REALM, name, info) {
        Ok(key) => {
            if is_spelled(key.bytes(), PASSWORD_KEY) {
                Taken
            } else {
                Other
            }
        }
        Err(fault) => outcome_by(&fault),
    }
}

/// Returns the outcome of `derived` for that ETYPE-INFO2, by a second call if memory ran out in the first one.
fn derived_at_last(alloc: Global) -> Result<Outcome, Fail> {
    let name = Name::new(alloc, 1, &[b"u"])?;
    let info = info(alloc)?;
    mark(alloc, BEGIN);
    let mut found = derived(alloc, &name, &info);
    mark(alloc, END);
    if found == Memory {
        found = derived(alloc, &name, &info);
    }
    Ok(found)
}

#[test]
fn a_password_gives_the_key_of_its_client(rt: HostRuntime) -> Result<(), Fail> {
    assert!(rt; derived_at_last(rt.alloc())? == Taken);
    Ok(())
}

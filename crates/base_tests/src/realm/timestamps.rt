//! Tests of preauthentication with timestamps, and of the lockout (`preauth`).
use crate::expect::{are, at_last, bytes, judged, same};
use crate::realm::fixtures::{T, at};
use encrypted_data::ReadyKeys;
use enctypes::{Etype, Key};
use krb_elements::{SeqRef, read};
use krb_fields::{Moment, PaDataRef};
use preauth::{
    Outcome, after_failure, after_success, check_timestamp, counted_for, first_key, is_locked,
    key_numbered, method_data, usable_types,
};
use principal_rows::{KeyList, KeyListError, Limits, Row};
use replay::Failures;
use std::alloc::{AllocError, Global};
use std::process::Abort;

// The bytes come from a program in Python over `cryptography`, in hexadecimal. The timestamps are of the second T.

/// PA-PAC-REQUEST, and a timestamp under the key of type 18.
const OF_TYPE_18: &str = "\
    30613011a10402020080a20904073005a0030101ff304ca103020102a24504433041a003020112a23a0438aea3b9c005012f\
    6c6c4be9b1d270d9fe1ef4cd1bc9dde7b5fd4192ed2afa0762332ad931d87dffcaf68dbeb017eaec43e46ce7dc4627e765";

/// A timestamp without microseconds under the key of type 20, with a kvno that no key has.
const OF_TYPE_20: &str = "\
    30583056a103020102a24f044d304ba003020114a103020107a23f043dc037addb2e98c6943c09034983e9630360e5eb6812\
    c52d41deb0efcae2769ef566d5e5677b2390346c5983f0c2ab6d1f220a4fa538ef1160443762b3f7";

/// A timestamp under another key of type 18, followed by a good one.
const OTHER_KEY: &str = "\
    30819c304ca103020102a24504433041a003020112a23a043855ac3d0212457e340ac16a68eb4c90324960d6808e67d567d6\
    56f85a6e4a5826e126fc039bb2818abe2888eb8c442a5b832767ef6c2a840a304ca103020102a24504433041a003020112a2\
    3a0438aea3b9c005012f6c6c4be9b1d270d9fe1ef4cd1bc9dde7b5fd4192ed2afa0762332ad931d87dffcaf68dbeb017eaec\
    43e46ce7dc4627e765";

/// A timestamp under the key of type 18, encrypted as the part of an AS-REP.
const OTHER_USAGE: &str = "\
    304e304ca103020102a24504433041a003020112a23a0438e4dde4edf21d10ef689394ca99137f30113a50f1b93bbabb5ba5\
    f526a9055db40c94f582a28afbf3899ef8e404f8bb3c024034f45a37c1d2";

/// A timestamp under the key of type 18 that claims to have type 20.
const OTHER_TYPE: &str = "\
    304e304ca103020102a24504433041a003020114a23a0438aea3b9c005012f6c6c4be9b1d270d9fe1ef4cd1bc9dde7b5fd41\
    92ed2afa0762332ad931d87dffcaf68dbeb017eaec43e46ce7dc4627e765";

/// A timestamp under a key of type 17, which the client does not have.
const NO_KEY: &str = "\
    304e304ca103020102a24504433041a003020111a23a043894f90c3c639cd6d70d8f2405d3c045c00dc1fbf78ca377f0c508\
    b8313d766d0bfb2845b67533aaeb8088d8555cfc715c2ccbd8c766e7d150";

/// A number under the key of type 18.
const NO_TIMESTAMP: &str = "\
    30393037a103020102a230042e302ca003020112a22504239471f5a5ee7b17f8f6f33a5e03e03d77aea3b9c005012f3d6fbb\
    de37c5481eb7b94304";

/// An empty PA-ENC-TIMESTAMP, followed by a good one.
const NO_ENCRYPTED_DATA: &str = "\
    30593009a103020102a2020400304ca103020102a24504433041a003020112a23a0438aea3b9c005012f6c6c4be9b1d270d9\
    fe1ef4cd1bc9dde7b5fd4192ed2afa0762332ad931d87dffcaf68dbeb017eaec43e46ce7dc4627e765";

/// Only a PA-PAC-REQUEST.
const ABSENT: &str = "30133011a10402020080a20904073005a0030101ff";

/// The types 23, 20, 18, 20 and 17, encoded.
const ETYPES: &str = "300f020117020114020112020114020111";

/// PA-ETYPE-INFO2 with types 20 and 18 and the salt `A.Bu`, and an empty PA-ENC-TIMESTAMP.
const METHOD_DATA: &str = "\
    30363029a103020113a2220420301e300da003020114a1061b04412e4275300da003020112a1061b04412e42753009a10302\
    0102a2020400";

/// Returns a key whose bytes count up from this one.
fn key(etype: Etype, first: u8) -> Key {
    let mut octets = [first; 32];
    for (place, octet) in (0..32).zip(&mut octets) {
        *octet = octet.wrapping_add(place);
    }
    Key::from_random(etype, &octets)
}

fn keys(alloc: Global) -> Result<KeyList, KeyListError> {
    let first = key(Etype::Aes256CtsHmacSha1_96, 0);
    let second = key(Etype::Aes256CtsHmacSha384_192, 32);
    Ok(KeyList::new(alloc, &[first, second])?)
}

fn client(alloc: Global) -> Result<Row, KeyListError> {
    Ok(Row::first(alloc, keys(alloc)?)?)
}

/// Padata in digits, a second, and the outcome at it.
type Case = (&'static str, i64, Outcome);

/// Checks each case for one client, with one cache of keys. Only this function drops a client's row.
fn all_show(rt: &impl Abort, alloc: Global, cases: &[Case]) {
    let Ok(ready) = ReadyKeys::new(alloc) else {
        panic!(rt; "out of memory");
    };
    match client(alloc) {
        Ok(client) => {
            for (digits, sec, outcome) in cases {
                let found = shown(alloc, &ready, &client, *sec, *digits);
                same(rt, &(digits, sec), &found, &Some(*outcome));
                judged(alloc);
            }
        }
        Err(fault) => panic!(rt; "{fault:?}"),
    }
}

/// Returns the outcome of the padata in these digits at this second.
fn shown(
    alloc: Global,
    ready: &ReadyKeys,
    client: &Row,
    sec: i64,
    digits: &str,
) -> Option<Outcome> {
    let at = Moment::new(sec, 0)?;
    let octets = bytes(alloc, digits);
    at_last(
        alloc,
        &AllocError,
        || check_padata(alloc, ready, client, at, &octets),
    )
    .ok()?
}

/// Checks the padata that these bytes encode. Returns `None` if they encode none.
fn check_padata(
    alloc: Global,
    ready: &ReadyKeys,
    client: &Row,
    at: Moment,
    octets: &[u8],
) -> Result<Option<Outcome>, AllocError> {
    let padata: SeqRef<'_, PaDataRef<'_>> = match read(octets) {
        Ok(padata) => padata,
        Err(_) => return Ok(None),
    };
    Ok(Some(check_timestamp(alloc, ready, client, at, Some(&padata))?))
}

/// A timestamp is good within 300 seconds. The first one counts, under the key of its type.
const CASES: &[Case] = &[
    (OF_TYPE_18, T, Outcome::Good),
    (OF_TYPE_18, T - 300, Outcome::Good),
    (OF_TYPE_18, T + 300, Outcome::Good),
    (OF_TYPE_18, T - 301, Outcome::Skewed),
    (OF_TYPE_18, T + 301, Outcome::Skewed),
    (OF_TYPE_20, T, Outcome::Good),
    (OF_TYPE_20, T - 300, Outcome::Good),
    (OF_TYPE_20, T + 300, Outcome::Good),
    (OF_TYPE_20, T - 301, Outcome::Skewed),
    (OF_TYPE_20, T + 301, Outcome::Skewed),
    (OTHER_KEY, T, Outcome::Bad),
    (OTHER_USAGE, T, Outcome::Bad),
    (OTHER_TYPE, T, Outcome::Bad),
    (NO_KEY, T, Outcome::Bad),
    (NO_TIMESTAMP, T, Outcome::Bad),
    (NO_ENCRYPTED_DATA, T, Outcome::Bad),
    (ABSENT, T, Outcome::Absent),
];

#[test]
fn a_timestamp_is_good_within_300_seconds(rt: HostRuntime) {
    all_show(&rt, rt.alloc(), CASES);
}

/// What is found of keys of types 18 and 20 if the request has the types of `ETYPES`: the types of the hints, the type
/// of the first key, whether there are keys of types 18 and 17, and whether the METHOD-DATA is `METHOD_DATA`.
type Hints = ([i32; 2], Etype, bool, bool, bool);

fn hints(alloc: Global, octets: &[u8]) -> Option<Hints> {
    let asked: SeqRef<'_, i32> = read(octets).ok()?;
    let keys = keys(alloc).ok()?;
    let types = hinted(alloc, &keys, &asked)?;
    let first = first_key(&keys, &asked)?.etype();
    let has_18 = key_numbered(&keys, 18).is_some();
    let has_17 = key_numbered(&keys, 17).is_some();
    let found = at_last(alloc, &AllocError, || method_data(alloc, b"A.Bu", &types)).ok()?;
    Some((
        types,
        first,
        has_18,
        has_17,
        are(alloc, found.as_slice(), METHOD_DATA),
    ))
}

fn hinted(alloc: Global, keys: &KeyList, asked: &SeqRef<'_, i32>) -> Option<[i32; 2]> {
    let found = usable_types(alloc, keys, asked).ok()?;
    match found.as_slice() {
        [first, second] => Some([*first, *second]),
        _ => None,
    }
}

#[test]
fn types_are_hinted_in_the_order_of_the_request(rt: HostRuntime) {
    let wanted = ([20, 18], Etype::Aes256CtsHmacSha384_192, true, false, true);
    let found = hints(rt.alloc(), &bytes(rt.alloc(), ETYPES));
    same(&rt, &"two types", &found, &Some(wanted));
    judged(rt.alloc());
}

fn failures(count: u32, version: u32, usec: u32) -> Failures {
    let mut last = at(0);
    if let Some(moment) = Moment::new(T, usec) {
        last = moment;
    }
    Failures {
        count,
        last,
        version,
    }
}

fn locking(lock_after: u32) -> Limits {
    Limits::new(64, lock_after, 60, 36000, 0).unwrap()
}

/// A number of failures, how many lock, the seconds since the last one, and whether the client is locked.
const LOCKED: &[(u32, u32, u32, bool)] = &[
    (2, 2, 0, true),
    (2, 2, 59, true),
    (2, 2, 60, false),
    (1, 2, 0, false),
    (3, 2, 0, true),
    (3, 0, 0, false),
];

#[test]
fn a_client_is_locked_until_lock_seconds_are_over(rt: HostRuntime) {
    for (count, lock_after, later, locked) in LOCKED {
        let failures = failures(*count, 1, 999_999);
        let found = is_locked(failures, &locking(*lock_after), at(*later));
        same(&rt, &(count, lock_after, later), &found, locked);
    }
}

#[test]
fn failures_are_counted_to_the_maximum_until_a_success(rt: HostRuntime) {
    for (count, next) in [(0, 1), (u32::MAX - 1, u32::MAX), (u32::MAX, u32::MAX)] {
        let before = failures(count, 3, 7);
        let wanted = Failures {
            count: next,
            last: at(1),
            version: 3,
        };
        same(&rt, &count, &after_failure(before, at(1)), &wanted);
        same(&rt, &count, &after_success(before), &failures(0, 0, 7));
    }
}

#[test]
fn failures_of_another_key_version_do_not_count(rt: HostRuntime) {
    for (count, version, current, counted) in [
        (2, 1, 1, 2),
        (2, 1, 2, 0),
        (2, 3, 1, 0),
        (0, 0, 1, 0),
    ] {
        let found = counted_for(failures(count, version, 7), current);
        same(
            &rt,
            &(version, current),
            &found,
            &failures(counted, current, 7),
        );
    }
}

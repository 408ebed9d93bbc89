//! Tests of encrypted values of messages (`encrypted_data`).
use crate::cryptography::fixtures::ETYPES;
use crate::expect::{same, shows};
use encrypted_data::{ReadyKeys, open_part, seal_part};
use enctypes::{Etype, Key, KeyUsage, seal};
use krb_der::KTime;
use krb_elements::Microseconds;
use krb_types::PaEncTsEnc;
use std::alloc::{AllocError, Global};
use std::process::Abort;

const USAGE: KeyUsage = KeyUsage::PaEncTimestamp;

/// A timestamp, and what is shown if the key doesn't decrypt one.
const TIMESTAMP: &str = "\
    Ok(Some(PaEncTsEnc { patimestamp: KTime { seconds: 1704067200 }, pausec: Some(Microseconds { value: 999999 }) }))";

const NONE: &str = "Ok(None)";

/// Returns the timestamp, encrypted for `USAGE`, or no bytes if memory runs out.
#[tactic(auto, using(krb_types::specs::PaEncTsEnc::pa_enc_ts_enc_short))]
fn sealed(alloc: Global, key: &Key) -> Vec<u8> {
    let Some(patimestamp) = KTime::new(1_704_067_200) else {
        return Vec::new(alloc);
    };
    let part = PaEncTsEnc {
        patimestamp,
        pausec: Microseconds::new(999_999),
    };
    seal_part(alloc, key, USAGE, &[9; 16], &part).unwrap_or(Vec::new(alloc))
}

/// Asserts what is decrypted for a usage, and for `USAGE` with ready keys.
fn opens(rt: &impl Abort, alloc: Global, key: &Key, usage: KeyUsage, cipher: &[u8], text: &str) {
    let found: Result<Option<PaEncTsEnc>, AllocError> = open_part(alloc, key, usage, cipher);
    shows(rt, alloc, found, text);
}

fn opens_ready(
    rt: &impl Abort,
    alloc: Global,
    ready: &ReadyKeys,
    key: &Key,
    cipher: &[u8],
    text: &str,
) {
    let found: Result<Option<PaEncTsEnc>, AllocError> = ready.open_part(alloc, key, USAGE, cipher);
    shows(rt, alloc, found, text);
}

/// Checks both keys: they begin with the same byte, so they have one place.
fn take_turns(rt: &impl Abort, alloc: Global, ready: &ReadyKeys, etype: Etype) {
    let first = Key::from_random(etype, &[7; 32]);
    let mut octets = [7; 32];
    octets[1] = 8;
    let second = Key::from_random(etype, &octets);
    let cipher = sealed(alloc, &first);
    opens(rt, alloc, &first, USAGE, &cipher, TIMESTAMP);
    opens(rt, alloc, &first, KeyUsage::Ticket, &cipher, NONE);
    for key in [&first, &first, &second, &first] {
        opens_ready(rt, alloc, ready, key, &sealed(alloc, key), TIMESTAMP);
    }
    opens_ready(rt, alloc, ready, &second, &cipher, NONE);
}

#[test]
fn timestamps_are_decrypted_by_their_key_for_their_usage(rt: HostRuntime) {
    let alloc = rt.alloc();
    let Ok(ready) = ReadyKeys::new(alloc) else {
        panic!(rt; "no memory");
    };
    for etype in ETYPES {
        take_turns(&rt, alloc, &ready, *etype);
        let key = Key::from_random(*etype, &[7; 32]);
        let other = seal(alloc, &key, USAGE, &[9; 16], b"no timestamp");
        same(&rt, etype, &other.is_ok(), &true);
        opens(
            &rt,
            alloc,
            &key,
            USAGE,
            &other.unwrap_or(Vec::new(alloc)),
            NONE,
        );
    }
}

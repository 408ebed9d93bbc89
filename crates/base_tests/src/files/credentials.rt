//! Tests of the two file formats (`cred_files`), with files from stock tools, in hexadecimal.
ghost use Rattle.std.specs.Prelude.{IfOk, ◌<◌, ◌^◌, length};
ghost use Rattle.cred_files.specs.Cache.{FitsButForTimes};
ghost use Rattle.cred_files.specs.Principal as formats;

use crate::cryptography::fixtures::sized;
use crate::expect::{are, at_last, bytes, judged, marked, same, written};
use cred_files::{
    Cache, CredError, Credential, Keytab, KeytabEntry, Miss, Principal, SessionKey, Times,
};
use enctypes::{Etype, Key};
use krb_der::KTime;
use krb_elements::{KerberosString, Octets, Seq};
use krb_fields::{Flags, Name};
use std::alloc::{AllocError, Global};
use std::process::Abort;

/// Realm A.B, name h, type 1, version 1, type 17.
const KEYTAB: &str = "\
    05020000002b00010003412e4200016800000001000000000100110010000102030405060708090a0b0c0d0e0f00000001";

/// By ktutil of MIT Kerberos 1.20: types 17, 20 and 23, the second with a version of 258, all with a time.
const STOCK_KEYTAB: &str = "\
    05020000002b00010003412e42000168000000016b034fe30100110010000102030405060708090a0b0c0d0e0f0000000100000045000200\
    03412e420004686f73740005782e612e62000000016b034fe30200140020000102030405060708090a0b0c0d0e0f10111213141516171819\
    1a1b1c1d1e1f000001020000002b00010003412e42000168000000016b034fe30300170010000102030405060708090a0b0c0d0e0f000000\
    03";

/// By ktutil of Heimdal 7.8: a hole where an entry was removed, then h of type 18 and version 2, and host/x.a.b of type
/// 17 and version 300. Four bytes of flags follow each version.
const HEIMDAL_KEYTAB: &str = "\
    0502ffffffd10000000000000000000000000000000000000000000000000000000000000000000000000000000000000000000000000000\
    3f00010003412e42000168000000016b03a8270200120020561f1ccafa3f18b7a2cf0f4c292643eff3bb0755d38b72e8852507e58ed87397\
    00000002000000000000003900020003412e420004686f73740005782e612e62000000036b03a8272c00110010bb246fc4a58519b77791d1\
    30c25f71c30000012c00000000";

/// The key of h that `ktutil list --keys` prints.
const HEIMDAL_H: &str = "561f1ccafa3f18b7a2cf0f4c292643eff3bb0755d38b72e8852507e58ed87397";

/// u in A.B, without credentials.
const CACHE: &str = "05040000000000010000000100000003412e420000000175";

/// By kinit of MIT Kerberos 1.20, up to the end of the first credential: a header of one tag (an offset of time), and a
/// credential that holds a setting of the library, with no key and without times.
const STOCK_CACHE: &str = "\
    0504000c000100080000000000000000000000010000000100000003412e420000000175000000010000000100000003412e420000000175\
    00000001000000030000000c582d4341434845434f4e463a000000156b7262355f6363616368655f636f6e665f646174610000000a666173\
    745f617661696c0000000e6b72627467742f412e4240412e4200000000000000000000000000000000000000000000000000000000000000\
    000000000000000379657300000000";

/// How a file is written.
#[derive(Clone, Copy)]
enum Way {
    /// As a keytab or a cache that was read.
    KeytabAgain,
    CacheAgain,
    /// As a keytab with the entry of `KEYTAB`, or an empty cache.
    NewKeytab,
    NewCache,
}

const WRITTEN: &[(Way, &str)] = &[
    (Way::KeytabAgain, KEYTAB),
    (Way::NewKeytab, KEYTAB),
    (Way::CacheAgain, CACHE),
    (Way::CacheAgain, STOCK_CACHE),
    (Way::NewCache, CACHE),
];

fn file(alloc: Global, way: Way, octets: &[u8]) -> Result<Vec<u8>, CredError> {
    match way {
        Way::KeytabAgain => keytab_again(alloc, octets),
        Way::CacheAgain => cache_again(alloc, octets),
        Way::NewKeytab => new_keytab(alloc, b"A.B"),
        Way::NewCache => written_cache(alloc),
    }
}

fn keytab_again(alloc: Global, octets: &[u8]) -> Result<Vec<u8>, CredError> {
    Keytab::read(alloc, octets)?.write(alloc)
}

fn cache_again(alloc: Global, octets: &[u8]) -> Result<Vec<u8>, CredError> {
    Cache::read(alloc, octets)?
        .write(alloc)
        .map_err(CredError::from)
}

/// Writes a keytab with the entry of `KEYTAB` in this realm.
fn new_keytab(alloc: Global, realm: &[u8]) -> Result<Vec<u8>, CredError> {
    let key = Key::from_random(Etype::Aes128CtsHmacSha1_96, &sized(KEY));
    let entries = [KeytabEntry {
        realm: KerberosString::from_slice(alloc, realm)?,
        name: Name::new(alloc, 1, &[b"h"])?,
        version: 1,
        key,
    }];
    written_keytab(alloc, &entries)
}

/// The bytes 00, 01, .. 0f, and others that a key of type 17 does not have.
const KEY: &str = "000102030405060708090a0b0c0d0e0fffffffffffffffffffffffffffffffff";

fn written_keytab(alloc: Global, entries: &[KeytabEntry]) -> Result<Vec<u8>, CredError> {
    Keytab::new(alloc, entries)?.write(alloc)
}

fn written_cache(alloc: Global) -> Result<Vec<u8>, CredError> {
    new_cache(alloc)?.write(alloc).map_err(CredError::from)
}

/// Returns an empty cache of `u`.
#[tactic(auto, unfolding(cred_files::specs::Principal::principal))]
fn new_cache(alloc: Global) -> Result<Cache, CredError> {
    let u = Name::new(alloc, 1, &[b"u"])?;
    Cache::new(alloc, b"A.B", &u).map_err(CredError::from)
}

/// Returns the number of entries of a keytab.
fn count(alloc: Global, octets: &[u8]) -> Result<usize, CredError> {
    Ok(Keytab::read(alloc, octets)?.len())
}

#[test]
fn files_of_stock_tools_are_read_and_written(rt: HostRuntime) {
    let alloc = rt.alloc();
    for (way, digits) in WRITTEN {
        let octets = bytes(alloc, *digits);
        let found = at_last(alloc, &CredError::Memory, || file(alloc, *way, &octets));
        written(&rt, found, &octets);
        judged(alloc);
    }
}

#[test]
fn keytabs_have_their_entries(rt: HostRuntime) {
    let alloc = rt.alloc();
    for (digits, wanted) in [(KEYTAB, 1), (STOCK_KEYTAB, 2), (HEIMDAL_KEYTAB, 2)] {
        let found = count(alloc, &bytes(alloc, digits));
        same(&rt, &digits, &found, &Ok(wanted));
    }
}

#[test]
fn bad_entries_are_refused(rt: HostRuntime) {
    let alloc = rt.alloc();
    // A key that is too short, a field that is longer than the entry, and a realm that is.
    for (old, new) in [("0011001000", "0011000f00"), ("00016800", "00406800")] {
        let found = entries_after(alloc, old, new);
        same(&rt, &new, &found, &Err(CredError::BadEntry));
    }
    let long = long_keytab(alloc).err();
    same(&rt, &"a long realm", &long, &Some(CredError::BadEntry));
}

/// Counts the entries of `KEYTAB` with a part of its digits replaced.
fn entries_after(alloc: Global, old: &str, new: &str) -> Result<usize, CredError> {
    let digits = KEYTAB.replace(alloc, old, new)?;
    count(alloc, &bytes(alloc, digits.as_str()))
}

fn long_keytab(alloc: Global) -> Result<Vec<u8>, CredError> {
    let realm = vec![in alloc; 0x41; 0x1_0000]?;
    new_keytab(alloc, &realm)
}

/// Returns whether the key that a search of the keytab of Heimdal for h finds is that of h, or why none is found.
fn find(
    alloc: Global,
    realm: &[u8],
    etype: Etype,
    version: Option<u32>,
) -> Result<Result<bool, Miss>, CredError> {
    let h = Name::new(alloc, 3, &[b"h"])?;
    let keytab = Keytab::read(alloc, &bytes(alloc, HEIMDAL_KEYTAB))?;
    Ok(match keytab.find(realm, &h, etype, version) {
        Ok(key) => Ok(are(alloc, key.bytes(), HEIMDAL_H)),
        Err(miss) => Err(miss),
    })
}

#[test]
fn keys_of_a_stock_keytab_are_found(rt: HostRuntime) {
    let aes256 = Etype::Aes256CtsHmacSha1_96;
    for (realm, etype, version, wanted) in [
        (b"A.B", aes256, None, Ok(true)),
        (b"A.C", aes256, None, Err(Miss::NoService)),
        (
            b"A.B",
            Etype::Aes128CtsHmacSha1_96,
            None,
            Err(Miss::NoEtype),
        ),
        (b"A.B", aes256, Some(1), Err(Miss::NoVersion)),
    ] {
        let found = find(rt.alloc(), realm, etype, version);
        same(&rt, &wanted, &found, &Ok(wanted));
    }
}

#[test]
fn keytabs_that_were_cut_are_refused(rt: HostRuntime) {
    let alloc = rt.alloc();
    let keytab = bytes(alloc, KEYTAB);
    for len in 0..keytab.len() {
        let wanted = match len {
            0 | 1 => Err(CredError::BadMagic),
            2 => Ok(0),
            _ => Err(CredError::Truncated),
        };
        same(&rt, &len, &count(alloc, &keytab[..len]), &wanted);
    }
    let found = count(alloc, &[5, 1, 0, 0]);
    same(&rt, &"magic", &found, &Err(CredError::BadMagic));
}

#[test]
fn caches_that_were_cut_are_refused(rt: HostRuntime) {
    let alloc = rt.alloc();
    let cache = bytes(alloc, CACHE);
    for len in 0..cache.len() {
        let wanted = match len {
            0 | 1 => CredError::BadMagic,
            _ => CredError::Truncated,
        };
        let found = cache_again(alloc, &cache[..len]).err();
        same(&rt, &len, &found, &Some(wanted));
    }
}

fn time(seconds: i64) -> Result<KTime, AllocError> {
    KTime::new(seconds).ok_or(AllocError)
}

/// Returns a credential of `u` for `h`, with these times.
#[tactic(auto, unfolding(cred_files::specs::Credential::credential, cred_files::specs::Credential::session_key))]
fn credential(alloc: Global, times: Times) -> Result<Credential, AllocError>
    ensures { IfOk result (λ c. FitsButForTimes c) }
{
    let octets = Octets::from_slice(alloc, &[7; 16])?;
    let ticket = Octets::from_slice(alloc, &[0x61, 0x00])?;
    let client = principal(alloc, b"u")?;
    let server = principal(alloc, b"h")?;
    Ok(Credential {
        client,
        server,
        key: SessionKey {
            key_type: 17,
            octets,
        },
        times,
        flags: Flags::from_bits(0x40e0_0000),
        addresses: Seq::new(alloc),
        authorization: Seq::new(alloc),
        ticket,
        second_ticket: Octets::new(Vec::new(alloc)),
    })
}

#[tactic(auto, unfolding(cred_files::specs::Principal::principal))]
fn principal(alloc: Global, name: &[u8]) -> Result<Principal, AllocError>
    requires { length name.now < 2 ^ 32 }
    ensures { IfOk result (λ p. formats.principal.form.Fits p) }
{
    Ok(Principal {
        realm: KerberosString::from_slice(alloc, b"A.B")?,
        name: Name::new(alloc, 1, &[name])?,
    })
}

/// Puts a credential with this end.
fn put(alloc: Global, cache: &mut Cache, end: i64) -> Result<(), CredError> {
    let start = time(1_704_067_200)?;
    let times = Times {
        auth_time: start,
        start_time: start,
        end_time: time(end)?,
        renew_till: start,
    };
    cache.put(alloc, &credential(alloc, times)?)
}

/// Returns the end of the credential for a service.
fn service_end(alloc: Global, cache: &Cache, service: &[u8]) -> Result<i64, CredError> {
    let service = Name::new(alloc, 2, &[service])?;
    match cache.find(&service) {
        Ok(found) => Ok(found.times.end_time.seconds()),
        Err(fault) => Err(fault),
    }
}

/// Ends of credentials that are put one after the other, how that ends, and the end of the one that is found then.
const PUT: &[(i64, Result<(), CredError>, i64)] = &[
    (1_704_103_200, Ok(()), 1_704_103_200),
    (2_147_483_648, Ok(()), 2_147_483_648),
    (4_294_967_296, Err(CredError::TooLate), 2_147_483_648),
    (1_704_103_201, Ok(()), 1_704_103_201),
];

fn are_put(rt: &impl Abort, alloc: Global, cache: &mut Cache) {
    for (end, wanted, found) in PUT {
        let before = service_end(alloc, cache, b"h");
        let mut outcome = marked(alloc, || put(alloc, cache, *end));
        if outcome == Err(CredError::Memory) {
            same(rt, end, &service_end(alloc, cache, b"h"), &before);
            outcome = put(alloc, cache, *end);
        }
        same(rt, end, &outcome, wanted);
        same(rt, end, &service_end(alloc, cache, b"h"), &Ok(*found));
        judged(alloc);
    }
    same(
        rt,
        &"u",
        &service_end(alloc, cache, b"u"),
        &Err(CredError::Absent),
    );
}

#[test]
fn credentials_are_put_and_found(rt: HostRuntime) {
    match new_cache(rt.alloc()) {
        Ok(mut cache) => are_put(&rt, rt.alloc(), &mut cache),
        Err(fault) => same(&rt, &"a cache", &Err(fault), &Ok(())),
    }
}

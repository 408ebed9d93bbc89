//! PA-ENC-TIMESTAMP, by which a client shows that it has its key (RFC 4120, section 5.2.7.2).
ghost use Rattle.std.specs.Prelude.{◌≡◌, IfOk, option_copied};
ghost use Rattle.preauth.specs.Timestamp.{first_of, encrypted_in, opened_of, time_of, is_skewed, outcome};

use crate::keys::key_numbered;
use encrypted_data::ReadyKeys;
use enctypes::KeyUsage;
use krb_der::KTime;
use krb_elements::{OctetsRef, SeqRef, read};
use krb_fields::numbers::PA_ENC_TIMESTAMP;
use krb_fields::{EncryptedDataRef, Moment, PaDataRef, SKEW};
use krb_types::PaEncTsEnc;
use principal_rows::{KeyList, Row};
use std::alloc::{AllocError, Global};

/// What a request shows about the client's key.
#[derive(Debug, Clone, Copy, PartialEq, Eq)]
pub enum Outcome {
    /// It has no PA-ENC-TIMESTAMP.
    Absent,
    /// No current key of the client decrypts the first one.
    Bad,
    /// A current key decrypts it, but its time is too far from now.
    Skewed,
    /// A current key decrypts it, and its time is within the clock skew.
    Good,
}

/// Checks the timestamp in the padata of a client's request at this moment. The cache of keys affects speed only.
pub fn check_timestamp<'p>(
    alloc: Global,
    ready: &ReadyKeys,
    client: &Row,
    at: Moment,
    padata: Option<&SeqRef<'p, PaDataRef<'p>>>,
) -> Result<Outcome, AllocError>
    // Promise: what a request shows about the client's key (`outcome`) is decided by its first PA-ENC-TIMESTAMP and the
    // client's current keys; `first_padata` returns the value of the first padata of a type.
    ensures { IfOk result (λ o. o ≡ outcome client.now at.sec (option_copied padata.entry)) }
{
    let Some(value) = first_padata(PA_ENC_TIMESTAMP, padata) else {
        return Ok(Outcome::Absent);
    };
    let keys = &client.versions.current().keys;
    Ok(match opened_time(alloc, ready, keys, value.as_slice())? {
        None => Outcome::Bad,
        Some(time) if is_skewed(at.sec, time) => Outcome::Skewed,
        Some(_) => Outcome::Good,
    })
}

/// Returns the value of the first padata of this type.
pub fn first_padata<'p>(
    number: i32,
    padata: Option<&SeqRef<'p, PaDataRef<'p>>>,
) -> Option<OctetsRef<'p>>
    // Promise, as check_timestamp: what a request shows ..
    ensures { result ≡ first_of number (option_copied padata.entry) }
{
    for entry in padata?.iter() {
        if entry.padata_type == number {
            return Some(entry.padata_value);
        }
    }
    None
}

/// Decrypts the time in the value of a PA-ENC-TIMESTAMP with the key of its encryption type.
fn opened_time(
    alloc: Global,
    ready: &ReadyKeys,
    keys: &KeyList,
    value: &[u8],
) -> Result<Option<KTime>, AllocError>
    ensures { IfOk result (λ found. found ≡ time_of (opened_of keys.now (encrypted_in value.now))) }
{
    let Ok(sealed) = read::<EncryptedDataRef<'_>>(value) else {
        return Ok(None);
    };
    let Some(key) = key_numbered(keys, sealed.etype) else {
        return Ok(None);
    };
    let usage = KeyUsage::PaEncTimestamp;
    let Some(part) = ready.open_part(alloc, key, usage, sealed.cipher.as_slice())? else {
        return Ok(None);
    };
    let PaEncTsEnc {
        patimestamp,
        pausec: _pausec,
    } = part;
    Ok(Some(patimestamp))
}

fn is_skewed(now: i64, time: KTime) -> bool
    ensures { result ≡ is_skewed now time }
{
    time.seconds().abs_diff(now) > SKEW.unsigned_abs()
}

//! What the clients of the tests ask for, and their requests.
ghost use Rattle.std.specs.Prelude.{IfOk};
ghost use Rattle.client_core.specs.Presenting.{IsShortChecksum};

use crate::fixtures::up;
use client_core::{Asked, ServiceAsked, as_request, is_presentable, tgs_request, with_timestamp};
use cred_files::Credential;
use enctypes::{Etype, Key};
use krb_der::KTime;
use krb_elements::{KerberosString, Octets, Seq};
use krb_fields::{Flags, Moment, Name, Typed};
use std::alloc::{AllocError, Global};

/// 2024-01-01 00:00:00, in seconds since 1970.
pub const MIDNIGHT: i64 = 1_704_067_200;

/// The realm of all principals.
pub const REALM: &[u8] = b"A.B";

/// A principal's name-type and its components.
pub type Parts = (i32, &'static [&'static [u8]]);

pub const USER: Parts = (1, &[b"u"]);

pub const HOST: Parts = (1, &[b"h"]);

pub const TGS: Parts = (2, &[b"krbtgt", REALM]);

// The options of a request, and the flags of a ticket that they ask for (RFC 4120, sections 5.3 and 5.4.1). Bit 0 is
// the most significant.

pub const FORWARDABLE: u32 = 1 << 30;

pub const FORWARDED: u32 = 1 << 29;

/// ALLOW-POSTDATE, and MAY-POSTDATE.
pub const MAY_POSTDATE: u32 = 1 << 26;

pub const POSTDATED: u32 = 1 << 25;

pub const RENEWABLE: u32 = 1 << 23;

// Options that are not flags.

pub const RENEW: u32 = 1 << 1;

pub const VALIDATE: u32 = 1;

// Flags that are not options.

pub const INITIAL: u32 = 1 << 22;

pub const PRE_AUTHENT: u32 = 1 << 21;

/// Returns the moment this many seconds and microseconds after 2024-01-01 00:00:00.
pub fn moment(after: i64, usec: u32) -> Moment {
    match Moment::new(MIDNIGHT.wrapping_add(after), usec) {
        Some(moment) => moment,
        // No row of a table has such a time.
        None => Moment { sec: 0, usec: 0 },
    }
}

/// A ticket that a client asks for. Times are in seconds after that midnight.
#[derive(Clone, Copy)]
pub struct Want {
    pub options: u32,
    pub client: Parts,
    pub realm: &'static [u8],
    pub service: Parts,
    pub from: Option<i64>,
    pub till: Option<i64>,
    pub nonce: u32,
}

/// A TGT of `u`.
pub const WANT: Want = Want {
    options: 0,
    client: USER,
    realm: REALM,
    service: TGS,
    from: None,
    till: None,
    nonce: 1,
};

/// Returns what the client asks for, with these encryption types.
pub fn asked(alloc: Global, want: &Want, etypes: &[Etype]) -> Result<Asked, AllocError> {
    let mut asked = Asked {
        options: Flags::from_bits(want.options),
        client: Name::new(alloc, want.client.0, want.client.1)?,
        realm: KerberosString::from_slice(alloc, want.realm)?,
        service: Name::new(alloc, want.service.0, want.service.1)?,
        from: match want.from {
            Some(after) => Some(moment(after, 0).time()),
            None => None,
        },
        till: match want.till {
            Some(after) => moment(after, 0).time(),
            None => KTime::of(0),
        },
        rtime: None,
        nonce: want.nonce,
        etypes: Seq::new(alloc),
    };
    match add_all(&mut asked.etypes, etypes) {
        Ok(()) => Ok(asked),
        Err(error) => Err(error),
    }
}

fn add_all(to: &mut Seq<Etype>, etypes: &[Etype]) -> Result<(), AllocError> {
    for etype in etypes {
        to.push(*etype)?;
    }
    Ok(())
}

/// Returns the bytes of a TGS-REQ with this credential and subkey. Without a credential, those of an AS-REQ, with a
/// timestamp under the key, if there is one. The confounder's bytes count up from `first`. There are no bytes if the
/// request is invalid.
pub fn request(
    alloc: Global,
    asked: &Asked,
    credential: Option<&Credential>,
    key: Option<Key>,
    at: Moment,
    first: u8,
) -> Result<Vec<u8>, AllocError> {
    let confounder = up(first);
    if !asked.is_askable() {
        return Ok(Vec::new(alloc));
    }
    match (credential, key) {
        (Some(credential), subkey) => {
            if !is_presentable(credential) {
                return Ok(Vec::new(alloc));
            }
            tgs_request(alloc, asked, credential, subkey, at, &confounder)
        }
        (None, Some(key)) => with_timestamp(alloc, asked, &key, at, &confounder),
        (None, None) => as_request(alloc, asked),
    }
}

/// Returns what a client asks of a service, with this subkey and sequence number, and then also a checksum.
pub fn service_asked(
    alloc: Global,
    mutual_required: bool,
    more: Option<(Key, u32)>,
) -> Result<ServiceAsked, AllocError>
    ensures { IfOk result (λ asked. IsShortChecksum asked.checksum) }
{
    let Some((key, number)) = more else {
        return Ok(ServiceAsked {
            mutual_required,
            checksum: None,
            subkey: None,
            seq_number: None,
        });
    };
    Ok(ServiceAsked {
        mutual_required,
        checksum: Some(Typed {
            number: 0x8003,
            octets: Octets::from_slice(alloc, b"abc")?,
        }),
        subkey: Some(key),
        seq_number: Some(number),
    })
}

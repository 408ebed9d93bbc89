//! How a client presents a ticket: AP-REQ, and the authenticator in it (RFC 4120, section 5.5.1).
ghost use Rattle.std.specs.Prelude.{◌≡◌, ◌≤◌, ◌<◌, length, IfOk, Some, option_map, pos};
ghost use Rattle.enctypes.specs.KeyUsage.{usage_number};
ghost use Rattle.krb_types.specs.ApReq.{ap_req};
ghost use Rattle.krb_elements.specs.Codec.{written};
ghost use Rattle.krb_fields.specs.NameLimits.{IsComponent, IsWithinLimits};
ghost use Rattle.krb_types.specs.Authenticator as parts;
ghost use Rattle.krb_types.specs.Ticket.{ticket};
ghost use Rattle.encrypted_data.specs.Encrypted.{decrypted};
ghost use Rattle.client_core.specs.Presenting.{IsShortChecksum, authenticator_of, number_part, presents, subkey_part};

use crate::sessions::Session;
use cred_files::Principal;
use encrypted_data::{PartKey, encrypted, key_part};
use enctypes::{Key, KeyUsage};
use krb_elements::UInt32;
use krb_fields::numbers::{AP_REQ, PVNO};
use krb_fields::{Flags, Moment, Typed};
use krb_types::{ApReq, Authenticator, encode_ap_req};
use std::alloc::{AllocError, Global};

/// Returns the authenticator, which the client encrypts with the session key.
#[tactic(auto, using(crate::specs::ShortLaws::authenticator_short))]
pub fn authenticator(
    alloc: Global,
    client: &Principal,
    at: Moment,
    cksum: Option<Typed>,
    subkey: Option<Key>,
    seq_number: Option<u32>,
) -> Result<Authenticator, AllocError>
    requires realm { IsComponent client.now.realm }
    requires name { IsWithinLimits client.now.name.components }
    requires cksum { IsShortChecksum cksum }
    ensures value { IfOk result (λ made. made ≡ authenticator_of client.now at cksum subkey seq_number) }
    ensures short { IfOk result (λ made. length (parts.authenticator.text made) ≤ 16800000) }
{
    Ok(Authenticator {
        crealm: client.realm.copy(alloc)?,
        cname: client.name.copy(alloc)?,
        cksum,
        cusec: at.microseconds(),
        ctime: at.time(),
        subkey: subkey_part(alloc, subkey)?,
        seq_number: number_part(seq_number),
        authorization_data: None,
    })
}

fn subkey_part(alloc: Global, subkey: Option<Key>) -> Result<Option<Typed>, AllocError>
    ensures { IfOk result (λ part. part ≡ subkey_part subkey) }
{
    match subkey {
        Some(key) => Ok(Some(key_part(alloc, &key)?)),
        None => Ok(None),
    }
}

fn number_part(number: Option<u32>) -> Option<UInt32>
    ensures { result ≡ number_part number }
{
    match number {
        Some(number) => UInt32::new(i64::from(number)),
        None => None,
    }
}

/// Returns the bytes of an AP-REQ with the session's ticket and this authenticator. `confounder` is 16 random bytes.
pub fn present(
    alloc: Global,
    session: Session,
    options: Flags,
    usage: KeyUsage,
    confounder: &[u8; 16],
    authenticator: &Authenticator,
) -> Result<Vec<u8>, AllocError>
    requires ticket { length (ticket.text session.ticket) < 16777216 }
    requires authenticator { length (parts.authenticator.text authenticator.now) ≤ 16800000 }
    ensures written { IfOk result (λ v.
        v.items ≡ written ap_req (presents session options (usage_number usage) confounder.now authenticator.now)) }
    ensures spelled { IfOk result (λ v.
        ap_req.Spells (presents session options (usage_number usage) confounder.now authenticator.now) v.items) }
    ensures opens { IfOk result (λ v.
        decrypted parts.authenticator session.key (usage_number usage)
        (presents session options (usage_number usage) confounder.now authenticator.now).authenticator
        ≡ Some authenticator.now) }
    ensures short { IfOk result (λ v. length v.items ≤ 34000006) }
{
    let request = presented(alloc, session, options, usage, confounder, authenticator)?;
    encode_ap_req(alloc, &request)
}

/// Returns the AP-REQ. It is a function apart from `present` only for the sake of the proof.
#[tactic(auto, using(crate::specs::ShortLaws::presents_short))]
fn presented(
    alloc: Global,
    session: Session,
    options: Flags,
    usage: KeyUsage,
    confounder: &[u8; 16],
    authenticator: &Authenticator,
) -> Result<ApReq, AllocError>
    requires ticket { length (ticket.text session.ticket) < 16777216 }
    requires authenticator { length (parts.authenticator.text authenticator.now) ≤ 16800000 }
    ensures value { IfOk result (λ made.
        made ≡ presents session options (usage_number usage) confounder.now authenticator.now) }
    ensures opens { IfOk result (λ made.
        decrypted parts.authenticator session.key (usage_number usage) made.authenticator ≡ Some authenticator.now) }
    ensures short { IfOk result (λ made. length (ap_req.text made) ≤ 34000000) }
{
    let Session { ticket, key } = session;
    let key = PartKey {
        key,
        usage,
        kvno: None,
    };
    let sealed = encrypted(alloc, &key, confounder, authenticator)?;
    Ok(ApReq {
        pvno: PVNO,
        msg_type: i32::from(AP_REQ),
        ap_options: options,
        ticket,
        authenticator: sealed,
    })
}

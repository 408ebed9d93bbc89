//! Reads a KDC's reply (RFC 4120, sections 3.1.5 and 3.3.4).
ghost use Rattle.std.specs.Prelude.{◌≡◌, ◌<◌, ◌^◌, ◌||◌, not, length, IfOk, IfSome, option_copied};
ghost use Rattle.enctypes.specs.KeyUsage.{usage_number};
ghost use Rattle.krb_types.specs.Ticket.{ticket};
ghost use Rattle.rule_lists.specs.Optional.{holds_of};
ghost use Rattle.client_core.specs.Faults.{Gives};
ghost use Rattle.client_core.specs.Replies.{as_part, ends_too_late, if_part, if_reply};
ghost use Rattle.client_core.specs.Replies.{is_other_nonce, is_other_service, is_principal};
ghost use Rattle.client_core.specs.Replies.{is_skewed, judged, may_start_elsewhere, ticket_reply_in};
ghost use Rattle.client_core.specs.Replies.{opened_as, opened_in, part_of, part_rules, reads, reads_as, reads_tgs};
ghost use Rattle.client_core.specs.Replies.{refusal_in, reply_in, reply_rules};
ghost use Rattle.client_core.specs.Replies.{starts_elsewhere, taken, tgs_role};
ghost use Rattle.client_core.specs.Taken.{IsTaken};
ghost use Rattle.client_core.specs.declared.key_role.KeyRole.TheVariants as roles;

use crate::asked::Asked;
use crate::credentials::credential_in;
use crate::fault::{
    Mismatch, Refusal, ReplyError, ReplyRefusal, ServerError, given, unless_rejected,
};
use crate::key_role::KeyRole;
use cred_files::Credential;
use encrypted_data::open_part;
use enctypes::{Key, KeyUsage};
use krb_der::KTime;
use krb_elements::{Octets, OctetsRef, read};
use krb_fields::numbers::{AS_REP, ENC_AS_REP_PART, ENC_TGS_REP_PART, PVNO, TGS_REP};
use krb_fields::{EncryptedDataRef, KdcOption, Moment, SKEW};
use krb_types::{EncKdcRepPart, KdcRepRef, KrbErrorRef, TicketRef, Under, read_kdc_rep};
use rule_lists::{Attempt, decide};
use std::alloc::{AllocError, Global};
use std::cmp::Ordering;

/// Returns the credential in an AS-REP under the client's key, or the first fault.
#[tactic(auto, using(crate::specs::TakenLaws::taken_if))]
pub fn read_as_reply(
    alloc: Global,
    asked: &Asked,
    key: &Key,
    at: Moment,
    bytes: &[u8],
) -> Result<Credential, ReplyError>
    // Promise: reading a reply gives the credential of the definition, or the first error, unless memory runs out.
    ensures value { Gives result (reads_as asked.now key.now at.sec bytes.now) }
    // So the bytes are the reply to this request.
    // Promise: a reply is accepted only if its client, nonce and service are the requested ones, and the ticket ends no
    // later than requested.
    // Promise: a reply whose ticket says when it starts is accepted only if that is within 300 seconds of now, unless
    // POSTDATED, RENEW or VALIDATE was requested.
    ensures taken { IfOk result (λ credential.
        IsTaken AS_REP roles.Client asked.now key.now at.sec bytes.now credential) }
{
    given(read_reply::<AS_REP>(alloc, KeyRole::Client, asked, key, at, bytes))
}

/// Returns the credential in a TGS-REP, or the first fault. The part is under the subkey of the request, or else under
/// the session key of the presented ticket.
#[tactic(auto, using(crate::specs::TakenLaws::taken_if))]
pub fn read_tgs_reply(
    alloc: Global,
    asked: &Asked,
    key: &Key,
    subkey: bool,
    at: Moment,
    bytes: &[u8],
) -> Result<Credential, ReplyError>
    // Promise, as read_as_reply: reading a reply gives ..
    ensures value { Gives result (reads_tgs asked.now key.now subkey at.sec bytes.now) }
    // So the bytes are the reply to this request.
    // Promise, as read_as_reply: a reply is accepted ..
    // Promise, as read_as_reply: a reply whose ticket ..
    ensures taken { IfOk result (λ credential.
        IsTaken TGS_REP (tgs_role subkey) asked.now key.now at.sec bytes.now credential) }
{
    given(read_reply::<TGS_REP>(alloc, tgs_role(subkey), asked, key, at, bytes))
}

/// Returns the credential in an AS-REP, like [`read_as_reply`], for a caller that has already read the bytes.
pub fn judge_as_reply(
    alloc: Global,
    asked: &Asked,
    key: &Key,
    at: Moment,
    reply: &KdcRepRef<'_, AS_REP>,
) -> Result<Credential, ReplyError>
    requires { length (ticket.text reply.now.ticket) < 2 ^ 32 }
    ensures { Gives result (judged AS_REP roles.Client asked.now key.now at.sec reply.now) }
{
    given(judged(alloc, KeyRole::Client, asked, key, at, reply))
}

/// Returns the credential in a TGS-REP, like [`read_tgs_reply`], for a caller that has already read the bytes.
pub fn judge_tgs_reply(
    alloc: Global,
    asked: &Asked,
    key: &Key,
    subkey: bool,
    at: Moment,
    reply: &KdcRepRef<'_, TGS_REP>,
) -> Result<Credential, ReplyError>
    requires { length (ticket.text reply.now.ticket) < 2 ^ 32 }
    ensures { Gives result (judged TGS_REP (tgs_role subkey) asked.now key.now at.sec reply.now) }
{
    given(judged(alloc, tgs_role(subkey), asked, key, at, reply))
}

fn tgs_role(subkey: bool) -> KeyRole
    ensures { result ≡ tgs_role subkey }
{
    if subkey {
        KeyRole::Subkey
    } else {
        KeyRole::Session
    }
}

fn read_reply<const TYPE: u8>(
    alloc: Global,
    role: KeyRole,
    asked: &Asked,
    key: &Key,
    at: Moment,
    bytes: &[u8],
) -> Attempt<Credential, ReplyError>
    ensures { IfOk result (λ found. found ≡ reads TYPE role asked.now key.now at.sec bytes.now) }
{
    let reply = reply_in::<TYPE>(alloc, bytes)?;
    if_reply(alloc, role, asked, key, at, reply)
}

fn if_reply<const TYPE: u8>(
    alloc: Global,
    role: KeyRole,
    asked: &Asked,
    key: &Key,
    at: Moment,
    reply: Result<KdcRepRef<'_, TYPE>, ReplyError>,
) -> Attempt<Credential, ReplyError>
    requires { IfOk reply (λ reply. length (ticket.text reply.ticket) < 2 ^ 32) }
    ensures { IfOk result (λ found. found ≡ if_reply TYPE role asked.now key.now at.sec reply.entry) }
{
    match reply {
        Ok(reply) => judged(alloc, role, asked, key, at, &reply),
        Err(fault) => Ok(Err(fault)),
    }
}

fn judged<const TYPE: u8>(
    alloc: Global,
    role: KeyRole,
    asked: &Asked,
    key: &Key,
    at: Moment,
    reply: &KdcRepRef<'_, TYPE>,
) -> Attempt<Credential, ReplyError>
    requires { length (ticket.text reply.now.ticket) < 2 ^ 32 }
    ensures { IfOk result (λ found. found ≡ judged TYPE role asked.now key.now at.sec reply.now) }
{
    let opened = open_reply_part(alloc, role, key, &reply.enc_part)?;
    let part = checked_part(asked, key, reply, opened);
    let found = if_part(alloc, asked, at, reply, part)?;
    Ok(unless_rejected(found))
}

/// Returns the reply, or what the bytes are instead.
fn reply_in<'a, const TYPE: u8>(
    alloc: Global,
    bytes: &'a [u8],
) -> Attempt<KdcRepRef<'a, TYPE>, ReplyError>
    ensures value { IfOk result (λ found. found ≡ reply_in TYPE bytes.now) }
    ensures short { IfOk result (λ found. IfOk found (λ reply. length (ticket.text reply.ticket) < 2 ^ 32)) }
{
    match ticket_reply_in(bytes) {
        Some(reply) => Ok(Ok(reply)),
        None => Ok(Err(refusal_in(alloc, bytes)?)),
    }
}

/// Returns the AS-REP or the TGS-REP, by its type, that the bytes encode, if its ticket has the version of the
/// protocol.
pub fn ticket_reply_in<const TYPE: u8>(bytes: &[u8]) -> Option<KdcRepRef<'_, TYPE>>
    ensures value { result ≡ ticket_reply_in TYPE bytes.now }
    ensures short { IfSome result (λ reply. length (ticket.text reply.ticket) < 2 ^ 32) }
{
    let Ok(reply) = read_kdc_rep::<TYPE>(bytes) else {
        return None;
    };
    if reply.ticket.tkt_vno != PVNO {
        return None;
    }
    Some(reply)
}

/// Returns the refusal in a KRB-ERROR. Other bytes are not a reply.
pub fn refusal_in(alloc: Global, bytes: &[u8]) -> Result<ReplyError, AllocError>
    ensures { IfOk result (λ fault. fault ≡ refusal_in bytes.now) }
{
    let Ok(error) = read::<KrbErrorRef<'_>>(bytes) else {
        return Ok(ReplyError::NotAReply);
    };
    Ok(ReplyError::Refused(Refusal {
        error: ServerError {
            code: error.error_code,
            stime: error.stime.seconds(),
        },
        e_data: copied(alloc, &error.e_data)?,
    }))
}

fn copied(alloc: Global, found: &Option<OctetsRef<'_>>) -> Result<Option<Octets>, AllocError>
    ensures { IfOk result (λ copy. copy ≡ found.now) }
{
    match found {
        Some(octets) => Ok(Some(Octets::from_slice(alloc, octets.as_slice())?)),
        None => Ok(None),
    }
}

/// Decrypts the reply's part.
fn open_reply_part(
    alloc: Global,
    role: KeyRole,
    key: &Key,
    sealed: &EncryptedDataRef<'_>,
) -> Result<Option<EncKdcRepPart>, AllocError>
    ensures { IfOk result (λ found. found ≡ opened_as role key.now sealed.now) }
{
    match role {
        KeyRole::Client => as_part(alloc, key, sealed),
        KeyRole::Subkey => opened_in::<ENC_TGS_REP_PART>(
            alloc,
            key,
            KeyUsage::TgsRepEncPartSubkey,
            sealed,
        ),
        KeyRole::Session => opened_in::<ENC_TGS_REP_PART>(
            alloc,
            key,
            KeyUsage::TgsRepEncPartSessionKey,
            sealed,
        ),
    }
}

/// Decrypts an AS-REP's part: in its own tag, or in that of a TGS-REP's part.
fn as_part(
    alloc: Global,
    key: &Key,
    sealed: &EncryptedDataRef<'_>,
) -> Result<Option<EncKdcRepPart>, AllocError>
    ensures { IfOk result (λ found. found ≡ as_part key.now sealed.now) }
{
    match opened_in::<ENC_AS_REP_PART>(alloc, key, KeyUsage::AsRepEncPart, sealed)? {
        Some(part) => Ok(Some(part)),
        None => opened_in::<ENC_TGS_REP_PART>(alloc, key, KeyUsage::AsRepEncPart, sealed),
    }
}

/// Decrypts the part in the tag `[APPLICATION TAG]`.
fn opened_in<const TAG: u8>(
    alloc: Global,
    key: &Key,
    usage: KeyUsage,
    sealed: &EncryptedDataRef<'_>,
) -> Result<Option<EncKdcRepPart>, AllocError>
    ensures { IfOk result (λ found. found ≡ opened_in TAG key.now (usage_number usage) sealed.now) }
{
    let found: Option<Under<TAG, EncKdcRepPart>> = open_part(
        alloc,
        key,
        usage,
        sealed.cipher.as_slice(),
    )?;
    match found {
        Some(under) => Ok(Some(under.value)),
        None => Ok(None),
    }
}

fn if_part<const TYPE: u8>(
    alloc: Global,
    asked: &Asked,
    at: Moment,
    reply: &KdcRepRef<'_, TYPE>,
    part: Result<EncKdcRepPart, ReplyRefusal>,
) -> Attempt<Credential, ReplyRefusal>
    requires { length (ticket.text reply.now.ticket) < 2 ^ 32 }
    ensures { IfOk result (λ found. found ≡ if_part TYPE asked.now at.sec reply.now part) }
{
    match part {
        Ok(part) => taken(alloc, asked, at, reply, &part),
        Err(rejection) => Ok(Err(rejection)),
    }
}

/// Returns the part of a reply to this client, under this key.
fn checked_part<const TYPE: u8>(
    asked: &Asked,
    key: &Key,
    reply: &KdcRepRef<'_, TYPE>,
    opened: Option<EncKdcRepPart>,
) -> Result<EncKdcRepPart, ReplyRefusal>
    ensures { result ≡ part_of TYPE asked.now key.now reply.now opened }
{
    let rules = reply_rules(asked, key, reply);
    decide(&rules, opened, ReplyRefusal::Unopened)
}

fn reply_rules<const TYPE: u8>(
    asked: &Asked,
    key: &Key,
    reply: &KdcRepRef<'_, TYPE>,
) -> [(bool, ReplyRefusal); 2]
    ensures { result ≡ reply_rules TYPE asked.now key.now reply.now }
{
    [
        (
            is_other_client(asked, reply),
            ReplyRefusal::Mismatched(Mismatch::Client),
        ),
        (
            reply.enc_part.etype != key.etype().number(),
            ReplyRefusal::Unopened,
        ),
    ]
}

fn is_other_client<const TYPE: u8>(asked: &Asked, reply: &KdcRepRef<'_, TYPE>) -> bool
    ensures { result ≡ not (is_principal reply.now.crealm reply.now.cname asked.now.realm asked.now.client) }
{
    reply.crealm.as_slice() != asked.realm.as_slice()
        || reply.cname.order(&asked.client) != Ordering::Equal
}

/// Returns the credential, if the part fits the request.
fn taken<const TYPE: u8>(
    alloc: Global,
    asked: &Asked,
    at: Moment,
    reply: &KdcRepRef<'_, TYPE>,
    part: &EncKdcRepPart,
) -> Attempt<Credential, ReplyRefusal>
    requires { length (ticket.text reply.now.ticket) < 2 ^ 32 }
    ensures { IfOk result (λ found. found ≡ taken TYPE asked.now at.sec reply.now part.now) }
{
    let rules = part_rules(asked, at, &reply.ticket, part);
    let credential = credential_in(alloc, reply, part)?;
    Ok(decide(&rules, credential, ReplyRefusal::Unopened))
}

fn part_rules(
    asked: &Asked,
    at: Moment,
    ticket: &TicketRef<'_>,
    part: &EncKdcRepPart,
) -> [(bool, ReplyRefusal); 3]
    ensures { result ≡ part_rules asked.now at.sec ticket.now part.now }
{
    [
        (
            is_other_nonce(asked, part),
            ReplyRefusal::Mismatched(Mismatch::Nonce),
        ),
        (
            is_other_service(asked, ticket, part),
            ReplyRefusal::Mismatched(Mismatch::Service),
        ),
        (
            ends_too_late(asked, part) || starts_elsewhere(asked, at, part),
            ReplyRefusal::Mismatched(Mismatch::Times),
        ),
    ]
}

/// Checks whether the part answers another request.
fn is_other_nonce(asked: &Asked, part: &EncKdcRepPart) -> bool
    ensures { result ≡ is_other_nonce asked.now part.now }
{
    part.nonce.get() != i64::from(asked.nonce)
}

/// Checks whether the part's service, or the ticket's, is another one.
fn is_other_service(asked: &Asked, ticket: &TicketRef<'_>, part: &EncKdcRepPart) -> bool
    ensures { result ≡ is_other_service asked.now ticket.now part.now }
{
    part.srealm.as_slice() != asked.realm.as_slice()
        || part.sname.order(&asked.service) != Ordering::Equal
        || ticket.realm.as_slice() != asked.realm.as_slice()
        || ticket.sname.order(&asked.service) != Ordering::Equal
}

/// Checks whether the ticket ends later than requested.
fn ends_too_late(asked: &Asked, part: &EncKdcRepPart) -> bool
    ensures { result ≡ ends_too_late asked.now part.now }
{
    asked.till.seconds() != 0 && part.endtime.seconds() > asked.till.seconds()
}

/// Checks whether the ticket starts at another time than now, without a request for that.
fn starts_elsewhere(asked: &Asked, at: Moment, part: &EncKdcRepPart) -> bool
    ensures { result ≡ starts_elsewhere asked.now at.sec part.now }
{
    !may_start_elsewhere(asked) && is_skewed(at.sec, part.starttime)
}

fn may_start_elsewhere(asked: &Asked) -> bool
    ensures { result ≡ may_start_elsewhere asked.now }
{
    asked.options.has(KdcOption::Postdated)
        || asked.options.has(KdcOption::Renew)
        || asked.options.has(KdcOption::Validate)
}

/// Checks whether there is a time, and it is outside the clock skew.
fn is_skewed(now: i64, time: Option<KTime>) -> bool
    ensures { result ≡ holds_of (is_skewed now) time }
{
    match time {
        Some(time) => time.seconds().abs_diff(now) > SKEW.unsigned_abs(),
        None => false,
    }
}

//! Reads a service's reply: AP-REP (RFC 4120, sections 3.2.5 and 5.5.2).
ghost use Rattle.std.specs.Prelude.{◌≡◌, IfOk};
ghost use Rattle.krb_types.specs.EncApRepPart.{enc_ap_rep_part};
ghost use Rattle.encrypted_data.specs.Encrypted.{decrypted};
ghost use Rattle.client_core.specs.Faults.{Gives};
ghost use Rattle.client_core.specs.ServiceReplies.{ap_part, ap_part_rules, ap_reply_in, ap_rules, if_ap_part};
ghost use Rattle.client_core.specs.ServiceReplies.{if_ap_reply, reads_ap, repeated};

use crate::fault::{Mismatch, ReplyError, ReplyRefusal, given, unless_rejected};
use crate::replies::refusal_in;
use encrypted_data::open_part;
use enctypes::{Key, KeyUsage};
use krb_elements::read;
use krb_fields::Moment;
use krb_types::{ApRepRef, EncApRepPart};
use rule_lists::{Attempt, decide};
use std::alloc::Global;

/// Returns the contents of an AP-REP under the session key, or the first fault. `sent` is the moment of the AP-REQ.
pub fn read_ap_reply(
    alloc: Global,
    key: &Key,
    sent: Moment,
    bytes: &[u8],
) -> Result<EncApRepPart, ReplyError>
    // Promise: the contents of an AP-REP are returned if they repeat the moment that was sent; a password's key is that
    // of the definition, or the first error is returned.
    ensures value { Gives result (reads_ap key.now sent bytes.now) }
{
    given(judged_ap_reply(alloc, key, sent, bytes))
}

fn judged_ap_reply(
    alloc: Global,
    key: &Key,
    sent: Moment,
    bytes: &[u8],
) -> Attempt<EncApRepPart, ReplyError>
    ensures { IfOk result (λ found. found ≡ reads_ap key.now sent bytes.now) }
{
    let reply = ap_reply_in(alloc, bytes)?;
    if_ap_reply(alloc, key, sent, reply)
}

fn if_ap_reply(
    alloc: Global,
    key: &Key,
    sent: Moment,
    reply: Result<ApRepRef<'_>, ReplyError>,
) -> Attempt<EncApRepPart, ReplyError>
    ensures { IfOk result (λ found. found ≡ if_ap_reply key.now sent reply.entry) }
{
    match reply {
        Ok(reply) => {
            let part = ap_part(alloc, key, &reply)?;
            Ok(unless_rejected(if_ap_part(sent, part)))
        }
        Err(fault) => Ok(Err(fault)),
    }
}

/// Returns the AP-REP, or what the bytes are instead.
fn ap_reply_in<'a>(alloc: Global, bytes: &'a [u8]) -> Attempt<ApRepRef<'a>, ReplyError>
    ensures { IfOk result (λ found. found ≡ ap_reply_in bytes.now) }
{
    match read::<ApRepRef<'a>>(bytes) {
        Ok(reply) => Ok(Ok(reply)),
        Err(_) => Ok(Err(refusal_in(alloc, bytes)?)),
    }
}

/// Decrypts the part with the session key.
fn ap_part(alloc: Global, key: &Key, reply: &ApRepRef<'_>) -> Attempt<EncApRepPart, ReplyRefusal>
    ensures { IfOk result (λ found. found ≡ ap_part key.now reply.now) }
{
    let rules = ap_rules(key, reply);
    let cipher = reply.enc_part.cipher.as_slice();
    let opened = open_part(alloc, key, KeyUsage::ApRepEncPart, cipher)?;
    Ok(decide(&rules, opened, ReplyRefusal::Unopened))
}

fn ap_rules(key: &Key, reply: &ApRepRef<'_>) -> [(bool, ReplyRefusal); 1]
    ensures { result ≡ ap_rules key.now reply.now }
{
    [(
        reply.enc_part.etype != key.etype().number(),
        ReplyRefusal::Unopened,
    )]
}

/// Returns the part, if it repeats the moment that was sent.
fn if_ap_part(
    sent: Moment,
    part: Result<EncApRepPart, ReplyRefusal>,
) -> Result<EncApRepPart, ReplyRefusal>
    ensures { result ≡ if_ap_part sent part }
{
    match part {
        Ok(part) => repeated(sent, part),
        Err(rejection) => Err(rejection),
    }
}

fn repeated(sent: Moment, part: EncApRepPart) -> Result<EncApRepPart, ReplyRefusal>
    ensures { result ≡ repeated sent part }
{
    let rules = ap_part_rules(sent, &part);
    decide(&rules, Some(part), ReplyRefusal::Unopened)
}

fn ap_part_rules(sent: Moment, part: &EncApRepPart) -> [(bool, ReplyRefusal); 1]
    ensures { result ≡ ap_part_rules sent part.now }
{
    [(
        part.ctime.seconds() != sent.sec || part.cusec.get() != sent.usec,
        ReplyRefusal::Mismatched(Mismatch::Times),
    )]
}

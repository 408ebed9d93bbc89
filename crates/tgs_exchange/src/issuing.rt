//! The ticket of an admission, and the reply that carries it (RFC 4120, section 3.3.3).
ghost use Rattle.std.specs.Prelude.{◌≡◌, ◌≤◌, length, IfOk};
ghost use Rattle.krb_elements.specs.Codec.{written};
ghost use Rattle.krb_types.specs.KdcRep.{kdc_rep};
ghost use Rattle.kdc_replies.specs.Grant.{IsShort};
ghost use Rattle.tgs_exchange.specs.Answer.{OpensFor};
ghost use Rattle.tgs_exchange.specs.Issue.{grant_by, reply_key_of, tgs_rep};
ghost use Rattle.tgs_exchange.specs.Outcome.{granted_by};
ghost use Rattle.ticket_times.specs.Flags.{tgs_flags};
ghost use Rattle.tgs_exchange.specs.Known.{IsKnown};
ghost use Rattle.tgs_exchange.specs.NamedLaws.{IsNamed};
ghost use Rattle.ap_req.specs.Validity.{ticket_terms};

use crate::terms::Admission;
use crate::view::TgsView;
use ap_req::ticket_terms;
use encrypted_data::PartKey;
use enctypes::KeyUsage;
use kdc_replies::{Grant, Granted, Incoming, ReplyInputs, session_key, ticket_reply};
use krb_elements::{KerberosStringRef, Lent, Seq};
use krb_fields::numbers::{ENC_TGS_REP_PART, TGS_REP};
use krb_fields::{Flags, Typed};
use krb_types::ReqBodyRef;
use std::alloc::{AllocError, Global};
use tgs_opening::Presented;
use ticket_times::tgs_flags;

/// Returns the bytes of the TGS-REP. The first 32 random bytes make the session key, and the last 32 are the
/// confounders of the ticket and of the reply.
pub fn tgs_rep(
    alloc: Global,
    view: &TgsView<'_>,
    incoming: &Incoming<'_>,
    body: &ReqBodyRef<'_>,
    presented: &Presented,
    admission: &Admission,
) -> Result<Vec<u8>, AllocError>
    requires known { IsKnown view.now body.now presented.now }
    requires named { IsNamed presented.now view.now.service admission.now.terms }
    ensures written { IfOk result (λ octets.
        octets.items ≡ written (kdc_rep TGS_REP)
        (tgs_rep view.now incoming.now.at incoming.now.random body.now presented.now admission.now)) }
    ensures spelled { IfOk result (λ octets.
        (kdc_rep TGS_REP).Spells (tgs_rep view.now incoming.now.at incoming.now.random body.now presented.now
        admission.now) octets.items) }
    // The client and the service decrypt it to the same contents; the service uses the key that the ticket names.
    ensures same { IfOk result (λ octets.
        OpensFor view.now incoming.now.at incoming.now.random body.now presented.now admission.now) }
{
    let reply_key = reply_key_of(presented);
    let inputs = ReplyInputs {
        nonce: body.nonce,
        time: incoming.at.time(),
        random: incoming.random,
        ready: incoming.ready,
    };
    let grant = grant_by(view, incoming.random, body, presented, admission);
    ticket_reply::<TGS_REP, ENC_TGS_REP_PART>(
        alloc,
        &grant,
        &admission.terms.service.key,
        &reply_key,
        None,
        &inputs,
    )
}

fn grant_by<'g>(
    view: &TgsView<'g>,
    random: &[u8; 64],
    body: &ReqBodyRef<'_>,
    presented: &'g Presented,
    admission: &'g Admission,
) -> Grant<'g>
    requires known { IsKnown view.now body.now presented.now }
    requires named { IsNamed presented.now view.now.service admission.now.terms }
    ensures value { result ≡ grant_by view.now random.now body.now presented.now admission.now }
    ensures short { IsShort result }
{
    let Admission { terms, times } = admission;
    let ticket = &presented.ticket;
    Grant {
        realm: KerberosStringRef::new(view.realm),
        client: Lent::new(&ticket.cname),
        service: Lent::new(&terms.service.name),
        session_key: session_key(terms.service.session_type, random),
        flags: issued_flags(body, presented, admission),
        authtime: ticket.authtime,
        times: *times,
        authorization_data: lent_data(&ticket.authorization_data),
    }
}

/// Lends the authorization data, if there are any.
fn lent_data(entries: &Option<Seq<Typed>>) -> Option<Lent<'_, Seq<Typed>>>
    ensures { result ≡ entries.now }
{
    match entries {
        Some(entries) => Some(Lent::new(entries)),
        None => None,
    }
}

fn issued_flags(body: &ReqBodyRef<'_>, presented: &Presented, admission: &Admission) -> Flags
    ensures { result ≡ tgs_flags body.now
        (ticket_terms presented.now.ticket) admission.now.terms.service.policy admission.now.times }
{
    let ticket = ticket_terms(&presented.ticket);
    tgs_flags(
        body,
        &ticket,
        &admission.terms.service.policy,
        &admission.times,
    )
}

/// Returns the terms that the ticket is issued with, for the audit record of the request.
pub fn granted_by(body: &ReqBodyRef<'_>, presented: &Presented, admission: &Admission) -> Granted
    ensures { result ≡ granted_by body.now presented.now admission.now }
{
    let Admission { terms, times } = admission;
    let reply_key = reply_key_of(presented);
    Granted {
        reply_type: reply_key.key.etype(),
        ticket_type: terms.service.key.key.etype(),
        session_type: terms.service.session_type,
        flags: issued_flags(body, presented, admission),
        authtime: presented.ticket.authtime,
        times: *times,
    }
}

/// Returns the key that the client chose, or else the session key of the presented ticket.
fn reply_key_of(presented: &Presented) -> PartKey
    ensures { result ≡ reply_key_of presented.now }
{
    match presented.subkey {
        Some(subkey) => PartKey {
            key: subkey,
            usage: KeyUsage::TgsRepEncPartSubkey,
            kvno: None,
        },
        None => PartKey {
            key: presented.session_key,
            usage: KeyUsage::TgsRepEncPartSessionKey,
            kvno: None,
        },
    }
}

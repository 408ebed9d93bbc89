//! The ticket for an admitted request, and the reply that carries it (RFC 4120, section 3.1.3).
ghost use Rattle.std.specs.Prelude.{◌≡◌, ◌≤◌, ◌∷◌, [], length, IfOk};
ghost use Rattle.krb_elements.specs.Codec.{list_of, written};
ghost use Rattle.krb_fields.specs.NameLimits.{IsWithinLimits};
ghost use Rattle.krb_fields.specs.PaData.{pa_data};
ghost use Rattle.krb_types.specs.KdcRep.{kdc_rep};
ghost use Rattle.kdc_replies.specs.Grant.{IsShort};
ghost use Rattle.ticket_times.specs.Flags.{as_flags};
ghost use Rattle.as_exchange.specs.Answer.{OpensFor};
ghost use Rattle.as_exchange.specs.Issue.{grant_by, reply_key_of, reply_info, as_rep};
ghost use Rattle.as_exchange.specs.NamedLaws.{IsNamed};
ghost use Rattle.as_exchange.specs.Outcome.{granted_by};
ghost use Rattle.as_exchange.specs.Rules.{is_good};

use crate::rules::is_good;
use crate::terms::{Admission, Terms};
use crate::view::AsView;
use encrypted_data::PartKey;
use enctypes::KeyUsage;
use kdc_replies::{
    Grant, Granted, Incoming, ReplyInputs, session_key, ticket_reply, version_number,
};
use krb_elements::{KerberosStringRef, Lent, Seq};
use krb_fields::numbers::{AS_REP, ENC_AS_REP_PART};
use krb_fields::{Flags, Moment, PaData};
use krb_types::ReqBodyRef;
use preauth::etype_info2;
use std::alloc::{AllocError, Global};
use ticket_times::as_flags;

/// Returns the bytes of the AS-REP. The first 32 random bytes become the session key. The last 32 are the confounders
/// of the ticket and of the reply.
pub fn as_rep(
    alloc: Global,
    view: &AsView<'_>,
    incoming: &Incoming<'_>,
    body: &ReqBodyRef<'_>,
    admission: &Admission,
) -> Result<Vec<u8>, AllocError>
    requires realm { length view.now.realm ≤ 255 }
    requires named { IsNamed view.now.client view.now.service admission.now.terms }
    ensures written { IfOk result (λ octets.
        octets.items ≡ written (kdc_rep AS_REP)
        (as_rep view.now incoming.now.at incoming.now.random body.now admission.now)) }
    ensures spelled { IfOk result (λ octets.
        (kdc_rep AS_REP).Spells
        (as_rep view.now incoming.now.at incoming.now.random body.now admission.now) octets.items) }
    // The keys that the reply names, the client's and the service's, decrypt it to the same contents.
    ensures same { IfOk result (λ octets.
        OpensFor view.now incoming.now.at incoming.now.random body.now admission.now) }
{
    let padata = reply_data(alloc, view, &admission.terms)?;
    let reply_key = reply_key_of(&admission.terms);
    let inputs = ReplyInputs {
        nonce: body.nonce,
        time: incoming.at.time(),
        random: incoming.random,
        ready: incoming.ready,
    };
    let grant = grant_by(view, incoming, body, admission);
    ticket_reply::<AS_REP, ENC_AS_REP_PART>(
        alloc,
        &grant,
        &admission.terms.service.key,
        &reply_key,
        Some(padata),
        &inputs,
    )
}

fn grant_by<'g>(
    view: &AsView<'g>,
    incoming: &Incoming<'_>,
    body: &ReqBodyRef<'_>,
    admission: &'g Admission,
) -> Grant<'g>
    requires realm { length view.now.realm ≤ 255 }
    requires named { IsNamed view.now.client view.now.service admission.now.terms }
    ensures value { result ≡ grant_by view.now incoming.now.at incoming.now.random body.now admission.now }
    ensures short { IsShort result }
{
    let Admission { terms, times, .. } = admission;
    Grant {
        realm: KerberosStringRef::new(view.realm),
        client: Lent::new(&terms.client_name),
        service: Lent::new(&terms.service.name),
        session_key: session_key(terms.service.session_type, incoming.random),
        flags: issued_flags(body, admission),
        authtime: incoming.at.time(),
        times: *times,
        authorization_data: None,
    }
}

fn issued_flags(body: &ReqBodyRef<'_>, admission: &Admission) -> Flags
    ensures { result
        ≡ as_flags body.now admission.now.terms.client_policy admission.now.terms.service.policy
        (is_good admission.now.timestamp) admission.now.times }
{
    let Admission {
        terms,
        times,
        timestamp,
    } = admission;
    as_flags(
        body,
        &terms.client_policy,
        &terms.service.policy,
        is_good(*timestamp),
        times,
    )
}

/// Returns the properties of the issued ticket for the request's audit record.
pub fn granted_by(at: Moment, body: &ReqBodyRef<'_>, admission: &Admission) -> Granted
    ensures { result ≡ granted_by at body.now admission.now }
{
    let Admission { terms, times, .. } = admission;
    Granted {
        reply_type: terms.reply_key.etype(),
        ticket_type: terms.service.key.key.etype(),
        session_type: terms.service.session_type,
        flags: issued_flags(body, admission),
        authtime: at.time(),
        times: *times,
    }
}

/// Returns the client's key with its key version.
fn reply_key_of(terms: &Terms) -> PartKey
    ensures { result ≡ reply_key_of terms.now }
{
    PartKey {
        key: terms.reply_key,
        usage: KeyUsage::AsRepEncPart,
        kvno: Some(version_number(terms.reply_version)),
    }
}

/// Returns PA-ETYPE-INFO2, which says how to derive the reply key from a password.
#[tactic(auto, using(crate::specs::NamedLaws::data_short))]
fn reply_data(alloc: Global, view: &AsView<'_>, terms: &Terms) -> Result<Seq<PaData>, AllocError>
    requires realm { length view.now.realm ≤ 255 }
    requires named { IsNamed view.now.client view.now.service terms.now }
    ensures value { IfOk result (λ list. list ≡ reply_info view.now terms.now ∷ []) }
    ensures short { IfOk result (λ list. length ((list_of pa_data).text list) ≤ 70000) }
{
    let mut list = Seq::new(alloc);
    list.push(reply_info(alloc, view, terms)?)?;
    Ok(list)
}

#[tactic(auto, using(crate::specs::Known::salt_short))]
fn reply_info(alloc: Global, view: &AsView<'_>, terms: &Terms) -> Result<PaData, AllocError>
    requires realm { length view.now.realm ≤ 255 }
    requires named { IsNamed view.now.client view.now.service terms.now }
    ensures value { IfOk result (λ info. info ≡ reply_info view.now terms.now) }
    ensures short { IfOk result (λ info. length info.padata_value ≤ 32926) }
{
    let salt = terms.client_name.salt(alloc, view.realm)?;
    etype_info2(alloc, salt.as_slice(), &[terms.reply_key.etype().number()])
}

//! Replies with a ticket (RFC 4120, section 5.4.2).
ghost use Rattle.std.specs.Prelude.{◌≡◌, ◌≤◌, ◌<◌, ◌+◌, ◌^◌, length, Some, IfOk, IfSome};
ghost use Rattle.krb_elements.specs.Codec.{list_of, written};
ghost use Rattle.krb_fields.specs.PaData.{pa_data};
ghost use Rattle.krb_types.specs.EncKdcRepPart.{enc_kdc_rep_part};
ghost use Rattle.krb_types.specs.KdcRep.{kdc_rep};
ghost use Rattle.krb_types.specs.Under.{under};
ghost use Rattle.enctypes.specs.KeyUsage.{usage_number};
ghost use Rattle.encrypted_data.specs.Encrypted.{decrypted};
ghost use Rattle.kdc_replies.specs.Grant.{IsShort, reply_part, ticket_part};
ghost use Rattle.kdc_replies.specs.Reply.{OpensAlike, sealed_part, reply_of};

use crate::grant::{Grant, LentName, LentRealm};
use crate::tickets::{LentTicket, ServiceKey, confounder, ticket};
use encrypted_data::{PartKey, ReadyKeys};
use krb_der::KTime;
use krb_elements::{Lent, Seq, UInt32, write};
use krb_fields::{EncryptedData, PaData};
use krb_types::{KdcRep, Under};
use std::alloc::{AllocError, Global};

/// What a reply with a ticket needs besides the grant and the keys.
#[derive(Clone, Copy)]
pub struct ReplyInputs<'r> {
    /// The nonce of the request.
    pub nonce: UInt32,
    /// When the reply is made; its last-req has this time.
    pub time: KTime,
    /// The random bytes for the answer. The reply uses the last 32, for the two confounders.
    pub random: &'r [u8; 64],
    /// A cache of recently used keys. It affects speed only, never a reply.
    pub ready: &'r ReadyKeys,
}

/// A reply that borrows the realm and the names from its grant.
type LentReply<'g, 'a, const TYPE: u8> = KdcRep<
    TYPE,
    Seq<PaData>,
    LentRealm<'g, 'a>,
    LentName<'g, 'a>,
    LentTicket<'g, 'a>,
>;

/// Returns the bytes of the reply with a grant's ticket. `TYPE` is its message type, and `[APPLICATION TAG]` the tag of
/// its encrypted part. Random bytes 32 to 48 and 48 to 64 are the two confounders.
pub fn ticket_reply<const TYPE: u8, const TAG: u8>(
    alloc: Global,
    grant: &Grant<'_>,
    service: &ServiceKey,
    key: &PartKey,
    padata: Option<Seq<PaData>>,
    inputs: &ReplyInputs<'_>,
) -> Result<Vec<u8>, AllocError>
    requires grant { IsShort grant.now }
    requires padata { IfSome padata (λ list. length ((list_of pa_data).text list) ≤ 70000) }
    // Promise (written, spelled, same): a reply with a ticket is written as the definition says, in bytes that spell
    // it; the client and the service decrypt it to the same contents.
    ensures written { IfOk result (λ octets.
        octets.items ≡ written (kdc_rep TYPE)
        (reply_of TYPE TAG grant.now service.now key.now padata inputs.now.nonce inputs.now.time
        inputs.now.random.now)) }
    ensures spelled { IfOk result (λ octets.
        (kdc_rep TYPE).Spells (reply_of TYPE TAG grant.now service.now key.now padata inputs.now.nonce inputs.now.time
        inputs.now.random.now) octets.items) }
    // The client's key and the service's key decrypt it to the same contents.
    ensures same { IfOk result (λ octets. OpensAlike TYPE TAG key.now.key (usage_number key.now.usage) service.now.key
        (reply_of TYPE TAG grant.now service.now key.now padata inputs.now.nonce inputs.now.time inputs.now.random.now)
        (reply_part grant.now inputs.now.nonce inputs.now.time) (ticket_part grant.now)) }
{
    let reply = whole_reply::<TYPE, TAG>(alloc, grant, service, key, padata, inputs)?;
    write(alloc, &reply)
}

#[tactic(auto, using(crate::specs::LengthLaws::reply_short))]
fn whole_reply<'g, 'a, const TYPE: u8, const TAG: u8>(
    alloc: Global,
    grant: &'g Grant<'a>,
    service: &ServiceKey,
    key: &PartKey,
    padata: Option<Seq<PaData>>,
    inputs: &ReplyInputs<'_>,
) -> Result<LentReply<'g, 'a, TYPE>, AllocError>
    requires grant { IsShort grant.now }
    requires padata { IfSome padata (λ list. length ((list_of pa_data).text list) ≤ 70000) }
    ensures value { IfOk result (λ reply.
        reply ≡ reply_of TYPE TAG grant.now service.now key.now padata inputs.now.nonce inputs.now.time
        inputs.now.random.now) }
    ensures short { IfOk result (λ reply. length ((kdc_rep TYPE).text reply) < 2 ^ 32) }
    ensures same { IfOk result (λ reply.
        OpensAlike TYPE TAG key.now.key (usage_number key.now.usage) service.now.key reply
        (reply_part grant.now inputs.now.nonce inputs.now.time) (ticket_part grant.now)) }
{
    let ticket = ticket(alloc, grant, service, inputs.ready, inputs.random)?;
    let enc_part = sealed::<TAG>(alloc, grant, key, inputs)?;
    Ok(KdcRep {
        padata,
        crealm: Lent::new(&grant.realm),
        cname: Lent::new(&grant.client),
        ticket,
        enc_part,
    })
}

#[tactic(auto, using(krb_elements::specs::ShortTextLaws::tlv_short))]
fn sealed<const TAG: u8>(
    alloc: Global,
    grant: &Grant<'_>,
    key: &PartKey,
    inputs: &ReplyInputs<'_>,
) -> Result<EncryptedData, AllocError>
    requires { IsShort grant.now }
    ensures value { IfOk result (λ sealed.
        sealed ≡ sealed_part TAG grant.now key.now inputs.now.nonce inputs.now.time inputs.now.random.now) }
    ensures opens { IfOk result (λ sealed.
        decrypted (under TAG enc_kdc_rep_part) key.now.key (usage_number key.now.usage) sealed
        ≡ Some (reply_part grant.now inputs.now.nonce inputs.now.time)) }
    ensures most { IfOk result (λ sealed. length sealed.cipher ≤ 6200) }
{
    let part: Under<TAG, _> = Under {
        value: grant.reply_part(alloc, inputs.nonce, inputs.time)?,
    };
    inputs
        .ready
        .encrypted(alloc, key, &confounder(inputs.random, 48), &part)
}

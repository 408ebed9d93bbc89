//! The AP-REP, by which a service proves that it has the session key (RFC 4120, sections 3.2.4 and 5.5.2).
ghost use Rattle.std.specs.Prelude.{◌≡◌, ◌<◌, ◌≤◌, ◌^◌, length, Some, IfOk, IfSome};
ghost use Rattle.enctypes.specs.KeyUsage.{usage_number};
ghost use Rattle.krb_types.specs.ApRep.{ap_rep};
ghost use Rattle.krb_types.specs.EncApRepPart.{enc_ap_rep_part};
ghost use Rattle.encrypted_data.specs.Encrypted.{decrypted};
ghost use Rattle.ap_accept.specs.Reply.{IsApReply, reply_if, reply_of, reply_part};

use crate::presented::Presented;
use crate::receipt::Receipt;
use encrypted_data::seal_part;
use enctypes::{Key, KeyUsage};
use krb_elements::Octets;
use krb_fields::EncryptedData;
use krb_types::{ApRep, Authenticator, EncApRepPart, encode_ap_rep};
use std::alloc::{AllocError, Global};

/// Returns the bytes of the AP-REP, if it is asked for.
pub fn reply_if(
    alloc: Global,
    receipt: &Receipt,
    presented: &Presented,
) -> Result<Option<Octets>, AllocError>
    ensures value { IfOk result (λ reply. reply ≡ reply_if receipt.now.wanted
        presented.now.session_key receipt.now.confounder presented.now.authenticator) }
    ensures opens { IfOk result (λ reply. IfSome reply (λ octets.
        IsApReply presented.now.session_key receipt.now.confounder presented.now.authenticator octets)) }
{
    if !receipt.wanted {
        return Ok(None);
    }
    let key = &presented.session_key;
    let reply = seal_reply(alloc, key, &receipt.confounder, &presented.authenticator)?;
    Ok(Some(Octets::new(encode_ap_rep(alloc, &reply)?)))
}

fn seal_reply(
    alloc: Global,
    key: &Key,
    confounder: &[u8; 16],
    authenticator: &Authenticator,
) -> Result<ApRep, AllocError>
    ensures value { IfOk result (λ reply. reply ≡ reply_of key.now confounder.now authenticator.now) }
    ensures opens { IfOk result (λ reply.
        decrypted enc_ap_rep_part key.now (usage_number KeyUsage.ApRepEncPart) reply.enc_part
        ≡ Some (reply_part authenticator.now)) }
    ensures short { IfOk result (λ reply. length (ap_rep.text reply) < 2 ^ 32) }
{
    let part = reply_part(authenticator);
    let cipher = seal_part(alloc, key, KeyUsage::ApRepEncPart, confounder, &part)?;
    Ok(ApRep {
        enc_part: EncryptedData {
            etype: key.etype().number(),
            kvno: None,
            cipher: Octets::new(cipher),
        },
    })
}

/// Returns the part with the authenticator's time and nothing else.
#[tactic(auto, using(crate::specs::LengthLaws::part_short))]
fn reply_part(authenticator: &Authenticator) -> EncApRepPart
    ensures value { result ≡ reply_part authenticator.now }
    ensures short { length (enc_ap_rep_part.text result) ≤ 100 }
{
    EncApRepPart {
        ctime: authenticator.ctime,
        cusec: authenticator.cusec,
        subkey: None,
        seq_number: None,
    }
}

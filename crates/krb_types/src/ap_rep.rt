//! AP-REP (RFC 4120, section 5.5.2).
ghost use Rattle.std.specs.Prelude.{◌≡◌, ◌<◌, ◌^◌, length, IfOk, OnOk};
ghost use Rattle.krb_elements.specs.Codec.{itself, written};
ghost use Rattle.krb_elements.specs.Format.{Decodes, IsReadUnlessMemory, whole};
ghost use Rattle.krb_types.specs.ApRep.{ap_rep, ap_rep_of, ap_rep_form};
ghost use Rattle.krb_types.specs.ApRep as trees;

use krb_der::{DerFault, Reader, Writer};
use krb_elements::{
    Application, Coded, Decode, DecodeFields, Encode, EncodeFields, Fault, Fielded, MakeOwned,
    ReadOwned, read, read_owned, take_field, take_fixed, write, write_field,
};
use krb_fields::numbers::{AP_REP, PVNO};
use krb_fields::{EncryptedData, EncryptedDataRef};
use std::alloc::{AllocError, Global};

/// The message type, as a field value.
const MSG_TYPE: i32 = AP_REP as i32;

/// A service's answer to a client that asked it to prove its identity. The version and the message type are fixed, so
/// they are not stored.
#[derive(Debug, Drop)]
pub struct ApRep<E = EncryptedData> {
    /// An EncAPRepPart, encrypted with the session key.
    pub enc_part: E,
}

/// A borrowed [`ApRep`].
pub type ApRepRef<'a> = ApRep<EncryptedDataRef<'a>>;

impl<E: Coded> Coded for ApRep<E> {
    ghost codec = { ap_rep_of E.codec };
}

impl<E: Coded> Fielded for ApRep<E> {
    type In = Application<AP_REP>;

    ghost form = { ap_rep_form E.codec };

    ghost made = { itself };
}

impl<'a, E: Decode<'a>> DecodeFields<'a> for ApRep<E> {
    #[tactic(auto, unfolding(crate::specs::ApRep::ap_rep_form))]
    fn look_fields(fields: &mut Reader<'a>) -> Result<ApRep<E>, DerFault> {
        take_fixed(fields, 0, PVNO)?;
        take_fixed(fields, 1, MSG_TYPE)?;
        Ok(ApRep {
            enc_part: take_field(fields, 2)?,
        })
    }
}

impl<E: Encode> EncodeFields for ApRep<E> {
    #[tactic(auto, unfolding(crate::specs::ApRep::ap_rep_form))]
    fn put_fields(&self, out: &mut Writer) -> Result<(), AllocError> {
        write_field(out, 0, &PVNO)?;
        write_field(out, 1, &MSG_TYPE)?;
        write_field(out, 2, &self.enc_part)
    }
}

impl<E: MakeOwned> MakeOwned for ApRep<E> {
    type Owned = ApRep<E::Owned>;

    ghost same = { λ x. record { enc_part = E.same x.enc_part } };

    fn copy(&self, alloc: Global) -> Result<ApRep<E::Owned>, AllocError> {
        Ok(ApRep {
            enc_part: self.enc_part.copy(alloc)?,
        })
    }
}

fn copied(alloc: Global, found: &ApRepRef<'_>) -> Result<ApRep, AllocError>
    ensures { IfOk result (λ copy. copy ≡ found.now) }
{
    found.copy(alloc)
}

impl ReadOwned for ApRep {
    fn read_parts(alloc: Global, bytes: &[u8]) -> Result<ApRep, Fault> {
        let found: ApRepRef<'_> = read(bytes)?;
        Ok(copied(alloc, &found)?)
    }
}

/// Reads the AP-REP that the bytes encode.
pub fn decode_ap_rep(alloc: Global, bytes: &[u8]) -> Result<ApRep, Fault>
    // Promise (found, only, exact), as decode_krb_error: KRB-ERROR, AP-REQ and AP-REP ..
    ensures found { IfOk result (λ reply. ap_rep.Spells reply bytes.now) }
    ensures only { (reply : trees.ApRep) → ap_rep.Spells reply bytes.now → IsReadUnlessMemory result reply }
    ensures exact { Decodes result (whole ap_rep.at bytes.now) }
    // An AP-REP has only one encoding.
    // Promise, as decode_krb_error: a KRB-ERROR and an ..
    ensures one { IfOk result (λ reply. bytes.now ≡ written ap_rep reply) }
{
    read_owned(alloc, bytes)
}

/// Returns the encoding of the AP-REP.
pub fn encode_ap_rep(alloc: Global, reply: &ApRep) -> Result<Vec<u8>, AllocError>
    requires { length (ap_rep.text reply.now) < 2 ^ 32 }
    // Promise (written, spelled), as encode_kdc_req: a request, a KRB-ERROR, ..
    ensures written { IfOk result (λ v. v.items ≡ written ap_rep reply.now) }
    ensures spelled { IfOk result (λ v. ap_rep.Spells reply.now v.items) }
{
    write(alloc, reply)
}

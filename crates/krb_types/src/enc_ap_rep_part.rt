//! EncAPRepPart (RFC 4120, section 5.5.2).
ghost use Rattle.std.specs.Prelude.{◌≡◌, ◌<◌, ◌^◌, length, IfOk, OnOk, option_map};
ghost use Rattle.krb_elements.specs.Codec.{itself, written};
ghost use Rattle.krb_elements.specs.Format.{Decodes, IsReadUnlessMemory, whole};
ghost use Rattle.krb_types.specs.EncApRepPart.{enc_ap_rep_part_of, enc_ap_rep_part_form, enc_ap_rep_part};
ghost use Rattle.krb_types.specs.EncApRepPart as trees;

use krb_der::{DerFault, KTime, Reader, Writer};
use krb_elements::{
    Application, Coded, Decode, DecodeFields, Encode, EncodeFields, Fault, Fielded, MakeOwned,
    Microseconds, ReadOwned, UInt32, read, read_owned, take_field, take_optional, write,
    write_field, write_optional,
};
use krb_fields::numbers::ENC_AP_REP_PART;
use krb_fields::{Typed, TypedRef};
use std::alloc::{AllocError, Global};

/// What a service encrypts with the session key, to prove that it has the key.
#[derive(Debug, Drop)]
pub struct EncApRepPart<T = Typed> {
    /// The ctime of the authenticator.
    pub ctime: KTime,
    /// The cusec of the authenticator.
    pub cusec: Microseconds,
    /// The key that the service chose for the rest of the connection.
    pub subkey: Option<T>,
    /// The sequence number at which the service's KRB-SAFE and KRB-PRIV messages start, if it uses one.
    pub seq_number: Option<UInt32>,
}

/// A borrowed [`EncApRepPart`].
pub type EncApRepPartRef<'a> = EncApRepPart<TypedRef<'a>>;

impl<T: Coded> Coded for EncApRepPart<T> {
    ghost codec = { enc_ap_rep_part_of T.codec };
}

impl<T: Coded> Fielded for EncApRepPart<T> {
    type In = Application<ENC_AP_REP_PART>;

    ghost form = { enc_ap_rep_part_form T.codec };

    ghost made = { itself };
}

impl<'a, T: Decode<'a>> DecodeFields<'a> for EncApRepPart<T> {
    #[tactic(auto, unfolding(crate::specs::EncApRepPart::enc_ap_rep_part_form))]
    fn look_fields(fields: &mut Reader<'a>) -> Result<EncApRepPart<T>, DerFault> {
        Ok(EncApRepPart {
            ctime: take_field(fields, 0)?,
            cusec: take_field(fields, 1)?,
            subkey: take_optional(fields, 2)?,
            seq_number: take_optional(fields, 3)?,
        })
    }
}

impl<T: Encode> EncodeFields for EncApRepPart<T> {
    #[tactic(auto, unfolding(crate::specs::EncApRepPart::enc_ap_rep_part_form))]
    fn put_fields(&self, out: &mut Writer) -> Result<(), AllocError> {
        write_field(out, 0, &self.ctime)?;
        write_field(out, 1, &self.cusec)?;
        write_optional(out, 2, &self.subkey)?;
        write_optional(out, 3, &self.seq_number)
    }
}

impl<T: MakeOwned> MakeOwned for EncApRepPart<T> {
    type Owned = EncApRepPart<T::Owned>;

    ghost same = { λ x. record {
      ctime = x.ctime;
      cusec = x.cusec;
      subkey = option_map T.same x.subkey;
      seq_number = x.seq_number;
    } };

    fn copy(&self, alloc: Global) -> Result<EncApRepPart<T::Owned>, AllocError> {
        Ok(EncApRepPart {
            ctime: self.ctime,
            cusec: self.cusec,
            subkey: self.subkey.copy(alloc)?,
            seq_number: self.seq_number,
        })
    }
}

fn copied(alloc: Global, found: &EncApRepPartRef<'_>) -> Result<EncApRepPart, AllocError>
    ensures { IfOk result (λ copy. copy ≡ found.now) }
{
    found.copy(alloc)
}

impl ReadOwned for EncApRepPart {
    fn read_parts(alloc: Global, bytes: &[u8]) -> Result<EncApRepPart, Fault> {
        let found: EncApRepPartRef<'_> = read(bytes)?;
        Ok(copied(alloc, &found)?)
    }
}

/// Reads the EncAPRepPart that the bytes encode.
pub fn decode_enc_ap_rep_part(alloc: Global, bytes: &[u8]) -> Result<EncApRepPart, Fault>
    // Promise (found, only, exact), as decode_enc_ticket_part: EncTicketPart, Authenticator, EncAPRepPart and ..
    ensures found { IfOk result (λ x. enc_ap_rep_part.Spells x bytes.now) }
    ensures only { (x : trees.EncApRepPart) → enc_ap_rep_part.Spells x bytes.now → IsReadUnlessMemory result x }
    ensures exact { Decodes result (whole enc_ap_rep_part.at bytes.now) }
{
    read_owned(alloc, bytes)
}

/// Returns the encoding of the EncAPRepPart.
pub fn encode_enc_ap_rep_part(alloc: Global, part: &EncApRepPart) -> Result<Vec<u8>, AllocError>
    requires { length (enc_ap_rep_part.text part.now) < 2 ^ 32 }
    // Promise (written, spelled), as encode_enc_ticket_part: each of these parts ..
    ensures written { IfOk result (λ v. v.items ≡ written enc_ap_rep_part part.now) }
    ensures spelled { IfOk result (λ v. enc_ap_rep_part.Spells part.now v.items) }
{
    write(alloc, part)
}

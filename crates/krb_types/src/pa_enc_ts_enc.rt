//! PA-ENC-TS-ENC (RFC 4120, section 5.2.7.2).
ghost use Rattle.std.specs.Prelude.{◌≡◌, ◌<◌, ◌^◌, length, IfOk, OnOk};
ghost use Rattle.krb_elements.specs.Codec.{itself, written};
ghost use Rattle.krb_elements.specs.Format.{Decodes, IsReadUnlessMemory, whole};
ghost use Rattle.krb_types.specs.PaEncTsEnc.{pa_enc_ts_enc_form, pa_enc_ts_enc};
ghost use Rattle.krb_types.specs.PaEncTsEnc as trees;

use krb_der::{DerFault, KTime, Reader, Writer};
use krb_elements::{
    Coded, DecodeFields, EncodeFields, Fault, Fielded, MakeOwned, Microseconds, ReadOwned,
    Untagged, read, read_owned, take_field, take_optional, write, write_field, write_optional,
};
use std::alloc::{AllocError, Global};

/// The moment that a client encrypts with its key, to prove that it has the key.
#[derive(Debug, Drop)]
pub struct PaEncTsEnc {
    /// The client's time, in whole seconds.
    pub patimestamp: KTime,
    /// The microseconds of the client's time, 0 to 999999.
    pub pausec: Option<Microseconds>,
}

impl Coded for PaEncTsEnc {
    ghost codec = { pa_enc_ts_enc };
}

impl Fielded for PaEncTsEnc {
    type In = Untagged;

    ghost form = { pa_enc_ts_enc_form };

    ghost made = { itself };
}

impl<'a> DecodeFields<'a> for PaEncTsEnc {
    #[tactic(auto, unfolding(crate::specs::PaEncTsEnc::pa_enc_ts_enc_form))]
    fn look_fields(fields: &mut Reader<'a>) -> Result<PaEncTsEnc, DerFault> {
        Ok(PaEncTsEnc {
            patimestamp: take_field(fields, 0)?,
            pausec: take_optional(fields, 1)?,
        })
    }
}

impl EncodeFields for PaEncTsEnc {
    #[tactic(auto, unfolding(crate::specs::PaEncTsEnc::pa_enc_ts_enc_form))]
    fn put_fields(&self, out: &mut Writer) -> Result<(), AllocError> {
        write_field(out, 0, &self.patimestamp)?;
        write_optional(out, 1, &self.pausec)
    }
}

impl MakeOwned for PaEncTsEnc {
    type Owned = PaEncTsEnc;

    ghost same = { λ x. record { patimestamp = x.patimestamp; pausec = x.pausec } };

    fn copy(&self, _alloc: Global) -> Result<PaEncTsEnc, AllocError> {
        Ok(PaEncTsEnc {
            patimestamp: self.patimestamp,
            pausec: self.pausec,
        })
    }
}

impl ReadOwned for PaEncTsEnc {
    fn read_parts(_alloc: Global, bytes: &[u8]) -> Result<PaEncTsEnc, Fault> {
        Ok(read(bytes)?)
    }
}

/// Reads the PA-ENC-TS-ENC that the bytes encode.
pub fn decode_pa_enc_ts_enc(alloc: Global, bytes: &[u8]) -> Result<PaEncTsEnc, Fault>
    // Promise (found, only, exact), as decode_enc_ticket_part: EncTicketPart, Authenticator, EncAPRepPart and ..
    ensures found { IfOk result (λ x. pa_enc_ts_enc.Spells x bytes.now) }
    ensures only { (x : trees.PaEncTsEnc) → pa_enc_ts_enc.Spells x bytes.now → IsReadUnlessMemory result x }
    ensures exact { Decodes result (whole pa_enc_ts_enc.at bytes.now) }
{
    read_owned(alloc, bytes)
}

/// Returns the encoding of the PA-ENC-TS-ENC.
pub fn encode_pa_enc_ts_enc(alloc: Global, part: &PaEncTsEnc) -> Result<Vec<u8>, AllocError>
    requires { length (pa_enc_ts_enc.text part.now) < 2 ^ 32 }
    // Promise (written, spelled), as encode_enc_ticket_part: each of these parts ..
    ensures written { IfOk result (λ v. v.items ≡ written pa_enc_ts_enc part.now) }
    ensures spelled { IfOk result (λ v. pa_enc_ts_enc.Spells part.now v.items) }
{
    write(alloc, part)
}

//! EncryptedData (RFC 4120, section 5.2.9).
ghost use Rattle.std.specs.Prelude.{◌≡◌, IfOk, OnOk};
ghost use Rattle.krb_elements.specs.Codec.{itself};
ghost use Rattle.krb_fields.specs.EncryptedData.{encrypted_data_of, encrypted_data_form};

use krb_der::{DerFault, Reader, Writer};
use krb_elements::{
    Coded, Decode, DecodeFields, Encode, EncodeFields, Fault, Fielded, MakeOwned, Octets,
    OctetsRef, ReadOwned, TakeFields, TakeOwned, UInt32, Untagged, take_field, take_optional,
    take_owned, take_sequence, take_whole, write_field, write_optional,
};
use std::alloc::{AllocError, Global};

/// Encrypted bytes, with what identifies their key.
#[derive(Debug, Drop)]
pub struct EncryptedData<C = Octets> {
    /// The number of the key's encryption type.
    pub etype: i32,
    /// The key version number, if the sender names one; session keys and subkeys have none.
    pub kvno: Option<UInt32>,
    /// The ciphertext, as the encryption type defines it (RFC 3961).
    pub cipher: C,
}

/// A borrowed [`EncryptedData`].
pub type EncryptedDataRef<'a> = EncryptedData<OctetsRef<'a>>;

impl<C: Coded> Coded for EncryptedData<C> {
    ghost codec = { encrypted_data_of C.codec };
}

impl<C: Coded> Fielded for EncryptedData<C> {
    type In = Untagged;

    ghost form = { encrypted_data_form C.codec };

    ghost made = { itself };
}

impl<'a, C: Decode<'a>> DecodeFields<'a> for EncryptedData<C> {
    #[tactic(auto, unfolding(crate::specs::EncryptedData::encrypted_data_form))]
    fn look_fields(fields: &mut Reader<'a>) -> Result<EncryptedData<C>, DerFault> {
        Ok(EncryptedData {
            etype: take_field(fields, 0)?,
            kvno: take_optional(fields, 1)?,
            cipher: take_field(fields, 2)?,
        })
    }
}

impl<C: Encode> EncodeFields for EncryptedData<C> {
    #[tactic(auto, unfolding(crate::specs::EncryptedData::encrypted_data_form))]
    fn put_fields(&self, out: &mut Writer) -> Result<(), AllocError> {
        write_field(out, 0, &self.etype)?;
        write_optional(out, 1, &self.kvno)?;
        write_field(out, 2, &self.cipher)
    }
}

impl<C: MakeOwned> MakeOwned for EncryptedData<C> {
    type Owned = EncryptedData<C::Owned>;

    ghost same = { λ x. record { etype = x.etype; kvno = x.kvno; cipher = C.same x.cipher } };

    fn copy(&self, alloc: Global) -> Result<EncryptedData<C::Owned>, AllocError> {
        Ok(EncryptedData {
            etype: self.etype,
            kvno: self.kvno,
            cipher: self.cipher.copy(alloc)?,
        })
    }
}

impl<C: TakeOwned> TakeFields for EncryptedData<C> {
    #[tactic(auto, unfolding(crate::specs::EncryptedData::encrypted_data_form))]
    fn take_fields(alloc: Global, fields: &mut Reader<'_>) -> Result<EncryptedData<C>, Fault> {
        Ok(EncryptedData {
            etype: take_field(fields, 0)?,
            kvno: take_optional(fields, 1)?,
            cipher: take_owned(alloc, fields, 2)?,
        })
    }
}

impl<C: TakeOwned> TakeOwned for EncryptedData<C> {
    fn take_parts(alloc: Global, reader: &mut Reader<'_>) -> Result<EncryptedData<C>, Fault> {
        take_sequence(alloc, reader)
    }
}

impl<C: TakeOwned> ReadOwned for EncryptedData<C> {
    fn read_parts(alloc: Global, bytes: &[u8]) -> Result<EncryptedData<C>, Fault> {
        take_whole(alloc, bytes)
    }
}

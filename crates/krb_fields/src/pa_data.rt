//! PaData (RFC 4120, section 5.2.7).
ghost use Rattle.std.specs.Prelude.{◌≡◌, IfOk, OnOk};
ghost use Rattle.krb_elements.specs.Codec.{itself};
ghost use Rattle.krb_fields.specs.PaData.{pa_data_of, pa_data_form};

use krb_der::{DerFault, Reader, Writer};
use krb_elements::{
    Coded, Decode, DecodeFields, Encode, EncodeFields, Fault, Fielded, MakeOwned, Octets,
    OctetsRef, Seq, TakeFields, TakeOwned, Untagged, take_field, take_owned, take_sequence,
    write_field,
};
use std::alloc::{AllocError, Global};

/// Preauthentication data, or other data in a request or a reply, with its type.
#[derive(Debug, Drop)]
pub struct PaData<V = Octets> {
    /// The type (RFC 4120, section 7.5.2), such as 2 for PA-ENC-TIMESTAMP.
    pub padata_type: i32,
    /// The contents, as the type defines them.
    pub padata_value: V,
}

/// A borrowed [`PaData`].
pub type PaDataRef<'a> = PaData<OctetsRef<'a>>;

/// METHOD-DATA (RFC 4120, section 5.9.1): the preauthentication data of an error.
pub type MethodData = Seq<PaData>;

impl<V: Coded> Coded for PaData<V> {
    ghost codec = { pa_data_of V.codec };
}

impl<V: Coded> Fielded for PaData<V> {
    type In = Untagged;

    ghost form = { pa_data_form V.codec };

    ghost made = { itself };
}

impl<'a, V: Decode<'a>> DecodeFields<'a> for PaData<V> {
    #[tactic(auto, unfolding(crate::specs::PaData::pa_data_form))]
    fn look_fields(fields: &mut Reader<'a>) -> Result<PaData<V>, DerFault> {
        Ok(PaData {
            padata_type: take_field(fields, 1)?,
            padata_value: take_field(fields, 2)?,
        })
    }
}

impl<V: Encode> EncodeFields for PaData<V> {
    #[tactic(auto, unfolding(crate::specs::PaData::pa_data_form))]
    fn put_fields(&self, out: &mut Writer) -> Result<(), AllocError> {
        write_field(out, 1, &self.padata_type)?;
        write_field(out, 2, &self.padata_value)
    }
}

impl<V: MakeOwned> MakeOwned for PaData<V> {
    type Owned = PaData<V::Owned>;

    ghost same = { λ x. record { padata_type = x.padata_type; padata_value = V.same x.padata_value } };

    fn copy(&self, alloc: Global) -> Result<PaData<V::Owned>, AllocError> {
        Ok(PaData {
            padata_type: self.padata_type,
            padata_value: self.padata_value.copy(alloc)?,
        })
    }
}

impl<V: TakeOwned> TakeFields for PaData<V> {
    #[tactic(auto, unfolding(crate::specs::PaData::pa_data_form))]
    fn take_fields(alloc: Global, fields: &mut Reader<'_>) -> Result<PaData<V>, Fault> {
        Ok(PaData {
            padata_type: take_field(fields, 1)?,
            padata_value: take_owned(alloc, fields, 2)?,
        })
    }
}

impl<V: TakeOwned> TakeOwned for PaData<V> {
    fn take_parts(alloc: Global, reader: &mut Reader<'_>) -> Result<PaData<V>, Fault> {
        take_sequence(alloc, reader)
    }
}

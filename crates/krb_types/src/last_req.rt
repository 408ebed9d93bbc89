//! An entry of LastReq (RFC 4120, section 5.4.2).
ghost use Rattle.std.specs.Prelude.{◌≡◌, IfOk, OnOk};
ghost use Rattle.krb_elements.specs.Codec.{itself, written};
ghost use Rattle.krb_elements.specs.Format.{Decodes, IsReadUnlessMemory, whole};
ghost use Rattle.krb_types.specs.LastReq.{last_req_form, last_req};
ghost use Rattle.krb_types.specs.LastReq as trees;

use krb_der::{DerFault, KTime, Reader, Writer};
use krb_elements::{
    Coded, DecodeFields, EncodeFields, Fault, Fielded, MakeOwned, ReadOwned, Untagged, read,
    read_owned, take_field, write, write_field,
};
use std::alloc::{AllocError, Global};

/// The time of the client's last request of some kind, and the kind.
#[derive(Debug, Drop)]
pub struct LastReq {
    /// The kind (RFC 4120, section 5.4.2); 0 if the time means nothing.
    pub lr_type: i32,
    /// The time. Of kind 1 it is the time of the last initial request for a TGT.
    pub lr_value: KTime,
}

impl Coded for LastReq {
    ghost codec = { last_req };
}

impl Fielded for LastReq {
    type In = Untagged;

    ghost form = { last_req_form };

    ghost made = { itself };
}

impl<'a> DecodeFields<'a> for LastReq {
    #[tactic(auto, unfolding(crate::specs::LastReq::last_req_form))]
    fn look_fields(fields: &mut Reader<'a>) -> Result<LastReq, DerFault> {
        Ok(LastReq {
            lr_type: take_field(fields, 0)?,
            lr_value: take_field(fields, 1)?,
        })
    }
}

impl EncodeFields for LastReq {
    #[tactic(auto, unfolding(crate::specs::LastReq::last_req_form))]
    fn put_fields(&self, out: &mut Writer) -> Result<(), AllocError> {
        write_field(out, 0, &self.lr_type)?;
        write_field(out, 1, &self.lr_value)
    }
}

impl MakeOwned for LastReq {
    type Owned = LastReq;

    ghost same = { λ x. record { lr_type = x.lr_type; lr_value = x.lr_value } };

    fn copy(&self, _alloc: Global) -> Result<LastReq, AllocError> {
        Ok(LastReq {
            lr_type: self.lr_type,
            lr_value: self.lr_value,
        })
    }
}

impl ReadOwned for LastReq {
    fn read_parts(_alloc: Global, bytes: &[u8]) -> Result<LastReq, Fault> {
        Ok(read(bytes)?)
    }
}

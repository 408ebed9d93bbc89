//! ETYPE-INFO2-ENTRY (RFC 4120, section 5.2.7.5).
ghost use Rattle.std.specs.Prelude.{◌≡◌, IfOk, OnOk, option_map};
ghost use Rattle.krb_elements.specs.Codec.{itself};
ghost use Rattle.krb_types.specs.EtypeInfo2Entry.{etype_info2_entry_of, etype_info2_entry_form};

use krb_der::{DerFault, Reader, Writer};
use krb_elements::{
    Coded, Decode, DecodeFields, Encode, EncodeFields, Fault, Fielded, KerberosString,
    KerberosStringRef, MakeOwned, Octets, OctetsRef, Seq, TakeFields, TakeOwned, Untagged,
    take_field, take_optional, take_owned_optional, take_sequence, write_field, write_optional,
};
use std::alloc::{AllocError, Global};

/// The way in which a client derives its key of an encryption type from its password.
#[derive(Debug, Drop)]
pub struct EtypeInfo2Entry<S = KerberosString, O = Octets> {
    /// The number of the encryption type.
    pub etype: i32,
    /// The salt; if it is absent, the default salt.
    pub salt: Option<S>,
    /// The parameters of string-to-key; if they are absent, the default ones of the encryption type.
    pub s2kparams: Option<O>,
}

/// A borrowed [`EtypeInfo2Entry`].
pub type EtypeInfo2EntryRef<'a> = EtypeInfo2Entry<KerberosStringRef<'a>, OctetsRef<'a>>;

/// ETYPE-INFO2: the entries, in order of preference.
pub type EtypeInfo2 = Seq<EtypeInfo2Entry>;

impl<S: Coded, O: Coded> Coded for EtypeInfo2Entry<S, O> {
    ghost codec = { etype_info2_entry_of S.codec O.codec };
}

impl<S: Coded, O: Coded> Fielded for EtypeInfo2Entry<S, O> {
    type In = Untagged;

    ghost form = { etype_info2_entry_form S.codec O.codec };

    ghost made = { itself };
}

impl<'a, S: Decode<'a>, O: Decode<'a>> DecodeFields<'a> for EtypeInfo2Entry<S, O> {
    #[tactic(auto, unfolding(crate::specs::EtypeInfo2Entry::etype_info2_entry_form))]
    fn look_fields(fields: &mut Reader<'a>) -> Result<EtypeInfo2Entry<S, O>, DerFault> {
        Ok(EtypeInfo2Entry {
            etype: take_field(fields, 0)?,
            salt: take_optional(fields, 1)?,
            s2kparams: take_optional(fields, 2)?,
        })
    }
}

impl<S: Encode, O: Encode> EncodeFields for EtypeInfo2Entry<S, O> {
    #[tactic(auto, unfolding(crate::specs::EtypeInfo2Entry::etype_info2_entry_form))]
    fn put_fields(&self, out: &mut Writer) -> Result<(), AllocError> {
        write_field(out, 0, &self.etype)?;
        write_optional(out, 1, &self.salt)?;
        write_optional(out, 2, &self.s2kparams)
    }
}

impl<S: MakeOwned, O: MakeOwned> MakeOwned for EtypeInfo2Entry<S, O> {
    type Owned = EtypeInfo2Entry<S::Owned, O::Owned>;

    ghost same = { λ x. record {
      etype = x.etype;
      salt = option_map S.same x.salt;
      s2kparams = option_map O.same x.s2kparams;
    } };

    fn copy(&self, alloc: Global) -> Result<EtypeInfo2Entry<S::Owned, O::Owned>, AllocError> {
        Ok(EtypeInfo2Entry {
            etype: self.etype,
            salt: self.salt.copy(alloc)?,
            s2kparams: self.s2kparams.copy(alloc)?,
        })
    }
}

impl<S: TakeOwned, O: TakeOwned> TakeFields for EtypeInfo2Entry<S, O> {
    #[tactic(auto, unfolding(crate::specs::EtypeInfo2Entry::etype_info2_entry_form))]
    fn take_fields(alloc: Global, fields: &mut Reader<'_>) -> Result<EtypeInfo2Entry<S, O>, Fault> {
        Ok(EtypeInfo2Entry {
            etype: take_field(fields, 0)?,
            salt: take_owned_optional(alloc, fields, 1)?,
            s2kparams: take_owned_optional(alloc, fields, 2)?,
        })
    }
}

impl<S: TakeOwned, O: TakeOwned> TakeOwned for EtypeInfo2Entry<S, O> {
    fn take_parts(alloc: Global, reader: &mut Reader<'_>) -> Result<EtypeInfo2Entry<S, O>, Fault> {
        take_sequence(alloc, reader)
    }
}

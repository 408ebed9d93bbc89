//! Names as elements of messages.
ghost use Rattle.std.specs.Prelude.{◌≡◌, IfOk, OnOk};
ghost use Rattle.krb_elements.specs.Codec.{itself};
ghost use Rattle.krb_fields.specs.PrincipalName.{name_of, name_form};

use crate::name::Name;
use krb_der::{DerFault, Reader, Writer};
use krb_elements::{
    Coded, Decode, DecodeFields, Encode, EncodeFields, Fielded, MakeOwned, Untagged, take_field,
    write_field,
};
use std::alloc::{AllocError, Global};

impl<C: Coded> Coded for Name<C> {
    ghost codec = { name_of C.codec };
}

impl<C: Coded> Fielded for Name<C> {
    type In = Untagged;

    ghost form = { name_form C.codec };

    ghost made = { itself };
}

impl<'a, C: Decode<'a>> DecodeFields<'a> for Name<C> {
    #[tactic(auto, unfolding(crate::specs::PrincipalName::name_form))]
    fn look_fields(fields: &mut Reader<'a>) -> Result<Name<C>, DerFault> {
        Ok(Name {
            name_type: take_field(fields, 0)?,
            components: take_field(fields, 1)?,
        })
    }
}

impl<C: Encode> EncodeFields for Name<C> {
    #[tactic(auto, unfolding(crate::specs::PrincipalName::name_form))]
    fn put_fields(&self, out: &mut Writer) -> Result<(), AllocError> {
        write_field(out, 0, &self.name_type)?;
        write_field(out, 1, &self.components)
    }
}

impl<C: MakeOwned> MakeOwned for Name<C> {
    type Owned = Name<C::Owned>;

    ghost same = { λ x. record { name_type = x.name_type; components = C.same x.components } };

    fn copy(&self, alloc: Global) -> Result<Name<C::Owned>, AllocError> {
        Ok(Name {
            name_type: self.name_type,
            components: self.components.copy(alloc)?,
        })
    }
}

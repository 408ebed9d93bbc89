//! Bytes with a numbered type.
ghost use Rattle.std.specs.Prelude.{◌≡◌, IfOk, OnOk};
ghost use Rattle.krb_elements.specs.Codec.{itself};
ghost use Rattle.krb_fields.specs.Typed.{typed_of, typed_form};

use krb_der::{DerFault, Reader, Writer};
use krb_elements::{
    Coded, Decode, DecodeFields, Encode, EncodeFields, Fielded, MakeOwned, Octets, OctetsRef,
    Untagged, take_field, write_field,
};
use std::alloc::{AllocError, Global};

/// Bytes with their type: the form of HostAddress (RFC 4120, section 5.2.5) and of other types.
#[derive(Debug, Drop)]
pub struct Typed<O = Octets> {
    /// The number of the type, such as a key's encryption type or a checksum's type.
    pub number: i32,
    /// The bytes, as the type defines them.
    pub octets: O,
}

/// A borrowed [`Typed`].
pub type TypedRef<'a> = Typed<OctetsRef<'a>>;

/// A host address with its type.
pub type HostAddress = Typed;

/// A borrowed [`HostAddress`].
pub type HostAddressRef<'a> = TypedRef<'a>;

impl<O: Coded> Coded for Typed<O> {
    ghost codec = { typed_of O.codec };
}

impl<O: Coded> Fielded for Typed<O> {
    type In = Untagged;

    ghost form = { typed_form O.codec };

    ghost made = { itself };
}

impl<'a, O: Decode<'a>> DecodeFields<'a> for Typed<O> {
    #[tactic(auto, unfolding(crate::specs::Typed::typed_form))]
    fn look_fields(fields: &mut Reader<'a>) -> Result<Typed<O>, DerFault> {
        Ok(Typed {
            number: take_field(fields, 0)?,
            octets: take_field(fields, 1)?,
        })
    }
}

impl<O: Encode> EncodeFields for Typed<O> {
    #[tactic(auto, unfolding(crate::specs::Typed::typed_form))]
    fn put_fields(&self, out: &mut Writer) -> Result<(), AllocError> {
        write_field(out, 0, &self.number)?;
        write_field(out, 1, &self.octets)
    }
}

impl<O: MakeOwned> MakeOwned for Typed<O> {
    type Owned = Typed<O::Owned>;

    ghost same = { λ x. record { number = x.number; octets = O.same x.octets } };

    fn copy(&self, alloc: Global) -> Result<Typed<O::Owned>, AllocError> {
        Ok(Typed {
            number: self.number,
            octets: self.octets.copy(alloc)?,
        })
    }
}

//! The header of a journal.
ghost use Rattle.std.specs.Prelude.{◌≡◌};
ghost use Rattle.krb_elements.specs.Codec.{itself};
ghost use Rattle.journal.specs.Forms.{header_form, header_of};

use krb_der::{DerFault, KTime, Reader, Writer};
use krb_elements::{
    Coded, Decode, DecodeFields, Encode, EncodeFields, Fielded, Octets, OctetsRef, Untagged,
    take_field, write_field,
};
use std::alloc::AllocError;

/// The header of a journal.
#[derive(Drop)]
pub struct Header<S = Octets> {
    /// The realm that the server serves.
    pub realm: S,
    /// The system's name for its boot. After another boot the end of the journal may be lost.
    pub boot: S,
    /// When the journal was begun.
    pub at: KTime,
    /// Every authenticator that was seen before this journal was begun has a time below this.
    pub floor: KTime,
    /// The last check of the journal that went before, or no octets.
    pub link: S,
}

/// A [`Header`] that borrows from the octets that are read.
pub type HeaderRef<'a> = Header<OctetsRef<'a>>;

impl<S: Coded> Coded for Header<S> {
    ghost codec = { header_of S.codec };
}

impl<S: Coded> Fielded for Header<S> {
    type In = Untagged;

    ghost form = { header_form S.codec };

    ghost made = { itself };
}

impl<'a, S: Decode<'a>> DecodeFields<'a> for Header<S> {
    #[tactic(auto, unfolding(crate::specs::Forms::header_form))]
    fn look_fields(fields: &mut Reader<'a>) -> Result<Header<S>, DerFault> {
        Ok(Header {
            realm: take_field(fields, 0)?,
            boot: take_field(fields, 1)?,
            at: take_field(fields, 2)?,
            floor: take_field(fields, 3)?,
            link: take_field(fields, 4)?,
        })
    }
}

impl<S: Encode> EncodeFields for Header<S> {
    #[tactic(auto, unfolding(crate::specs::Forms::header_form))]
    fn put_fields(&self, out: &mut Writer) -> Result<(), AllocError> {
        write_field(out, 0, &self.realm)?;
        write_field(out, 1, &self.boot)?;
        write_field(out, 2, &self.at)?;
        write_field(out, 3, &self.floor)?;
        write_field(out, 4, &self.link)
    }
}

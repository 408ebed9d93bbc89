//! An entry of a journal.
ghost use Rattle.std.specs.Prelude.{◌≡◌};
ghost use Rattle.krb_elements.specs.Codec.{itself};
ghost use Rattle.journal.specs.Forms.{entry_form, entry_of};

use krb_der::{DerFault, KTime, Reader, Writer};
use krb_elements::{
    Coded, Decode, DecodeFields, Encode, EncodeFields, Fielded, Microseconds, Untagged, take_field,
    write_field,
};
use krb_fields::{Name, NameRef};
use std::alloc::AllocError;

/// A seen authenticator.
#[derive(Drop)]
pub struct Entry<N = Name> {
    /// The client's name. Its realm is that of the journal.
    pub client: N,
    /// The authenticator's own time.
    pub ctime: KTime,
    /// The microseconds of that time, 0 to 999999.
    pub cusec: Microseconds,
    /// How many seconds after that time its request came. It is negative if the client's clock was ahead.
    pub age: i32,
}

/// An [`Entry`] that borrows from the octets that are read.
pub type EntryRef<'a> = Entry<NameRef<'a>>;

impl<N: Coded> Coded for Entry<N> {
    ghost codec = { entry_of N.codec };
}

impl<N: Coded> Fielded for Entry<N> {
    type In = Untagged;

    ghost form = { entry_form N.codec };

    ghost made = { itself };
}

impl<'a, N: Decode<'a>> DecodeFields<'a> for Entry<N> {
    #[tactic(auto, unfolding(crate::specs::Forms::entry_form))]
    fn look_fields(fields: &mut Reader<'a>) -> Result<Entry<N>, DerFault> {
        Ok(Entry {
            client: take_field(fields, 0)?,
            ctime: take_field(fields, 1)?,
            cusec: take_field(fields, 2)?,
            age: take_field(fields, 3)?,
        })
    }
}

impl<N: Encode> EncodeFields for Entry<N> {
    #[tactic(auto, unfolding(crate::specs::Forms::entry_form))]
    fn put_fields(&self, out: &mut Writer) -> Result<(), AllocError> {
        write_field(out, 0, &self.client)?;
        write_field(out, 1, &self.ctime)?;
        write_field(out, 2, &self.cusec)?;
        write_field(out, 3, &self.age)
    }
}

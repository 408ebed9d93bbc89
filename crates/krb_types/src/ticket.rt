//! Ticket (RFC 4120, section 5.3).
ghost use Rattle.std.specs.Prelude.{◌≡◌, IfOk, OnOk};
ghost use Rattle.krb_elements.specs.Codec.{itself};
ghost use Rattle.krb_types.specs.Ticket.{ticket_of, ticket_form};

use krb_der::{DerFault, Reader, Writer};
use krb_elements::{
    Application, Coded, Decode, DecodeFields, Encode, EncodeFields, Fielded, KerberosString,
    KerberosStringRef, MakeOwned, take_field, write_field,
};
use krb_fields::numbers::TICKET;
use krb_fields::{EncryptedData, EncryptedDataRef, Name, NameRef};
use std::alloc::{AllocError, Global};

/// A ticket as it is sent: the service in the clear, and the rest encrypted with the service's key.
#[derive(Debug, Drop)]
pub struct Ticket<S = KerberosString, N = Name, E = EncryptedData> {
    /// The version of the ticket's format: 5.
    pub tkt_vno: i32,
    /// The realm that issued the ticket, which is also the service's.
    pub realm: S,
    /// The service's name.
    pub sname: N,
    /// An EncTicketPart, encrypted with the service's key.
    pub enc_part: E,
}

/// A borrowed [`Ticket`].
pub type TicketRef<'a> = Ticket<KerberosStringRef<'a>, NameRef<'a>, EncryptedDataRef<'a>>;

impl<S: Coded, N: Coded, E: Coded> Coded for Ticket<S, N, E> {
    ghost codec = { ticket_of S.codec N.codec E.codec };
}

impl<S: Coded, N: Coded, E: Coded> Fielded for Ticket<S, N, E> {
    type In = Application<TICKET>;

    ghost form = { ticket_form S.codec N.codec E.codec };

    ghost made = { itself };
}

impl<'a, S: Decode<'a>, N: Decode<'a>, E: Decode<'a>> DecodeFields<'a> for Ticket<S, N, E> {
    #[tactic(auto, unfolding(crate::specs::Ticket::ticket_form))]
    fn look_fields(fields: &mut Reader<'a>) -> Result<Ticket<S, N, E>, DerFault> {
        Ok(Ticket {
            tkt_vno: take_field(fields, 0)?,
            realm: take_field(fields, 1)?,
            sname: take_field(fields, 2)?,
            enc_part: take_field(fields, 3)?,
        })
    }
}

impl<S: Encode, N: Encode, E: Encode> EncodeFields for Ticket<S, N, E> {
    #[tactic(auto, unfolding(crate::specs::Ticket::ticket_form))]
    fn put_fields(&self, out: &mut Writer) -> Result<(), AllocError> {
        write_field(out, 0, &self.tkt_vno)?;
        write_field(out, 1, &self.realm)?;
        write_field(out, 2, &self.sname)?;
        write_field(out, 3, &self.enc_part)
    }
}

impl<S: MakeOwned, N: MakeOwned, E: MakeOwned> MakeOwned for Ticket<S, N, E> {
    type Owned = Ticket<S::Owned, N::Owned, E::Owned>;

    ghost same = { λ x. record {
      tkt_vno = x.tkt_vno;
      realm = S.same x.realm;
      sname = N.same x.sname;
      enc_part = E.same x.enc_part;
    } };

    fn copy(&self, alloc: Global) -> Result<Ticket<S::Owned, N::Owned, E::Owned>, AllocError> {
        Ok(Ticket {
            tkt_vno: self.tkt_vno,
            realm: self.realm.copy(alloc)?,
            sname: self.sname.copy(alloc)?,
            enc_part: self.enc_part.copy(alloc)?,
        })
    }
}

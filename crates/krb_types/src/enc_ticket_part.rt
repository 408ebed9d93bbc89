//! EncTicketPart (RFC 4120, section 5.3).
ghost use Rattle.std.specs.Prelude.{◌≡◌, ◌<◌, ◌^◌, length, IfOk, OnOk, option_map};
ghost use Rattle.krb_elements.specs.Codec.{itself, written};
ghost use Rattle.krb_elements.specs.Format.{Decodes, IsReadUnlessMemory, whole};
ghost use Rattle.krb_types.specs.EncTicketPart.{enc_ticket_part_of, enc_ticket_part_form, enc_ticket_part};
ghost use Rattle.krb_types.specs.EncTicketPart as trees;

use krb_der::{DerFault, KTime, Reader, Writer};
use krb_elements::{
    Application, Coded, Decode, DecodeFields, Encode, EncodeFields, Fault, Fielded, KerberosString,
    KerberosStringRef, MakeOwned, ReadOwned, Seq, SeqRef, read, read_owned, take_field,
    take_optional, write, write_field, write_optional,
};
use krb_fields::numbers::ENC_TICKET_PART;
use krb_fields::{Flags, Name, NameRef, Typed, TypedRef};
use std::alloc::{AllocError, Global};

/// The encrypted part of a ticket.
#[derive(Debug, Drop)]
pub struct EncTicketPart<T = Typed, S = KerberosString, N = Name, L = Seq<Typed>> {
    /// The flags of the ticket. `krb_fields::TicketFlag` names the bits.
    pub flags: Flags,
    /// The session key: its encryption type and its bytes.
    pub key: T,
    /// The realm in which the client is registered.
    pub crealm: S,
    /// The client's name in that realm.
    pub cname: N,
    /// The transited realms, with the type of their encoding.
    pub transited: T,
    /// When the client first authenticated.
    pub authtime: KTime,
    /// When the ticket starts; if it is absent, at `authtime`.
    pub starttime: Option<KTime>,
    /// When the ticket expires.
    pub endtime: KTime,
    /// Until when the ticket is renewable.
    pub renew_till: Option<KTime>,
    /// The addresses to which the ticket is bound.
    pub caddr: Option<L>,
    /// Restrictions on the use of the ticket (RFC 4120, section 5.2.6).
    pub authorization_data: Option<L>,
}

/// A borrowed [`EncTicketPart`].
pub type EncTicketPartRef<'a> = EncTicketPart<
    TypedRef<'a>,
    KerberosStringRef<'a>,
    NameRef<'a>,
    SeqRef<'a, TypedRef<'a>>,
>;

impl<T: Coded, S: Coded, N: Coded, L: Coded> Coded for EncTicketPart<T, S, N, L> {
    ghost codec = { enc_ticket_part_of T.codec S.codec N.codec L.codec };
}

impl<T: Coded, S: Coded, N: Coded, L: Coded> Fielded for EncTicketPart<T, S, N, L> {
    type In = Application<ENC_TICKET_PART>;

    ghost form = { enc_ticket_part_form T.codec S.codec N.codec L.codec };

    ghost made = { itself };
}

impl<'a, T: Decode<'a>, S: Decode<'a>, N: Decode<'a>, L: Decode<'a>> DecodeFields<'a>
    for EncTicketPart<T, S, N, L> {
    #[tactic(auto, unfolding(crate::specs::EncTicketPart::enc_ticket_part_form))]
    fn look_fields(fields: &mut Reader<'a>) -> Result<EncTicketPart<T, S, N, L>, DerFault> {
        Ok(EncTicketPart {
            flags: take_field(fields, 0)?,
            key: take_field(fields, 1)?,
            crealm: take_field(fields, 2)?,
            cname: take_field(fields, 3)?,
            transited: take_field(fields, 4)?,
            authtime: take_field(fields, 5)?,
            starttime: take_optional(fields, 6)?,
            endtime: take_field(fields, 7)?,
            renew_till: take_optional(fields, 8)?,
            caddr: take_optional(fields, 9)?,
            authorization_data: take_optional(fields, 10)?,
        })
    }
}

impl<T: Encode, S: Encode, N: Encode, L: Encode> EncodeFields for EncTicketPart<T, S, N, L> {
    #[tactic(auto, unfolding(crate::specs::EncTicketPart::enc_ticket_part_form))]
    fn put_fields(&self, out: &mut Writer) -> Result<(), AllocError> {
        write_field(out, 0, &self.flags)?;
        write_field(out, 1, &self.key)?;
        write_field(out, 2, &self.crealm)?;
        write_field(out, 3, &self.cname)?;
        write_field(out, 4, &self.transited)?;
        write_field(out, 5, &self.authtime)?;
        write_optional(out, 6, &self.starttime)?;
        write_field(out, 7, &self.endtime)?;
        write_optional(out, 8, &self.renew_till)?;
        write_optional(out, 9, &self.caddr)?;
        write_optional(out, 10, &self.authorization_data)
    }
}

impl<T: MakeOwned, S: MakeOwned, N: MakeOwned, L: MakeOwned> MakeOwned
    for EncTicketPart<T, S, N, L> {
    type Owned = EncTicketPart<T::Owned, S::Owned, N::Owned, L::Owned>;

    ghost same = { λ x. record {
      flags = x.flags;
      key = T.same x.key;
      crealm = S.same x.crealm;
      cname = N.same x.cname;
      transited = T.same x.transited;
      authtime = x.authtime;
      starttime = x.starttime;
      endtime = x.endtime;
      renew_till = x.renew_till;
      caddr = option_map L.same x.caddr;
      authorization_data = option_map L.same x.authorization_data;
    } };

    fn copy(
        &self,
        alloc: Global,
    ) -> Result<EncTicketPart<T::Owned, S::Owned, N::Owned, L::Owned>, AllocError> {
        Ok(EncTicketPart {
            flags: self.flags,
            key: self.key.copy(alloc)?,
            crealm: self.crealm.copy(alloc)?,
            cname: self.cname.copy(alloc)?,
            transited: self.transited.copy(alloc)?,
            authtime: self.authtime,
            starttime: self.starttime,
            endtime: self.endtime,
            renew_till: self.renew_till,
            caddr: self.caddr.copy(alloc)?,
            authorization_data: self.authorization_data.copy(alloc)?,
        })
    }
}

fn copied(alloc: Global, found: &EncTicketPartRef<'_>) -> Result<EncTicketPart, AllocError>
    ensures { IfOk result (λ copy. copy ≡ found.now) }
{
    found.copy(alloc)
}

impl ReadOwned for EncTicketPart {
    fn read_parts(alloc: Global, bytes: &[u8]) -> Result<EncTicketPart, Fault> {
        let found: EncTicketPartRef<'_> = read(bytes)?;
        Ok(copied(alloc, &found)?)
    }
}

/// Reads the EncTicketPart that the bytes encode.
pub fn decode_enc_ticket_part(alloc: Global, bytes: &[u8]) -> Result<EncTicketPart, Fault>
    // Promise (found, only, exact): EncTicketPart, Authenticator, EncAPRepPart and PA-ENC-TS-ENC are read exactly from
    // bytes that spell them, unless memory runs out; an error is that of the definition.
    ensures found { IfOk result (λ x. enc_ticket_part.Spells x bytes.now) }
    ensures only { (x : trees.EncTicketPart) → enc_ticket_part.Spells x bytes.now → IsReadUnlessMemory result x }
    ensures exact { Decodes result (whole enc_ticket_part.at bytes.now) }
{
    read_owned(alloc, bytes)
}

/// Returns the encoding of the EncTicketPart.
pub fn encode_enc_ticket_part(alloc: Global, part: &EncTicketPart) -> Result<Vec<u8>, AllocError>
    requires { length (enc_ticket_part.text part.now) < 2 ^ 32 }
    // Promise (written, spelled): each of these parts is written in bytes that spell it.
    ensures written { IfOk result (λ v. v.items ≡ written enc_ticket_part part.now) }
    ensures spelled { IfOk result (λ v. enc_ticket_part.Spells part.now v.items) }
{
    write(alloc, part)
}

//! KDC-REP (RFC 4120, section 5.4.2): AS-REP and TGS-REP.
ghost use Rattle.std.specs.Prelude.{◌≡◌, ◌<◌, ◌^◌, ◌++◌, length, IfOk, IsOkAnd, OnOk, option_map};
ghost use Rattle.krb_elements.specs.Format.{Looks, Sees, inside, whole};
ghost use Rattle.krb_elements.specs.Continues.{Continues};
ghost use Rattle.krb_elements.specs.Written.{field_text};
ghost use Rattle.krb_types.specs.Ticket.{ticket};
ghost use Rattle.krb_elements.specs.Codec.{itself};
ghost use Rattle.krb_types.specs.KdcRep.{kdc_rep, kdc_rep_of, kdc_rep_form, message_type};
ghost use Rattle.krb_types.specs.KdcRep as trees;

use crate::ticket::{Ticket, TicketRef};
use krb_der::{DerFault, Reader, Writer};
use krb_elements::{
    Application, Coded, Decode, DecodeFields, Encode, EncodeFields, Fault, Fielded, KerberosString,
    KerberosStringRef, MakeOwned, ReadOwned, Seq, SeqRef, read, take_field, take_fixed,
    take_optional, write_field, write_optional,
};
use krb_fields::numbers::{AS_REP, PVNO, TGS_REP};
use krb_fields::{EncryptedData, EncryptedDataRef, Name, NameRef, PaData, PaDataRef};
use std::alloc::{AllocError, Global};

/// A reply with a ticket, and with the encrypted part for the client. `TYPE` is its message type. The message type and
/// the version are fixed, so they are not stored.
#[derive(Debug, Drop)]
pub struct KdcRep<
    const TYPE: u8,
    P = Seq<PaData>,
    S = KerberosString,
    N = Name,
    T = Ticket,
    E = EncryptedData,
> {
    /// Preauthentication data, such as the PA-ETYPE-INFO2 of an AS-REP.
    pub padata: Option<P>,
    /// The client's realm, as in the ticket.
    pub crealm: S,
    /// The client's name, as in the ticket.
    pub cname: N,
    /// The issued ticket, which the client presents to the service.
    pub ticket: T,
    /// An EncKDCRepPart in its tag, encrypted with a key that the client has.
    pub enc_part: E,
}

/// The reply of the AS exchange.
pub type AsRep = KdcRep<AS_REP>;

/// The reply of the TGS exchange.
pub type TgsRep = KdcRep<TGS_REP>;

/// A borrowed [`KdcRep`].
pub type KdcRepRef<'a, const TYPE: u8> = KdcRep<
    TYPE,
    SeqRef<'a, PaDataRef<'a>>,
    KerberosStringRef<'a>,
    NameRef<'a>,
    TicketRef<'a>,
    EncryptedDataRef<'a>,
>;

impl<const TYPE: u8, P: Coded, S: Coded, N: Coded, T: Coded, E: Coded> Coded
    for KdcRep<TYPE, P, S, N, T, E> {
    ghost codec = { kdc_rep_of TYPE P.codec S.codec N.codec T.codec E.codec };
}

impl<const TYPE: u8, P: Coded, S: Coded, N: Coded, T: Coded, E: Coded> Fielded
    for KdcRep<TYPE, P, S, N, T, E> {
    type In = Application<TYPE>;

    ghost form = { kdc_rep_form TYPE P.codec S.codec N.codec T.codec E.codec };

    ghost made = { itself };
}

impl<
    'a,
    const TYPE: u8,
    P: Decode<'a>,
    S: Decode<'a>,
    N: Decode<'a>,
    T: Decode<'a>,
    E: Decode<'a>,
> DecodeFields<'a> for KdcRep<TYPE, P, S, N, T, E> {
    #[tactic(auto, unfolding(crate::specs::KdcRep::kdc_rep_form))]
    fn look_fields(fields: &mut Reader<'a>) -> Result<KdcRep<TYPE, P, S, N, T, E>, DerFault> {
        take_fixed(fields, 0, PVNO)?;
        take_type::<TYPE>(fields)?;
        Ok(KdcRep {
            padata: take_optional(fields, 2)?,
            crealm: take_field(fields, 3)?,
            cname: take_field(fields, 4)?,
            ticket: take_field(fields, 5)?,
            enc_part: take_field(fields, 6)?,
        })
    }
}

impl<const TYPE: u8, P: Encode, S: Encode, N: Encode, T: Encode, E: Encode> EncodeFields
    for KdcRep<TYPE, P, S, N, T, E> {
    #[tactic(auto, unfolding(crate::specs::KdcRep::kdc_rep_form))]
    fn put_fields(&self, out: &mut Writer) -> Result<(), AllocError> {
        write_field(out, 0, &PVNO)?;
        write_type::<TYPE>(out)?;
        write_optional(out, 2, &self.padata)?;
        write_field(out, 3, &self.crealm)?;
        write_field(out, 4, &self.cname)?;
        write_field(out, 5, &self.ticket)?;
        write_field(out, 6, &self.enc_part)
    }
}

/// Reads the field with the message type, which must be this one.
fn take_type<const TYPE: u8>(fields: &mut Reader<'_>) -> Result<(), DerFault>
    ensures { Looks result fields.new (inside 161 (whole (message_type TYPE).at) fields.old) }
{
    take_fixed(fields, 1, i32::from(TYPE & 0x1f))
}

/// Writes the field with the message type.
fn write_type<const TYPE: u8>(out: &mut Writer) -> Result<(), AllocError>
    requires { length (field_text 161 (message_type TYPE).tag ((message_type TYPE).text tt)) < 2 ^ 32 }
    ensures ok { OnOk result (out.new
        ≡ out.old ++ field_text 161 (message_type TYPE).tag ((message_type TYPE).text tt)) }
    ensures kept { Continues out.old out.new }
{
    write_field(out, 1, &i32::from(TYPE & 0x1f))
}

impl<const TYPE: u8, P: MakeOwned, S: MakeOwned, N: MakeOwned, T: MakeOwned, E: MakeOwned> MakeOwned
    for KdcRep<TYPE, P, S, N, T, E> {
    type Owned = KdcRep<TYPE, P::Owned, S::Owned, N::Owned, T::Owned, E::Owned>;

    ghost same = { λ x. record {
      padata = option_map P.same x.padata;
      crealm = S.same x.crealm;
      cname = N.same x.cname;
      ticket = T.same x.ticket;
      enc_part = E.same x.enc_part;
    } };

    fn copy(
        &self,
        alloc: Global,
    ) -> Result<KdcRep<TYPE, P::Owned, S::Owned, N::Owned, T::Owned, E::Owned>, AllocError> {
        Ok(KdcRep {
            padata: self.padata.copy(alloc)?,
            crealm: self.crealm.copy(alloc)?,
            cname: self.cname.copy(alloc)?,
            ticket: self.ticket.copy(alloc)?,
            enc_part: self.enc_part.copy(alloc)?,
        })
    }
}

fn copied<const TYPE: u8>(
    alloc: Global,
    found: &KdcRepRef<'_, TYPE>,
) -> Result<KdcRep<TYPE>, AllocError>
    ensures { IfOk result (λ copy. copy ≡ found.now) }
{
    found.copy(alloc)
}

impl<const TYPE: u8> ReadOwned for KdcRep<TYPE> {
    fn read_parts(alloc: Global, bytes: &[u8]) -> Result<KdcRep<TYPE>, Fault> {
        let found: KdcRepRef<'_, TYPE> = read(bytes)?;
        Ok(copied(alloc, &found)?)
    }
}

/// Reads an AS-REP or a TGS-REP, by its type, in place and without allocating.
pub fn read_kdc_rep<const TYPE: u8>(bytes: &[u8]) -> Result<KdcRepRef<'_, TYPE>, DerFault>
    // If it succeeds, the bytes encode this reply.
    // Promise (found, only, exact): an AS-REP or a TGS-REP is read exactly from the bytes that spell it; an error is
    // that of the definition. Reading allocates nothing.
    ensures found { IfOk result (λ reply. (kdc_rep TYPE).Spells reply bytes.now) }
    // If the bytes encode a reply, it succeeds.
    ensures only { (reply : trees.KdcRep TYPE) → (kdc_rep TYPE).Spells reply bytes.now
        → IsOkAnd result (λ found. found ≡ reply) }
    // The result, including the error, is that of the definition.
    ensures exact { Sees result (whole (kdc_rep TYPE).at bytes.now) }
    // The ticket is short enough to be written.
    // Promise: the ticket of a reply that was read can be written.
    ensures short { IfOk result (λ reply. length (ticket.text reply.ticket) < 2 ^ 32) }
{
    read(bytes)
}

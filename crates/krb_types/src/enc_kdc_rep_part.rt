//! EncKDCRepPart (RFC 4120, section 5.4.2).
ghost use Rattle.std.specs.Prelude.{◌≡◌, IfOk, OnOk, option_map};
ghost use Rattle.krb_elements.specs.Codec.{itself, written};
ghost use Rattle.krb_elements.specs.Format.{Decodes, IsReadUnlessMemory, whole};
ghost use Rattle.krb_types.specs.EncKdcRepPart.{enc_kdc_rep_part_of, enc_kdc_rep_part_form, enc_kdc_rep_part};
ghost use Rattle.krb_types.specs.EncKdcRepPart as trees;

use crate::last_req::LastReq;
use krb_der::{DerFault, KTime, Reader, Writer};
use krb_elements::{
    Coded, Decode, DecodeFields, Encode, EncodeFields, Fault, Fielded, KerberosString,
    KerberosStringRef, MakeOwned, ReadOwned, Seq, SeqRef, UInt32, Untagged, read, read_owned,
    take_field, take_optional, write, write_field, write_optional,
};
use krb_fields::{Flags, Name, NameRef, Typed, TypedRef};
use std::alloc::{AllocError, Global};

/// The encrypted part of a KDC's reply: what the client must know about its ticket.
#[derive(Debug, Drop)]
pub struct EncKdcRepPart<
    T = Typed,
    R = Seq<LastReq>,
    S = KerberosString,
    N = Name,
    L = Seq<Typed>,
> {
    /// The session key: its encryption type and its bytes.
    pub key: T,
    /// The times of the client's last requests, each with its kind.
    pub last_req: R,
    /// The nonce of the request.
    pub nonce: UInt32,
    /// When the client's key expires.
    pub key_expiration: Option<KTime>,
    /// The flags of the ticket. `krb_fields::TicketFlag` names the bits.
    pub flags: Flags,
    /// When the client first authenticated.
    pub authtime: KTime,
    /// When the ticket starts; if it is absent, at `authtime`.
    pub starttime: Option<KTime>,
    /// When the ticket expires.
    pub endtime: KTime,
    /// Until when the ticket is renewable.
    pub renew_till: Option<KTime>,
    /// The realm of the service that the ticket is for.
    pub srealm: S,
    /// The name of the service that the ticket is for.
    pub sname: N,
    /// The addresses to which the ticket is bound.
    pub caddr: Option<L>,
}

/// A borrowed [`EncKdcRepPart`].
pub type EncKdcRepPartRef<'a> = EncKdcRepPart<
    TypedRef<'a>,
    SeqRef<'a, LastReq>,
    KerberosStringRef<'a>,
    NameRef<'a>,
    SeqRef<'a, TypedRef<'a>>,
>;

impl<T: Coded, R: Coded, S: Coded, N: Coded, L: Coded> Coded for EncKdcRepPart<T, R, S, N, L> {
    ghost codec = { enc_kdc_rep_part_of T.codec R.codec S.codec N.codec L.codec };
}

impl<T: Coded, R: Coded, S: Coded, N: Coded, L: Coded> Fielded for EncKdcRepPart<T, R, S, N, L> {
    type In = Untagged;

    ghost form = { enc_kdc_rep_part_form T.codec R.codec S.codec N.codec L.codec };

    ghost made = { itself };
}

impl<'a, T: Decode<'a>, R: Decode<'a>, S: Decode<'a>, N: Decode<'a>, L: Decode<'a>> DecodeFields<'a>
    for EncKdcRepPart<T, R, S, N, L> {
    #[tactic(auto, unfolding(crate::specs::EncKdcRepPart::enc_kdc_rep_part_form))]
    fn look_fields(fields: &mut Reader<'a>) -> Result<EncKdcRepPart<T, R, S, N, L>, DerFault> {
        Ok(EncKdcRepPart {
            key: take_field(fields, 0)?,
            last_req: take_field(fields, 1)?,
            nonce: take_field(fields, 2)?,
            key_expiration: take_optional(fields, 3)?,
            flags: take_field(fields, 4)?,
            authtime: take_field(fields, 5)?,
            starttime: take_optional(fields, 6)?,
            endtime: take_field(fields, 7)?,
            renew_till: take_optional(fields, 8)?,
            srealm: take_field(fields, 9)?,
            sname: take_field(fields, 10)?,
            caddr: take_optional(fields, 11)?,
        })
    }
}

impl<T: Encode, R: Encode, S: Encode, N: Encode, L: Encode> EncodeFields
    for EncKdcRepPart<T, R, S, N, L> {
    #[tactic(auto, unfolding(crate::specs::EncKdcRepPart::enc_kdc_rep_part_form))]
    fn put_fields(&self, out: &mut Writer) -> Result<(), AllocError> {
        write_field(out, 0, &self.key)?;
        write_field(out, 1, &self.last_req)?;
        write_field(out, 2, &self.nonce)?;
        write_optional(out, 3, &self.key_expiration)?;
        write_field(out, 4, &self.flags)?;
        write_field(out, 5, &self.authtime)?;
        write_optional(out, 6, &self.starttime)?;
        write_field(out, 7, &self.endtime)?;
        write_optional(out, 8, &self.renew_till)?;
        write_field(out, 9, &self.srealm)?;
        write_field(out, 10, &self.sname)?;
        write_optional(out, 11, &self.caddr)
    }
}

impl<T: MakeOwned, R: MakeOwned, S: MakeOwned, N: MakeOwned, L: MakeOwned> MakeOwned
    for EncKdcRepPart<T, R, S, N, L> {
    type Owned = EncKdcRepPart<T::Owned, R::Owned, S::Owned, N::Owned, L::Owned>;

    ghost same = { λ x. record {
      key = T.same x.key;
      last_req = R.same x.last_req;
      nonce = x.nonce;
      key_expiration = x.key_expiration;
      flags = x.flags;
      authtime = x.authtime;
      starttime = x.starttime;
      endtime = x.endtime;
      renew_till = x.renew_till;
      srealm = S.same x.srealm;
      sname = N.same x.sname;
      caddr = option_map L.same x.caddr;
    } };

    fn copy(
        &self,
        alloc: Global,
    ) -> Result<EncKdcRepPart<T::Owned, R::Owned, S::Owned, N::Owned, L::Owned>, AllocError> {
        Ok(EncKdcRepPart {
            key: self.key.copy(alloc)?,
            last_req: self.last_req.copy(alloc)?,
            nonce: self.nonce,
            key_expiration: self.key_expiration,
            flags: self.flags,
            authtime: self.authtime,
            starttime: self.starttime,
            endtime: self.endtime,
            renew_till: self.renew_till,
            srealm: self.srealm.copy(alloc)?,
            sname: self.sname.copy(alloc)?,
            caddr: self.caddr.copy(alloc)?,
        })
    }
}

fn copied(alloc: Global, found: &EncKdcRepPartRef<'_>) -> Result<EncKdcRepPart, AllocError>
    ensures { IfOk result (λ copy. copy ≡ found.now) }
{
    found.copy(alloc)
}

impl ReadOwned for EncKdcRepPart {
    fn read_parts(alloc: Global, bytes: &[u8]) -> Result<EncKdcRepPart, Fault> {
        let found: EncKdcRepPartRef<'_> = read(bytes)?;
        Ok(copied(alloc, &found)?)
    }
}

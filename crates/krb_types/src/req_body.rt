//! KDC-REQ-BODY (RFC 4120, section 5.4.1).
ghost use Rattle.std.specs.Prelude.{◌≡◌, IfOk, OnOk, option_map};
ghost use Rattle.krb_elements.specs.Codec.{itself};
ghost use Rattle.krb_types.specs.ReqBody.{req_body_of, req_body_form};

use crate::ticket::{Ticket, TicketRef};
use krb_der::{DerFault, KTime, Reader, Writer};
use krb_elements::{
    Coded, Decode, DecodeFields, Encode, EncodeFields, Fielded, KerberosString, KerberosStringRef,
    MakeOwned, Seq, SeqRef, UInt32, Untagged, take_field, take_optional, write_field,
    write_optional,
};
use krb_fields::{
    EncryptedData, EncryptedDataRef, Flags, HostAddress, HostAddressRef, Name, NameRef,
};
use std::alloc::{AllocError, Global};

/// What a request asks for.
#[derive(Debug, Drop)]
pub struct ReqBody<
    S = KerberosString,
    N = Name,
    L = Seq<i32>,
    A = Seq<HostAddress>,
    E = EncryptedData,
    T = Seq<Ticket>,
> {
    /// The options. `krb_fields::KdcOption` names the bits.
    pub kdc_options: Flags,
    /// The client's name, in an AS-REQ only.
    pub cname: Option<N>,
    /// The service's realm; in an AS-REQ also the client's.
    pub realm: S,
    /// The service's name. It may be absent only with the option ENC-TKT-IN-SKEY.
    pub sname: Option<N>,
    /// The requested start of the ticket.
    pub from: Option<KTime>,
    /// The requested end of the ticket.
    pub till: KTime,
    /// Until when the ticket should be renewable.
    pub rtime: Option<KTime>,
    /// A number that the reply repeats.
    pub nonce: UInt32,
    /// The encryption types that the client supports, in order of preference.
    pub etype: L,
    /// The addresses to which the ticket should be bound.
    pub addresses: Option<A>,
    /// In a TGS-REQ, authorization data for the ticket, encrypted with the subkey or the session key.
    pub enc_authorization_data: Option<E>,
    /// With ENC-TKT-IN-SKEY, the session key of the first of these encrypts the requested ticket.
    pub additional_tickets: Option<T>,
}

/// A borrowed [`ReqBody`].
pub type ReqBodyRef<'a> = ReqBody<
    KerberosStringRef<'a>,
    NameRef<'a>,
    SeqRef<'a, i32>,
    SeqRef<'a, HostAddressRef<'a>>,
    EncryptedDataRef<'a>,
    SeqRef<'a, TicketRef<'a>>,
>;

impl<S: Coded, N: Coded, L: Coded, A: Coded, E: Coded, T: Coded> Coded
    for ReqBody<S, N, L, A, E, T> {
    ghost codec = { req_body_of S.codec N.codec L.codec A.codec E.codec T.codec };
}

impl<S: Coded, N: Coded, L: Coded, A: Coded, E: Coded, T: Coded> Fielded
    for ReqBody<S, N, L, A, E, T> {
    type In = Untagged;

    ghost form = { req_body_form S.codec N.codec L.codec A.codec E.codec T.codec };

    ghost made = { itself };
}

impl<
    'a,
    S: Decode<'a>,
    N: Decode<'a>,
    L: Decode<'a>,
    A: Decode<'a>,
    E: Decode<'a>,
    T: Decode<'a>,
> DecodeFields<'a> for ReqBody<S, N, L, A, E, T> {
    #[tactic(auto, unfolding(crate::specs::ReqBody::req_body_form))]
    fn look_fields(fields: &mut Reader<'a>) -> Result<ReqBody<S, N, L, A, E, T>, DerFault> {
        Ok(ReqBody {
            kdc_options: take_field(fields, 0)?,
            cname: take_optional(fields, 1)?,
            realm: take_field(fields, 2)?,
            sname: take_optional(fields, 3)?,
            from: take_optional(fields, 4)?,
            till: take_field(fields, 5)?,
            rtime: take_optional(fields, 6)?,
            nonce: take_field(fields, 7)?,
            etype: take_field(fields, 8)?,
            addresses: take_optional(fields, 9)?,
            enc_authorization_data: take_optional(fields, 10)?,
            additional_tickets: take_optional(fields, 11)?,
        })
    }
}

impl<S: Encode, N: Encode, L: Encode, A: Encode, E: Encode, T: Encode> EncodeFields
    for ReqBody<S, N, L, A, E, T> {
    #[tactic(auto, unfolding(crate::specs::ReqBody::req_body_form))]
    fn put_fields(&self, out: &mut Writer) -> Result<(), AllocError> {
        write_field(out, 0, &self.kdc_options)?;
        write_optional(out, 1, &self.cname)?;
        write_field(out, 2, &self.realm)?;
        write_optional(out, 3, &self.sname)?;
        write_optional(out, 4, &self.from)?;
        write_field(out, 5, &self.till)?;
        write_optional(out, 6, &self.rtime)?;
        write_field(out, 7, &self.nonce)?;
        write_field(out, 8, &self.etype)?;
        write_optional(out, 9, &self.addresses)?;
        write_optional(out, 10, &self.enc_authorization_data)?;
        write_optional(out, 11, &self.additional_tickets)
    }
}

impl<S: MakeOwned, N: MakeOwned, L: MakeOwned, A: MakeOwned, E: MakeOwned, T: MakeOwned> MakeOwned
    for ReqBody<S, N, L, A, E, T> {
    type Owned = ReqBody<S::Owned, N::Owned, L::Owned, A::Owned, E::Owned, T::Owned>;

    ghost same = { λ x. record {
      kdc_options = x.kdc_options;
      cname = option_map N.same x.cname;
      realm = S.same x.realm;
      sname = option_map N.same x.sname;
      from = x.from;
      till = x.till;
      rtime = x.rtime;
      nonce = x.nonce;
      etype = L.same x.etype;
      addresses = option_map A.same x.addresses;
      enc_authorization_data = option_map E.same x.enc_authorization_data;
      additional_tickets = option_map T.same x.additional_tickets;
    } };

    fn copy(
        &self,
        alloc: Global,
    ) -> Result<ReqBody<S::Owned, N::Owned, L::Owned, A::Owned, E::Owned, T::Owned>, AllocError> {
        Ok(ReqBody {
            kdc_options: self.kdc_options,
            cname: self.cname.copy(alloc)?,
            realm: self.realm.copy(alloc)?,
            sname: self.sname.copy(alloc)?,
            from: self.from,
            till: self.till,
            rtime: self.rtime,
            nonce: self.nonce,
            etype: self.etype.copy(alloc)?,
            addresses: self.addresses.copy(alloc)?,
            enc_authorization_data: self.enc_authorization_data.copy(alloc)?,
            additional_tickets: self.additional_tickets.copy(alloc)?,
        })
    }
}

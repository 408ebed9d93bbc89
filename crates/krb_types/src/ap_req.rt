//! AP-REQ (RFC 4120, section 5.5.1).
ghost use Rattle.std.specs.Prelude.{◌≡◌, ◌<◌, ◌^◌, ◌*◌, length, IfOk, OnOk, IsOkAnd};
ghost use Rattle.krb_elements.specs.Codec.{itself, written};
ghost use Rattle.krb_elements.specs.Format.{Decodes, IsReadUnlessMemory, Sees, whole};
ghost use Rattle.krb_types.specs.ApReq.{ap_req, ap_req_of, ap_req_form, HasShorterParts};
ghost use Rattle.krb_types.specs.ApReq as trees;

use crate::ticket::{Ticket, TicketRef};
use krb_der::{DerFault, Reader, Writer};
use krb_elements::{
    Application, Coded, Decode, DecodeFields, Encode, EncodeFields, Fault, Fielded, MakeOwned,
    ReadOwned, read, read_owned, take_field, write, write_field,
};
use krb_fields::numbers::AP_REQ;
use krb_fields::{EncryptedData, EncryptedDataRef, Flags};
use std::alloc::{AllocError, Global};

/// A client's ticket, and the proof that the client has its session key. Reading checks neither the version nor the
/// message type.
#[derive(Debug, Drop)]
pub struct ApReq<T = Ticket, E = EncryptedData> {
    /// The protocol version: 5.
    pub pvno: i32,
    /// The message type: 14.
    pub msg_type: i32,
    /// The options. `krb_fields::ApOption` names the bits.
    pub ap_options: Flags,
    /// The ticket that authenticates the client to the service.
    pub ticket: T,
    /// An Authenticator, encrypted with the ticket's session key.
    pub authenticator: E,
}

/// A borrowed [`ApReq`].
pub type ApReqRef<'a> = ApReq<TicketRef<'a>, EncryptedDataRef<'a>>;

impl<T: Coded, E: Coded> Coded for ApReq<T, E> {
    ghost codec = { ap_req_of T.codec E.codec };
}

impl<T: Coded, E: Coded> Fielded for ApReq<T, E> {
    type In = Application<AP_REQ>;

    ghost form = { ap_req_form T.codec E.codec };

    ghost made = { itself };
}

impl<'a, T: Decode<'a>, E: Decode<'a>> DecodeFields<'a> for ApReq<T, E> {
    #[tactic(auto, unfolding(crate::specs::ApReq::ap_req_form))]
    fn look_fields(fields: &mut Reader<'a>) -> Result<ApReq<T, E>, DerFault> {
        Ok(ApReq {
            pvno: take_field(fields, 0)?,
            msg_type: take_field(fields, 1)?,
            ap_options: take_field(fields, 2)?,
            ticket: take_field(fields, 3)?,
            authenticator: take_field(fields, 4)?,
        })
    }
}

impl<T: Encode, E: Encode> EncodeFields for ApReq<T, E> {
    #[tactic(auto, unfolding(crate::specs::ApReq::ap_req_form))]
    fn put_fields(&self, out: &mut Writer) -> Result<(), AllocError> {
        write_field(out, 0, &self.pvno)?;
        write_field(out, 1, &self.msg_type)?;
        write_field(out, 2, &self.ap_options)?;
        write_field(out, 3, &self.ticket)?;
        write_field(out, 4, &self.authenticator)
    }
}

impl<T: MakeOwned, E: MakeOwned> MakeOwned for ApReq<T, E> {
    type Owned = ApReq<T::Owned, E::Owned>;

    ghost same = { λ x. record {
      pvno = x.pvno;
      msg_type = x.msg_type;
      ap_options = x.ap_options;
      ticket = T.same x.ticket;
      authenticator = E.same x.authenticator;
    } };

    fn copy(&self, alloc: Global) -> Result<ApReq<T::Owned, E::Owned>, AllocError> {
        Ok(ApReq {
            pvno: self.pvno,
            msg_type: self.msg_type,
            ap_options: self.ap_options,
            ticket: self.ticket.copy(alloc)?,
            authenticator: self.authenticator.copy(alloc)?,
        })
    }
}

fn copied(alloc: Global, found: &ApReqRef<'_>) -> Result<ApReq, AllocError>
    ensures { IfOk result (λ copy. copy ≡ found.now) }
{
    found.copy(alloc)
}

impl ReadOwned for ApReq {
    fn read_parts(alloc: Global, bytes: &[u8]) -> Result<ApReq, Fault> {
        let found = read_ap_req(bytes)?;
        Ok(copied(alloc, &found)?)
    }
}

/// Reads an AP-REQ in place, without allocating.
pub fn read_ap_req(bytes: &[u8]) -> Result<ApReqRef<'_>, DerFault>
    // If it succeeds, the bytes encode this AP-REQ.
    // Promise (found, only, exact): an AP-REQ is read exactly from the bytes that spell it; an error is that of the
    // definition. Reading it in place allocates nothing.
    ensures found { IfOk result (λ request. ap_req.Spells request bytes.now) }
    // If the bytes encode an AP-REQ, it succeeds.
    ensures only { (request : trees.ApReq) → ap_req.Spells request bytes.now
        → IsOkAnd result (λ found. found ≡ request) }
    // The result, including the error, is that of the definition.
    ensures exact { Sees result (whole ap_req.at bytes.now) }
    // The parts are shorter than the bytes.
    // Promise: the contents of an AP-REQ's ticket, of its authenticator and of both ciphers are shorter than the
    // AP-REQ.
    ensures short { IfOk result (λ request. HasShorterParts bytes.now request) }
{
    read(bytes)
}

/// Reads the AP-REQ that the bytes encode.
pub fn decode_ap_req(alloc: Global, bytes: &[u8]) -> Result<ApReq, Fault>
    // Promise (found, only, exact), as decode_krb_error: KRB-ERROR, AP-REQ and AP-REP ..
    ensures found { IfOk result (λ request. ap_req.Spells request bytes.now) }
    ensures only { (request : trees.ApReq) → ap_req.Spells request bytes.now → IsReadUnlessMemory result request }
    ensures exact { Decodes result (whole ap_req.at bytes.now) }
    // The AP-REQ is short enough to be written again.
    // Promise: if an AP-REQ is written again, its contents are less than three times as long as the bytes that were
    // read.
    ensures short { IfOk result (λ request. length (ap_req.text request) < 3 * length bytes.now) }
{
    read_owned(alloc, bytes)
}

/// Returns the encoding of the AP-REQ.
pub fn encode_ap_req(alloc: Global, request: &ApReq) -> Result<Vec<u8>, AllocError>
    requires { length (ap_req.text request.now) < 2 ^ 32 }
    // Promise (written, spelled), as encode_kdc_req: a request, a KRB-ERROR, ..
    ensures written { IfOk result (λ v. v.items ≡ written ap_req request.now) }
    ensures spelled { IfOk result (λ v. ap_req.Spells request.now v.items) }
{
    write(alloc, request)
}

//! KDC-REQ (RFC 4120, section 5.4.1): AS-REQ and TGS-REQ.
ghost use Rattle.std.specs.Prelude.{◌≡◌, ◌<◌, ◌^◌, length, IfOk, IsOkAnd};
ghost use Rattle.krb_elements.specs.Codec.{itself, sequence, written};
ghost use Rattle.krb_elements.specs.Format.{Sees, whole};
ghost use Rattle.krb_types.specs.KdcReq.{kdc_req_form, received_form, request_type, message_tag, message, Received};
ghost use Rattle.krb_types.specs.KdcReq.{SpellsKdcReq, SpellsReceived, received_at, without_octets};
ghost use Rattle.krb_types.specs.ShortNameLaws.{IsShorter};
ghost use Rattle.krb_types.specs.declared.kdc_req.Exchange as exchanges;

use crate::req_body::{ReqBody, ReqBodyRef};
use krb_der::{DerFault, Reader, Writer};
use krb_elements::{
    Coded, DecodeFields, EncodeFields, Fielded, Sent, Seq, SeqRef, Untagged, application_tag,
    expect_end, look_either, take_field, take_optional, take_sent, write_field, write_inside,
    write_optional,
};
use krb_fields::numbers::{AS_REQ, TGS_REQ};
use krb_fields::{PaData, PaDataRef};
use std::alloc::{AllocError, Global};

/// The exchange with a KDC that a message belongs to.
#[derive(Clone, Copy, Debug, PartialEq, Eq)]
pub enum Exchange {
    /// The Authentication Service exchange (RFC 4120, section 3.1).
    As,
    /// The Ticket-Granting Service exchange (RFC 4120, section 3.3).
    Tgs,
}

impl Exchange {
    /// Returns the message type of its requests.
    pub fn request_type(self) -> u8
        // Promise: each exchange's requests have its message type, which is also the number of their tag.
        ensures { result ≡ request_type self }
    {
        match self {
            Exchange::As => AS_REQ,
            Exchange::Tgs => TGS_REQ,
        }
    }

    /// Returns the tag of its requests.
    fn request_tag(self) -> u8
        ensures { result ≡ message_tag self }
    {
        application_tag(self.request_type())
    }

    fn tagged(self) -> (u8, Exchange)
        ensures { result ≡ (message_tag self, self) }
    {
        (self.request_tag(), self)
    }
}

/// An AS-REQ or a TGS-REQ. Reading checks neither the version nor the message type.
#[derive(Debug, Drop)]
pub struct KdcReq<P = Seq<PaData>, B = ReqBody> {
    /// The protocol version: 5.
    pub pvno: i32,
    /// The message type: 10 for an AS-REQ, 12 for a TGS-REQ.
    pub msg_type: i32,
    /// Preauthentication data, such as the AP-REQ in a TGS-REQ.
    pub padata: Option<P>,
    /// The KDC-REQ-BODY.
    pub body: B,
}

/// A borrowed [`KdcReq`], with the bytes of its body as they were sent. A checksum covers these.
pub type KdcReqRef<'a> = KdcReq<SeqRef<'a, PaDataRef<'a>>, Sent<'a, ReqBodyRef<'a>>>;

impl<'a> Coded for KdcReqRef<'a> {
    ghost codec = { sequence received_form };
}

impl<'a> Fielded for KdcReqRef<'a> {
    type In = Untagged;

    ghost form = { received_form };

    ghost made = { itself };
}

impl<'a> DecodeFields<'a> for KdcReqRef<'a> {
    #[tactic(auto, unfolding(crate::specs::KdcReq::received_form))]
    fn look_fields(fields: &mut Reader<'a>) -> Result<KdcReqRef<'a>, DerFault> {
        Ok(KdcReq {
            pvno: take_field(fields, 1)?,
            msg_type: take_field(fields, 2)?,
            padata: take_optional(fields, 3)?,
            body: take_sent(fields, 4)?,
        })
    }
}

impl Coded for KdcReq {
    ghost codec = { sequence kdc_req_form };
}

impl Fielded for KdcReq {
    type In = Untagged;

    ghost form = { kdc_req_form };

    ghost made = { itself };
}

impl EncodeFields for KdcReq {
    #[tactic(auto, unfolding(crate::specs::KdcReq::kdc_req_form))]
    fn put_fields(&self, out: &mut Writer) -> Result<(), AllocError> {
        write_field(out, 1, &self.pvno)?;
        write_field(out, 2, &self.msg_type)?;
        write_optional(out, 3, &self.padata)?;
        write_field(out, 4, &self.body)
    }
}

fn look_message(bytes: &[u8]) -> Result<(Exchange, KdcReqRef<'_>), DerFault>
    ensures { Sees result (whole received_at bytes.now) }
{
    let mut reader = Reader::new(bytes);
    let found = look_either(&mut reader, Exchange::As.tagged(), Exchange::Tgs.tagged())?;
    expect_end(&reader)?;
    Ok(found)
}

/// Reads an AS-REQ or a TGS-REQ in place, without allocating.
pub fn read_kdc_req(bytes: &[u8]) -> Result<(Exchange, KdcReqRef<'_>), DerFault>
    // If it succeeds, the bytes encode this request.
    // Promise (found, only, exact): a request is read exactly from the bytes that spell it, with the bytes of its body
    // as they were sent; an error is that of the definition. Reading allocates nothing.
    ensures found { IfOk result (λ x. SpellsReceived x bytes.now) }
    // If the bytes encode a request, it succeeds.
    ensures only { (x : exchanges.Exchange × Received) → SpellsReceived x bytes.now → IsOkAnd result (λ y. y ≡ x) }
    // The result, including the error, is that of the definition.
    ensures exact { Sees result (whole received_at bytes.now) }
    // Without the bytes of its body, it is the request that the bytes encode.
    // Promise: a list of bytes spells at most one request.
    ensures request { IfOk result (λ x. SpellsKdcReq (x.0, without_octets x.1) bytes.now) }
    // The text of the service's name is shorter than the request, so an answer that repeats the name can be encoded.
    // Promise: the contents of the service's name are shorter than the request, so a reply that repeats the name has an
    // encoding.
    ensures short { IfOk result (λ x. IsShorter bytes.now x.1.body.value.sname) }
{
    look_message(bytes)
}

/// Returns the encoding of the request.
pub fn encode_kdc_req(
    alloc: Global,
    exchange: Exchange,
    request: &KdcReq,
) -> Result<Vec<u8>, AllocError>
    requires { length ((message exchange).text request.now) < 2 ^ 32 }
    // Promise (written, spelled): a request, a KRB-ERROR, an AP-REQ and an AP-REP are each written in bytes that spell
    // them.
    ensures written { IfOk result (λ v. v.items ≡ written (message exchange) request.now) }
    ensures spelled { IfOk result (λ v. SpellsKdcReq (exchange, request.now) v.items) }
{
    write_inside(alloc, exchange.request_tag(), request)
}

//! Requests that own their parts, read from bytes.
ghost use Rattle.std.specs.Prelude.{◌≡◌, IfOk};
ghost use Rattle.krb_elements.specs.Codec.{itself, sequence};
ghost use Rattle.krb_types.specs.KdcReq.{kdc_req_form};

use crate::kdc_req::KdcReq;
use crate::req_body::{ReqBody, ReqBodyRef};
use krb_der::{DerFault, Reader};
use krb_elements::{
    Coded, DecodeFields, Fault, Fielded, MakeOwned, ReadOwned, Seq, SeqRef, Untagged, read,
    take_field, take_optional,
};
use krb_fields::{PaData, PaDataRef};
use std::alloc::{AllocError, Global};

/// A borrowed [`KdcReq`] without the bytes of its body.
type PlainReqRef<'a> = KdcReq<SeqRef<'a, PaDataRef<'a>>, ReqBodyRef<'a>>;

impl<'a> Coded for PlainReqRef<'a> {
    ghost codec = { sequence kdc_req_form };
}

impl<'a> Fielded for PlainReqRef<'a> {
    type In = Untagged;

    ghost form = { kdc_req_form };

    ghost made = { itself };
}

impl<'a> DecodeFields<'a> for PlainReqRef<'a> {
    #[tactic(auto, unfolding(crate::specs::KdcReq::kdc_req_form))]
    fn look_fields(fields: &mut Reader<'a>) -> Result<PlainReqRef<'a>, DerFault> {
        Ok(KdcReq {
            pvno: take_field(fields, 1)?,
            msg_type: take_field(fields, 2)?,
            padata: take_optional(fields, 3)?,
            body: take_field(fields, 4)?,
        })
    }
}

fn owned_padata<'a>(
    alloc: Global,
    padata: &Option<SeqRef<'a, PaDataRef<'a>>>,
) -> Result<Option<Seq<PaData>>, AllocError>
    ensures { IfOk result (λ copy. copy ≡ padata.now) }
{
    padata.copy(alloc)
}

fn owned_body(alloc: Global, body: &ReqBodyRef<'_>) -> Result<ReqBody, AllocError>
    ensures { IfOk result (λ copy. copy ≡ body.now) }
{
    body.copy(alloc)
}

fn copied(alloc: Global, found: &PlainReqRef<'_>) -> Result<KdcReq, AllocError>
    ensures { IfOk result (λ copy. copy ≡ found.now) }
{
    Ok(KdcReq {
        pvno: found.pvno,
        msg_type: found.msg_type,
        padata: owned_padata(alloc, &found.padata)?,
        body: owned_body(alloc, &found.body)?,
    })
}

/// Reads the SEQUENCE inside the tag of an AS-REQ or a TGS-REQ.
impl ReadOwned for KdcReq {
    fn read_parts(alloc: Global, bytes: &[u8]) -> Result<KdcReq, Fault> {
        let found: PlainReqRef<'_> = read(bytes)?;
        Ok(copied(alloc, &found)?)
    }
}

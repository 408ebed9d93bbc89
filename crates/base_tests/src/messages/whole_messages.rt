//! Tests of whole messages (`krb_types`), and of the contents of their OCTET STRINGs.
ghost use Rattle.std.specs.Prelude.{◌≡◌, ◌<◌, ◌*◌, length, IfOk};
ghost use Rattle.krb_types.specs.KdcReq.{SpellsKdcReq, message, without_octets};

use crate::expect::{at_last, bytes, judged, marked, same, shows, written};
use crate::messages::vectors::*;
use krb_der::DerFault;
use krb_elements::{Encode, Fault, MakeOwned, ReadOwned, Seq, SeqRef, decode, encode, read};
use krb_fields::{EncryptedData, MethodData, PaData, PaDataRef};
use krb_types::{
    ApRep, ApReq, AsRep, AsReq, Authenticator, EncApRepPart, EncAsRepPart, EncTgsRepPart,
    EncTicketPart, EtypeInfo2, EtypeInfo2EntryRef, Exchange, KdcRepRef, KdcReq, KdcReqRef,
    KrbError, PaEncTsEnc, ReqBody, ReqBodyRef, TgsRep, TgsReq, Ticket, decode_ap_rep,
    decode_ap_req, decode_authenticator, decode_enc_ap_rep_part, decode_enc_ticket_part,
    decode_krb_error, decode_pa_enc_ts_enc, encode_ap_rep, encode_ap_req, encode_authenticator,
    encode_enc_ap_rep_part, encode_enc_ticket_part, encode_kdc_req, encode_krb_error,
    encode_pa_enc_ts_enc, read_ap_req, read_kdc_req,
};
use std::alloc::{AllocError, Global};
use std::fmt::Debug;
use std::process::Abort;

/// A type of message.
#[derive(Clone, Copy)]
enum Kind {
    EncryptedData,
    Ticket,
    EncTicketPart,
    AsReq,
    TgsReq,
    AsRep,
    TgsRep,
    EncAsRepPart,
    EncTgsRepPart,
    ApReq,
    Authenticator,
    ApRep,
    EncApRepPart,
    KrbError,
    PaEncTsEnc,
    EtypeInfo2,
    MethodData,
}

/// A type, the bytes in digits, and the value or the error with which they are read.
type Row = (Kind, &'static str, &'static str);

/// These digits with a part of them replaced.
type Changed = (Kind, &'static str, &'static str, &'static str, &'static str);

const MESSAGES: &[Row] = &[
    (Kind::EncryptedData, ENCRYPTED_DATA, ENCRYPTED_DATA_VALUE),
    (Kind::Ticket, HOST_TICKET, HOST_TICKET_VALUE),
    (Kind::EncTicketPart, TICKET, TICKET_VALUE),
    (Kind::EncTicketPart, LEAST_TICKET, LEAST_TICKET_VALUE),
    (Kind::AsReq, AS_REQ, AS_REQ_VALUE),
    (Kind::TgsReq, TGS_REQ, TGS_REQ_VALUE),
    (Kind::AsRep, TWO_PADATA, TWO_PADATA_VALUE),
    (Kind::TgsRep, TGS_REP, TGS_REP_VALUE),
    (Kind::EncAsRepPart, REPLY, REPLY_VALUE),
    (Kind::EncTgsRepPart, LEAST_REPLY, LEAST_REPLY_VALUE),
    (Kind::ApReq, AP_REQ, AP_REQ_VALUE),
    (Kind::ApReq, LONG_REQ, LONG_REQ_VALUE),
    (Kind::Authenticator, AUTHENTICATOR, AUTHENTICATOR_VALUE),
    (Kind::ApRep, AP_REP, AP_REP_VALUE),
    (Kind::ApRep, OTHER_REP, OTHER_REP_VALUE),
    (Kind::EncApRepPart, AP_REPLY, AP_REPLY_VALUE),
    (Kind::KrbError, SHORT_ERROR, SHORT_ERROR_VALUE),
    (Kind::KrbError, LONG_ERROR, LONG_ERROR_VALUE),
    (Kind::PaEncTsEnc, TIMESTAMP, TIMESTAMP_VALUE),
    (Kind::EtypeInfo2, ETYPE_INFO2, ETYPE_INFO2_VALUE),
    (Kind::MethodData, METHOD_DATA, METHOD_DATA_VALUE),
];

/// Returns the messages. Only this function names the table: each that does takes long to prove.
fn messages() -> &'static [Row] {
    MESSAGES
}

const BAD_TAG: &str = "Err(Der(BadTag))";

const BAD_INTEGER: &str = "Err(Der(BadInteger))";

/// Messages of another type, without a field, and of another version.
const REFUSED: &[Row] = &[
    (Kind::AsReq, "6b", BAD_TAG),
    (Kind::TgsReq, AS_REQ, BAD_TAG),
    (Kind::AsRep, TGS_REP, BAD_TAG),
    (Kind::EncTgsRepPart, REPLY, BAD_TAG),
    (Kind::ApReq, AP_REP, BAD_TAG),
    (Kind::ApReq, WITHOUT_AUTHENTICATOR, "Err(Der(Truncated))"),
    (Kind::ApRep, AP_REQ, BAD_TAG),
    (Kind::Authenticator, VERSION_4, BAD_INTEGER),
];

const CHANGED: &[Changed] = &[
    // An AS-REQ as a TGS-REQ.
    (
        Kind::TgsReq,
        AS_REQ,
        "6a693067a103020105a20302010a",
        "6c693067a103020105a20302010c",
        AS_REQ_AS_TGS_REQ_VALUE,
    ),
    // A byte follows.
    (
        Kind::AsReq,
        AS_REQ,
        "03020112",
        "0302011200",
        "Err(Der(Trailing))",
    ),
    (
        Kind::ApReq,
        AP_REQ,
        "04020405",
        "0402040500",
        "Err(Der(Trailing))",
    ),
    // The length has one byte more than needed.
    (Kind::AsReq, AS_REQ, "6a69", "6a8169", "Err(Der(BadLength))"),
    // An error of version 4.
    (
        Kind::KrbError,
        SHORT_ERROR,
        "a003020105",
        "a003020104",
        BAD_INTEGER,
    ),
    // An AP-REQ with the tag of an AP-REP, and with another tag in place of the ticket's.
    (Kind::ApReq, AP_REQ, "6e65", "6f65", BAD_TAG),
    (Kind::ApReq, AP_REQ, "613d303b", "623d303b", BAD_TAG),
    // An AP-REP of version 4, and one of type 14.
    (Kind::ApRep, AP_REP, "a003020105", "a003020104", BAD_INTEGER),
    (Kind::ApRep, AP_REP, "a10302010f", "a10302010e", BAD_INTEGER),
];

fn owned_body(alloc: Global, body: &ReqBodyRef<'_>) -> Result<ReqBody, AllocError>
    ensures { IfOk result (λ copy. copy ≡ body.now) }
{
    body.copy(alloc)
}

fn owned_padata<'a>(
    alloc: Global,
    padata: &Option<SeqRef<'a, PaDataRef<'a>>>,
) -> Result<Option<Seq<PaData>>, AllocError>
    ensures { IfOk result (λ copy. copy ≡ padata.now) }
{
    padata.copy(alloc)
}

fn owned(alloc: Global, request: &KdcReqRef<'_>) -> Result<KdcReq, AllocError>
    ensures { IfOk result (λ copy. copy ≡ without_octets request.now) }
{
    Ok(KdcReq {
        pvno: request.pvno,
        msg_type: request.msg_type,
        padata: owned_padata(alloc, &request.padata)?,
        body: owned_body(alloc, &request.body.value)?,
    })
}

/// Reads a request.
fn decoded(alloc: Global, octets: &[u8]) -> Result<(Exchange, KdcReq), Fault>
    ensures { IfOk result (λ x. SpellsKdcReq x octets.now) }
{
    let (exchange, request) = read_kdc_req(octets)?;
    Ok((exchange, owned(alloc, &request)?))
}

/// Reads a request. What is written from it has less than three times its length.
fn short(alloc: Global, octets: &[u8]) -> Result<(Exchange, KdcReq), Fault>
    ensures { IfOk result (λ x. length ((message x.0).text x.1) < 3 * length octets.now) }
{
    decoded(alloc, octets)
}

/// Reads a request, and writes it again.
fn kdc_req_again(alloc: Global, octets: &[u8]) -> Result<Vec<u8>, Fault>
    requires { length octets.now < 1000 }
{
    let (exchange, request) = short(alloc, octets)?;
    encode_kdc_req(alloc, exchange, &request).map_err(Fault::from)
}

/// Reads a message, and writes it again by this call.
fn again_by<X: ReadOwned, F: Fn(Global, &X) -> Result<Vec<u8>, AllocError>>(
    alloc: Global,
    octets: &[u8],
    encode: F,
) -> Result<Vec<u8>, Fault>
    requires short { length octets.now < 1000 }
    requires callable { (to : _) (x : _) → length (X.codec.text x.now) < 3000 → F.pre encode to x }
{
    let message: X = decode(alloc, octets)?;
    encode(alloc, &message).map_err(Fault::from)
}

/// Reads a message of fewer than a thousand bytes, and writes it again.
fn again<X: ReadOwned + Encode>(alloc: Global, octets: &[u8]) -> Result<Vec<u8>, Fault> {
    if octets.len() >= 1000 {
        return Ok(Vec::new(alloc));
    }
    let message: X = decode(alloc, octets)?;
    encode(alloc, &message).map_err(Fault::from)
}

/// Asserts that the message is written as it was read, as a marked call. Reads and writes it again if memory ran out.
fn is_written<X: ReadOwned + Encode>(rt: &impl Abort, alloc: Global, octets: &[u8]) {
    let found = at_last(alloc, &Fault::Memory, || again::<X>(alloc, octets));
    written(rt, found, octets);
    judged(alloc);
}

/// Asserts that the bytes are read with this value or error, and that a value is written as it was read.
fn is_read<X: ReadOwned + Encode + Debug>(
    rt: &impl Abort,
    alloc: Global,
    octets: &[u8],
    value: &str,
) {
    shows(rt, alloc, decode::<X>(alloc, octets), value);
    if value.starts_with("Ok") {
        is_written::<X>(rt, alloc, octets);
    }
}

/// Asserts what `is_read` does, for this type of message.
fn is_message_read(rt: &impl Abort, alloc: Global, kind: Kind, octets: &[u8], value: &str) {
    match kind {
        Kind::EncryptedData => is_read::<EncryptedData>(rt, alloc, octets, value),
        Kind::Ticket => is_read::<Ticket>(rt, alloc, octets, value),
        Kind::EncTicketPart => is_read::<EncTicketPart>(rt, alloc, octets, value),
        Kind::AsReq => is_read::<AsReq>(rt, alloc, octets, value),
        Kind::TgsReq => is_read::<TgsReq>(rt, alloc, octets, value),
        Kind::AsRep => is_read::<AsRep>(rt, alloc, octets, value),
        Kind::TgsRep => is_read::<TgsRep>(rt, alloc, octets, value),
        Kind::EncAsRepPart => is_read::<EncAsRepPart>(rt, alloc, octets, value),
        Kind::EncTgsRepPart => is_read::<EncTgsRepPart>(rt, alloc, octets, value),
        Kind::ApReq => is_read::<ApReq>(rt, alloc, octets, value),
        Kind::Authenticator => is_read::<Authenticator>(rt, alloc, octets, value),
        Kind::ApRep => is_read::<ApRep>(rt, alloc, octets, value),
        Kind::EncApRepPart => is_read::<EncApRepPart>(rt, alloc, octets, value),
        Kind::KrbError => is_read::<KrbError>(rt, alloc, octets, value),
        Kind::PaEncTsEnc => is_read::<PaEncTsEnc>(rt, alloc, octets, value),
        Kind::EtypeInfo2 => is_read::<EtypeInfo2>(rt, alloc, octets, value),
        Kind::MethodData => is_read::<MethodData>(rt, alloc, octets, value),
    }
}

/// Asserts that the message is read with its value and written as it was read, and that each proper prefix of it is
/// refused.
fn is_whole(rt: &impl Abort, alloc: Global, row: &Row) {
    let (kind, digits, value) = row;
    let octets = bytes(alloc, *digits);
    is_message_read(rt, alloc, *kind, &octets, *value);
    for len in 0..octets.len() {
        is_message_read(rt, alloc, *kind, &octets[..len], "Err(Der(Truncated))");
    }
}

#[test]
fn each_message_is_read_and_written(rt: HostRuntime) {
    for row in messages() {
        is_whole(&rt, rt.alloc(), row);
    }
}

/// Reads a message of fewer than a thousand bytes and writes it again, if there are calls of its name.
fn again_by_name(alloc: Global, kind: Kind, octets: &[u8]) -> Option<Result<Vec<u8>, Fault>> {
    if octets.len() >= 1000 {
        return None;
    }
    match kind {
        Kind::AsReq => Some(kdc_req_again(alloc, octets)),
        Kind::TgsReq => Some(kdc_req_again(alloc, octets)),
        Kind::KrbError => Some(again_by(alloc, octets, |to, x| encode_krb_error(to, x))),
        Kind::ApReq => Some(again_by(alloc, octets, |to, x| encode_ap_req(to, x))),
        Kind::ApRep => Some(again_by(alloc, octets, |to, x| encode_ap_rep(to, x))),
        Kind::EncTicketPart => Some(again_by(alloc, octets, |to, x| encode_enc_ticket_part(to, x))),
        Kind::Authenticator => Some(again_by(alloc, octets, |to, x| encode_authenticator(to, x))),
        Kind::EncApRepPart => Some(again_by(alloc, octets, |to, x| encode_enc_ap_rep_part(to, x))),
        Kind::PaEncTsEnc => Some(again_by(alloc, octets, |to, x| encode_pa_enc_ts_enc(to, x))),
        _ => None,
    }
}

/// Asserts that the message is written as it was read, if there are calls of its name. Reads and writes it again if
/// memory ran out.
fn is_written_by_name(rt: &impl Abort, alloc: Global, kind: Kind, octets: &[u8]) {
    let first = marked(alloc, || again_by_name(alloc, kind, octets));
    let found = match first {
        Some(Err(Fault::Memory)) => again_by_name(alloc, kind, octets),
        first => first,
    };
    if let Some(found) = found {
        written(rt, found, octets);
    }
    judged(alloc);
}

/// Asserts that the bytes are read with this value, if there is a call of its name.
fn is_read_by_name(rt: &impl Abort, alloc: Global, kind: Kind, octets: &[u8], value: &str) {
    match kind {
        Kind::KrbError => shows(rt, alloc, decode_krb_error(alloc, octets), value),
        Kind::ApReq => shows(rt, alloc, decode_ap_req(alloc, octets), value),
        Kind::ApRep => shows(rt, alloc, decode_ap_rep(alloc, octets), value),
        Kind::EncTicketPart => shows(rt, alloc, decode_enc_ticket_part(alloc, octets), value),
        Kind::Authenticator => shows(rt, alloc, decode_authenticator(alloc, octets), value),
        Kind::EncApRepPart => shows(rt, alloc, decode_enc_ap_rep_part(alloc, octets), value),
        Kind::PaEncTsEnc => shows(rt, alloc, decode_pa_enc_ts_enc(alloc, octets), value),
        _ => {}
    }
}

fn is_named(rt: &impl Abort, alloc: Global, row: &Row) {
    let (kind, digits, value) = row;
    let octets = bytes(alloc, *digits);
    is_read_by_name(rt, alloc, *kind, &octets, *value);
    is_written_by_name(rt, alloc, *kind, &octets);
}

#[test]
fn each_message_is_read_and_written_by_its_own_calls(rt: HostRuntime) {
    for row in messages() {
        is_named(&rt, rt.alloc(), row);
    }
}

#[test]
fn bytes_that_encode_no_such_message_are_refused(rt: HostRuntime) {
    for (kind, digits, value) in REFUSED {
        is_message_read(&rt, rt.alloc(), *kind, &bytes(rt.alloc(), *digits), *value);
    }
}

#[test]
fn changed_bytes_are_read_or_refused(rt: HostRuntime) {
    for row in CHANGED {
        is_changed(&rt, rt.alloc(), row);
    }
}

fn is_changed(rt: &impl Abort, alloc: Global, row: &Changed) {
    let (kind, digits, old, new, value) = row;
    match digits.replace(alloc, *old, *new) {
        Ok(digits) => {
            let octets = bytes(alloc, digits.as_str());
            is_message_read(rt, alloc, *kind, &octets, *value);
        }
        Err(AllocError) => panic!(rt; "no memory"),
    }
}

/// Returns the length of the body that the AS-REQ was sent with, if the bytes end with it.
fn sent_len(octets: &[u8]) -> Option<usize> {
    let (_, request) = read_kdc_req(octets).ok()?;
    let body = request.body.octets;
    if octets.ends_with(body) {
        Some(body.len())
    } else {
        None
    }
}

/// Returns the version of the AS-REP's ticket and the type of its encrypted part, if its client is in `A.B`.
fn as_rep(octets: &[u8]) -> Result<Option<(i32, i32)>, DerFault> {
    let reply: KdcRepRef<'_, 11> = read(octets)?;
    if reply.crealm.as_slice() != b"A.B".as_slice() {
        return Ok(None);
    }
    Ok(Some((reply.ticket.tkt_vno, reply.enc_part.etype)))
}

/// Reads an AP-REQ in place, and copies it.
fn ap_req(alloc: Global, octets: &[u8]) -> Result<ApReq, Fault> {
    read_ap_req(octets)?.copy(alloc).map_err(Fault::from)
}

#[test]
fn replies_and_parts_are_read_in_place(rt: HostRuntime) {
    let alloc = rt.alloc();
    same(&rt, &"a body", &sent_len(&bytes(alloc, AS_REQ)), &Some(91));
    let reply = bytes(alloc, AS_REP);
    same(&rt, &"an AS-REP", &as_rep(&reply), &Ok(Some((5, 18))));
    let fault = read::<KdcRepRef<'_, 13>>(&reply).err();
    same(&rt, &"a TGS-REP", &fault, &Some(DerFault::BadTag));
    let entry = bytes(alloc, ETYPE_INFO2_ENTRY);
    shows(
        &rt,
        alloc,
        read::<EtypeInfo2EntryRef<'_>>(&entry),
        ETYPE_INFO2_ENTRY_VALUE,
    );
    shows(
        &rt,
        alloc,
        ap_req(alloc, &bytes(alloc, AP_REQ)),
        AP_REQ_VALUE,
    );
}

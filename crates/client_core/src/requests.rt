//! AS-REQ (RFC 4120, sections 3.1.1 and 5.4.1).
ghost use Rattle.std.specs.Prelude.{◌≡◌, ◌≤◌, ◌∷◌, [], length, None, Some, IfOk};
ghost use Rattle.enctypes.specs.KeyUsage.{usage_number};
ghost use Rattle.enctypes.specs.declared.key_usage.KeyUsage.TheVariants as usages;
ghost use Rattle.krb_elements.specs.Codec.{list_of, written};
ghost use Rattle.krb_elements.specs.TextLengthLaws.{most_maybe};
ghost use Rattle.krb_fields.specs.PaData.{pa_data};
ghost use Rattle.krb_types.specs.PaEncTsEnc as parts;
ghost use Rattle.krb_types.specs.KdcReq.{SpellsKdcReq, message};
ghost use Rattle.krb_types.specs.ReqBody.{req_body};
ghost use Rattle.krb_types.specs.declared.kdc_req.Exchange.TheVariants.{As};
ghost use Rattle.encrypted_data.specs.Encrypted.{decrypted};
ghost use Rattle.client_core.specs.Asked.{IsAskable};
ghost use Rattle.client_core.specs.Requests.{asks_as, asks_with_timestamp, request_of, sealed_timestamp};
ghost use Rattle.client_core.specs.Requests.{timestamp_data, timestamp_part};
ghost use Rattle.client_core.specs.ShortLaws.{AreShortData};

use crate::asked::Asked;
use encrypted_data::{PartKey, encrypted};
use enctypes::{Key, KeyUsage};
use krb_elements::{Octets, Seq, write};
use krb_fields::numbers::{PA_ENC_TIMESTAMP, PVNO};
use krb_fields::{Moment, PaData};
use krb_types::{Exchange, KdcReq, PaEncTsEnc, ReqBody, encode_kdc_req};
use std::alloc::{AllocError, Global};

/// Returns the bytes of an AS-REQ without preauthentication.
pub fn as_request(alloc: Global, asked: &Asked) -> Result<Vec<u8>, AllocError>
    requires { IsAskable asked.now }
    // Promise (written, spelled): a request is written as the definition says, in bytes that spell what is requested.
    ensures written { IfOk result (λ v. v.items ≡ written (message As) (asks_as None asked.now)) }
    ensures spelled { IfOk result (λ v. SpellsKdcReq (As, asks_as None asked.now) v.items) }
{
    as_req(alloc, asked, None)
}

/// Returns the bytes of an AS-REQ with the moment, encrypted with the client's key (RFC 4120, section 5.2.7.2).
/// `confounder` is 16 random bytes.
pub fn with_timestamp(
    alloc: Global,
    asked: &Asked,
    key: &Key,
    at: Moment,
    confounder: &[u8; 16],
) -> Result<Vec<u8>, AllocError>
    requires { IsAskable asked.now }
    // Promise (written, spelled), as as_request: a request is written ..
    ensures written { IfOk result (λ v.
        v.items ≡ written (message As) (asks_with_timestamp asked.now key.now at confounder.now)) }
    ensures spelled { IfOk result (λ v.
        SpellsKdcReq (As, asks_with_timestamp asked.now key.now at confounder.now) v.items) }
    // The key decrypts the PA-ENC-TIMESTAMP in it to the moment.
    // Promise: the client's key decrypts the timestamp of an AS-REQ to the moment.
    ensures opens { IfOk result (λ v.
        decrypted parts.pa_enc_ts_enc key.now (usage_number usages.PaEncTimestamp)
        (sealed_timestamp key.now at confounder.now) ≡ Some (timestamp_part at)) }
{
    let entry = timestamp_data(alloc, key, at, confounder)?;
    let padata = one_entry(alloc, entry)?;
    as_req(alloc, asked, Some(padata))
}

/// Returns padata with one entry.
pub fn one_entry(alloc: Global, entry: PaData) -> Result<Seq<PaData>, AllocError>
    ensures { IfOk result (λ padata. padata ≡ entry ∷ []) }
{
    let mut padata = Seq::new(alloc);
    padata.push(entry)?;
    Ok(padata)
}

fn as_req(alloc: Global, asked: &Asked, padata: Option<Seq<PaData>>) -> Result<Vec<u8>, AllocError>
    requires askable { IsAskable asked.now }
    requires padata { AreShortData padata }
    ensures written { IfOk result (λ v. v.items ≡ written (message As) (asks_as padata asked.now)) }
    ensures spelled { IfOk result (λ v. SpellsKdcReq (As, asks_as padata asked.now) v.items) }
{
    let client = asked.client.copy(alloc)?;
    let body = asked.body(alloc, Some(client))?;
    request(alloc, Exchange::As, padata, body)
}

/// Returns the bytes of a request.
pub fn request(
    alloc: Global,
    exchange: Exchange,
    padata: Option<Seq<PaData>>,
    body: ReqBody,
) -> Result<Vec<u8>, AllocError>
    requires padata { AreShortData padata }
    requires body { req_body.most body ≤ 20000 }
    ensures written { IfOk result (λ v. v.items ≡ written (message exchange) (request_of exchange padata body)) }
    ensures spelled { IfOk result (λ v. SpellsKdcReq (exchange, request_of exchange padata body) v.items) }
{
    let request = KdcReq {
        pvno: PVNO,
        msg_type: i32::from(exchange.request_type()),
        padata,
        body,
    };
    encode_kdc_req(alloc, exchange, &request)
}

/// Returns the PA-ENC-TIMESTAMP.
fn timestamp_data(
    alloc: Global,
    key: &Key,
    at: Moment,
    confounder: &[u8; 16],
) -> Result<PaData, AllocError>
    ensures value { IfOk result (λ made. made ≡ timestamp_data key.now at confounder.now) }
    ensures opens { IfOk result (λ made.
        decrypted parts.pa_enc_ts_enc key.now (usage_number usages.PaEncTimestamp)
        (sealed_timestamp key.now at confounder.now) ≡ Some (timestamp_part at)) }
    ensures short { IfOk result (λ made. length made.padata_value ≤ 1000) }
{
    let part = PaEncTsEnc {
        patimestamp: at.time(),
        pausec: Some(at.microseconds()),
    };
    let key = PartKey {
        key: *key,
        usage: KeyUsage::PaEncTimestamp,
        kvno: None,
    };
    let sealed = encrypted(alloc, &key, confounder, &part)?;
    Ok(PaData {
        padata_type: PA_ENC_TIMESTAMP,
        padata_value: Octets::new(write(alloc, &sealed)?),
    })
}

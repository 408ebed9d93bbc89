//! TGS-REQ (RFC 4120, sections 3.3.1 and 5.4.1).
ghost use Rattle.std.specs.Prelude.{◌≡◌, ◌≤◌, ◌∷◌, [], length, IfOk, IfSome, None, Some};
ghost use Rattle.enctypes.specs.KeyUsage.{usage_number};
ghost use Rattle.enctypes.specs.declared.key_usage.KeyUsage.TheVariants.{TgsReqAuthenticator};
ghost use Rattle.krb_elements.specs.Codec.{written};
ghost use Rattle.krb_fields.specs.NameLimits.{IsComponent, IsWithinLimits};
ghost use Rattle.krb_types.specs.Authenticator as parts;
ghost use Rattle.krb_types.specs.KdcReq.{SpellsKdcReq, message};
ghost use Rattle.krb_types.specs.ReqBody.{req_body};
ghost use Rattle.krb_types.specs.declared.kdc_req.Exchange.TheVariants.{Tgs};
ghost use Rattle.encrypted_data.specs.Encrypted.{decrypted};
ghost use Rattle.client_core.specs.Asked.{IsAskable};
ghost use Rattle.client_core.specs.Requests.{asks_tgs, body_checksum, body_of, tgs_authenticator, tgs_data};
ghost use Rattle.client_core.specs.Requests.{request_of, tgs_presents};
ghost use Rattle.client_core.specs.Sessions as definitions;

use crate::asked::Asked;
use crate::presenting::{authenticator, present};
use crate::requests::{one_entry, request};
use crate::sessions::{Session, session_of};
use cred_files::{Credential, Principal};
use enctypes::{Key, KeyUsage, checksum};
use krb_elements::{Octets, write};
use krb_fields::numbers::PA_TGS_REQ;
use krb_fields::{Flags, Moment, PaData, Typed};
use krb_types::{Authenticator, Exchange, ReqBody};
use std::alloc::{AllocError, Global};

/// Returns the bytes of a TGS-REQ that presents the credential's ticket, with the subkey for the reply, if one is
/// chosen. `confounder` is 16 random bytes.
pub fn tgs_request(
    alloc: Global,
    asked: &Asked,
    credential: &Credential,
    subkey: Option<Key>,
    at: Moment,
    confounder: &[u8; 16],
) -> Result<Vec<u8>, AllocError>
    requires askable { IsAskable asked.now }
    requires presentable { definitions.IsPresentable credential.now }
    // Promise (written, spelled), as as_request: a request is written ..
    ensures written { IfSome (definitions.session credential.now) (λ session. IfOk result (λ v.
        v.items ≡ written (message Tgs)
        (asks_tgs asked.now credential.now.client session at subkey confounder.now))) }
    ensures spelled { IfSome (definitions.session credential.now) (λ session. IfOk result (λ v.
        SpellsKdcReq (Tgs, asks_tgs asked.now credential.now.client session at subkey confounder.now) v.items)) }
    // The session key decrypts the authenticator in it to the one of this client and moment.
    // Promise: the session key decrypts the authenticator of a TGS-REQ and of an AP-REQ to the one of this client and
    // moment.
    ensures opens { IfSome (definitions.session credential.now) (λ session. IfOk result (λ v.
        decrypted parts.authenticator session.key (usage_number TgsReqAuthenticator)
        (tgs_presents credential.now.client session at subkey confounder.now (body_of None asked.now)).authenticator
        ≡ Some (tgs_authenticator credential.now.client session at subkey (body_of None asked.now)))) }
{
    let body = asked.body(alloc, None)?;
    let entry = tgs_data(alloc, credential, subkey, at, confounder, &body)?;
    tgs_req(alloc, entry, body)
}

/// Returns the bytes of a TGS-REQ with this PA-TGS-REQ.
fn tgs_req(alloc: Global, entry: PaData, body: ReqBody) -> Result<Vec<u8>, AllocError>
    requires entry { length entry.padata_value ≤ 34000006 }
    requires body { req_body.most body ≤ 20000 }
    ensures written { IfOk result (λ v. v.items ≡ written (message Tgs) (request_of Tgs (Some (entry ∷ [])) body)) }
    ensures spelled { IfOk result (λ v. SpellsKdcReq (Tgs, request_of Tgs (Some (entry ∷ [])) body) v.items) }
{
    let padata = one_entry(alloc, entry)?;
    request(alloc, Exchange::Tgs, Some(padata), body)
}

/// Returns the PA-TGS-REQ: the AP-REQ, whose authenticator has a checksum of the body.
fn tgs_data(
    alloc: Global,
    credential: &Credential,
    subkey: Option<Key>,
    at: Moment,
    confounder: &[u8; 16],
    body: &ReqBody,
) -> Result<PaData, AllocError>
    requires presentable { definitions.IsPresentable credential.now }
    requires body { req_body.most body.now ≤ 20000 }
    ensures value { IfSome (definitions.session credential.now) (λ session. IfOk result (λ made.
        made ≡ tgs_data credential.now.client session at subkey confounder.now body.now)) }
    ensures opens { IfSome (definitions.session credential.now) (λ session. IfOk result (λ made.
        decrypted parts.authenticator session.key (usage_number TgsReqAuthenticator)
        (tgs_presents credential.now.client session at subkey confounder.now body.now).authenticator
        ≡ Some (tgs_authenticator credential.now.client session at subkey body.now))) }
    ensures short { IfOk result (λ made. length made.padata_value ≤ 34000006) }
{
    let session = session_of(alloc, credential)?;
    let authenticator = tgs_authenticator(alloc, &credential.client, &session, at, subkey, body)?;
    let options = Flags::from_bits(0);
    let usage = KeyUsage::TgsReqAuthenticator;
    let octets = present(alloc, session, options, usage, confounder, &authenticator)?;
    Ok(PaData {
        padata_type: PA_TGS_REQ,
        padata_value: Octets::new(octets),
    })
}

fn tgs_authenticator(
    alloc: Global,
    client: &Principal,
    session: &Session,
    at: Moment,
    subkey: Option<Key>,
    body: &ReqBody,
) -> Result<Authenticator, AllocError>
    requires realm { IsComponent client.now.realm }
    requires name { IsWithinLimits client.now.name.components }
    requires body { req_body.most body.now ≤ 20000 }
    ensures value { IfOk result (λ made. made ≡ tgs_authenticator client.now session.now at subkey body.now) }
    ensures short { IfOk result (λ made. length (parts.authenticator.text made) ≤ 16800000) }
{
    let cksum = body_checksum(alloc, &session.key, body)?;
    authenticator(alloc, client, at, Some(cksum), subkey, None)
}

/// Returns the checksum of the body's bytes.
fn body_checksum(alloc: Global, key: &Key, body: &ReqBody) -> Result<Typed, AllocError>
    requires { req_body.most body.now ≤ 20000 }
    ensures value { IfOk result (λ cksum. cksum ≡ body_checksum key.now body.now) }
    ensures short { IfOk result (λ cksum. length cksum.octets ≤ 24) }
{
    let octets = write(alloc, body)?;
    let mac = checksum(key, KeyUsage::TgsReqAuthenticatorChecksum, &octets);
    Ok(Typed {
        number: key.etype().checksum_type(),
        octets: Octets::from_slice(alloc, mac.bytes())?,
    })
}

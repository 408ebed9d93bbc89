//! AP-REQ (RFC 4120, sections 3.2.2 and 5.5.1).
ghost use Rattle.std.specs.Prelude.{◌≡◌, ◌≤◌, ◌<◌, length, IfOk, IfSome, Some};
ghost use Rattle.enctypes.specs.KeyUsage.{usage_number};
ghost use Rattle.enctypes.specs.declared.key_usage.KeyUsage.TheVariants.{ApReqAuthenticator};
ghost use Rattle.krb_types.specs.ApReq.{ap_req};
ghost use Rattle.krb_elements.specs.Codec.{written};
ghost use Rattle.krb_fields.specs.NameLimits.{IsComponent, IsWithinLimits};
ghost use Rattle.krb_types.specs.Authenticator as parts;
ghost use Rattle.krb_types.specs.Ticket.{ticket};
ghost use Rattle.encrypted_data.specs.Encrypted.{decrypted};
ghost use Rattle.client_core.specs.Presenting.{IsShortChecksum};
ghost use Rattle.client_core.specs.ServiceRequests.{ap_authenticator, ap_options, asks_ap};
ghost use Rattle.client_core.specs.Sessions as definitions;

use crate::presenting::{authenticator, present};
use crate::service_asked::ServiceAsked;
use crate::sessions::{Session, session_of};
use cred_files::{Credential, Principal};
use enctypes::KeyUsage;
use krb_fields::{ApOption, Flags, Moment, Typed};
use krb_types::Authenticator;
use std::alloc::{AllocError, Global};

/// Returns the bytes of an AP-REQ that presents the credential's ticket. `confounder` is 16 random bytes.
pub fn ap_request(
    alloc: Global,
    credential: &Credential,
    at: Moment,
    asked: &ServiceAsked,
    confounder: &[u8; 16],
) -> Result<Vec<u8>, AllocError>
    requires presentable { definitions.IsPresentable credential.now }
    requires checksum { IsShortChecksum asked.now.checksum }
    // Promise (written, spelled), as as_request: a request is written ..
    ensures written { IfSome (definitions.session credential.now) (λ session. IfOk result (λ v.
        v.items ≡ written ap_req (asks_ap credential.now.client session at asked.now confounder.now))) }
    ensures spelled { IfSome (definitions.session credential.now) (λ session. IfOk result (λ v.
        ap_req.Spells (asks_ap credential.now.client session at asked.now confounder.now) v.items)) }
    // The session key decrypts its authenticator to the one of this client and moment.
    // Promise, as tgs_request: the session key decrypts ..
    ensures opens { IfSome (definitions.session credential.now) (λ session. IfOk result (λ v.
        decrypted parts.authenticator session.key (usage_number ApReqAuthenticator)
        (asks_ap credential.now.client session at asked.now confounder.now).authenticator
        ≡ Some (ap_authenticator credential.now.client at asked.now))) }
{
    let session = session_of(alloc, credential)?;
    ap_req(alloc, &credential.client, session, at, asked, confounder)
}

fn ap_req(
    alloc: Global,
    client: &Principal,
    session: Session,
    at: Moment,
    asked: &ServiceAsked,
    confounder: &[u8; 16],
) -> Result<Vec<u8>, AllocError>
    requires realm { IsComponent client.now.realm }
    requires name { IsWithinLimits client.now.name.components }
    requires ticket { length (ticket.text session.ticket) < 16777216 }
    requires checksum { IsShortChecksum asked.now.checksum }
    ensures written { IfOk result (λ v.
        v.items ≡ written ap_req (asks_ap client.now session at asked.now confounder.now)) }
    ensures spelled { IfOk result (λ v.
        ap_req.Spells (asks_ap client.now session at asked.now confounder.now) v.items) }
    ensures opens { IfOk result (λ v.
        decrypted parts.authenticator session.key (usage_number ApReqAuthenticator)
        (asks_ap client.now session at asked.now confounder.now).authenticator
        ≡ Some (ap_authenticator client.now at asked.now)) }
{
    let authenticator = ap_authenticator(alloc, client, at, asked)?;
    let options = options(asked.mutual_required);
    let usage = KeyUsage::ApReqAuthenticator;
    present(alloc, session, options, usage, confounder, &authenticator)
}

/// Returns the authenticator for the service.
fn ap_authenticator(
    alloc: Global,
    client: &Principal,
    at: Moment,
    asked: &ServiceAsked,
) -> Result<Authenticator, AllocError>
    requires realm { IsComponent client.now.realm }
    requires name { IsWithinLimits client.now.name.components }
    requires checksum { IsShortChecksum asked.now.checksum }
    ensures value { IfOk result (λ made. made ≡ ap_authenticator client.now at asked.now) }
    ensures short { IfOk result (λ made. length (parts.authenticator.text made) ≤ 16800000) }
{
    let cksum = copied(alloc, &asked.checksum)?;
    authenticator(alloc, client, at, cksum, asked.subkey, asked.seq_number)
}

fn options(required: bool) -> Flags
    ensures { result ≡ ap_options required }
{
    let none = Flags::from_bits(0);
    if required {
        none.with(ApOption::MutualRequired)
    } else {
        none
    }
}

fn copied(alloc: Global, checksum: &Option<Typed>) -> Result<Option<Typed>, AllocError>
    ensures { IfOk result (λ copy. copy ≡ checksum.now) }
{
    match checksum {
        Some(checksum) => Ok(Some(Typed {
            number: checksum.number,
            octets: checksum.octets.copy(alloc)?,
        })),
        None => Ok(None),
    }
}

//! A ticket that is presented to its service, and the service's reply (RFC 4120, sections 3.2.2 and 3.2.5).
ghost use Rattle.std.specs.Prelude.{◌≡◌, IfOk, IfSome};
ghost use Rattle.krb_types.specs.ApReq.{ap_req};
ghost use Rattle.client_core.specs.Faults.{Gives};
ghost use Rattle.client_core.specs.ServiceReplies.{reads_ap};
ghost use Rattle.client_core.specs.ServiceRequests.{asks_ap};
ghost use Rattle.client_core.specs.Sessions.{IsPresentable, session, session_key};
ghost use Rattle.client_sockets.specs.Presenting.{asked_of_service};
ghost use Rattle.krb_elements.specs.Codec.{written};

use client_core::{ReplyError, ServiceAsked, ap_request, read_ap_reply};
use cred_files::Credential;
use enctypes::Key;
use krb_fields::Moment;
use krb_types::EncApRepPart;
use std::alloc::{AllocError, Global};

/// An AP-REQ that a client made, and what it needs to judge the service's reply.
#[derive(Drop)]
pub struct Presented {
    /// The bytes of the AP-REQ, which asks for a reply. They may be sent once: a service takes an authenticator once.
    pub ap_req: Vec<u8>,
    /// The session key of the ticket.
    pub key: Key,
    /// The moment in its authenticator.
    pub at: Moment,
}

impl Presented {
    /// Returns the encrypted part of the service's reply, an AP-REP, or the first rule that the reply breaks. The
    /// sender of an accepted reply knows the session key, which only the service can get from the ticket.
    pub fn judge(&self, alloc: Global, reply: &[u8]) -> Result<EncApRepPart, ReplyError>
        // Promise: a service's reply to a ticket that was presented is taken exactly if its part opens with the
        // ticket's session key to the moment of that AP-REQ.
        ensures { Gives result (reads_ap self.now.key self.now.at reply.now) }
    {
        read_ap_reply(alloc, &self.key, self.at, reply)
    }
}

/// Returns the AP-REQ for a credential's ticket under its session key.
pub(crate) fn make_presented(
    alloc: Global,
    credential: &Credential,
    key: Key,
    at: Moment,
    confounder: &[u8; 16],
) -> Result<Presented, AllocError>
    requires presentable { IsPresentable credential.now }
    ensures written { IfSome (session credential.now) (λ held. IfOk result (λ made.
        made.ap_req.items ≡ written ap_req (asks_ap credential.now.client held at asked_of_service confounder.now))) }
    ensures judged { IfOk result (λ made. (made.key ≡ key) × (made.at ≡ at)) }
{
    let asked = ServiceAsked {
        mutual_required: true,
        checksum: None,
        subkey: None,
        seq_number: None,
    };
    Ok(Presented {
        ap_req: ap_request(alloc, credential, at, &asked, confounder)?,
        key,
        at,
    })
}

//! What an AP-REQ says in clear: the service that its ticket is for, and which of that service's keys encrypts it (RFC
//! 4120, sections 5.2.9 and 5.3).
ghost use Rattle.std.specs.Prelude.{◌≡◌, Some, IfOk, IfErr, option_map};
ghost use Rattle.ap_accept.specs.Accepts.{request_of};
ghost use Rattle.ap_accept.specs.Label.{label_of, IsUnlabeled};

use crate::fault::ApFault;
use cred_files::Principal;
use krb_elements::{KerberosString, UInt32};
use krb_types::read_ap_req;
use std::alloc::Global;

/// The part of an AP-REQ's ticket that is not encrypted. Anyone may have written it: it helps to find out why a ticket
/// was refused, and proves nothing.
#[derive(Drop)]
pub struct TicketLabel {
    /// The service that the ticket is for.
    pub service: Principal,
    /// The number of the encryption type of the service's key.
    pub etype: i32,
    /// The version of that key, if the ticket names one.
    pub kvno: Option<UInt32>,
}

impl TicketLabel {
    /// Reads the label of the ticket from the bytes of an AP-REQ. Fails with `NotAnApReq` or `Memory`.
    pub fn read(alloc: Global, ap_req: &[u8]) -> Result<TicketLabel, ApFault>
        // Promise (label, fault): a label has what the AP-REQ says about its ticket in clear; the bytes are refused
        // only if they are no AP-REQ, or memory ran out.
        ensures label { IfOk result (λ label. option_map label_of (request_of ap_req.now) ≡ Some label) }
        ensures fault { IfErr result (λ fault. IsUnlabeled fault (request_of ap_req.now)) }
    {
        let Ok(request) = read_ap_req(ap_req) else {
            return Err(ApFault::NotAnApReq);
        };
        let ticket = &request.ticket;
        Ok(TicketLabel {
            service: Principal {
                realm: KerberosString::from_slice(alloc, ticket.realm.as_slice())?,
                name: ticket.sname.to_name(alloc)?,
            },
            etype: ticket.enc_part.etype,
            kvno: ticket.enc_part.kvno,
        })
    }
}

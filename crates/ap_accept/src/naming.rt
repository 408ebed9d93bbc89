//! Accepts AP-REQs for one of the services of a keytab alone (RFC 4120, section 3.2.3).
ghost use Rattle.std.specs.Prelude.{◌≡◌};
ghost use Rattle.ap_accept.specs.Accepts.{request_of, IsAfter, IsAnswer};
ghost use Rattle.ap_accept.specs.Named.{accepts_for, accepts_keyless, is_for_another};

use crate::accepted::Accepted;
use crate::accepting::accept;
use crate::fault::ApFault;
use crate::state::State;
use cred_files::Keytab;
use krb_fields::{Moment, Name};
use krb_types::read_ap_req;
use std::alloc::Global;
use std::cmp::Ordering;
use std::mem;

/// Accepts or refuses the bytes of an AP-REQ. A ticket for a service of another name is refused.
pub fn accept_for(
    state: &mut State,
    service: &Name,
    alloc: Global,
    at: Moment,
    confounder: &[u8; 16],
    ap_req: &[u8],
) -> Result<Accepted, ApFault>
    ensures answer { IsAnswer result
        (accepts_for service.now.components state.old at confounder.now ap_req.now).answer }
    ensures state { IsAfter result state.old state.new
        (accepts_for service.now.components state.old at confounder.now ap_req.now).state }
{
    if is_for_another(service, ap_req) {
        accept_keyless(state, alloc, at, confounder, ap_req)
    } else {
        accept(state, alloc, at, confounder, ap_req)
    }
}

/// Checks whether the bytes encode an AP-REQ whose ticket is for a service of another name.
fn is_for_another(service: &Name, ap_req: &[u8]) -> bool
    ensures { result ≡ is_for_another service.now.components (request_of ap_req.now) }
{
    match read_ap_req(ap_req) {
        Ok(request) => request.ticket.sname.order(service) != Ordering::Equal,
        Err(_) => false,
    }
}

/// Refuses the bytes of an AP-REQ as an acceptor without keys does.
fn accept_keyless(
    state: &mut State,
    alloc: Global,
    at: Moment,
    confounder: &[u8; 16],
    ap_req: &[u8],
) -> Result<Accepted, ApFault>
    ensures answer { IsAnswer result (accepts_keyless state.old at confounder.now ap_req.now).answer }
    ensures state { IsAfter result state.old state.new
        (accepts_keyless state.old at confounder.now ap_req.now).state }
{
    let Ok(none) = Keytab::new(alloc, &[]) else {
        return Err(ApFault::Memory);
    };
    let keytab = mem::replace(&mut state.keytab, none);
    let result = accept(state, alloc, at, confounder, ap_req);
    state.keytab = keytab;
    result
}

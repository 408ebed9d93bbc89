//! Sends a request that proves at the client's moment who the client is (RFC 4120, sections 3.1.1 and 3.3.1).
ghost use Rattle.std.specs.Prelude.{◌≡◌, List, ℕ, IfErr, IfOk};
ghost use Rattle.client_login.specs.Draws.{HasDrawn, after_confounder, drawn_confounder};
ghost use Rattle.client_login.specs.Faults.{IsUnheard};
ghost use Rattle.client_login.specs.Moments.{IsMoved, IsNext};
ghost use Rattle.client_login.specs.Places.{AreWithin};
ghost use Rattle.client_login.specs.Replies.{IsExchanged, IsReply};
ghost use Rattle.client_login.specs.Sending.{CarriesProof, IsWritable, Spells};

use crate::asking::{Reply, ask};
use crate::client::KdcClient;
use crate::draws::draw_confounder;
use crate::faults::TicketError;
use crate::network::Network;
use client_core::{Asked, tgs_request, with_timestamp};
use cred_files::Credential;
use enctypes::Key;
use krb_fields::{Code, Moment};
use rand_core::Rng;
use std::alloc::{AllocError, Global};

/// A request that proves who the client is.
#[derive(Clone, Copy)]
pub(crate) enum ProvingRequest<'a> {
    /// An AS-REQ with a timestamp under a key of the client.
    Stamped {
        asked: &'a Asked,
        key: &'a Key,
    },
    /// A TGS-REQ that presents a ticket.
    Presented {
        asked: &'a Asked,
        granting: &'a Credential,
    },
}

/// Returns the reply to a request. A KDC that has seen another request of the client with the same moment gets another
/// one, with the next moment.
#[tactic(auto, using(crate::proofs::Steps::proving))]
pub(crate) fn send<X: Network, R: Rng>(
    client: &mut KdcClient<X>,
    rng: &mut R,
    request: &ProvingRequest<'_>,
) -> Result<Reply, TicketError>
    requires writable { IsWritable request.now }
    requires carried { CarriesProof X.carries (Spells request.now) client.old.at (R.stream rng.old) }
    ensures ok { IfOk result (λ reply. IsReply
        (IsExchanged X.finds client.old.kdcs.places.items X.carries X.answers) reply) }
    ensures err { IfErr result (λ fault. IsUnheard
        (IsExchanged X.finds client.old.kdcs.places.items X.carries X.answers) fault.why fault.kdc) }
    ensures moved { IsMoved client.old.at client.new.at }
    ensures within { AreWithin X.finds client.old.kdcs.places.items client.new.kdcs.places.items }
    ensures clock { client.new.is_by_kdc ≡ client.old.is_by_kdc }
    ensures drawn { HasDrawn (R.stream rng.old) (R.stream rng.new) }
{
    let reply = send_once(client, rng, request)?;
    if reply.is_error(Code::KrbApErrRepeat) {
        return send_once(client, rng, request);
    }
    Ok(reply)
}

fn send_once<X: Network, R: Rng>(
    client: &mut KdcClient<X>,
    rng: &mut R,
    request: &ProvingRequest<'_>,
) -> Result<Reply, TicketError>
    requires writable { IsWritable request.now }
    requires carried { (octets : List ℕ)
        → Spells request.now client.old.at (drawn_confounder (R.stream rng.old)) octets → X.carries octets }
    ensures ok { IfOk result (λ reply. IsReply
        (IsExchanged X.finds client.old.kdcs.places.items X.carries X.answers) reply) }
    ensures err { IfErr result (λ fault. IsUnheard
        (IsExchanged X.finds client.old.kdcs.places.items X.carries X.answers) fault.why fault.kdc) }
    ensures next { IsNext client.old.at client.new.at }
    ensures within { AreWithin X.finds client.old.kdcs.places.items client.new.kdcs.places.items }
    ensures clock { client.new.is_by_kdc ≡ client.old.is_by_kdc }
    ensures drawn { R.stream rng.new ≡ after_confounder (R.stream rng.old) }
{
    let at = client.take_moment();
    let confounder = draw_confounder(rng);
    let octets = write_request(client.alloc, request, at, &confounder)?;
    ask(client.alloc, &mut client.kdcs, &octets)
}

/// Returns the bytes of a request.
fn write_request(
    alloc: Global,
    request: &ProvingRequest<'_>,
    at: Moment,
    confounder: &[u8; 16],
) -> Result<Vec<u8>, AllocError>
    requires { IsWritable request.now }
    ensures { IfOk result (λ octets. Spells request.now at confounder.now octets.items) }
{
    match *request {
        ProvingRequest::Stamped { asked, key } => with_timestamp(alloc, asked, key, at, confounder),
        ProvingRequest::Presented { asked, granting } => tgs_request(
            alloc, asked, granting, None, at, confounder,
        ),
    }
}

//! Accepts or refuses the bytes of an AP-REQ, and records new authenticators in the replay caches.
ghost use Rattle.std.specs.Prelude.{◌≡◌, false, None, IfOk, IfNone, IfSome};
ghost use Rattle.std.specs.FinMap as map;
ghost use Rattle.replay.specs.ReplayCache.{verdict_copied};
ghost use Rattle.replay.specs.Stamp.{is_beyond_clock_skew};
ghost use Rattle.ap_accept.specs.Accepts.{accepted_with, accepts, cache_for, recorded_by, stamp_of};
ghost use Rattle.ap_accept.specs.Accepts.{IsAfter, IsAnswer};
ghost use Rattle.ap_accept.specs.Reply.{IsApReply};
ghost use Rattle.ap_accept.specs.Stages.{accepted_if, cache_refusal, refusal_by, unless_seen};

use crate::accepted::Accepted;
use crate::clients::{Clients, empty_cache};
use crate::fault::ApFault;
use crate::presented::{Presented, presented_to};
use crate::receipt::Receipt;
use crate::replies::reply_if;
use crate::state::State;
use crate::validity::ticket_refusal;
use ap_req::{ApRefusal, ticket_terms};
use cred_files::Principal;
use krb_elements::Octets;
use krb_fields::{ApOption, Moment};
use krb_types::{Authenticator, EncTicketPart, read_ap_req};
use replay::Verdict;
use std::alloc::Global;

/// Accepts or refuses the bytes of an AP-REQ, and records a new authenticator in the replay cache.
pub fn accept(
    state: &mut State,
    alloc: Global,
    at: Moment,
    confounder: &[u8; 16],
    ap_req: &[u8],
) -> Result<Accepted, ApFault>
    ensures answer { IsAnswer result (accepts state.old at confounder.now ap_req.now).answer }
    ensures state { IsAfter result state.old state.new (accepts state.old at confounder.now ap_req.now).state }
    ensures reply { IfOk result (λ accepted. IfSome (recorded_by state.old at.sec ap_req.now) (λ p.
        IfSome accepted.ap_rep (λ octets. IsApReply p.session_key confounder.now p.authenticator octets))) }
{
    let Ok(request) = read_ap_req(ap_req) else {
        return Err(ApFault::NotAnApReq);
    };
    let wanted = request.ap_options.has(ApOption::MutualRequired);
    let presented = presented_to(alloc, &state.keytab, &request)?;
    let receipt = Receipt {
        at,
        confounder: *confounder,
        wanted,
    };
    judge(state, alloc, &receipt, presented)
}

/// Accepts or refuses a decrypted ticket and authenticator.
fn judge(
    state: &mut State,
    alloc: Global,
    receipt: &Receipt,
    presented: Presented,
) -> Result<Accepted, ApFault>
    ensures answer { IsAnswer result
        (unless_seen state.old receipt.now.at.sec receipt.now.confounder receipt.now.wanted presented
        (cache_refusal state.old receipt.now.at.sec presented)).answer }
    ensures state { IsAfter result state.old state.new
        (unless_seen state.old receipt.now.at.sec receipt.now.confounder receipt.now.wanted presented
        (cache_refusal state.old receipt.now.at.sec presented)).state }
    ensures reply { IfOk result (λ accepted. IfSome accepted.ap_rep (λ octets.
        IsApReply presented.session_key receipt.now.confounder presented.authenticator octets)) }
{
    match admit(state, alloc, receipt, &presented) {
        Ok(reply) => Ok(accepted_with(reply, presented)),
        Err(fault) => Err(fault),
    }
}

/// Returns the bytes of the AP-REP, if one is asked for, or the reason to refuse the request.
fn admit(
    state: &mut State,
    alloc: Global,
    receipt: &Receipt,
    presented: &Presented,
) -> Result<Option<Octets>, ApFault>
    ensures answer { IsAnswer (accepted_if presented.now result)
        (unless_seen state.old receipt.now.at.sec receipt.now.confounder receipt.now.wanted presented.now
        (cache_refusal state.old receipt.now.at.sec presented.now)).answer }
    ensures state { IsAfter (accepted_if presented.now result) state.old state.new
        (unless_seen state.old receipt.now.at.sec receipt.now.confounder receipt.now.wanted presented.now
        (cache_refusal state.old receipt.now.at.sec presented.now)).state }
    ensures reply { IfOk result (λ reply. IfSome reply (λ octets.
        IsApReply presented.now.session_key receipt.now.confounder presented.now.authenticator octets)) }
{
    if let Some(refusal) = cache_refusal(state, alloc, receipt.at, presented) {
        return Err(ApFault::Refused(refusal));
    }
    match ticket_refusal(&ticket_terms(&presented.ticket), receipt.at) {
        Some(refusal) => {
            state.record_seen(alloc, receipt.at, presented)?;
            Err(ApFault::Refused(refusal))
        }
        None => {
            let reply = reply_if(alloc, receipt, presented)?;
            state.record_seen(alloc, receipt.at, presented)?;
            Ok(reply)
        }
    }
}

/// Returns the reason to refuse the authenticator by the replay cache of its service and client, if there is one.
fn cache_refusal(
    state: &State,
    alloc: Global,
    at: Moment,
    presented: &Presented,
) -> Option<ApRefusal>
    ensures value { result ≡ cache_refusal state.now at.sec presented.now }
    ensures timely { IfNone result
        (is_beyond_clock_skew (cache_for state.now presented.now).floor at.sec presented.now.authenticator.ctime
        ≡ false) }
    ensures new { IfNone result (map.get (cache_for state.now presented.now).pairs (stamp_of presented.now) ≡ None) }
{
    let opened = Clients::opened(alloc, state.floor);
    let clients = state.clients(&presented.service, &opened);
    let empty = empty_cache(alloc, clients.floor);
    let cache = clients.cache(&presented.ticket.cname, &empty);
    let ctime = presented.authenticator.ctime.seconds();
    let cusec = presented.authenticator.cusec.get();
    refusal_by(cache.check(at, ctime, cusec, state.options.remembered))
}

fn refusal_by(verdict: Verdict<&()>) -> Option<ApRefusal>
    ensures { result ≡ refusal_by (verdict_copied verdict.entry) }
{
    match verdict {
        Verdict::Fresh => None,
        Verdict::Skew => Some(ApRefusal::Skewed),
        Verdict::Repeat(_) => Some(ApRefusal::Repeated),
        Verdict::Full => Some(ApRefusal::Full),
    }
}

/// Returns the result for an accepted request, with the bytes of the AP-REP if it was asked for.
fn accepted_with(ap_rep: Option<Octets>, presented: Presented) -> Accepted
    ensures { result ≡ accepted_with ap_rep presented }
{
    let terms = ticket_terms(&presented.ticket);
    let Presented {
        sname,
        ticket,
        session_key,
        authenticator,
        subkey,
        ..
    } = presented;
    let EncTicketPart {
        crealm,
        cname,
        authorization_data: ticket_authorization,
        ..
    } = ticket;
    let Authenticator {
        seq_number,
        cksum,
        authorization_data: authorization,
        ..
    } = authenticator;
    Accepted {
        service: sname,
        client: Principal {
            realm: crealm,
            name: cname,
        },
        session_key,
        ticket: terms,
        ticket_authorization,
        subkey,
        seq_number,
        cksum,
        authorization,
        ap_rep,
    }
}

//! The TGS exchange of a KDC.
ghost use Rattle.std.specs.Prelude.{◌≡◌, Some, IfOk, IfSome, option_copied};
ghost use Rattle.tgs_exchange.specs.Known.{IsKnown};
ghost use Rattle.replay.specs.Tidied.{empty_cache};
ghost use Rattle.kdc_state.specs.State.{cache_of};
ghost use Rattle.kdc_core.specs.Audit.{contents_audit, OutcomeSpelled};
ghost use Rattle.kdc_core.specs.After.{after, marked_seen, authenticator_mark, MayStay};
ghost use Rattle.kdc_core.specs.Answer.{contents_answer, keep, ContentsOpen, ContentsSpelled};
ghost use Rattle.kdc_core.specs.Contents.{IsShortData, IsShortName};
ghost use Rattle.kdc_core.specs.NewlySeen.{contents_seen, seen_if_kept};
ghost use Rattle.kdc_core.specs.View.{components_of, presented_view, row_of, tgs_view};
ghost use Rattle.kdc_core.specs.Held.Contents.{TgsReq};

use crate::answering::Answered;
use crate::audit::{AuditRecord, lent_name};
use crate::mark::Mark;
use kdc_replies::Incoming;
use kdc_state::State;
use krb_fields::{Moment, Name};
use krb_types::KdcReqRef;
use principal_rows::Row;
use replay::{Kept, ReplayCache};
use std::alloc::{AllocError, Global};
use tgs_exchange::{TgsAnswer, TgsView, tgs_answer};
use tgs_opening::Presented;

/// Returns the reply to a TGS-REQ that presents this decrypted ticket and authenticator, and names the service with
/// this row.
pub fn tgs_reply<'q>(
    state: &State,
    alloc: Global,
    incoming: &Incoming<'_>,
    message: &KdcReqRef<'q>,
    service: Option<&Row>,
    presented: Presented,
) -> Result<Answered<'q>, AllocError>
    requires sname { IsShortName message.now }
    requires service { option_copied service ≡ row_of state.now (components_of message.now.body.value.sname) }
    requires authorization { IsShortData presented }
    ensures reply { IfOk result (λ reply.
        Some reply.octets.items ≡ (contents_answer (presented_view state.now message.now presented) incoming.now
        (TgsReq message.now presented)).reply) }
    ensures after { IfOk result (λ reply.
        after state.now reply.mark
        ≡ keep state.now (Some presented.ticket.cname.components)
        (contents_answer (presented_view state.now message.now presented) incoming.now
        (TgsReq message.now presented)).kept) }
    ensures audit { IfOk result (λ reply.
        reply.audit ≡ contents_audit (presented_view state.now message.now presented) incoming.now
        (TgsReq message.now presented)) }
    ensures newly_seen { IfOk result (λ reply.
        marked_seen reply.mark
        ≡ contents_seen (presented_view state.now message.now presented) incoming.now (TgsReq message.now presented)) }
    ensures outcome_spelled { IfOk result (λ reply.
        OutcomeSpelled (presented_view state.now message.now presented) incoming.now (TgsReq message.now presented)
        reply.octets.items) }
    ensures spelled { IfOk result (λ reply.
        ContentsSpelled (presented_view state.now message.now presented) incoming.now.at incoming.now.random
        (TgsReq message.now presented) reply.octets.items) }
    ensures same { IfOk result (λ reply.
        ContentsOpen (presented_view state.now message.now presented) incoming.now.at incoming.now.random
        (TgsReq message.now presented)) }
    ensures stays { IfOk result (λ reply. IfSome reply.mark (MayStay state.now)) }
{
    let unstored = ReplayCache::empty(alloc, state.floor);
    let view = tgs_view(state, message, service, &presented, &unstored);
    let TgsAnswer {
        reply,
        outcome,
        kept,
    } = tgs_answer(alloc, &view, incoming, &message.body.value, &presented)?;
    let mark = authenticator_mark(alloc, incoming.at, &presented, kept)?;
    Ok(Answered {
        octets: reply,
        mark,
        audit: AuditRecord::Tgs {
            client: Some(client_of(presented)),
            service: lent_name(message.body.value.sname.as_ref()),
            outcome,
        },
    })
}

/// Returns the client of the presented ticket.
fn client_of(presented: Presented) -> Name
    ensures { result ≡ presented.ticket.cname }
{
    let ticket = presented.ticket;
    ticket.cname
}

/// Returns the part of the state that a TGS-REQ is answered from. `unstored` is the cache of a client that has none.
fn tgs_view<'s>(
    state: &'s State,
    message: &KdcReqRef<'_>,
    service: Option<&'s Row>,
    presented: &Presented,
    unstored: &'s ReplayCache<Kept>,
) -> TgsView<'s>
    requires unstored { unstored.now ≡ empty_cache state.now.floor }
    requires sname { IsShortName message.now }
    requires service { option_copied service ≡ row_of state.now (components_of message.now.body.value.sname) }
    requires authorization { IsShortData presented.now }
    ensures view { result ≡ tgs_view (presented_view state.now message.now presented.now) }
    ensures known { IsKnown (tgs_view (presented_view state.now message.now presented.now)) message.now.body.value
        presented.now }
{
    TgsView {
        realm: state.database.realm(),
        limits: &state.limits,
        client: state.database.get(&presented.ticket.cname),
        service,
        cache: client_cache(state, &presented.ticket.cname, unstored),
    }
}

/// Returns the replay cache of a client.
fn client_cache<'s>(
    state: &'s State,
    client: &Name,
    unstored: &'s ReplayCache<Kept>,
) -> &'s ReplayCache<Kept>
    requires { unstored.now ≡ empty_cache state.now.floor }
    ensures { result.now ≡ cache_of state.now client.now.components }
{
    match state.caches.get(client) {
        Some(cache) => cache,
        None => unstored,
    }
}

/// Returns the authenticator to record, if any.
fn authenticator_mark(
    alloc: Global,
    at: Moment,
    presented: &Presented,
    kept: Option<Kept>,
) -> Result<Option<Mark>, AllocError>
    ensures mark { IfOk result (λ mark. mark ≡ authenticator_mark at presented.now kept) }
    ensures seen { IfOk result (λ mark. marked_seen mark ≡ seen_if_kept presented.now kept) }
{
    let Some(kept) = kept else {
        return Ok(None);
    };
    Ok(Some(Mark::Stamped {
        client: presented.ticket.cname.copy(alloc)?,
        at,
        ctime: presented.authenticator.ctime.seconds(),
        cusec: presented.authenticator.cusec.get(),
        kept,
    }))
}

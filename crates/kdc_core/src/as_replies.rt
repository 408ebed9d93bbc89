//! The AS exchange of a KDC.
ghost use Rattle.std.specs.Prelude.{◌≡◌, None, Some, IfOk, IfSome, option_copied};
ghost use Rattle.as_exchange.specs.Known.{IsKnown};
ghost use Rattle.krb_types.specs.declared.kdc_req.Exchange.TheVariants.{As};
ghost use Rattle.kdc_core.specs.Audit.{contents_audit, OutcomeSpelled};
ghost use Rattle.kdc_core.specs.After.{after, failures_mark, marked_seen, MayStay};
ghost use Rattle.kdc_core.specs.Answer.{contents_answer, keep, ContentsOpen, ContentsSpelled};
ghost use Rattle.kdc_core.specs.Contents.{IsShortName};
ghost use Rattle.kdc_core.specs.View.{as_view, components_of, cache_named, message_view};
ghost use Rattle.kdc_core.specs.Held.Contents.{AsReq};
ghost use Rattle.kdc_state.specs.declared.state.State as states;

use crate::answering::Answered;
use crate::audit::{AuditRecord, lent_name};
use crate::contents::named_row;
use crate::mark::Mark;
use as_exchange::{AsAnswer, AsView, as_answer};
use kdc_replies::Incoming;
use kdc_state::State;
use krb_fields::NameRef;
use krb_types::KdcReqRef;
use replay::Failures;
use std::alloc::{AllocError, Global};

/// Returns the reply to an AS-REQ.
pub fn as_reply<'q>(
    state: &State,
    alloc: Global,
    incoming: &Incoming<'_>,
    message: &KdcReqRef<'q>,
) -> Result<Answered<'q>, AllocError>
    requires { IsShortName message.now }
    ensures reply { IfOk result (λ reply.
        Some reply.octets.items ≡ (contents_answer (message_view state.now As message.now) incoming.now
        (AsReq message.now)).reply) }
    ensures after { IfOk result (λ reply.
        after state.now reply.mark
        ≡ keep state.now (components_of message.now.body.value.cname)
        (contents_answer (message_view state.now As message.now) incoming.now (AsReq message.now)).kept) }
    ensures audit { IfOk result (λ reply.
        reply.audit ≡ contents_audit (message_view state.now As message.now) incoming.now (AsReq message.now)) }
    // It records no authenticator.
    ensures newly_seen { IfOk result (λ reply. marked_seen reply.mark ≡ None) }
    ensures outcome_spelled { IfOk result (λ reply.
        OutcomeSpelled (message_view state.now As message.now) incoming.now (AsReq message.now) reply.octets.items) }
    ensures spelled { IfOk result (λ reply.
        ContentsSpelled (message_view state.now As message.now) incoming.now.at incoming.now.random
        (AsReq message.now) reply.octets.items) }
    ensures same { IfOk result (λ reply.
        ContentsOpen (message_view state.now As message.now) incoming.now.at incoming.now.random (AsReq message.now)) }
    ensures stays { IfOk result (λ reply. IfSome reply.mark (MayStay state.now)) }
{
    let view = as_view(state, message);
    let body = &message.body.value;
    let AsAnswer {
        reply,
        outcome,
        failures,
    } = as_answer(alloc, &view, incoming, message)?;
    let mark = failures_mark(alloc, body.cname.as_ref(), failures)?;
    Ok(Answered {
        octets: reply,
        mark,
        audit: AuditRecord::As {
            client: lent_name(body.cname.as_ref()),
            service: lent_name(body.sname.as_ref()),
            outcome,
        },
    })
}

/// Returns the part of the state that an AS-REQ is answered from.
fn as_view<'s>(state: &'s State, message: &KdcReqRef<'_>) -> AsView<'s>
    requires { IsShortName message.now }
    ensures view { result ≡ as_view (message_view state.now As message.now) }
    ensures known { IsKnown (as_view (message_view state.now As message.now)) message.now.body.value }
{
    let body = &message.body.value;
    AsView {
        realm: state.database.realm(),
        limits: &state.limits,
        client: named_row(state, body.cname.as_ref()),
        service: named_row(state, body.sname.as_ref()),
        failures: client_failures(state, body.cname.as_ref()),
    }
}

/// Returns the failures of the client that a request names.
fn client_failures(state: &State, name: Option<&NameRef<'_>>) -> Failures
    ensures { result ≡ (cache_named state.now (components_of (option_copied name.entry))).failures }
{
    match name {
        Some(name) => state.failures(name),
        None => Failures::none(),
    }
}

/// Returns the client whose failures change, if it is named and they do.
fn failures_mark(
    alloc: Global,
    name: Option<&NameRef<'_>>,
    failures: Option<Failures>,
) -> Result<Option<Mark>, AllocError>
    ensures value { IfOk result (λ mark. mark ≡ failures_mark (option_copied name.entry) failures) }
    ensures none_seen { IfOk result (λ mark. marked_seen mark ≡ None) }
    ensures stays { (state : states.State) → IfOk result (λ mark. IfSome mark (MayStay state)) }
{
    let Some(name) = name else {
        return Ok(None);
    };
    let Some(failures) = failures else {
        return Ok(None);
    };
    Ok(Some(Mark::Counted {
        client: name.to_name(alloc)?,
        failures,
    }))
}

//! Decides about an AS-REQ, once, before anything is written.
ghost use Rattle.std.specs.Prelude.{◌≡◌, IfOk};
ghost use Rattle.as_exchange.specs.Decision.{by_admission, decision};

use crate::decision::Decision;
use crate::refusal::AsRefusal;
use crate::rules::{admitted, timestamp_outcome};
use crate::terms::{Admission, find_terms};
use crate::view::AsView;
use kdc_replies::Incoming;
use krb_types::KdcReqRef;
use preauth::Outcome;
use std::alloc::{AllocError, Global};

/// Decides by the rules, in the order of their list.
pub fn decision(
    alloc: Global,
    view: &AsView<'_>,
    incoming: &Incoming<'_>,
    message: &KdcReqRef<'_>,
) -> Result<Decision, AllocError>
    ensures { IfOk result (λ decided. decided ≡ decision view.now incoming.now.at.sec message.now) }
{
    let timestamp = timestamp_outcome(alloc, view.client, incoming, message)?;
    let terms = find_terms(alloc, view, &message.body.value)?;
    let admitted = admitted(view, incoming.at, message, timestamp, terms);
    Ok(by_admission(timestamp, admitted))
}

/// Turns the result of the rules into a decision. A refusal keeps the outcome of the timestamp, because the client's
/// failures may depend on it.
fn by_admission(timestamp: Outcome, admitted: Result<Admission, AsRefusal>) -> Decision
    ensures { result ≡ by_admission timestamp admitted }
{
    match admitted {
        Ok(admission) => Decision::Issues(admission),
        Err(refusal) => Decision::Refuses(refusal, timestamp),
    }
}

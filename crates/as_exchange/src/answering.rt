//! Answers an AS-REQ: the reply, the outcome, and the client's failures afterwards.
ghost use Rattle.std.specs.Prelude.{◌≡◌, ℕ, List, None, IfOk};
ghost use Rattle.kdc_replies.specs.ErrorReply.{too_big};
ghost use Rattle.krb_types.specs.KrbError.{krb_error};
ghost use Rattle.as_exchange.specs.Answer.{after_timestamp, after_sequel, answer_by, as_answer, as_error, refused};
ghost use Rattle.as_exchange.specs.Answer.{refused_room};
ghost use Rattle.as_exchange.specs.Answer.{Opens, OpensBy, Spelled, SpelledBy};
ghost use Rattle.as_exchange.specs.Decision.{IfIssued};
ghost use Rattle.as_exchange.specs.Known.{IsKnown};
ghost use Rattle.as_exchange.specs.NamedLaws.{IsNamed};
ghost use Rattle.as_exchange.specs.Outcome.{as_outcome, outcome_by, OutcomeSpelled, OutcomeSpelledBy};
ghost use Rattle.as_exchange.specs.declared.decision.Decision.TheVariants.{Issues};
ghost use Rattle.as_exchange.specs.declared.outcome.AsOutcome.TheVariants.{Refused, TooBig};

use crate::deciding::decision;
use crate::decision::Decision;
use crate::errors::as_error;
use crate::issuing::{as_rep, granted_by};
use crate::outcome::AsOutcome;
use crate::refusal::{AsRefusal, Effect};
use crate::rules::is_good;
use crate::terms::Admission;
use crate::view::AsView;
use kdc_replies::{Incoming, too_big};
use krb_fields::Moment;
use krb_types::{KdcReqRef, ReqBodyRef};
use preauth::{Outcome, after_failure, after_success};
use replay::Failures;
use std::alloc::{AllocError, Global};

/// The answer to an AS-REQ.
#[derive(Drop)]
pub struct AsAnswer {
    /// The bytes of the AS-REP or the KRB-ERROR.
    pub reply: Vec<u8>,
    /// The issued ticket, or why there is none.
    pub outcome: AsOutcome,
    /// The client's failed preauthentications afterwards; `None` if they don't change.
    pub failures: Option<Failures>,
}

/// Answers an AS-REQ.
pub fn as_answer(
    alloc: Global,
    view: &AsView<'_>,
    incoming: &Incoming<'_>,
    message: &KdcReqRef<'_>,
) -> Result<AsAnswer, AllocError>
    requires { IsKnown view.now message.now.body.value }
    // Promise (reply, failures): the answer to an AS-REQ is that of the definition, and so are the client's failures
    // for its current key version afterwards.
    ensures reply { IfOk result (λ answer. answer.reply.items ≡ (as_answer view.now incoming.now message.now).reply) }
    ensures failures { IfOk result (λ answer.
        answer.failures ≡ (as_answer view.now incoming.now message.now).failures) }
    // The outcome follows from the decision and from whether the reply fits.
    // Promise (outcome, outcome_spelled): the outcome of an AS-REQ says what was decided, and whether the reply fits;
    // the bytes spell what the outcome says.
    ensures outcome { IfOk result (λ answer. answer.outcome ≡ as_outcome view.now incoming.now message.now) }
    // The bytes encode the right message: the error of the rule that refuses, or the reply with the ticket.
    // Promise (spelled, same): the answer to an AS-REQ spells the message that the rules prescribe; if that has a
    // ticket, the client and the service decrypt it to the same contents, with the keys that the encrypted parts name.
    ensures spelled { IfOk result (λ answer.
        Spelled view.now incoming.now.at incoming.now.random message.now answer.reply.items) }
    // They encode what the outcome says.
    ensures outcome_spelled { IfOk result (λ answer.
        OutcomeSpelled view.now incoming.now.at incoming.now.random message.now answer.outcome answer.reply.items) }
    // If they encode an AS-REP, the client's key and the service's key decrypt it to the same contents.
    ensures same { IfOk result (λ answer. Opens view.now incoming.now.at incoming.now.random message.now) }
{
    let decision = decision(alloc, view, incoming, message)?;
    answer_by(alloc, view, incoming, &message.body.value, &decision)
}

/// Returns the answer for a decision.
fn answer_by(
    alloc: Global,
    view: &AsView<'_>,
    incoming: &Incoming<'_>,
    body: &ReqBodyRef<'_>,
    decision: &Decision,
) -> Result<AsAnswer, AllocError>
    requires known { IsKnown view.now body.now }
    requires named { IfIssued decision.now (λ admission.
        IsNamed view.now.client view.now.service admission.terms) }
    ensures reply { IfOk result (λ answer.
        answer.reply.items ≡ (answer_by view.now incoming.now body.now decision.now).reply) }
    ensures failures { IfOk result (λ answer.
        answer.failures ≡ (answer_by view.now incoming.now body.now decision.now).failures) }
    ensures outcome { IfOk result (λ answer.
        answer.outcome ≡ outcome_by view.now incoming.now body.now decision.now) }
    ensures spelled { IfOk result (λ answer.
        SpelledBy view.now incoming.now.at incoming.now.random body.now decision.now answer.reply.items) }
    ensures outcome_spelled { IfOk result (λ answer.
        OutcomeSpelledBy view.now incoming.now.at incoming.now.random body.now answer.outcome decision.now
        answer.reply.items) }
    ensures same { IfOk result (λ answer.
        OpensBy view.now incoming.now.at incoming.now.random body.now decision.now) }
{
    match decision {
        Decision::Refuses(refusal, timestamp) => {
            refused(alloc, view, incoming.at, body, *refusal, *timestamp)
        }
        Decision::Issues(admission) => issued(alloc, view, incoming, body, admission),
    }
}

/// Returns the error that refuses a request, and the client's failures afterwards.
fn refused(
    alloc: Global,
    view: &AsView<'_>,
    at: Moment,
    body: &ReqBodyRef<'_>,
    refusal: AsRefusal,
    timestamp: Outcome,
) -> Result<AsAnswer, AllocError>
    requires { IsKnown view.now body.now }
    ensures reply { IfOk result (λ answer.
        answer.reply.items ≡ (refused view.now at body.now refusal timestamp).reply) }
    ensures failures { IfOk result (λ answer.
        answer.failures ≡ (refused view.now at body.now refusal timestamp).failures) }
    ensures outcome { IfOk result (λ answer. answer.outcome ≡ Refused refusal) }
    ensures spelled { IfOk result (λ answer.
        krb_error.Spells (as_error view.now at body.now refusal) answer.reply.items) }
    ensures outcome_spelled { (random : List ℕ) (decided : Decision) → IfOk result (λ answer.
        OutcomeSpelledBy view.now at random body.now answer.outcome decided answer.reply.items) }
{
    Ok(AsAnswer {
        reply: as_error(alloc, view, at, body, refusal)?,
        outcome: AsOutcome::Refused(refusal),
        failures: after_sequel(view.current_failures(), at, timestamp, refusal.effect()),
    })
}

/// Returns the reply with a ticket, or an error if the reply doesn't fit in the room.
fn issued(
    alloc: Global,
    view: &AsView<'_>,
    incoming: &Incoming<'_>,
    body: &ReqBodyRef<'_>,
    admission: &Admission,
) -> Result<AsAnswer, AllocError>
    requires known { IsKnown view.now body.now }
    requires named { IsNamed view.now.client view.now.service admission.now.terms }
    ensures reply { IfOk result (λ answer.
        answer.reply.items ≡ (answer_by view.now incoming.now body.now (Issues admission.now)).reply) }
    ensures failures { IfOk result (λ answer.
        answer.failures ≡ (answer_by view.now incoming.now body.now (Issues admission.now)).failures) }
    ensures outcome { IfOk result (λ answer.
        answer.outcome ≡ outcome_by view.now incoming.now body.now (Issues admission.now)) }
    ensures spelled { IfOk result (λ answer.
        SpelledBy view.now incoming.now.at incoming.now.random body.now (Issues admission.now) answer.reply.items) }
    ensures outcome_spelled { IfOk result (λ answer.
        OutcomeSpelledBy view.now incoming.now.at incoming.now.random body.now answer.outcome (Issues admission.now)
        answer.reply.items) }
    ensures same { IfOk result (λ answer.
        OpensBy view.now incoming.now.at incoming.now.random body.now (Issues admission.now)) }
{
    let reply = as_rep(alloc, view, incoming, body, admission)?;
    if reply.len() > incoming.room as usize {
        return refused_room(alloc, view, incoming.at, body);
    }
    Ok(AsAnswer {
        reply,
        outcome: AsOutcome::Issued(granted_by(incoming.at, body, admission)),
        failures: after_timestamp(view.current_failures(), admission.timestamp),
    })
}

/// Returns the error that is sent instead of a reply that doesn't fit.
fn refused_room(
    alloc: Global,
    view: &AsView<'_>,
    at: Moment,
    body: &ReqBodyRef<'_>,
) -> Result<AsAnswer, AllocError>
    requires { IsKnown view.now body.now }
    ensures reply { IfOk result (λ answer. answer.reply.items ≡ (refused_room view.now at body.now).reply) }
    ensures failures { IfOk result (λ answer. answer.failures ≡ None) }
    ensures outcome { IfOk result (λ answer. answer.outcome ≡ TooBig) }
    ensures spelled { IfOk result (λ answer.
        krb_error.Spells (too_big view.now.realm at body.now) answer.reply.items) }
    ensures outcome_spelled { (random : List ℕ) (decided : Decision) → IfOk result (λ answer.
        OutcomeSpelledBy view.now at random body.now answer.outcome decided answer.reply.items) }
{
    Ok(AsAnswer {
        reply: too_big(alloc, view.realm, at, body)?,
        outcome: AsOutcome::TooBig,
        failures: None,
    })
}

/// Returns the failures after a refusal.
fn after_sequel(
    failures: Failures,
    at: Moment,
    timestamp: Outcome,
    effect: Effect,
) -> Option<Failures>
    ensures { result ≡ after_sequel failures at timestamp effect }
{
    match effect {
        Effect::CountsFailure => Some(after_failure(failures, at)),
        Effect::FollowsTimestamp => after_timestamp(failures, timestamp),
        Effect::Nothing | Effect::SendsMethods => None,
    }
}

/// Returns the failures after an admission: a good timestamp ends the count.
fn after_timestamp(failures: Failures, timestamp: Outcome) -> Option<Failures>
    ensures { result ≡ after_timestamp failures timestamp }
{
    if is_good(timestamp) {
        Some(after_success(failures))
    } else {
        None
    }
}

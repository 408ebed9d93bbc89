//! Answers a TGS-REQ, given what it presents: its reply, its outcome, and what is stored.
ghost use Rattle.std.specs.Prelude.{◌≡◌, ◌⊎◌, ◌<◌, ◌≤◌, ℕ, List, false, None, Some, length, IfOk, IfSome};
ghost use Rattle.std.specs.FinMap as map;
ghost use Rattle.kdc_replies.specs.ErrorReply.{too_big};
ghost use Rattle.krb_elements.specs.Codec.{written};
ghost use Rattle.krb_fields.specs.PrincipalName.{name};
ghost use Rattle.krb_types.specs.KrbError.{krb_error};
ghost use Rattle.replay.specs.Stamp.{is_beyond_clock_skew};
ghost use Rattle.replay.specs.declared.keep.Bears.TheVariants.{Error};
ghost use Rattle.tgs_exchange.specs.Answer.{answer_by, is_ticket, kept_of, kept_reply, recording};
ghost use Rattle.tgs_exchange.specs.Answer.{repeated, refused};
ghost use Rattle.tgs_exchange.specs.Answer.{refused_room, tgs_answer, tgs_error};
ghost use Rattle.tgs_exchange.specs.Answer.{Opens, OpensBy, RepeatSpelled, Spelled, SpelledBy};
ghost use Rattle.tgs_exchange.specs.Decision.{decision_copied, stamp_of, IfIssued};
ghost use Rattle.tgs_exchange.specs.Known.{IsKnown};
ghost use Rattle.tgs_exchange.specs.NamedLaws.{IsNamed};
ghost use Rattle.tgs_exchange.specs.Outcome.{outcome_by, repeated_outcome, resent_within, tgs_outcome, OutcomeSpelled};
ghost use Rattle.tgs_exchange.specs.Outcome.{OutcomeSpelledBy};
ghost use Rattle.tgs_exchange.specs.declared.decision.Decision.TheVariants as decisions;
ghost use Rattle.tgs_exchange.specs.declared.outcome.TgsOutcome.TheVariants as outcomes;

use crate::deciding::decision;
use crate::decision::Decision;
use crate::errors::tgs_error;
use crate::issuing::{granted_by, tgs_rep};
use crate::outcome::TgsOutcome;
use crate::terms::Admission;
use crate::view::TgsView;
use ap_req::ApRefusal;
use kdc_replies::{Incoming, too_big};
use krb_elements::Octets;
use krb_fields::Moment;
use krb_types::ReqBodyRef;
use replay::{Bears, Kept};
use std::alloc::{AllocError, Global};
use tgs_opening::{Presented, TgsRefusal};

/// The answer to a TGS-REQ.
#[derive(Drop)]
pub struct TgsAnswer {
    /// The bytes of the TGS-REP or the KRB-ERROR.
    pub reply: Vec<u8>,
    /// The issued ticket, or why there is none; if a stored reply was sent again, what that bears.
    pub outcome: TgsOutcome,
    /// What to store for the authenticator; `None` if it is not to be recorded.
    pub kept: Option<Kept>,
}

/// Answers a TGS-REQ that presents this decrypted ticket and authenticator.
pub fn tgs_answer(
    alloc: Global,
    view: &TgsView<'_>,
    incoming: &Incoming<'_>,
    body: &ReqBodyRef<'_>,
    presented: &Presented,
) -> Result<TgsAnswer, AllocError>
    requires { IsKnown view.now body.now presented.now }
    // Promise (reply, kept): the answer to a TGS-REQ whose ticket and authenticator were decrypted is that of the
    // definition, and so is what is stored of request and reply.
    ensures reply { IfOk result (λ answer.
        answer.reply.items ≡ (tgs_answer view.now incoming.now body.now presented.now).reply) }
    ensures kept { IfOk result (λ answer.
        answer.kept ≡ (tgs_answer view.now incoming.now body.now presented.now).kept) }
    // The outcome follows from the decision, and from whether the reply fits the room.
    // Promise (outcome, outcome_spelled): the outcome of a TGS-REQ says what was decided; the bytes spell what the
    // outcome says.
    ensures outcome { IfOk result (λ answer.
        answer.outcome ≡ tgs_outcome view.now incoming.now body.now presented.now) }
    // The bytes encode the message that the rules prescribe, or are the stored reply.
    // Promise: the bytes of the answer to a TGS-REQ spell the message that the rules prescribe, or are those of the
    // stored reply.
    ensures spelled { IfOk result (λ answer.
        Spelled view.now incoming.now.at incoming.now.random body.now presented.now answer.reply.items) }
    // They are what the outcome says.
    ensures outcome_spelled { IfOk result (λ answer.
        OutcomeSpelled view.now incoming.now.at incoming.now.random body.now presented.now answer.outcome
        answer.reply.items) }
    // If a ticket is issued, the reply key and the service's key decrypt it to the same contents.
    // Promise: if a ticket is issued now, the reply key and the service's key, which the ticket names, decrypt it to
    // the same contents.
    ensures same { IfOk result (λ answer. Opens view.now incoming.now.at incoming.now.random body.now presented.now) }
    // An authenticator to record is within the clock skew and no repeat.
    // Promise (timely, new): an authenticator that is to be stored is within the clock skew and no repeat.
    ensures timely { IfOk result (λ answer.
        IfSome answer.kept (λ kept. is_beyond_clock_skew view.now.cache.floor incoming.now.at.sec
        presented.now.authenticator.ctime ≡ false)) }
    ensures new { IfOk result (λ answer.
        IfSome answer.kept (λ kept. map.get view.now.cache.pairs (stamp_of presented.now) ≡ None)) }
{
    let decision = decision(alloc, view, incoming.at, body, presented)?;
    answer_by(alloc, view, incoming, body, presented, &decision)
}

/// Returns the answer for a decision.
fn answer_by(
    alloc: Global,
    view: &TgsView<'_>,
    incoming: &Incoming<'_>,
    body: &ReqBodyRef<'_>,
    presented: &Presented,
    decision: &Decision<&Kept>,
) -> Result<TgsAnswer, AllocError>
    requires known { IsKnown view.now body.now presented.now }
    requires named { IfIssued decision.now (λ admission. IsNamed presented.now view.now.service admission.terms) }
    ensures reply { IfOk result (λ answer.
        answer.reply.items ≡ (answer_by view.now incoming.now body.now presented.now
        (decision_copied decision.now)).reply) }
    ensures kept { IfOk result (λ answer.
        answer.kept ≡ (answer_by view.now incoming.now body.now presented.now (decision_copied decision.now)).kept) }
    ensures outcome { IfOk result (λ answer.
        answer.outcome
        ≡ outcome_by view.now incoming.now body.now presented.now (decision_copied decision.now)) }
    ensures spelled { IfOk result (λ answer.
        SpelledBy view.now incoming.now.at incoming.now.random body.now presented.now
        (decision_copied decision.now) answer.reply.items) }
    ensures outcome_spelled { IfOk result (λ answer.
        OutcomeSpelledBy view.now incoming.now.at incoming.now.random body.now presented.now answer.outcome
        (decision_copied decision.now) answer.reply.items) }
    ensures same { IfOk result (λ answer.
        OpensBy view.now incoming.now.at incoming.now.random body.now presented.now (decision_copied decision.now)) }
{
    match decision {
        Decision::Refuses(refusal) => refused(alloc, view, incoming.at, body, *refusal),
        Decision::Records(refusal) => records(alloc, view, incoming, body, *refusal),
        Decision::Repeats(kept) => repeated(alloc, view, incoming, body, kept),
        Decision::Issues(admission) => issued(alloc, view, incoming, body, presented, admission),
    }
}

/// Returns an error that records nothing.
fn refused(
    alloc: Global,
    view: &TgsView<'_>,
    at: Moment,
    body: &ReqBodyRef<'_>,
    refusal: TgsRefusal,
) -> Result<TgsAnswer, AllocError>
    requires realm { length view.now.realm ≤ 255 }
    requires sname { IfSome body.now.sname (λ n. length (name.text n) < 2147483648) }
    ensures reply { IfOk result (λ answer. answer.reply.items ≡ (refused view.now at body.now refusal).reply) }
    ensures kept { IfOk result (λ answer. answer.kept ≡ None) }
    ensures outcome { IfOk result (λ answer. answer.outcome ≡ outcomes.Refused refusal) }
    ensures spelled { IfOk result (λ answer.
        krb_error.Spells (tgs_error view.now.realm at body.now refusal) answer.reply.items) }
    ensures outcome_spelled { (random : List ℕ) (p : Presented) (decided : Decision Kept) → IfOk result (λ answer.
        OutcomeSpelledBy view.now at random body.now p answer.outcome decided answer.reply.items) }
{
    Ok(TgsAnswer {
        reply: tgs_error(alloc, view.realm, at, body, refusal)?,
        outcome: TgsOutcome::Refused(refusal),
        kept: None,
    })
}

/// Returns an error that is recorded.
fn records(
    alloc: Global,
    view: &TgsView<'_>,
    incoming: &Incoming<'_>,
    body: &ReqBodyRef<'_>,
    refusal: TgsRefusal,
) -> Result<TgsAnswer, AllocError>
    requires realm { length view.now.realm ≤ 255 }
    requires sname { IfSome body.now.sname (λ n. length (name.text n) < 2147483648) }
    ensures reply { IfOk result (λ answer.
        answer.reply.items ≡ written krb_error (tgs_error view.now.realm incoming.now.at body.now refusal)) }
    ensures kept { IfOk result (λ answer.
        answer.kept
        ≡ (recording view.now incoming.now.octets Error
        (written krb_error (tgs_error view.now.realm incoming.now.at body.now refusal))).kept) }
    ensures outcome { IfOk result (λ answer. answer.outcome ≡ outcomes.Refused refusal) }
    ensures spelled { IfOk result (λ answer.
        krb_error.Spells (tgs_error view.now.realm incoming.now.at body.now refusal) answer.reply.items) }
    ensures outcome_spelled { (random : List ℕ) (p : Presented) (decided : Decision Kept) → IfOk result (λ answer.
        OutcomeSpelledBy view.now incoming.now.at random body.now p answer.outcome decided answer.reply.items) }
{
    let reply = tgs_error(alloc, view.realm, incoming.at, body, refusal)?;
    let kept = make_kept(alloc, view, incoming.octets, Bears::Error, &reply)?;
    Ok(TgsAnswer {
        reply,
        outcome: TgsOutcome::Refused(refusal),
        kept: Some(kept),
    })
}

/// Returns the answer to a repeated authenticator: the same request gets the stored reply.
fn repeated(
    alloc: Global,
    view: &TgsView<'_>,
    incoming: &Incoming<'_>,
    body: &ReqBodyRef<'_>,
    kept: &Kept,
) -> Result<TgsAnswer, AllocError>
    requires realm { length view.now.realm ≤ 255 }
    requires sname { IfSome body.now.sname (λ n. length (name.text n) < 2147483648) }
    ensures reply { IfOk result (λ answer.
        answer.reply.items ≡ (repeated view.now incoming.now body.now kept.now).reply) }
    ensures kept { IfOk result (λ answer. answer.kept ≡ None) }
    ensures outcome { IfOk result (λ answer. answer.outcome ≡ repeated_outcome incoming.now kept.now) }
    ensures spelled { IfOk result (λ answer.
        RepeatSpelled view.now incoming.now.at body.now kept.now answer.reply.items) }
    ensures outcome_spelled { (random : List ℕ) (p : Presented) → IfOk result (λ answer.
        OutcomeSpelledBy view.now incoming.now.at random body.now p answer.outcome (decisions.Repeats kept.now)
        answer.reply.items) }
{
    if incoming.octets != kept.request.as_slice() {
        let repeated = TgsRefusal::Ap(ApRefusal::Repeated);
        return refused(alloc, view, incoming.at, body, repeated);
    }
    resent(alloc, view, incoming, body, kept)
}

/// Returns the stored reply, or an error in its place if it has a ticket and is longer than the room.
fn resent(
    alloc: Global,
    view: &TgsView<'_>,
    incoming: &Incoming<'_>,
    body: &ReqBodyRef<'_>,
    kept: &Kept,
) -> Result<TgsAnswer, AllocError>
    requires realm { length view.now.realm ≤ 255 }
    requires sname { IfSome body.now.sname (λ n. length (name.text n) < 2147483648) }
    ensures reply { IfOk result (λ answer.
        answer.reply.items ≡ (kept_reply view.now incoming.now body.now kept.now).reply) }
    ensures kept { IfOk result (λ answer. answer.kept ≡ None) }
    ensures outcome { IfOk result (λ answer. answer.outcome ≡ resent_within incoming.now kept.now) }
    ensures spelled { IfOk result (λ answer.
        (answer.reply.items ≡ kept.now.reply)
        ⊎ krb_error.Spells (too_big view.now.realm incoming.now.at body.now) answer.reply.items) }
    ensures outcome_spelled { (random : List ℕ) (p : Presented) → IfOk result (λ answer.
        OutcomeSpelledBy view.now incoming.now.at random body.now p answer.outcome (decisions.Repeats kept.now)
        answer.reply.items) }
{
    let octets = kept.reply.as_slice();
    if is_ticket(kept.bears) && octets.len() > incoming.room as usize {
        return refused_room(alloc, view, incoming.at, body);
    }
    Ok(TgsAnswer {
        reply: Vec::from_slice(alloc, octets)?,
        outcome: TgsOutcome::Resent(kept.bears),
        kept: None,
    })
}

fn is_ticket(bears: Bears) -> bool
    ensures { result ≡ is_ticket bears }
{
    matches!(bears, Bears::Ticket)
}

/// Returns the error in place of a reply that is longer than the room.
fn refused_room(
    alloc: Global,
    view: &TgsView<'_>,
    at: Moment,
    body: &ReqBodyRef<'_>,
) -> Result<TgsAnswer, AllocError>
    requires realm { length view.now.realm ≤ 255 }
    requires sname { IfSome body.now.sname (λ n. length (name.text n) < 2147483648) }
    ensures reply { IfOk result (λ answer. answer.reply.items ≡ (refused_room view.now at body.now).reply) }
    ensures kept { IfOk result (λ answer. answer.kept ≡ None) }
    ensures outcome { IfOk result (λ answer. answer.outcome ≡ outcomes.TooBig) }
    ensures spelled { IfOk result (λ answer.
        krb_error.Spells (too_big view.now.realm at body.now) answer.reply.items) }
    ensures outcome_spelled { (random : List ℕ) (p : Presented) (decided : Decision Kept) → IfOk result (λ answer.
        OutcomeSpelledBy view.now at random body.now p answer.outcome decided answer.reply.items) }
{
    Ok(TgsAnswer {
        reply: too_big(alloc, view.realm, at, body)?,
        outcome: TgsOutcome::TooBig,
        kept: None,
    })
}

/// Returns the reply with a ticket, which is recorded, or an error in its place if it is longer than the room.
fn issued(
    alloc: Global,
    view: &TgsView<'_>,
    incoming: &Incoming<'_>,
    body: &ReqBodyRef<'_>,
    presented: &Presented,
    admission: &Admission,
) -> Result<TgsAnswer, AllocError>
    requires known { IsKnown view.now body.now presented.now }
    requires named { IsNamed presented.now view.now.service admission.now.terms }
    ensures reply { IfOk result (λ answer.
        answer.reply.items
        ≡ (answer_by view.now incoming.now body.now presented.now (decisions.Issues admission.now)).reply) }
    ensures kept { IfOk result (λ answer.
        answer.kept
        ≡ (answer_by view.now incoming.now body.now presented.now (decisions.Issues admission.now)).kept) }
    ensures outcome { IfOk result (λ answer.
        answer.outcome
        ≡ outcome_by view.now incoming.now body.now presented.now (decisions.Issues admission.now)) }
    ensures spelled { IfOk result (λ answer.
        SpelledBy view.now incoming.now.at incoming.now.random body.now presented.now
        (decisions.Issues admission.now) answer.reply.items) }
    ensures outcome_spelled { IfOk result (λ answer.
        OutcomeSpelledBy view.now incoming.now.at incoming.now.random body.now presented.now answer.outcome
        (decisions.Issues admission.now) answer.reply.items) }
    ensures same { IfOk result (λ answer.
        OpensBy view.now incoming.now.at incoming.now.random body.now presented.now
        (decisions.Issues admission.now)) }
{
    let reply = tgs_rep(alloc, view, incoming, body, presented, admission)?;
    if reply.len() > incoming.room as usize {
        return refused_room(alloc, view, incoming.at, body);
    }
    let kept = make_kept(alloc, view, incoming.octets, Bears::Ticket, &reply)?;
    Ok(TgsAnswer {
        reply,
        outcome: TgsOutcome::Issued(granted_by(body, presented, admission)),
        kept: Some(kept),
    })
}

/// Returns what is stored of a request and its reply: nothing, if the request is longer than the limits say. Its
/// authenticator is then refused if it comes again.
fn make_kept(
    alloc: Global,
    view: &TgsView<'_>,
    request: &[u8],
    bears: Bears,
    reply: &[u8],
) -> Result<Kept, AllocError>
    ensures { IfOk result (λ kept. kept ≡ kept_of view.now.limits.kept request.now bears reply.now) }
{
    if request.len() > view.limits.kept as usize {
        return Ok(Kept::nothing(alloc));
    }
    Ok(Kept {
        request: Octets::from_slice(alloc, request)?,
        reply: Octets::from_slice(alloc, reply)?,
        bears,
    })
}

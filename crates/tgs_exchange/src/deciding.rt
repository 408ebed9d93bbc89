//! Decides on a TGS-REQ whose ticket and authenticator were decrypted: once, before anything is written.
ghost use Rattle.std.specs.Prelude.{◌≡◌, IfOk};
ghost use Rattle.rule_lists.specs.Refusals.{first_holding};
ghost use Rattle.replay.specs.ReplayCache.{verdict_copied};
ghost use Rattle.tgs_exchange.specs.Decision.{by_admission, unless_client_refused, unless_repeated, decision};
ghost use Rattle.tgs_exchange.specs.Decision.{decision_copied};
ghost use Rattle.tgs_exchange.specs.Decision.{verdict_on};
ghost use Rattle.tgs_exchange.specs.Rules.{admitted, client_rules};

use crate::decision::Decision;
use crate::rules::{admitted, client_rules};
use crate::terms::{Admission, find_terms};
use crate::view::TgsView;
use ap_req::ApRefusal;
use krb_fields::Moment;
use krb_types::ReqBodyRef;
use replay::{Kept, Verdict};
use rule_lists::first_holding;
use std::alloc::{AllocError, Global};
use tgs_opening::{Presented, TgsRefusal};

/// Decides in this order: the client's rules, its replay cache, the rules of the ticket and of the request.
pub fn decision<'v>(
    alloc: Global,
    view: &TgsView<'v>,
    at: Moment,
    body: &ReqBodyRef<'_>,
    presented: &Presented,
) -> Result<Decision<&'v Kept>, AllocError>
    ensures { IfOk result (λ decided. decision_copied decided ≡ decision view.now at.sec body.now presented.now) }
{
    let refusal = client_refusal(view, at, presented);
    unless_client_refused(alloc, view, at, body, presented, refusal)
}

/// Returns the first rule of the client that holds.
fn client_refusal(view: &TgsView<'_>, at: Moment, presented: &Presented) -> Option<TgsRefusal>
    ensures { result ≡ first_holding (client_rules view.now at.sec presented.now.ticket.authtime) }
{
    let authtime = presented.ticket.authtime.seconds();
    first_holding(&client_rules(view, at, authtime))
}

/// Decides, given the result of the client's rules.
fn unless_client_refused<'v>(
    alloc: Global,
    view: &TgsView<'v>,
    at: Moment,
    body: &ReqBodyRef<'_>,
    presented: &Presented,
    refusal: Option<TgsRefusal>,
) -> Result<Decision<&'v Kept>, AllocError>
    ensures { IfOk result (λ decided.
        decision_copied decided ≡ unless_client_refused view.now at.sec body.now presented.now refusal) }
{
    match refusal {
        Some(refusal) => Ok(Decision::Refuses(refusal)),
        None => {
            let verdict = verdict_on(view, at, presented);
            unless_repeated(alloc, view, at, body, presented, verdict)
        }
    }
}

/// Returns the replay cache's verdict on the authenticator.
fn verdict_on<'v>(view: &TgsView<'v>, at: Moment, presented: &Presented) -> Verdict<&'v Kept>
    ensures { verdict_copied result ≡ verdict_on view.now at.sec presented.now }
{
    let ctime = presented.authenticator.ctime.seconds();
    let cusec = presented.authenticator.cusec.get();
    view.cache.check(at, ctime, cusec, view.limits.remembered)
}

/// Decides, given the replay cache's verdict.
fn unless_repeated<'v>(
    alloc: Global,
    view: &TgsView<'_>,
    at: Moment,
    body: &ReqBodyRef<'_>,
    presented: &Presented,
    verdict: Verdict<&'v Kept>,
) -> Result<Decision<&'v Kept>, AllocError>
    ensures { IfOk result (λ decided.
        decision_copied decided
        ≡ unless_repeated view.now at.sec body.now presented.now (verdict_copied verdict.entry)) }
{
    match verdict {
        Verdict::Skew => Ok(Decision::Refuses(TgsRefusal::Ap(ApRefusal::Skewed))),
        Verdict::Repeat(kept) => Ok(Decision::Repeats(kept)),
        Verdict::Full => Ok(Decision::Refuses(TgsRefusal::Ap(ApRefusal::Full))),
        Verdict::Fresh => issue_or_record(alloc, view, at, body, presented),
    }
}

/// Decides on a request whose authenticator is new, by the rules of the ticket and of the request.
fn issue_or_record<'v>(
    alloc: Global,
    view: &TgsView<'_>,
    at: Moment,
    body: &ReqBodyRef<'_>,
    presented: &Presented,
) -> Result<Decision<&'v Kept>, AllocError>
    ensures { IfOk result (λ decided.
        decision_copied decided ≡ by_admission (admitted view.now at.sec body.now presented.now)) }
{
    let terms = find_terms(alloc, view, body)?;
    Ok(by_admission(admitted(view, at, body, presented, terms)))
}

/// Decides, given the admission.
fn by_admission<'v>(admission: Result<Admission, TgsRefusal>) -> Decision<&'v Kept>
    ensures { decision_copied result ≡ by_admission admission }
{
    match admission {
        Ok(admission) => Decision::Issues(admission),
        Err(refusal) => Decision::Records(refusal),
    }
}

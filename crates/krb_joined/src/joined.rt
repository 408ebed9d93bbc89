//! A ticket's whole path.
ghost use Rattle.std.specs.Prelude.{◌≡◌, ℕ, List, Some, IfErr, IfOk, IfSome};
ghost use Rattle.client_core.specs.Presenting.{IsShortChecksum};
ghost use Rattle.kdc_replies.specs.Issue.{Issue, IsIssued};
ghost use Rattle.krb_joined.specs.Joined.{IsEnded, IsJoined, IsNextStateOn, IsPresented, IsRuled, IsServed};
ghost use Rattle.krb_joined.specs.Joined.{MayBeAccepted};
ghost use Rattle.krb_joined.specs.Joined.{key_of, ruled, taken_of};
ghost use Rattle.krb_joined.specs.Obtaining.{issue_for, reply_to, state_after};
ghost use Rattle.krb_joined.specs.Reading.{IsReader, reads_reply};

use crate::client::Client;
use crate::obtaining::{Issuing, obtain};
use crate::path_end::PathEnd;
use crate::presenting::{Sealing, present};
use ap_accept::{Accepted, Acceptor};
use kdc_core::Kdc;
use std::alloc::Global;

/// When a KDC and a service answer, and their random bytes.
#[derive(Clone, Copy)]
pub struct Answering {
    /// When the KDC answers, with what random bytes.
    pub issuing: Issuing,
    /// When the service answers, with what random bytes.
    pub accepting: Sealing,
}

/// Sends a request to a KDC, reads the reply, presents the ticket to a service, and reads the AP-REP if one was asked
/// for.
///
/// The service accepts what the KDC granted and what the client sent. If the KDC issues a ticket and the client reads
/// the reply with its reply key, neither the service nor the client refuses anything later. This requires that the
/// service's keytab holds the key that encrypted the ticket, that the ticket is valid at the service by its INVALID
/// flag and its times, and that the authenticator's time is new.
pub fn end_to_end(
    alloc: Global,
    kdc: &mut Kdc,
    acceptor: &mut Acceptor,
    answering: &Answering,
    request: &[u8],
    client: &Client,
) -> Result<Accepted, PathEnd>
    requires { IsShortChecksum client.now.wanted.checksum }
    // Promise (value, repeated): from any request through all five calls, a ticket that was issued, now or with a
    // stored reply, and that the client took is accepted by such a service, if its conditions hold and memory doesn't
    // run out.
    ensures value { IfSome (issue_for kdc.old answering.now.issuing request.now) (λ issue.
        IsReader client.now.reader issue
        → MayBeAccepted issue acceptor.old answering.now.accepting.at.sec client.now.presenting.at
        → IsJoined issue client.now.wanted client.now.presenting.at result) }
    // The same holds if the KDC sends a kept reply again, for the ticket that it issued then.
    ensures repeated { (issue : Issue) (octets : List ℕ)
        → reply_to kdc.old answering.now.issuing request.now ≡ Some octets
        → IsIssued issue octets → IsReader client.now.reader issue
        → MayBeAccepted issue acceptor.old answering.now.accepting.at.sec client.now.presenting.at
        → IsJoined issue client.now.wanted client.now.presenting.at result }
    // For every reply that the client accepts, either its ticket can't be presented, or the client also reads the
    // AP-REP before anything counts as accepted.
    // Promise (presented, ended): if the path ends before the service is asked, the KDC gave no reply (then it issued
    // nothing), or the client's rules refuse the reply, or the credential in it can't be presented.
    ensures presented { IfSome (reply_to kdc.old answering.now.issuing request.now) (λ octets.
        IfOk (reads_reply client.now.reader client.now.asked octets) (λ credential.
        IsPresented credential client.now.presenting.at result)) }
    // The path ends before the service is asked if the KDC sends no reply, if the client rejects the reply, or if the
    // credential can't be presented.
    ensures ended { IfErr result (IsEnded (reply_to kdc.old answering.now.issuing request.now)
        client.now.asked client.now.reader) }
    // Whatever the KDC issued, the service's answer and new state are those that its rules prescribe for the AP-REQ
    // that the client makes from the reply.
    // Promise (ruled, served): whatever was issued, the service's result and its state are what its rules say about the
    // credential that the client takes.
    ensures ruled { IsRuled
        (key_of (taken_of (reply_to kdc.old answering.now.issuing request.now) client.now.asked client.now.reader))
        client.now.presenting.at
        (ruled acceptor.old client.now.wanted client.now.presenting answering.now.accepting
        (taken_of (reply_to kdc.old answering.now.issuing request.now) client.now.asked client.now.reader)) result }
    ensures served { IsServed acceptor.old acceptor.new
        (ruled acceptor.old client.now.wanted client.now.presenting answering.now.accepting
        (taken_of (reply_to kdc.old answering.now.issuing request.now) client.now.asked client.now.reader)) result }
    // The KDC's state is the one after this request, or the old one if the KDC ran out of memory.
    // Promise, as obtain: the KDC's state afterwards ..
    ensures kept { IsNextStateOn kdc.old kdc.new (state_after kdc.old answering.now.issuing request.now) result }
{
    match obtain(alloc, kdc, &answering.issuing, request, client) {
        Ok(credential) => present(alloc, &credential, client, acceptor, &answering.accepting),
        Err(end) => Err(end),
    }
}

//! From a request to the credential in its reply.
ghost use Rattle.std.specs.Prelude.{◌≡◌, ◌≤◌, ℕ, List, length, Some, IfOk, IfErr, IfSome, OnOk, OnErr, option_map};
ghost use Rattle.kdc_core.specs.Answer.{after_request, answer, OneTicketTwoKeys};
ghost use Rattle.kdc_core.specs.Request.{request_of};
ghost use Rattle.kdc_core.specs.View.{view};
ghost use Rattle.kdc_replies.specs.Issue.{Issue, IsIssued};
ghost use Rattle.krb_joined.specs.Credential.{IsCredentialOf};
ghost use Rattle.krb_der.specs.Spelling.{IsBytes};
ghost use Rattle.krb_joined.specs.Joined.{IsBefore, IsEnded, IsNextState, IsRead};
ghost use Rattle.krb_joined.specs.Obtaining.{issue_for, reply_to, state_after};
ghost use Rattle.krb_joined.specs.Reading.{IsReader};

use crate::client::Client;
use crate::path_end::PathEnd;
use crate::reading::read_reply;
use cred_files::Credential;
use kdc_core::Kdc;
use krb_fields::Moment;
use std::alloc::{AllocError, Global};

/// What a KDC's answer depends on, besides its state and the request.
#[derive(Clone, Copy)]
pub struct Issuing {
    /// When the request comes in.
    pub at: Moment,
    /// The random bytes for its answer: 32 for the session key, and 16 each for the confounders of ticket and reply.
    pub random: [u8; 64],
    /// The maximum length of a reply with a ticket, in bytes.
    pub room: u32,
}

/// Sends a request to a KDC and reads the reply.
pub fn obtain(
    alloc: Global,
    kdc: &mut Kdc,
    issuing: &Issuing,
    request: &[u8],
    client: &Client,
) -> Result<Credential, PathEnd>
    // If the KDC issues a ticket and the client reads the reply with its key, it gets the credential of that ticket.
    // Promise (obtained, repeated): if the KDC issues a ticket, and the client reads the reply with the reply key, it
    // gets the credential of that ticket; if a stored reply is sent again, it gets that of the ticket that was issued
    // then.
    ensures obtained { IfOk result (λ credential.
        IfSome (issue_for kdc.old issuing.now request.now) (λ issue.
        IsReader client.now.reader issue → IsCredentialOf issue credential)) }
    // The same holds for a kept reply, with the ticket that was issued then.
    ensures repeated { (issue : Issue) (octets : List ℕ)
        → reply_to kdc.old issuing.now request.now ≡ Some octets
        → IsIssued issue octets → IsReader client.now.reader issue → IfOk result (IsCredentialOf issue) }
    // Promise (read, before, ended): a reply that the client doesn't take is refused by its rules, and no service was
    // asked before.
    ensures read { IfOk result
        (IsRead (reply_to kdc.old issuing.now request.now) client.now.asked client.now.reader) }
    // Otherwise it fails before a service is asked: there is no reply, or the client rejects it.
    ensures before { IfErr result IsBefore }
    ensures ended { IfErr result
        (IsEnded (reply_to kdc.old issuing.now request.now) client.now.asked client.now.reader) }
    // The KDC's state is the one after this request, or the old one if the KDC ran out of memory.
    // Promise: the KDC's state afterwards is the one that its rules prescribe for this request, or the old one if it
    // ran out of memory; if `end_to_end` ends with `Memory`, it is one of the two.
    ensures kept { IsNextState kdc.old kdc.new (state_after kdc.old issuing.now request.now) result }
{
    let reply = replied(alloc, kdc, issuing, request)?;
    let Some(octets) = reply else {
        return Err(PathEnd::NoReply);
    };
    look(&issuing.random, &octets);
    match read_reply(alloc, &client.asked, &client.reader, &octets) {
        Ok(credential) => Ok(credential),
        Err(fault) => Err(PathEnd::NotTaken(fault)),
    }
}

/// Returns the KDC's reply.
fn replied(
    alloc: Global,
    kdc: &mut Kdc,
    issuing: &Issuing,
    request: &[u8],
) -> Result<Option<Vec<u8>>, AllocError>
    ensures reply { IfOk result (λ reply.
        option_map (λ octets. octets.items) reply
        ≡ (answer (view kdc.old request.now) issuing.now.at issuing.now.random issuing.now.room request.now).reply) }
    ensures keys { IfOk result (λ reply.
        OneTicketTwoKeys (view kdc.old request.now) issuing.now.at issuing.now.random (request_of request.now)
        (option_map (λ octets. octets.items) reply)) }
    ensures state { OnOk result (kdc.new
        ≡ after_request kdc.old issuing.now.at issuing.now.random issuing.now.room request.now) }
    ensures err { OnErr result (kdc.new ≡ kdc.old) }
{
    kdc.handle(alloc, issuing.at, &issuing.random, issuing.room, request)
}

/// Makes known to the proof that the random bytes are enough for a session key, and that a reply consists of bytes. It
/// does nothing.
fn look(random: &[u8; 64], octets: &[u8])
    ensures random { 32 ≤ length random.now }
    ensures octets { IsBytes octets.now }
{}

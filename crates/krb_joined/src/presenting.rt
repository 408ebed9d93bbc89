//! From a client's credential to a service that accepts the client.
ghost use Rattle.std.specs.Prelude.{IfErr, IfSome, Some};
ghost use Rattle.client_core.specs.Presenting.{IsShortChecksum};
ghost use Rattle.enctypes.specs.Key.{IsKey};
ghost use Rattle.kdc_replies.specs.Issue.{Issue};
ghost use Rattle.krb_joined.specs.Credential.{IsCredentialOf};
ghost use Rattle.client_core.specs.Sessions as definitions;
ghost use Rattle.krb_joined.specs.Joined.{IsHeard, IsJoined, IsLater, IsPresented, IsRuled, IsServed, MayBeAccepted};
ghost use Rattle.krb_joined.specs.Joined.{ruled};

use crate::client::Client;
use crate::path_end::PathEnd;
use ap_accept::{Accepted, Acceptor};
use client_core::{ap_request, is_presentable, read_ap_reply, session_key};
use cred_files::Credential;
use enctypes::Key;
use krb_fields::Moment;
use std::alloc::Global;

/// What a client needs to encrypt its authenticator, or a service its AP-REP.
#[derive(Clone, Copy)]
pub struct Sealing {
    /// The time on the client's clock, which its authenticator has; or when the AP-REQ comes to the service.
    pub at: Moment,
    /// 16 random bytes, which are encrypted ahead of the plaintext.
    pub confounder: [u8; 16],
}

/// Presents a credential to a service, and reads the AP-REP if one was asked for.
pub fn present(
    alloc: Global,
    credential: &Credential,
    client: &Client,
    acceptor: &mut Acceptor,
    accepting: &Sealing,
) -> Result<Accepted, PathEnd>
    requires { IsShortChecksum client.now.wanted.checksum }
    // A service accepts the credential of an issued ticket.
    // Promise: the credential of an issued ticket is accepted, if it is valid then, by a service that has the key that
    // encrypted the ticket, in the keytab entry that the acceptor picks.
    // Promise: it is valid then if the INVALID flag is clear, the start is at most 300 seconds after that moment and
    // the end at most 300 seconds before it, and the authenticator's time is fresh.
    // Promise: the service learns the client, the session key, the flags and the times that were granted, and the
    // subkey, the sequence number and the checksum that were sent.
    // Promise: the service answers with an AP-REP exactly if it was asked to, and the client accepts it.
    ensures value { (issue : Issue) → IsCredentialOf issue credential.now
        → MayBeAccepted issue acceptor.old accepting.now.at.sec client.now.presenting.at
        → IsJoined issue client.now.wanted client.now.presenting.at result }
    // Promise (presented, ruled): for any credential from any issuer: what is accepted, or which rule refuses it, is
    // what the service's rules say about the AP-REQ that the client makes from it, with this moment and this
    // confounder.
    ensures presented { IsPresented credential.now client.now.presenting.at result }
    // For any credential, the service's answer and new state are those that its rules prescribe for the client's
    // AP-REQ.
    // Promise (ruled, served): the AP-REP, with the service's own confounder, and the service's state afterwards are
    // what these rules say, too.
    ensures ruled { IsRuled (definitions.session_key credential.now) client.now.presenting.at
        (ruled acceptor.old client.now.wanted client.now.presenting accepting.now (Some credential.now)) result }
    ensures served { IsServed acceptor.old acceptor.new
        (ruled acceptor.old client.now.wanted client.now.presenting accepting.now (Some credential.now)) result }
    // Promise: the client accepts the AP-REP before anything counts as accepted; if it rejects the AP-REP, the path
    // ends there, and no end at the KDC is returned.
    ensures later { IfErr result IsLater }
{
    look(client.wanted.subkey);
    if !is_presentable(credential) {
        return Err(PathEnd::NotPresentable);
    }
    let key = session_key(credential).unwrap();
    let octets = ap_request(
        alloc,
        credential,
        client.presenting.at,
        &client.wanted,
        &client.presenting.confounder,
    )?;
    match acceptor.accept(alloc, accepting.at, &accepting.confounder, &octets) {
        Ok(accepted) => check_ap_rep(alloc, &key, client.presenting.at, accepted),
        Err(fault) => Err(PathEnd::NotAccepted(fault)),
    }
}

/// Makes known to the proof that the size of a key, if there is one, is right for its encryption type. It does nothing.
fn look(key: Option<Key>)
    ensures { IfSome key IsKey }
{
    if let Some(key) = key {
        let _etype = key.etype();
    }
}

/// Returns what was accepted, after the client has read the AP-REP that the service may have sent.
fn check_ap_rep(
    alloc: Global,
    key: &Key,
    sent: Moment,
    accepted: Accepted,
) -> Result<Accepted, PathEnd>
    ensures { IsHeard key.now sent accepted result }
{
    if let Some(octets) = &accepted.ap_rep {
        if let Err(fault) = read_ap_reply(alloc, key, sent, octets.as_slice()) {
            return Err(PathEnd::NotAnswered(fault));
        }
    }
    Ok(accepted)
}

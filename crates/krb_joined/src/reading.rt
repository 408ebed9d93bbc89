//! How a client reads the reply to its request.
ghost use Rattle.std.specs.Prelude.{IfOk};
ghost use Rattle.client_core.specs.Faults.{Gives};
ghost use Rattle.kdc_replies.specs.Issue.{Issue, IsIssued};
ghost use Rattle.krb_joined.specs.Credential.{IsCredentialOf};
ghost use Rattle.krb_joined.specs.Reading.{IsReader, IsTakenBy, reads_reply};

use client_core::{Asked, KeyRole, ReplyError, read_as_reply, read_tgs_reply};
use cred_files::Credential;
use enctypes::Key;
use krb_fields::Moment;
use std::alloc::Global;

/// The way in which a client reads a reply. The client's own key is for an AS-REP, the others for a TGS-REP.
#[derive(Clone, Copy)]
pub struct Reader {
    /// What the key is: the client's own, the request's subkey, or the session key of the presented ticket.
    pub role: KeyRole,
    /// The key that decrypts the encrypted part of the reply.
    pub key: Key,
    /// When the client reads the reply.
    pub at: Moment,
}

/// Returns the credential in a reply, or the first error.
pub fn read_reply(
    alloc: Global,
    asked: &Asked,
    reader: &Reader,
    octets: &[u8],
) -> Result<Credential, ReplyError>
    ensures value { Gives result (reads_reply reader.now asked.now octets.now) }
    ensures taken { IfOk result (IsTakenBy reader.now asked.now octets.now) }
    // From a reply with an issued ticket, a client with the right key gets that ticket's credential, whenever the KDC
    // issued it.
    ensures credential { (issue : Issue) → IsIssued issue octets.now → IsReader reader.now issue
        → IfOk result (IsCredentialOf issue) }
{
    read_by_role(alloc, asked, reader, octets)
}

/// Reads the reply by the key's role. It is a function apart from `read_reply` only for the sake of the proof.
fn read_by_role(
    alloc: Global,
    asked: &Asked,
    reader: &Reader,
    octets: &[u8],
) -> Result<Credential, ReplyError>
    ensures value { Gives result (reads_reply reader.now asked.now octets.now) }
    ensures taken { IfOk result (IsTakenBy reader.now asked.now octets.now) }
{
    match reader.role {
        KeyRole::Client => read_as_reply(alloc, asked, &reader.key, reader.at, octets),
        KeyRole::Subkey => read_tgs_reply(alloc, asked, &reader.key, true, reader.at, octets),
        KeyRole::Session => read_tgs_reply(alloc, asked, &reader.key, false, reader.at, octets),
    }
}

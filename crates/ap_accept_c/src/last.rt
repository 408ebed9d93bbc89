//! The result of the last AP-REQ.
ghost use Rattle.std.specs.Prelude.{◌≡◌, None, Some, IfOk, option_map};
ghost use Rattle.ap_accept_c.specs.Last.{check_of, error_in, nothing, word_in};
ghost use Rattle.ap_accept_c.specs.Protection.{IsSharedKeyOf};

use crate::raw_key::RawKey;
use crate::status::Status;
use ap_accept::{Accepted, ApRefusal, TicketLabel};
use krb_fields::Moment;
use std::alloc::{AllocError, Global};

/// A refusal and its moment.
#[derive(Clone, Copy)]
pub struct Refusal {
    /// The rule that refuses.
    pub rule: ApRefusal,
    /// When the AP-REQ came in.
    pub at: Moment,
}

/// The result of the last AP-REQ. All is `None` before the first one, and after bytes that encode none.
#[derive(Drop)]
pub struct Last {
    /// What was accepted, if anything was.
    pub accepted: Option<Accepted>,
    /// What the AP-REQ says about its ticket in clear.
    pub label: Option<TicketLabel>,
    /// Why it was refused, if it was.
    pub refusal: Option<Refusal>,
}

impl Last {
    /// Returns what there is before the first AP-REQ.
    pub fn nothing() -> Last
        ensures { result ≡ nothing }
    {
        Last {
            accepted: None,
            label: None,
            refusal: None,
        }
    }

    /// Returns the name of the rule that refused it, or no text.
    pub fn word(&self) -> &'static str
        ensures { result.now ≡ word_in self.now.refusal }
    {
        match self.refusal {
            Some(refusal) => refusal.rule.word(),
            None => "",
        }
    }

    /// Returns the bytes of the KRB-ERROR for the refusal, if there is one and it can name the ticket's service.
    pub fn error(&self, alloc: Global) -> Result<Option<Vec<u8>>, AllocError>
        ensures { IfOk result (λ found. option_map (λ octets. octets.items) found
            ≡ error_in self.now.label self.now.refusal) }
    {
        match (&self.label, self.refusal) {
            (Some(label), Some(refusal)) => label.error(alloc, refusal.at, refusal.rule),
            _ => Ok(None),
        }
    }

    /// Checks the authenticator's checksum over these bytes.
    pub fn check(&self, octets: &[u8]) -> Status
        ensures { result ≡ check_of self.now.accepted octets.now }
    {
        match &self.accepted {
            Some(accepted) => Status::of_checksum(accepted.judge_checksum(octets)),
            None => Status::Absent,
        }
    }
    /// Copies the key that the service shares with the client of what was accepted.
    pub fn give_key(&self, key: &mut RawKey) -> Status
        ensures { IsSharedKeyOf result self.now.accepted key.old key.new }
    {
        let Some(accepted) = &self.accepted else {
            return Status::Absent;
        };
        *key = RawKey::of(accepted.shared_key());
        Status::Done
    }
}

//! Why a reply is rejected.
ghost use Rattle.std.specs.Prelude.{◌≡◌};
ghost use Rattle.client_core.specs.Faults.{IsGiven, fault_of, unless_rejected};
ghost use Rattle.client_core.specs.declared.fault.ReplyError.TheVariants.{Memory};

use krb_elements::Octets;
use rule_lists::Attempt;
use std::alloc::{AllocError, AllocFailed};
use std::error::Error;
use std::fmt;

/// What a client finds wrong with a reply, or with a KDC's information about its key.
#[derive(Debug, Drop)]
pub enum ReplyError {
    /// The bytes encode neither the reply nor a KRB-ERROR.
    NotAReply,
    /// The bytes encode a KRB-ERROR.
    Refused(Refusal),
    /// The reply answers another request.
    Mismatch(Mismatch),
    /// The encrypted part has another encryption type than the key, or the key doesn't decrypt it to the part of such a
    /// reply. Or the session key or an address in it has a type for which a credential has no room. For a password: no
    /// entry has one of the four types.
    CannotOpen,
    /// The parameters of string-to-key are not four bytes, or their count is 0 or above [`crate::MAX_COUNT`].
    CountTooLarge,
    /// Memory ran out.
    Memory,
}

/// The contents of a KRB-ERROR.
#[derive(Debug, Drop)]
pub struct Refusal {
    /// The error code, and the server's time.
    pub error: ServerError,
    /// The e-data, such as the METHOD-DATA of KDC_ERR_PREAUTH_REQUIRED, if any.
    pub e_data: Option<Octets>,
}

/// The error that a server reports, and the time on its clock.
#[derive(Clone, Copy, Debug, PartialEq, Eq)]
pub struct ServerError {
    /// The error code (RFC 4120, section 7.5.9).
    pub code: i32,
    /// The server's time, in seconds since 1970. A KRB-ERROR is not protected: anyone on the path may have changed it.
    pub stime: i64,
}

/// The difference between a reply and the request.
#[derive(Clone, Copy, Debug, PartialEq, Eq)]
pub enum Mismatch {
    /// The client's realm or name.
    Client,
    /// The nonce.
    Nonce,
    /// The service's realm or name, in the encrypted part or in the ticket.
    Service,
    /// The ticket ends later than requested, or starts at another time. For an AP-REP: the moment is not the one that
    /// was sent.
    Times,
}

/// The reason why a KDC's or a service's reply is rejected.
#[derive(Clone, Copy, Debug, PartialEq, Eq)]
pub enum ReplyRefusal {
    /// The reply answers another request.
    Mismatched(Mismatch),
    /// The key does not decrypt the reply.
    Unopened,
}

impl From<ReplyRefusal> for ReplyError {
    ghost from_gives = { λ rejection e. e ≡ fault_of rejection };

    fn from(rejection: ReplyRefusal) -> ReplyError {
        match rejection {
            ReplyRefusal::Mismatched(what) => ReplyError::Mismatch(what),
            ReplyRefusal::Unopened => ReplyError::CannotOpen,
        }
    }
}

/// Returns what is found, or the fault for the rejection.
pub fn unless_rejected<T: Drop>(found: Result<T, ReplyRefusal>) -> Result<T, ReplyError>
    ensures { result ≡ unless_rejected found }
{
    Ok(found?)
}

/// Returns what is given, unless memory ran out.
pub fn given<T: Drop>(found: Attempt<T, ReplyError>) -> Result<T, ReplyError>
    ensures { IsGiven found result }
{
    match found {
        Ok(found) => found,
        Err(AllocError) => Err(ReplyError::Memory),
    }
}

impl From<AllocError> for ReplyError {
    ghost from_gives = { λ _ e. e ≡ Memory };

    fn from(_error: AllocError) -> ReplyError {
        ReplyError::Memory
    }
}

impl<T: Drop> From<AllocFailed<T>> for ReplyError {
    ghost from_gives = { λ _ e. e ≡ Memory };

    fn from(_error: AllocFailed<T>) -> ReplyError {
        ReplyError::Memory
    }
}

impl fmt::Display for ReplyError {
    fn fmt<W: fmt::Write>(&self, f: &mut fmt::Formatter<W>) -> fmt::Result {
        match self {
            ReplyError::NotAReply => f.write_str("the octets are no reply"),
            ReplyError::Refused(refusal) => write!(f, "refused with code {}", refusal.error.code),
            ReplyError::Mismatch(what) => write!(f, "the reply has another {what}"),
            ReplyError::CannotOpen => f.write_str("the key does not open the reply"),
            ReplyError::CountTooLarge => f.write_str("the count of iterations is out of range"),
            ReplyError::Memory => f.write_str("out of memory"),
        }
    }
}

impl fmt::Display for Mismatch {
    fn fmt<W: fmt::Write>(&self, f: &mut fmt::Formatter<W>) -> fmt::Result {
        f.write_str(match self {
            Mismatch::Client => "client",
            Mismatch::Nonce => "nonce",
            Mismatch::Service => "service",
            Mismatch::Times => "time",
        })
    }
}

impl Error for ReplyError {}

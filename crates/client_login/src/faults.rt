//! Why a client gets no ticket.
ghost use Rattle.std.specs.Prelude.{◌≡◌, Err, IfErr, IfOk, None, Ok};
ghost use Rattle.client_login.specs.Faults.{named_by};
ghost use Rattle.client_login.specs.declared.faults.LoginError.TheVariants.{Memory};

use crate::codes::code_text;
use client_core::{Mismatch, ServerError};
use std::alloc::{AllocError, AllocFailed};
use std::error::Error;
use std::net::SocketAddr;
use std::{fmt, io};

/// The reason why a client gets no ticket, and the KDC that gave it.
#[derive(Clone, Copy, Debug)]
pub struct TicketError {
    /// The reason, with the KDC's error if one refused.
    pub why: LoginError,
    /// The KDC whose reply ended the login; `None` if no reply did.
    pub kdc: Option<SocketAddr>,
}

impl TicketError {
    /// Returns a fault that comes from no KDC's reply.
    pub(crate) fn new(why: LoginError) -> TicketError
        ensures { result ≡ record { why = why; kdc = None } }
    {
        TicketError { why, kdc: None }
    }

    /// Returns a fault that a KDC's reply causes.
    pub(crate) fn of_reply(why: LoginError, kdc: SocketAddr) -> TicketError
        ensures { result ≡ record { why = why; kdc = named_by why kdc } }
    {
        match why {
            LoginError::Memory => TicketError::new(why),
            _ => TicketError {
                why,
                kdc: Some(kdc),
            },
        }
    }
}

/// Returns what is found in a KDC's reply, or the fault.
pub(crate) fn said_by<T: Drop>(
    kdc: SocketAddr,
    found: Result<T, LoginError>,
) -> Result<T, TicketError>
    ensures ok { IfOk result (λ value. found ≡ Ok value) }
    ensures err { IfErr result (λ fault. (found ≡ Err fault.why) × (fault.kdc ≡ named_by fault.why kdc)) }
{
    match found {
        Ok(value) => Ok(value),
        Err(why) => Err(TicketError::of_reply(why, kdc)),
    }
}

/// The reason why a client gets no ticket.
#[derive(Clone, Copy, Debug)]
pub enum LoginError {
    /// The realm or a name is beyond the limits of a request.
    NotAskable,
    /// The ticket to present can't be used: its session key has a type other than the four, or it is not a ticket.
    NotPresentable,
    /// The keytab has no key of the client.
    NoClientKey,
    /// The keytab has no key of the client with a type that the KDC names.
    NoKey,
    /// No KDC replied. The error is that of the last one.
    Silence(io::Error),
    /// The KDC refuses with this error.
    Refused(ServerError),
    /// The bytes encode neither the reply nor a KRB-ERROR.
    NotAReply,
    /// The reply answers another request.
    Mismatch(Mismatch),
    /// The client's key doesn't decrypt the reply.
    CannotOpen,
    /// The session key of the presented ticket doesn't decrypt the reply.
    SessionCannotOpen,
    /// The KDC names no key of the client with one of the four encryption types.
    NoKnownType,
    /// The KDC requests more iterations of string-to-key than [`client_core::MAX_COUNT`].
    CountTooLarge,
    /// The KDC requests fewer iterations of string-to-key than the client accepts.
    WeakCount,
    /// The keytab has no key of the service with the encryption type and key version of the service's ticket.
    NoServiceKey,
    /// The keytab's key doesn't decrypt the service's ticket.
    TicketNotOpened,
    /// The service's ticket is for another client, or has another session key, than the KDC's reply says.
    OtherTicket,
    /// The service's ticket is not valid at the client's moment.
    TicketNotValid,
    /// Memory ran out.
    Memory,
}

impl From<AllocError> for LoginError {
    ghost from_gives = { λ _ why. why ≡ Memory };

    fn from(_: AllocError) -> LoginError {
        LoginError::Memory
    }
}

impl<T: Drop> From<AllocFailed<T>> for LoginError {
    ghost from_gives = { λ _ why. why ≡ Memory };

    fn from(_: AllocFailed<T>) -> LoginError {
        LoginError::Memory
    }
}

impl From<AllocError> for TicketError {
    ghost from_gives = { λ _ fault. fault ≡ record { why = Memory; kdc = None } };

    fn from(_: AllocError) -> TicketError {
        TicketError::new(LoginError::Memory)
    }
}

impl fmt::Display for TicketError {
    fn fmt<W: fmt::Write>(&self, f: &mut fmt::Formatter<W>) -> fmt::Result {
        match self.kdc {
            Some(kdc) => write!(f, "{kdc}: {}", self.why),
            None => write!(f, "{}", self.why),
        }
    }
}

impl fmt::Display for LoginError {
    fn fmt<W: fmt::Write>(&self, f: &mut fmt::Formatter<W>) -> fmt::Result {
        match self {
            LoginError::Silence(error) => write!(f, "no KDC replied: {error}"),
            LoginError::Refused(error) => {
                write!(f, "error {}: {}", error.code, code_text(error.code))
            }
            why => f.write_str(why.text()),
        }
    }
}

impl LoginError {
    fn text(self) -> &'static str {
        match self {
            LoginError::NotAskable => "the realm or a name is too long for a request",
            LoginError::NotPresentable =>
                "there is no usable ticket-granting ticket of the realm: run kinit",
            LoginError::NoClientKey => "the keytab has no key of the client",
            LoginError::NoKey =>
                "the keytab has no key of the client with an encryption type that the KDC names",
            LoginError::Silence(_) => "no KDC replied",
            LoginError::Refused(_) => "the KDC refuses",
            LoginError::NotAReply => "the bytes that came back are not a reply of a KDC",
            LoginError::Mismatch(what) => mismatch_text(what),
            LoginError::CannotOpen =>
                "the client's key does not decrypt the reply: the password or the keytab is wrong, \
                 or it is another KDC",
            LoginError::SessionCannotOpen =>
                "the session key of the ticket-granting ticket does not decrypt the reply: it is another KDC",
            LoginError::NoKnownType =>
                "the KDC names no key of the client with one of the encryption types 17 to 20",
            LoginError::CountTooLarge =>
                "the KDC asks for more iterations of string-to-key than 1048576, or for none, \
                 or its parameters are not four bytes",
            LoginError::WeakCount =>
                "the KDC asks for fewer iterations of string-to-key than the least count that is accepted: \
                 somebody may have changed its reply to guess the password",
            LoginError::NoServiceKey =>
                "the keytab has no key of the service with the ticket's encryption type and version",
            LoginError::TicketNotOpened => "the keytab's key does not decrypt the ticket: \
                 it is another key of the same version, or it is another KDC",
            LoginError::OtherTicket =>
                "the ticket has another client or session key than the KDC's reply: it is another KDC",
            LoginError::TicketNotValid => "the ticket is not valid now: the clocks may differ",
            LoginError::Memory => "out of memory",
        }
    }
}

/// Returns how a reply differs from the request.
fn mismatch_text(what: Mismatch) -> &'static str {
    match what {
        Mismatch::Client => "the reply is for another client than the one that asked",
        Mismatch::Nonce => "the reply has another nonce than the request",
        Mismatch::Service => "the reply has a ticket for another service than was asked for",
        Mismatch::Times =>
            "the ticket ends later than was asked for, or starts at another time: the clocks may differ",
    }
}

impl Error for TicketError {}

impl Error for LoginError {}

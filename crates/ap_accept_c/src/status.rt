//! The results of calls from C.
ghost use Rattle.std.specs.Prelude.{◌≡◌};
ghost use Rattle.ap_accept_c.specs.Status.{number_of, status_of, status_of_checksum, status_of_unread};
ghost use Rattle.ap_accept_c.specs.declared.status.Status.TheVariants as statuses;

use ap_accept::{ApFault, ApRefusal, ChecksumVerdict};
use cred_files::CredError;
use krb_fields::Code;
use std::alloc::AllocError;

/// The result of a call from C. A status with a code of RFC 4120 has its number; the others are 0 and below.
#[derive(Clone, Copy)]
pub enum Status {
    /// The call did what it is for.
    Done,
    /// The bytes do not encode an AP-REQ.
    NotAnApReq,
    /// Memory ran out.
    NoMemory,
    /// A number is out of its range, or the acceptor is open already.
    BadArgument,
    /// The buffer is too small for the bytes.
    TooSmall,
    /// The bytes are not a keytab.
    BadKeytab,
    /// The acceptor is closed.
    Closed,
    /// There is no such part.
    Absent,
    /// The bytes are not those of a saved acceptor.
    BadSaved,
    /// A rule of RFC 4120, section 3.2.3, refuses the request.
    Refused(ApRefusal),
    /// A checksum or a sealed text of the application is not good.
    Failed(Code),
}

impl Status {
    /// Returns the number that C sees: 0, a code of RFC 4120, section 7.5.9, or a number below 0.
    pub fn number(self) -> i32
        ensures { result ≡ number_of self }
    {
        match self {
            Status::Done => 0,
            Status::NotAnApReq => -1,
            Status::NoMemory => -2,
            Status::BadArgument => -3,
            Status::TooSmall => -4,
            Status::BadKeytab => -5,
            Status::Closed => -6,
            Status::Absent => -7,
            Status::BadSaved => -9,
            Status::Refused(refusal) => refusal.code().number(),
            Status::Failed(code) => code.number(),
        }
    }

    /// Returns the status for an AP-REQ that was not accepted.
    pub fn of_fault(fault: ApFault) -> Status
        ensures { result ≡ status_of fault }
    {
        match fault {
            ApFault::NotAnApReq => Status::NotAnApReq,
            ApFault::Refused(refusal) => Status::Refused(refusal),
            ApFault::Memory => Status::NoMemory,
        }
    }

    /// Returns the status for the authenticator's checksum.
    pub fn of_checksum(verdict: ChecksumVerdict) -> Status
        ensures { result ≡ status_of_checksum verdict }
    {
        match verdict {
            ChecksumVerdict::Matches => Status::Done,
            ChecksumVerdict::Absent => Status::Absent,
            ChecksumVerdict::OtherType => Status::Failed(Code::KrbApErrInappCksum),
            ChecksumVerdict::Modified => Status::Failed(Code::KrbApErrModified),
        }
    }

    /// Returns the status for a keytab, or a saved acceptor, that could not be read: `unread`, unless memory ran out.
    pub fn of_cred_fault(fault: CredError, unread: Status) -> Status
        ensures { result ≡ status_of_unread fault unread }
    {
        match fault {
            CredError::Memory => Status::NoMemory,
            CredError::BadMagic
            | CredError::Truncated
            | CredError::BadEntry
            | CredError::TooLate
            | CredError::Absent => unread,
        }
    }
}

impl From<AllocError> for Status {
    ghost from_gives = { λ _ status. status ≡ statuses.NoMemory };

    fn from(_error: AllocError) -> Status {
        Status::NoMemory
    }
}

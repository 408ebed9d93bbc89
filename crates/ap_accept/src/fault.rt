//! Errors of calls of an acceptor.
ghost use Rattle.std.specs.Prelude.{◌≡◌};
ghost use Rattle.ap_accept.specs.declared.fault.ApFault.TheVariants.{Refused, Memory};

use ap_req::ApRefusal;
use std::alloc::AllocError;
use std::error::Error;
use std::fmt;

/// The reason why a call accepted nothing.
#[derive(Clone, Copy, Debug, PartialEq, Eq)]
pub enum ApFault {
    /// The bytes do not encode an AP-REQ.
    NotAnApReq,
    /// This rule refuses the request.
    Refused(ApRefusal),
    /// Memory ran out.
    Memory,
}

impl fmt::Display for ApFault {
    fn fmt<W: fmt::Write>(&self, f: &mut fmt::Formatter<W>) -> fmt::Result {
        match self {
            ApFault::NotAnApReq => f.write_str("the bytes do not encode an AP-REQ"),
            ApFault::Refused(refusal) => f.write_str(refusal.text()),
            ApFault::Memory => f.write_str("out of memory"),
        }
    }
}

impl Error for ApFault {}

impl From<ApRefusal> for ApFault {
    ghost from_gives = { λ refusal fault. fault ≡ Refused refusal };

    fn from(refusal: ApRefusal) -> ApFault {
        ApFault::Refused(refusal)
    }
}

impl From<AllocError> for ApFault {
    ghost from_gives = { λ _ fault. fault ≡ Memory };

    fn from(_error: AllocError) -> ApFault {
        ApFault::Memory
    }
}

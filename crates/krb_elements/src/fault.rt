//! Errors of reading messages.
ghost use Rattle.std.specs.Prelude.{◌≡◌};
ghost use Rattle.krb_elements.specs.declared.fault.Fault.TheVariants.{Der, Memory};

use krb_der::DerFault;
use std::alloc::{AllocError, AllocFailed};
use std::error::Error;
use std::fmt;

/// The bytes don't encode such a message, or memory ran out.
#[derive(Clone, Copy, Debug, PartialEq, Eq)]
pub enum Fault {
    /// The bytes are not the DER encoding of the value.
    Der(DerFault),
    /// Memory ran out.
    Memory,
}

impl fmt::Display for Fault {
    fn fmt<W: fmt::Write>(&self, f: &mut fmt::Formatter<W>) -> fmt::Result {
        match self {
            Fault::Der(fault) => write!(f, "{fault}"),
            Fault::Memory => f.write_str("out of memory"),
        }
    }
}

impl Error for Fault {}

impl From<DerFault> for Fault {
    ghost from_gives = { λ fault e. e ≡ Der fault };

    fn from(fault: DerFault) -> Fault {
        Fault::Der(fault)
    }
}

impl From<AllocError> for Fault {
    ghost from_gives = { λ _ e. e ≡ Memory };

    fn from(_error: AllocError) -> Fault {
        Fault::Memory
    }
}

impl<T: Drop> From<AllocFailed<T>> for Fault {
    ghost from_gives = { λ _ e. e ≡ Memory };

    fn from(_error: AllocFailed<T>) -> Fault {
        Fault::Memory
    }
}

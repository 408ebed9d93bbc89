//! Errors of a stream of messages.
ghost use Rattle.std.specs.Prelude.{◌≡◌};
ghost use Rattle.framing.specs.declared.fault.FrameFault.TheVariants.{Memory};

use std::alloc::AllocError;
use std::error::Error;
use std::fmt;

/// The reason why a stream returns no next message. After the first two, which are bad lengths, the stream is unusable.
#[derive(Clone, Copy, Debug, PartialEq, Eq)]
pub enum FrameFault {
    /// The first bit of the length is set, which is reserved.
    HighBit,
    /// The length is above the maximum.
    TooLong,
    /// Out of memory for the message. It stays on the stream.
    Memory,
}

impl fmt::Display for FrameFault {
    fn fmt<W: fmt::Write>(&self, f: &mut fmt::Formatter<W>) -> fmt::Result {
        f.write_str(match self {
            FrameFault::HighBit => "the first bit of a message's length is set",
            FrameFault::TooLong => "a message is longer than the maximum",
            FrameFault::Memory => "out of memory",
        })
    }
}

impl Error for FrameFault {}

impl From<AllocError> for FrameFault {
    ghost from_gives = { λ _ fault. fault ≡ Memory };

    fn from(_error: AllocError) -> FrameFault {
        FrameFault::Memory
    }
}

//! Writes messages to a stream.
ghost use Rattle.std.specs.Prelude.{◌≡◌, ◌<◌, length, IfOk};
ghost use Rattle.framing.specs.Stream.{framed, high_bit, length_octets};

use std::alloc::{AllocError, Global};

/// Returns the four bytes of the length of a message with `len` bytes.
#[tactic(auto, unfolding(crate::specs::Stream::length_octets))]
pub fn prefix(len: u32) -> [u8; 4]
    requires { len < high_bit }
    // Promise, as one_cutting: each stream is cut ..
    ensures { result ≡ length_octets len }
{
    len.to_be_bytes()
}

/// Returns the message with its length before it.
#[tactic(auto, unfolding(crate::specs::Stream::length_octets))]
pub fn frame(alloc: Global, message: &[u8]) -> Result<Vec<u8>, AllocError>
    requires { length message.now < high_bit }
    // Promise, as one_cutting: each stream is cut ..
    ensures { IfOk result (λ octets. octets.items ≡ framed message.now) }
{
    let prefix = prefix(message.len() as u32);
    let mut octets = Vec::with_capacity(alloc, prefix.len() + message.len())?;
    octets.extend_from_slice(&prefix)?;
    octets.extend_from_slice(message)?;
    Ok(octets)
}

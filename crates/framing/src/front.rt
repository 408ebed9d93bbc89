//! The front of a stream.
ghost use Rattle.std.specs.Prelude.{◌≡◌, ◌≢◌, ◌≤◌, ◌+◌, length, Ok, Err, Some, None, IfOk, IfErr, IfSome};
ghost use Rattle.framing.specs.Stream.{front};
ghost use Rattle.framing.specs.declared.fault.FrameFault.TheVariants.{Memory};

use crate::fault::FrameFault;

/// How many bytes a length has.
pub const PREFIX: usize = 4;

/// The first bit of a length, which is reserved.
const HIGH_BIT: u32 = 1 << 31;

/// Returns the first message, once all of it is there. The length is checked as soon as its four bytes are there.
#[tactic(auto, unfolding(crate::specs::Stream::front))]
pub fn first_message(bytes: &[u8], greatest: u32) -> Result<Option<&[u8]>, FrameFault>
    ensures message { IfOk result (λ found. IfSome found
        (λ message. front greatest bytes.now ≡ Ok (Some message.now))) }
    ensures none { result ≡ Ok None → front greatest bytes.now ≡ Ok None }
    ensures fault { IfErr result (λ fault. front greatest bytes.now ≡ Err fault) }
    // The message follows its length.
    ensures within { IfOk result (λ found. IfSome found (λ message. 4 + length message.now ≤ length bytes.now)) }
    ensures no_memory { result ≢ Err Memory }
{
    let Some((len, rest)) = bytes.split_first_chunk::<PREFIX>() else {
        return Ok(None);
    };
    let len = u32::from_be_bytes(*len);
    if len >= HIGH_BIT {
        return Err(FrameFault::HighBit);
    }
    if len > greatest {
        return Err(FrameFault::TooLong);
    }
    let len = len as usize;
    if rest.len() < len {
        return Ok(None);
    }
    Ok(Some(&rest[..len]))
}

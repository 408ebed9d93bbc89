//! Copies bytes into the caller's buffers.
ghost use Rattle.std.specs.Prelude.{◌≡◌, length};
ghost use Rattle.ap_accept_c.specs.Buffers.{IsGiven, texted};

use crate::status::Status;

/// The result of a call that copies bytes into a buffer.
#[derive(Clone, Copy)]
pub struct Given {
    /// [`Status::Done`] if the bytes were copied; otherwise why not.
    pub status: Status,
    /// How many bytes there are, whether they fit or not.
    pub len: usize,
}

impl Given {
    /// Returns the result of a call that has no bytes to copy.
    pub fn none(status: Status) -> Given
        ensures status { result.status ≡ status }
        ensures len { result.len ≡ 0 }
    {
        Given { status, len: 0 }
    }
}

/// Copies the bytes to the front of the buffer, if they fit.
pub fn give(octets: &[u8], to: &mut [u8]) -> Given
    ensures given { IsGiven result.status octets.now to.old to.new }
    ensures len { result.len ≡ length octets.now }
{
    let len = octets.len();
    if to.len() < octets.len() {
        return Given {
            status: Status::TooSmall,
            len,
        };
    }
    to[..octets.len()].copy_from_slice(octets);
    Given {
        status: Status::Done,
        len,
    }
}

/// Writes a text and a NUL to a buffer, cut to its size, and returns the length of the whole text.
pub fn give_text(text: &[u8], to: &mut [u8]) -> usize
    ensures given { to.new ≡ texted text.now to.old }
    ensures len { result ≡ length text.now }
{
    if to.len() == 0 {
        return text.len();
    }
    let kept = text.len().min(to.len() - 1);
    to[..kept].copy_from_slice(&text[..kept]);
    to[kept] = 0;
    text.len()
}

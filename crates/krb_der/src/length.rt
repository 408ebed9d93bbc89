//! The length of a value: definite, in its shortest form, in at most four bytes (X.690, sections 8.1.3 and 10.1).
ghost use Rattle.std.specs.Prelude.{◌≡◌};
ghost use Rattle.krb_der.specs.Reading.{Gives, length_at};

use crate::fault::DerFault;

/// Returns the length at the front, and the bytes after it.
#[tactic(auto, unfolding(crate::specs::Reading::length_at))]
pub fn split_length(bytes: &[u8]) -> Result<(u32, &[u8]), DerFault>
    ensures { Gives (λ x. (x.0, x.1.now)) result (length_at bytes.now) }
{
    let Some((first, rest)) = bytes.split_first() else {
        return Err(DerFault::Truncated);
    };
    let first = *first;
    if first < 0x80 {
        return Ok((u32::from(first), rest));
    }
    match first {
        0x81 => match rest {
            [a, rest @ ..] => {
                if *a < 0x80 {
                    return Err(DerFault::BadLength);
                }
                Ok((u32::from(*a), rest))
            }
            _ => Err(DerFault::Truncated),
        },
        0x82 => match rest {
            [a, b, rest @ ..] => {
                if *a == 0 {
                    return Err(DerFault::BadLength);
                }
                Ok((u32::from_be_bytes([0, 0, *a, *b]), rest))
            }
            _ => Err(DerFault::Truncated),
        },
        0x83 => match rest {
            [a, b, c, rest @ ..] => {
                if *a == 0 {
                    return Err(DerFault::BadLength);
                }
                Ok((u32::from_be_bytes([0, *a, *b, *c]), rest))
            }
            _ => Err(DerFault::Truncated),
        },
        0x84 => match rest {
            [a, b, c, d, rest @ ..] => {
                if *a == 0 {
                    return Err(DerFault::BadLength);
                }
                Ok((u32::from_be_bytes([*a, *b, *c, *d]), rest))
            }
            _ => Err(DerFault::Truncated),
        },
        _ => Err(DerFault::BadLength),
    }
}

//! What a type says about the encoding of its values, and about copies that own their parts.
//!
//! A message is one list of its fields. In `specs/` that is one definition, which contains all its laws. In the code it
//! is one line per field for reading (`reading`) and one for writing (`writing`).
ghost use Rattle.std.specs.Prelude.{◌≡◌, ◌<◌, ◌+◌, ℕ, IfOk, Option, Some, None, option_map, bit_and, bit_or};
ghost use Rattle.krb_elements.specs.Codec.{Codec, AreSame, Record, sequence, in_tag};

use std::alloc::{AllocError, Global};

/// A type whose values have their own tag.
pub trait Coded: Sized + Drop {
    /// Which bytes encode a value, what reading returns, and what is written.
    // Promise: each type has a codec, which meets all laws of codecs.
    ghost codec: { Codec Self };
}

/// A type that consists of fields.
pub trait Fielded: Coded {
    /// The tag around their SEQUENCE.
    type In: Round;

    /// Its fields.
    ghost form: { Record Self };

    // Promise: a struct's codec is that of the list of its fields.
    ghost made: { AreSame Self.codec (in_tag Self.In.TAG (sequence form)) };
}

/// A tag, or none.
pub trait Round {
    ghost TAG: { Option ℕ };

    const TAG: Option<u8>;
}

/// No tag.
pub struct Untagged;

impl Round for Untagged {
    ghost TAG = { None };

    const TAG: Option<u8> = None;
}

/// The tag `[APPLICATION N]`, where N is at most 30.
pub struct Application<const N: u8>;

impl<const N: u8> Round for Application<N> {
    ghost TAG = { Some (bit_or 96 (bit_and N 31)) };

    const TAG: Option<u8> = Some(0x60 | (N & 0x1f));
}

/// Returns the identifier octet of `[APPLICATION n]`.
pub fn application_tag(n: u8) -> u8
    requires { n < 31 }
    // Promise: the identifier byte of [APPLICATION n] is 96 + n.
    ensures { result ≡ 96 + n }
{
    0x60 + n
}

/// A borrowed value that can be copied into one that owns its parts.
pub trait MakeOwned: Sized {
    type Owned: Drop;

    /// The same value in the type of the copy.
    ghost same: { Self → Self.Owned };

    /// Returns a copy that owns its parts.
    fn copy(&self, alloc: Global) -> Result<Self::Owned, AllocError>
        // Promise: a copy that owns its parts has the same value; a value that owns its parts is read as the definition
        // says, unless memory runs out.
        ensures { IfOk result (λ copy. copy ≡ Self.same self.now) };
}

impl<T: MakeOwned> MakeOwned for Option<T> {
    type Owned = Option<T::Owned>;

    ghost same = { option_map T.same };

    fn copy(&self, alloc: Global) -> Result<Option<T::Owned>, AllocError> {
        match self {
            Some(value) => Ok(Some(value.copy(alloc)?)),
            None => Ok(None),
        }
    }
}

//! Decodes and encodes whole messages: one pair of calls for every type of message.
ghost use Rattle.std.specs.Prelude.{◌≡◌, ◌<◌, ◌^◌, ◌*◌, length, IfOk, IsTrue};
ghost use Rattle.krb_elements.specs.Format.{Decodes, IsReadUnlessMemory, whole};
ghost use Rattle.krb_elements.specs.Codec.{written};

use crate::fault::Fault;
use crate::reading::{ReadOwned, read_owned};
use crate::writing::{Encode, write};
use std::alloc::{AllocError, Global};

/// Decodes the message that the bytes encode.
pub fn decode<X: ReadOwned>(alloc: Global, bytes: &[u8]) -> Result<X, Fault>
    // If it succeeds, the bytes encode this message.
    // Promise (found, only, exact): a message of any type is decoded exactly from bytes that spell it, unless memory
    // runs out; an error is that of the definition.
    ensures found { IfOk result (λ x. X.codec.Spells x bytes.now) }
    // If the bytes encode a message of the type, it succeeds, unless memory runs out.
    ensures only { (x : X) → X.codec.Spells x bytes.now → IsReadUnlessMemory result x }
    // The result, including the error, is that of the definition.
    ensures exact { Decodes result (whole X.codec.at bytes.now) }
    // If no message of the type has two encodings, `encode` returns these bytes.
    // Promise (one, short): encoding a decoded message gives the same bytes, if no message of its type has two
    // encodings; otherwise the contents of the new encoding have fewer than three times as many bytes.
    ensures one { IsTrue X.codec.has_one → IfOk result (λ x. bytes.now ≡ written X.codec x) }
    // The contents of the encoding that `encode` returns have fewer than three times as many bytes.
    ensures short { IfOk result (λ x. length (X.codec.text x) < 3 * length bytes.now) }
{
    read_owned(alloc, bytes)
}

/// Returns the encoding of the message.
pub fn encode<X: Encode>(alloc: Global, x: &X) -> Result<Vec<u8>, AllocError>
    requires { length (X.codec.text x.now) < 2 ^ 32 }
    // Promise (written, spelled): a message is written as its codec says, in bytes that spell it.
    ensures written { IfOk result (λ v. v.items ≡ written X.codec x.now) }
    ensures spelled { IfOk result (λ v. X.codec.Spells x.now v.items) }
{
    write(alloc, x)
}

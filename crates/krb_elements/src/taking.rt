//! Reads values that own their parts, in one pass.
ghost use Rattle.std.specs.Prelude.{◌≡◌, ◌<◌, ◌+◌};
ghost use Rattle.krb_elements.specs.Format.{Decodes, inside, maybe, whole};
ghost use Rattle.krb_elements.specs.Taking.{Takes};
ghost use Rattle.krb_elements.specs.Codec.{sequence, fields_at};

use crate::byte_string::ByteString;
use crate::codec::{Coded, Fielded};
use crate::fault::Fault;
use crate::reading::expect_end;
use krb_der::Reader;
use std::alloc::Global;

/// A value that owns its parts and is read from the front of bytes, such as an element of a list.
pub trait TakeOwned: Coded {
    /// Reads the value at the front.
    fn take_parts(alloc: Global, reader: &mut Reader<'_>) -> Result<Self, Fault>
        // Promise, as take_whole: an element of a ..
        ensures { Takes result reader.new (Self.codec.at reader.old) };
}

/// A type that consists of fields, and whose values own their parts.
pub trait TakeFields: Fielded {
    /// Reads the fields at the front, in order.
    fn take_fields(alloc: Global, fields: &mut Reader<'_>) -> Result<Self, Fault>
        // Promise, as take_whole: an element of a ..
        ensures { Takes result fields.new (fields_at Self.form fields.old) };
}

impl<const TAG: u8> TakeOwned for ByteString<TAG> {
    fn take_parts(alloc: Global, reader: &mut Reader<'_>) -> Result<ByteString<TAG>, Fault> {
        let bytes = reader.read_tlv(TAG)?;
        Ok(ByteString::from_slice(alloc, bytes)?)
    }
}

/// Reads a value that takes up all of the bytes.
pub fn take_whole<T: TakeOwned>(alloc: Global, bytes: &[u8]) -> Result<T, Fault>
    // Promise: an element of a list, a field and an optional field are each read as the definition says, into values
    // that own their parts.
    ensures { Decodes result (whole T.codec.at bytes.now) }
{
    let mut reader = Reader::new(bytes);
    let value = T::take_parts(alloc, &mut reader)?;
    expect_end(&reader)?;
    Ok(value)
}

/// Reads the field with this tag, into a value that owns its parts.
pub fn take_owned<T: TakeOwned>(alloc: Global, fields: &mut Reader<'_>, n: u8) -> Result<T, Fault>
    requires { n < 31 }
    // Promise, as take_whole: an element of a ..
    ensures { Takes result fields.new (inside (160 + n) (whole T.codec.at) fields.old) }
{
    take_whole(alloc, fields.read_tlv(0xa0 + n)?)
}

/// Reads the field with this tag, if it is there, into a value that owns its parts.
pub fn take_owned_optional<T: TakeOwned>(
    alloc: Global,
    fields: &mut Reader<'_>,
    n: u8,
) -> Result<Option<T>, Fault>
    requires { n < 31 }
    // Promise, as take_whole: an element of a ..
    ensures { Takes result fields.new (maybe (160 + n) T.codec.at fields.old) }
{
    match fields.peek_tag() {
        Some(next) if next == 0xa0 + n => Ok(Some(take_owned(alloc, fields, n)?)),
        _ => Ok(None),
    }
}

/// Reads the SEQUENCE of a type's fields.
pub fn take_sequence<T: TakeFields>(alloc: Global, reader: &mut Reader<'_>) -> Result<T, Fault>
    // Promise, as take_whole: an element of a ..
    ensures { Takes result reader.new ((sequence T.form).at reader.old) }
{
    fields_in(alloc, reader.read_tlv(0x30)?)
}

/// Reads fields that take up all of the bytes.
fn fields_in<T: TakeFields>(alloc: Global, bytes: &[u8]) -> Result<T, Fault>
    ensures { Decodes result (whole (fields_at T.form) bytes.now) }
{
    let mut fields = Reader::new(bytes);
    let value = T::take_fields(alloc, &mut fields)?;
    expect_end(&fields)?;
    Ok(value)
}

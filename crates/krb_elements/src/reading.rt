//! Reads a value of a message in place: one call for each field, in order.
ghost use Rattle.std.specs.Prelude.{◌≡◌, ◌<◌, ◌+◌, IfOk, IsOkAnd};
ghost use Rattle.krb_elements.specs.Format.{Decodes, IsReadUnlessMemory, Looks, Sees, whole, inside, maybe, sent, end};
ghost use Rattle.krb_elements.specs.Simple.{fixed_at};
ghost use Rattle.krb_elements.specs.FieldReading.{either_inside};
ghost use Rattle.krb_elements.specs.Codec.{sequence, in_tag, fields_at};

use crate::codec::{Coded, Fielded, Round};
use crate::fault::Fault;
use krb_der::{DerFault, Reader};
use std::alloc::Global;
use std::marker::Model;

/// A value that is read in place: its strings and lists borrow from the bytes.
pub trait Decode<'a>: Coded {
    /// Reads the value at the front.
    fn look(reader: &mut Reader<'a>) -> Result<Self, DerFault>
        // Promise, as look_either: a value at the ..
        ensures { Looks result reader.new (Self.codec.at reader.old) };
}

/// A type that consists of fields, and whose values are read in place.
pub trait DecodeFields<'a>: Fielded {
    /// Reads the fields at the front, in order.
    fn look_fields(fields: &mut Reader<'a>) -> Result<Self, DerFault>
        // Promise, as look_either: a value at the ..
        ensures { Looks result fields.new (fields_at Self.form fields.old) };
}

impl<'a, T: DecodeFields<'a>> Decode<'a> for T {
    fn look(reader: &mut Reader<'a>) -> Result<T, DerFault> {
        look_made(reader)
    }
}

/// A value that owns its parts and is read from all of the bytes.
pub trait ReadOwned: Coded {
    /// Reads the value that all of the bytes encode, and copies its parts.
    fn read_parts(alloc: Global, bytes: &[u8]) -> Result<Self, Fault>
        // Promise, as MakeOwned::copy: a copy that owns ..
        ensures { Decodes result (whole Self.codec.at bytes.now) };
}

/// Reads the value that the bytes encode.
pub fn read<'a, T: Decode<'a>>(bytes: &'a [u8]) -> Result<T, DerFault>
    // If it succeeds, the bytes encode this value.
    // Promise (found, only, exact): a value is read exactly from bytes that spell it, and an error is that of the
    // definition; memory can run out only if the value owns its parts.
    ensures found { IfOk result (λ x. T.codec.Spells x bytes.now) }
    // If the bytes encode a value, it succeeds.
    ensures only { (x : T) → T.codec.Spells x bytes.now → IsOkAnd result (λ y. y ≡ x) }
    // The result, including the error, is that of the definition.
    ensures exact { Sees result (whole T.codec.at bytes.now) }
{
    look_all(bytes)
}

/// Reads the value that the bytes encode, into one that owns its parts.
pub fn read_owned<T: ReadOwned>(alloc: Global, bytes: &[u8]) -> Result<T, Fault>
    // If it succeeds, the bytes encode this value.
    // Promise (found, only, exact), as read: a value is read ..
    ensures found { IfOk result (λ x. T.codec.Spells x bytes.now) }
    // If the bytes encode a value, it succeeds, unless memory runs out.
    ensures only { (x : T) → T.codec.Spells x bytes.now → IsReadUnlessMemory result x }
    // The result, including the error, is that of the definition.
    ensures exact { Decodes result (whole T.codec.at bytes.now) }
{
    T::read_parts(alloc, bytes)
}

/// Reads a value that takes up all of the bytes.
pub(crate) fn look_all<'a, T: Decode<'a>>(bytes: &'a [u8]) -> Result<T, DerFault>
    ensures { Sees result (whole T.codec.at bytes.now) }
{
    let mut reader = Reader::new(bytes);
    let value = T::look(&mut reader)?;
    expect_end(&reader)?;
    Ok(value)
}

/// Checks that nothing is left.
pub fn expect_end(fields: &Reader<'_>) -> Result<(), DerFault>
    // Promise, as take_field: a field, an optional ..
    ensures { Sees result (end fields.now) }
{
    if !fields.is_empty() {
        return Err(DerFault::Trailing);
    }
    Ok(())
}

/// Reads the value inside this tag.
fn look_inside<'a, T: Decode<'a>>(reader: &mut Reader<'a>, tag: u8) -> Result<T, DerFault>
    ensures { Looks result reader.new (inside tag (whole T.codec.at) reader.old) }
{
    look_all(reader.read_tlv(tag)?)
}

/// Reads the field with this tag.
pub fn take_field<'a, T: Decode<'a>>(fields: &mut Reader<'a>, n: u8) -> Result<T, DerFault>
    requires { n < 31 }
    // Promise: a field, an optional field, a fixed number, and a field with its bytes as they were sent are each read
    // as the definition says; so is the end of the fields.
    ensures { Looks result fields.new (inside (160 + n) (whole T.codec.at) fields.old) }
{
    look_inside(fields, 0xa0 + n)
}

/// Reads the field with this tag, if it is there.
pub fn take_optional<'a, T: Decode<'a>>(
    fields: &mut Reader<'a>,
    n: u8,
) -> Result<Option<T>, DerFault>
    requires { n < 31 }
    // Promise, as take_field: a field, an optional ..
    ensures { Looks result fields.new (maybe (160 + n) T.codec.at fields.old) }
{
    match fields.peek_tag() {
        Some(next) if next == 0xa0 + n => Ok(Some(take_field(fields, n)?)),
        _ => Ok(None),
    }
}

/// Reads the field with this tag, whose value must be this number, such as a message's version.
pub fn take_fixed(fields: &mut Reader<'_>, n: u8, number: i32) -> Result<(), DerFault>
    requires { n < 31 }
    // Promise, as take_field: a field, an optional ..
    ensures { Looks result fields.new (inside (160 + n) (whole (fixed_at number)) fields.old) }
{
    let mut contents = Reader::new(fields.read_tlv(0xa0 + n)?);
    look_fixed(&mut contents, number)?;
    expect_end(&contents)
}

#[tactic(auto, unfolding(crate::specs::Simple::fixed_at))]
fn look_fixed(reader: &mut Reader<'_>, number: i32) -> Result<(), DerFault>
    ensures { Looks result reader.new (fixed_at number reader.old) }
{
    if reader.read_int()? != i64::from(number) {
        return Err(DerFault::BadInteger);
    }
    Ok(())
}

/// A value, and its bytes as they were sent.
#[derive(Debug, Drop)]
pub struct Sent<'a, T> {
    /// The value that the bytes encode.
    pub value: T,
    /// The encoding of the value, without the tag of the field that it is in.
    pub octets: &'a [u8],
}

impl<'a, T> Model for Sent<'a, T> {
    ghost use Rattle.krb_elements.specs.Sent.{WithOctets, with_octets_code};

    ghost Value = { WithOctets T };

    ghost coded = { with_octets_code T.code };

    ghost view = { λ s. record { value = s.value; octets = s.octets.now } };
}

/// Reads the field with this tag, and keeps its bytes as they were sent.
pub fn take_sent<'a, T: Decode<'a>>(fields: &mut Reader<'a>, n: u8) -> Result<Sent<'a, T>, DerFault>
    requires { n < 31 }
    // Promise, as take_field: a field, an optional ..
    ensures { Looks result fields.new (inside (160 + n) (sent (whole T.codec.at)) fields.old) }
{
    let octets = fields.read_tlv(0xa0 + n)?;
    let value = look_all(octets)?;
    Ok(Sent { value, octets })
}

/// Reads a value in either of two tags, and returns what its tag stands for.
pub fn look_either<'a, K: Copy, T: Decode<'a>>(
    reader: &mut Reader<'a>,
    first: (u8, K),
    second: (u8, K),
) -> Result<(K, T), DerFault>
    // Promise: a value at the front of a list or of fields is read, or an error is returned, as the definition says.
    ensures { Looks result reader.new (either_inside first second T.codec.at reader.old) }
{
    match reader.peek_tag() {
        Some(next) if next == second.0 => {
            let value = look_inside(reader, second.0)?;
            Ok((second.1, value))
        }
        _ => {
            let value = look_inside(reader, first.0)?;
            Ok((first.1, value))
        }
    }
}

/// Reads a value of a type that consists of fields.
fn look_made<'a, T: DecodeFields<'a>>(reader: &mut Reader<'a>) -> Result<T, DerFault>
    ensures { Looks result reader.new ((in_tag T.In.TAG (sequence T.form)).at reader.old) }
{
    match T::In::TAG {
        None => look_sequence(reader),
        Some(tag) => look_tagged(reader, tag),
    }
}

/// Reads the SEQUENCE of a type's fields, in this tag.
fn look_tagged<'a, T: DecodeFields<'a>>(reader: &mut Reader<'a>, tag: u8) -> Result<T, DerFault>
    ensures { Looks result reader.new (inside tag (whole (sequence T.form).at) reader.old) }
{
    sequence_in(reader.read_tlv(tag)?)
}

/// Reads a SEQUENCE that takes up all of the bytes.
fn sequence_in<'a, T: DecodeFields<'a>>(bytes: &'a [u8]) -> Result<T, DerFault>
    ensures { Sees result (whole (sequence T.form).at bytes.now) }
{
    let mut reader = Reader::new(bytes);
    let value = look_sequence(&mut reader)?;
    expect_end(&reader)?;
    Ok(value)
}

/// Reads the SEQUENCE of a type's fields.
fn look_sequence<'a, T: DecodeFields<'a>>(reader: &mut Reader<'a>) -> Result<T, DerFault>
    ensures { Looks result reader.new ((sequence T.form).at reader.old) }
{
    fields_in(reader.read_tlv(0x30)?)
}

/// Reads fields that take up all of the bytes.
fn fields_in<'a, T: DecodeFields<'a>>(bytes: &'a [u8]) -> Result<T, DerFault>
    ensures { Sees result (whole (fields_at T.form) bytes.now) }
{
    let mut fields = Reader::new(bytes);
    let value = T::look_fields(&mut fields)?;
    expect_end(&fields)?;
    Ok(value)
}

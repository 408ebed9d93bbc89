//! The values of a saved acceptor: how each is read from bytes and written.
ghost use Rattle.std.specs.Prelude.{◌≡◌, ◌++◌, length, OnOk};
ghost use Rattle.cred_files.specs.Form.{several};
ghost use Rattle.cred_files.specs.Format.{signed32, word32};
ghost use Rattle.cred_files.specs.Reading.{Reads, ReadsBy};
ghost use Rattle.ap_accept.specs.Saved.{entry, list, name, octets, second, stamp, word, Puts};

use cred_files::{CredError, Reader};
use krb_elements::{KerberosString, Seq};
use krb_fields::Name;
use principal_rows::Entry;
use std::alloc::{AllocError, Global};

/// A value that a saved acceptor has.
pub trait Saved: Sized + Drop {
    ghost use Rattle.ap_accept.specs.Saved.{Reading};

    /// How it is read from the front of bytes.
    ghost at: { Reading Self };

    /// Reads a value from the front.
    fn take(alloc: Global, reader: &mut Reader<'_>) -> Result<Self, CredError>
        ensures { Reads result reader.new (Self.at reader.old) };

    /// Appends the value. After an `Err` a part of it may have been appended.
    fn put(&self, out: &mut Vec<u8>) -> Result<(), AllocError>
        ensures { OnOk result (Puts Self.at self.now out.old.items out.new.items) };
}

// ---- numbers

/// Appends a length or a count.
pub fn put_word(out: &mut Vec<u8>, number: u64) -> Result<(), AllocError>
    ensures { OnOk result (Puts word number out.old.items out.new.items) }
{
    out.extend_from_slice(&number.to_be_bytes())
}

/// Appends seconds since 1970.
pub fn put_second(out: &mut Vec<u8>, number: i64) -> Result<(), AllocError>
    ensures { OnOk result (Puts second number out.old.items out.new.items) }
{
    out.extend_from_slice(&number.to_be_bytes())
}

fn put_u32(out: &mut Vec<u8>, number: u32) -> Result<(), AllocError>
    ensures { OnOk result (Puts word32.form.at number out.old.items out.new.items) }
{
    out.extend_from_slice(&number.to_be_bytes())
}

fn put_i32(out: &mut Vec<u8>, number: i32) -> Result<(), AllocError>
    ensures { OnOk result (Puts signed32.form.at number out.old.items out.new.items) }
{
    out.extend_from_slice(&number.to_be_bytes())
}

/// Reads bytes after their length.
fn read_octets<'a>(reader: &mut Reader<'a>) -> Result<&'a [u8], CredError>
    ensures { ReadsBy (λ part. part.now) result reader.new (octets reader.old) }
{
    let len = reader.read_u64()?;
    reader.read_part(len as usize)
}

/// Appends bytes.
pub fn append(out: &mut Vec<u8>, octets: &[u8]) -> Result<(), AllocError>
    ensures { OnOk result (out.new.items ≡ out.old.items ++ octets.now) }
{
    out.extend_from_slice(octets)
}

// ---- lists

/// Reads this many values.
fn take_several<T: Saved>(
    alloc: Global,
    reader: &mut Reader<'_>,
    count: u64,
) -> Result<Vec<T>, CredError>
    ensures { ReadsBy (λ v. v.items) result reader.new (several T.at count reader.old) }
{
    let mut values = Vec::new(alloc);
    for _ in 0..count {
        let value = T::take(alloc, reader)?;
        values.push(value)?;
    }
    Ok(values)
}

/// Reads values after their number.
pub fn take_list<T: Saved>(alloc: Global, reader: &mut Reader<'_>) -> Result<Vec<T>, CredError>
    ensures { ReadsBy (λ v. v.items) result reader.new (list T.at reader.old) }
{
    let count = reader.read_u64()?;
    take_several(alloc, reader, count)
}

/// Appends values in order.
fn put_all<T: Saved>(out: &mut Vec<u8>, values: &[T]) -> Result<(), AllocError>
    ensures { OnOk result (Puts (several T.at (length values.now)) values.now out.old.items out.new.items) }
{
    for value in values {
        value.put(out)?;
    }
    Ok(())
}

/// Appends values after their number.
pub fn put_list<T: Saved>(out: &mut Vec<u8>, values: &[T]) -> Result<(), AllocError>
    ensures { OnOk result (Puts (list T.at) values.now out.old.items out.new.items) }
{
    put_word(out, values.len() as u64)?;
    put_all(out, values)
}

// ---- stamps and names

/// The ctime and the cusec of an authenticator.
impl Saved for (i64, u32) {
    ghost at = { stamp };

    fn take(_alloc: Global, reader: &mut Reader<'_>) -> Result<(i64, u32), CredError> {
        let ctime = reader.read_i64()?;
        let cusec = reader.read_u32()?;
        Ok((ctime, cusec))
    }

    fn put(&self, out: &mut Vec<u8>) -> Result<(), AllocError> {
        let (ctime, cusec) = *self;
        put_second(out, ctime)?;
        put_u32(out, cusec)
    }
}

impl Saved for KerberosString {
    ghost at = { octets };

    fn take(alloc: Global, reader: &mut Reader<'_>) -> Result<KerberosString, CredError> {
        let octets = read_octets(reader)?;
        Ok(KerberosString::from_slice(alloc, octets)?)
    }

    fn put(&self, out: &mut Vec<u8>) -> Result<(), AllocError> {
        let octets = self.as_slice();
        put_word(out, octets.len() as u64)?;
        append(out, octets)
    }
}

fn take_name(alloc: Global, reader: &mut Reader<'_>) -> Result<Name, CredError>
    ensures { Reads result reader.new (name reader.old) }
{
    let name_type = reader.read_i32()?;
    let components = take_list(alloc, reader)?;
    Ok(Name {
        name_type,
        components: Seq::from_vec(components),
    })
}

fn put_name(out: &mut Vec<u8>, value: &Name) -> Result<(), AllocError>
    ensures { OnOk result (Puts name value.now out.old.items out.new.items) }
{
    put_i32(out, value.name_type)?;
    put_list(out, value.components.as_slice())
}

impl<V: Saved> Saved for Entry<V> {
    ghost at = { entry V.at };

    fn take(alloc: Global, reader: &mut Reader<'_>) -> Result<Entry<V>, CredError> {
        let name = take_name(alloc, reader)?;
        let value = V::take(alloc, reader)?;
        Ok(Entry { name, value })
    }

    fn put(&self, out: &mut Vec<u8>) -> Result<(), AllocError> {
        put_name(out, &self.name)?;
        self.value.put(out)
    }
}

//! SEQUENCE OF: lists, read in place and written.
ghost use Rattle.std.specs.Prelude.{◌≡◌, ◌<◌, ◌≤◌, ◌^◌, ◌++◌, IsOk, IfErr, OnOk, IfOk, List, length, map};
ghost use Rattle.std.specs.Iterator.{YieldsFirst, item_count};
ghost use Rattle.krb_elements.specs.Format.{Looks, Sees, items_of, values};
ghost use Rattle.krb_elements.specs.Written.{items_text};
ghost use Rattle.krb_elements.specs.Codec.{list_of};
ghost use Rattle.krb_elements.specs.CodecLaws.{AllFit};
ghost use Rattle.krb_elements.specs.Continues.{Continues};

use crate::codec::{Coded, MakeOwned};
use crate::reading::{Decode, look_all};
use crate::seq::Seq;
use crate::writing::Encode;
use krb_der::{DerFault, Items, Reader, Writer};
use std::alloc::{AllocError, Global};
use std::marker::{Model, PhantomData};

/// A borrowed list, whose elements have been read once.
///
/// Contracts see it as the list of their values.
#[derive(Debug, Drop)]
pub struct SeqRef<'a, T: Coded> {
    items: Items<'a>,
    of: PhantomData<T>,
}

impl<'a, T: Coded> Model for SeqRef<'a, T> {
    ghost use Rattle.std.specs.Prelude.{List};
    ghost use Rattle.krb_elements.specs.Format.{values};

    ghost Value = { List T };

    ghost view = { λ s. values T.codec.at s.items };
}

impl<'a, T: Coded> SeqRef<'a, T> {
    /// Returns an independent iterator over the same values.
    pub fn iter(&self) -> SeqRef<'a, T>
        // Promise: a borrowed list has the elements that its bytes spell; an iterator returns them one by one, and then
        // ends.
        ensures { result ≡ self.now }
    {
        SeqRef {
            items: self.items.iter(),
            of: PhantomData,
        }
    }
}

/// Returns the value of the next element that encodes one.
fn next_value<'a, T: Decode<'a>>(items: &mut Items<'a>) -> Option<T>
    ensures steps { YieldsFirst (values T.codec.at) items.old result items.new }
    ensures goes { length (values T.codec.at items.new) ≤ length (values T.codec.at items.old) }
{
    while let Some(item) = items.next() {
        if let Ok(value) = look_all(item) {
            return Some(value);
        }
    }
    None
}

/// Yields each value once.
impl<'a, T: Decode<'a>> Iterator for SeqRef<'a, T> {
    type Item = T;

    // Promise (next_gives, remaining), as SeqRef::iter: a borrowed list has ..
    ghost next_gives = { YieldsFirst (λ s. s) };

    ghost remaining = { item_count (λ s. s) };

    fn next(&mut self) -> Option<T> {
        next_value(&mut self.items)
    }
}

impl<'a, T: Decode<'a> + MakeOwned> MakeOwned for SeqRef<'a, T> {
    type Owned = Seq<T::Owned>;

    ghost same = { map T.same };

    fn copy(&self, alloc: Global) -> Result<Seq<T::Owned>, AllocError> {
        let mut copies = Seq::new(alloc);
        for value in self.iter() {
            copies.push(value.copy(alloc)?)?;
        }
        Ok(copies)
    }
}

/// Reads all elements, and returns the first error.
fn check_items<'a, T: Decode<'a>>(contents: &'a [u8]) -> Result<(), DerFault>
    ensures ok { OnOk result (IsOk (items_of T.codec.at contents.now)) }
    ensures err { IfErr result (λ e. items_of T.codec.at contents.now ≡ Err e) }
{
    let mut rest = Reader::new(contents);
    while !rest.is_empty() {
        let _item = T::look(&mut rest)?;
    }
    Ok(())
}

/// Returns the list with these contents.
fn checked<'a, T: Decode<'a>>(contents: &'a [u8]) -> Result<SeqRef<'a, T>, DerFault>
    ensures { Sees result (items_of T.codec.at contents.now) }
{
    check_items::<T>(contents)?;
    Ok(SeqRef {
        items: Items::new(contents),
        of: PhantomData,
    })
}

impl<'a, T: Coded> Coded for SeqRef<'a, T> {
    ghost codec = { list_of T.codec };
}

impl<'a, T: Decode<'a>> Decode<'a> for SeqRef<'a, T> {
    fn look(reader: &mut Reader<'a>) -> Result<SeqRef<'a, T>, DerFault> {
        checked(reader.read_tlv(0x30)?)
    }
}

/// Appends elements in order.
fn write_items<T: Encode>(out: &mut Writer, items: &[T]) -> Result<(), AllocError>
    requires { length (items_text T.codec.tag T.codec.text items.now) < 2 ^ 32 }
    ensures ok { OnOk result (out.new ≡ out.old ++ items_text T.codec.tag T.codec.text items.now) }
    ensures fits { OnOk result (AllFit T.codec.Fits items.now) }
    ensures kept { Continues out.old out.new }
{
    for item in items {
        item.put(out)?;
    }
    Ok(())
}

impl<T: Coded> Coded for Seq<T> {
    ghost codec = { list_of T.codec };
}

impl<T: Encode> Encode for Seq<T> {
    fn put(&self, out: &mut Writer) -> Result<(), AllocError> {
        let start = out.len();
        out.begin(0x30)?;
        write_items(out, self.as_slice())?;
        out.end(start)
    }
}

//! Lists that own their elements, read in one pass.
ghost use Rattle.krb_elements.specs.Format.{Decodes, items_of};

use crate::fault::Fault;
use crate::reading::{ReadOwned, expect_end};
use crate::seq::Seq;
use crate::taking::TakeOwned;
use krb_der::Reader;
use std::alloc::Global;

/// Reads elements that take up all of the bytes.
fn read_items<T: TakeOwned>(alloc: Global, contents: &[u8]) -> Result<Seq<T>, Fault>
    ensures { Decodes result (items_of T.codec.at contents.now) }
{
    let mut rest = Reader::new(contents);
    let mut items = Seq::new(alloc);
    while !rest.is_empty() {
        let item = T::take_parts(alloc, &mut rest)?;
        items.push(item)?;
    }
    Ok(items)
}

impl<T: TakeOwned> ReadOwned for Seq<T> {
    fn read_parts(alloc: Global, bytes: &[u8]) -> Result<Seq<T>, Fault> {
        let mut reader = Reader::new(bytes);
        let items = read_items(alloc, reader.read_tlv(0x30)?)?;
        expect_end(&reader)?;
        Ok(items)
    }
}

//! The elements of a list, read in place.
ghost use Rattle.std.specs.Prelude.{◌≡◌, List, ℕ, IfOk, IfErr, IsErr};
ghost use Rattle.std.specs.Iterator.{YieldsFirstRef, item_count};
ghost use Rattle.krb_der.specs.Items.{element_at, elements};
ghost use Rattle.krb_der.specs.Reading.{Gives};

use crate::fault::DerFault;
use crate::tlv::split_tlv;
use std::marker::Model;

/// Splits off the value at the front, with any tag: returns all of its bytes, and the bytes after it.
#[tactic(auto, unfolding(crate::specs::Items::element_at))]
fn split_element(bytes: &[u8]) -> Result<(&[u8], &[u8]), DerFault>
    ensures { Gives (λ x. (x.0.now, x.1.now)) result (element_at bytes.now) }
{
    let Some(tag) = bytes.first() else {
        return Err(DerFault::Truncated);
    };
    let (_, rest) = split_tlv(bytes, *tag)?;
    Ok(bytes.split_at(bytes.len() - rest.len()))
}

/// An iterator over the elements of a list that have been checked before. It yields all bytes of each element. (For
/// other contents it yields the elements up to the first place that is not an element.)
#[derive(Debug, Drop)]
pub struct Items<'a> {
    rest: &'a [u8],
}

impl<'a> Model for Items<'a> {
    ghost use Rattle.std.specs.Prelude.{List, ℕ};
    ghost use Rattle.krb_der.specs.Items.{elements};

    ghost Value = { List (List ℕ) };

    ghost view = { λ i. elements i.rest.now };
}

impl<'a> Items<'a> {
    /// Returns the elements of a list with these contents.
    pub fn new(contents: &'a [u8]) -> Items<'a>
        // Promise: the items of some bytes are the values in them, in order; an iterator returns them one by one, and
        // then ends.
        ensures { result ≡ elements contents.now }
    {
        Items { rest: contents }
    }

    /// Returns an independent iterator over the same elements.
    pub fn iter(&self) -> Items<'a>
        // Promise, as Items::new: the items of some ..
        ensures { result ≡ self.now }
    {
        Items { rest: self.rest }
    }
}

impl<'a> Iterator for Items<'a> {
    type Item = &'a [u8];

    // Promise (next_gives, remaining), as Items::new: the items of some ..
    ghost next_gives = { YieldsFirstRef (λ s. s) };

    ghost remaining = { item_count (λ s. s) };

    fn next(&mut self) -> Option<&'a [u8]> {
        let Ok((element, rest)) = split_element(self.rest) else {
            return None;
        };
        self.rest = rest;
        Some(element)
    }
}

//! Owned lists.
ghost use Rattle.std.specs.Prelude.{◌≡◌, ◌∷◌, ◌++◌, [], length, OnOk, OnErr, IsTrue, ◌↔◌, IfErr};

use std::alloc::{AllocFailed, Global};
use std::marker::Model;

/// A list of values, such as the components of a name. Contracts see the list.
#[derive(Debug, Drop)]
pub struct Seq<T> {
    items: Vec<T>,
}

impl<T> Model for Seq<T> {
    ghost use Rattle.std.specs.Prelude.{List};

    ghost Value = { List T };

    ghost view = { λ s. s.items.items };
}

impl<T> Seq<T> {
    /// Returns an empty list. It allocates nothing.
    pub fn new(alloc: Global) -> Seq<T>
        // Promise: a list has the elements that it was made from, in their order.
        ensures { result ≡ [] }
    {
        Seq {
            items: Vec::new(alloc),
        }
    }

    /// Returns the list of these values, without a copy.
    pub fn from_vec(items: Vec<T>) -> Seq<T>
        // Promise, as Seq::new: a list has the ..
        ensures { result ≡ items.items }
    {
        Seq { items }
    }

    /// Returns the values, in order.
    pub fn as_slice(&self) -> &[T]
        // Promise, as Seq::new: a list has the ..
        ensures { result.now ≡ self.now }
    {
        self.items.as_slice()
    }

    /// Returns the number of values.
    pub fn len(&self) -> usize
        // Promise, as Seq::new: a list has the ..
        ensures { result ≡ length self.now }
    {
        self.items.len()
    }

    /// Checks whether there is no value.
    pub fn is_empty(&self) -> bool
        // Promise, as Seq::new: a list has the ..
        ensures { IsTrue result ↔ (self.now ≡ []) }
    {
        self.items.is_empty()
    }

    /// Appends a value.
    pub fn push(&mut self, item: T) -> Result<(), AllocFailed<T>>
        // Promise (ok, err, item_returned): an element is appended to a list; if memory runs out, the list is unchanged
        // and the element is returned.
        ensures ok { OnOk result (self.new ≡ self.old ++ item ∷ []) }
        ensures err { OnErr result (self.new ≡ self.old) }
        ensures item_returned { IfErr result (λ failed. failed.value ≡ item) }
    {
        self.items.push(item)
    }
}

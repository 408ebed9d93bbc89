//! The record of what something in memory did.
ghost use Rattle.std.specs.Prelude.{◌≡◌, ◌∷◌, [], Some, None, IfOk, OnErr};
ghost use Rattle.std.specs.Option.{option_copied};
ghost use Rattle.kdc_hub.specs.Wire.{Records};

use std::alloc::{AllocError, Global};
use std::marker::Model;

/// Entries in order, until memory runs out. Contracts see the list, or none if an entry is missing.
#[derive(Drop)]
pub struct Record<T> {
    entries: Vec<T>,
    is_whole: bool,
}

impl<T> Model for Record<T> {
    ghost use Rattle.std.specs.Prelude.{List, Option};
    ghost use Rattle.kdc_hub.specs.Wire.{complete};

    ghost Value = { Option (List T) };

    ghost view = { λ r. complete r.is_whole r.entries.items };
}

impl<T: Drop> Record<T> {
    /// Returns an empty record.
    pub fn new(alloc: Global) -> Record<T>
        ensures { result ≡ Some [] }
    {
        Record {
            entries: Vec::new(alloc),
            is_whole: true,
        }
    }

    /// Returns the entries, unless one is missing.
    pub fn entries(&self) -> Option<&[T]>
        // Promise, as MemoryWire::did: what is in memory ..
        ensures { option_copied result ≡ self.now }
    {
        if self.is_whole {
            Some(self.entries.as_slice())
        } else {
            None
        }
    }

    /// Appends an entry. If memory ran out when it was made, or runs out now, an entry is missing from then on.
    pub fn keep(&mut self, entry: Result<T, AllocError>)
        ensures kept { IfOk entry (λ entry. Records self.old (entry ∷ []) self.new) }
        ensures lost { OnErr entry (self.new ≡ None) }
    {
        let Ok(entry) = entry else {
            self.is_whole = false;
            return;
        };
        let Ok(()) = self.entries.push(entry) else {
            self.is_whole = false;
            return;
        };
    }
}

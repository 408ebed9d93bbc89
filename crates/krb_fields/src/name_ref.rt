//! Borrowed names.
ghost use Rattle.std.specs.Prelude.{◌≡◌, IfOk};
ghost use Rattle.krb_fields.specs.Name.{name_cmp};

use crate::name::{Name, NameRef};
use krb_elements::MakeOwned;
use std::alloc::{AllocError, Global};
use std::cmp::Ordering;

impl<'a> NameRef<'a> {
    /// Returns a copy that owns its components.
    pub fn to_name(&self, alloc: Global) -> Result<Name, AllocError>
        // Promise, as Name::new: a name has the ..
        ensures { IfOk result (λ name. name ≡ self.now) }
    {
        self.copy(alloc)
    }

    /// Compares names by their components, like [`Name::order`].
    pub fn order(&self, other: &Name) -> Ordering
        // Promise, as Name::order: names are compared by ..
        ensures { result ≡ name_cmp self.now.components other.now.components }
    {
        let mut theirs = other.components.as_slice();
        for ours in self.components.iter() {
            let Some((first, rest)) = theirs.split_first() else {
                return Ordering::Greater;
            };
            match ours.as_slice().cmp(first.as_slice()) {
                Ordering::Equal => theirs = rest,
                unequal => return unequal,
            }
        }
        if theirs.is_empty() {
            Ordering::Equal
        } else {
            Ordering::Less
        }
    }
}

//! Names of principals.
ghost use Rattle.std.specs.Prelude.{◌≡◌, IfOk, IsTrue, ◌↔◌, map};
ghost use Rattle.krb_fields.specs.Name.{name_cmp};

use krb_elements::{KerberosString, KerberosStringRef, Seq, SeqRef};
use std::alloc::{AllocError, Global};
use std::cmp::Ordering;

/// A principal's name within its realm: the type `PrincipalName` of RFC 4120 section 5.2.2.
///
/// The name-type is a hint: names with the same components are the same principal, whatever their name-types (RFC 4120
/// section 6.2). So comparisons use only the components.
#[derive(Debug, Drop)]
pub struct Name<C = Seq<KerberosString>> {
    /// The name-type (RFC 4120, section 6.2), such as 1 for NT-PRINCIPAL.
    pub name_type: i32,
    /// The components in order, such as `host` and `a.example`.
    pub components: C,
}

/// A borrowed [`Name`].
pub type NameRef<'a> = Name<SeqRef<'a, KerberosStringRef<'a>>>;

impl Name {
    /// Returns the name with these components.
    pub fn new(alloc: Global, name_type: i32, components: &[&[u8]]) -> Result<Name, AllocError>
        // Promise: a name has the name-type and the components that it was made from; a copy is equal, also in its
        // name-type.
        ensures { IfOk result (λ name. name ≡ record {
          name_type = name_type;
          components = map
              (λ c. c.now) components.now;
        }) }
    {
        let mut owned = Seq::new(alloc);
        for component in components {
            owned.push(KerberosString::from_slice(alloc, component)?)?;
        }
        Ok(Name {
            name_type,
            components: owned,
        })
    }

    /// Compares names by their components, as Rust compares a `Vec<Vec<u8>>`.
    pub fn order(&self, other: &Name) -> Ordering
        // Promise: names are compared by their components alone, owned or borrowed.
        ensures { result ≡ name_cmp self.now.components other.now.components }
    {
        self.components.as_slice().cmp(other.components.as_slice())
    }

    /// Checks whether both are the same principal of a realm.
    pub fn is_same(&self, other: &Name) -> bool
        // Promise, as Name::order: names are compared by ..
        ensures { IsTrue result ↔ (self.now.components ≡ other.now.components) }
    {
        self.order(other).is_eq()
    }

    /// Returns a copy, with the same name-type.
    pub fn copy(&self, alloc: Global) -> Result<Name, AllocError>
        // Promise, as Name::new: a name has the ..
        ensures { IfOk result (λ name. name ≡ self.now) }
    {
        let mut components = Seq::new(alloc);
        for component in self.components.as_slice() {
            components.push(component.copy(alloc)?)?;
        }
        Ok(Name {
            name_type: self.name_type,
            components,
        })
    }
}

//! Principals with their realms, as in a credential cache.
ghost use Rattle.std.specs.Prelude.{◌≡◌, ◌∷◌, IfOk, OnOk};
ghost use Rattle.std.specs.Ordering.{eq_by_cmp};
ghost use Rattle.krb_fields.specs.Name.{name_cmp};
ghost use Rattle.cred_files.specs.Cache.{full_name};
ghost use Rattle.cred_files.specs.Principal.{principal};
ghost use Rattle.cred_files.specs.Reading.{Reads};

use crate::fault::CredError;
use crate::reader::Reader;
use crate::stored::{Stored, put_all, read_several};
use crate::width::Width;
use crate::writer::{put_i32, put_number};
use krb_elements::KerberosString;
use krb_fields::Name;
use std::alloc::{AllocError, Global};

/// A principal and its realm.
#[derive(Drop)]
pub struct Principal {
    /// The realm that it belongs to.
    pub realm: KerberosString,
    /// Its name in the realm, with the name-type.
    pub name: Name,
}

impl Principal {
    /// Returns a copy.
    pub fn copy(&self, alloc: Global) -> Result<Principal, AllocError>
        ensures { IfOk result (λ copy. copy ≡ self.now) }
    {
        Ok(Principal {
            realm: self.realm.copy(alloc)?,
            name: self.name.copy(alloc)?,
        })
    }
}

impl Principal {
    /// Checks whether it has this realm and this name. The name-type doesn't count.
    pub fn is(&self, realm: &[u8], name: &Name) -> bool
        ensures { result ≡ eq_by_cmp name_cmp (full_name self.now) (realm.now ∷ name.now.components) }
    {
        is_same(&self.realm, &self.name, realm, name)
    }
}

/// Checks whether both are the same principal: realms and names are equal. The name-types don't count.
pub fn is_same(realm: &KerberosString, name: &Name, other_realm: &[u8], other_name: &Name) -> bool
    ensures { result ≡ eq_by_cmp name_cmp (realm.now ∷ name.now.components)
        (other_realm.now ∷ other_name.now.components) }
{
    realm.as_slice() == other_realm && name.is_same(other_name)
}

/// Reads a principal of a cache: name-type, number of components, realm, components.
#[tactic(auto, unfolding(crate::specs::Principal::principal))]
pub fn read_principal(alloc: Global, reader: &mut Reader<'_>) -> Result<Principal, CredError>
    ensures { Reads result reader.new (principal.form.at reader.old) }
{
    let name_type = reader.read_i32()?;
    let count = reader.read_number(Width::Four)?;
    let realm = KerberosString::read(alloc, reader, Width::Four)?;
    let components = read_several(alloc, reader, Width::Four, count)?;
    let name = Name {
        name_type,
        components,
    };
    Ok(Principal { realm, name })
}

/// Appends a principal as a cache holds it: name-type, number of components, realm, components.
#[tactic(auto, unfolding(crate::specs::Principal::principal))]
pub fn put_principal(out: &mut Vec<u8>, value: &Principal) -> Result<(), AllocError>
    requires { principal.form.Fits value.now }
    ensures { OnOk result (out.new.items ≡ principal.form.onto out.old.items value.now) }
{
    let components = value.name.components.as_slice();
    put_i32(out, value.name.name_type)?;
    put_number(out, Width::Four, components.len())?;
    value.realm.put(out, Width::Four)?;
    put_all(out, Width::Four, components)
}

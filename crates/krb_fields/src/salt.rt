//! The salt for deriving keys from a principal's password.
ghost use Rattle.std.specs.Prelude.{◌≡◌, IfOk};
ghost use Rattle.krb_fields.specs.Salt.{default_salt};

use crate::Name;
use krb_elements::KerberosString;
use std::alloc::{AllocError, Global};

impl Name {
    /// Returns the default salt: the realm followed by the name's components, without separators (RFC 4120 section 4).
    pub fn salt(&self, alloc: Global, realm: &[u8]) -> Result<KerberosString, AllocError>
        // Promise, as tgs_name: a realm's ticket-granting service ..
        ensures { IfOk result (λ salt. salt ≡ default_salt realm.now self.now.components) }
    {
        let mut salt = Vec::from_slice(alloc, realm)?;
        for component in self.components.as_slice() {
            salt.extend_from_slice(component.as_slice())?;
        }
        Ok(KerberosString::new(salt))
    }
}

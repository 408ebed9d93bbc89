//! The limits on names in a realm's database: 1 to 16 components of 1 to 255 bytes.
//!
//! RFC 4120 sets no limits. A name in a message may exceed these; then the database has no row for it.
ghost use Rattle.std.specs.Prelude.{◌≡◌};
ghost use Rattle.std.specs.List.{list_all};
ghost use Rattle.krb_fields.specs.NameLimits.{is_component, is_within_limits};

use crate::Name;
use krb_elements::KerberosString;

/// The maximum number of components of a name.
pub const MAX_COMPONENTS: usize = 16;

/// The maximum length of a component or a realm, in bytes.
pub const MAX_OCTETS: usize = 255;

/// Checks whether these are the bytes of a component or a realm: 1 to 255 of them.
pub fn is_component(octets: &[u8]) -> bool
    // Promise: a component has 1 to 255 bytes, and a name has 1 to 16 components.
    ensures { result ≡ is_component octets.now }
{
    !octets.is_empty() && octets.len() <= MAX_OCTETS
}

impl Name {
    /// Checks whether the name has 1 to 16 components of 1 to 255 bytes.
    pub fn is_within_limits(&self) -> bool
        // Promise, as is_component: a component has 1 ..
        ensures { result ≡ is_within_limits self.now.components }
    {
        let components = self.components.as_slice();
        !components.is_empty() && components.len() <= MAX_COMPONENTS && are_components(components)
    }
}

fn are_components(strings: &[KerberosString]) -> bool
    ensures { result ≡ list_all is_component strings.now }
{
    strings.iter().all(|string| is_component(string.as_slice()))
}

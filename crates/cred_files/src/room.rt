//! Checks whether a credential fits in a cache, where lengths and counts have 32 bits.
ghost use Rattle.std.specs.Prelude.{IsTrue, All};
ghost use Rattle.cred_files.specs.Cache.{FitsButForTimes};
ghost use Rattle.cred_files.specs.Credential as formats;
ghost use Rattle.cred_files.specs.Format.{counted_octets, list};
ghost use Rattle.cred_files.specs.Principal as names;
ghost use Rattle.cred_files.specs.declared.width.Width.TheVariants.{Four};

use crate::credential::{Credential, SessionKey, TypedOctets};
use crate::principal::Principal;
use crate::stored::Stored;
use krb_elements::KerberosString;

/// The maximum length, and the maximum count.
const MOST: usize = 0xffff_ffff;

/// A value that may or may not fit in a cache.
trait Room: Stored {
    ghost use Rattle.cred_files.specs.declared.width.Width.TheVariants.{Four};

    fn has_room(&self) -> bool
        ensures { IsTrue result → (Self.format Four).form.Fits self.now };
}

impl Room for KerberosString {
    fn has_room(&self) -> bool {
        is_short(self.as_slice())
    }
}

#[tactic(auto, unfolding(crate::specs::Credential::typed_octets))]
impl Room for TypedOctets {
    fn has_room(&self) -> bool {
        let _data_type = self.data_type;
        is_short(self.octets.as_slice())
    }
}

fn is_short(octets: &[u8]) -> bool
    ensures { IsTrue result → (counted_octets Four).form.Fits octets.now }
{
    octets.len() <= MOST
}

fn all_have_room<T: Room>(values: &[T]) -> bool
    ensures { IsTrue result → All (T.format Four).form.Fits values.now }
{
    for value in values {
        if !value.has_room() {
            return false;
        }
    }
    true
}

fn list_has_room(values: &[TypedOctets]) -> bool
    ensures { IsTrue result → (list Four formats.typed_octets).form.Fits values.now }
{
    values.len() <= MOST && all_have_room(values)
}

#[tactic(auto, unfolding(crate::specs::Credential::session_key))]
fn key_has_room(key: &SessionKey) -> bool
    ensures { IsTrue result → formats.session_key.form.Fits key.now }
{
    let _key_type = key.key_type;
    is_short(key.octets.as_slice())
}

#[tactic(auto, unfolding(crate::specs::Principal::principal))]
fn principal_has_room(principal: &Principal) -> bool
    ensures { IsTrue result → names.principal.form.Fits principal.now }
{
    let _name_type = principal.name.name_type;
    let components = principal.name.components.as_slice();
    components.len() <= MOST && is_short(principal.realm.as_slice()) && all_have_room(components)
}

impl Credential {
    /// Checks whether it fits in a cache, apart from its times (see [`crate::Times::fit`]).
    #[tactic(auto, unfolding(crate::specs::Credential::credential))]
    pub fn has_room(&self) -> bool
        ensures fits { IsTrue result → FitsButForTimes self.now }
        ensures client { IsTrue result → names.principal.form.Fits self.now.client }
    {
        let _flags = self.flags.bits();
        principal_has_room(&self.client)
            && principal_has_room(&self.server)
            && key_has_room(&self.key)
            && list_has_room(self.addresses.as_slice())
            && list_has_room(self.authorization.as_slice())
            && is_short(self.ticket.as_slice())
            && is_short(self.second_ticket.as_slice())
    }
}

//! The key that decrypts a ticket.
ghost use Rattle.std.specs.Prelude.{◌≡◌, not, option_copied};
ghost use Rattle.ap_req.specs.HeldKey.{lacks_key, lacks_version};

use enctypes::Key;
use krb_fields::EncryptedDataRef;
use std::marker::Model;

/// What a server finds for a ticket where it keeps its keys.
#[derive(Drop)]
pub struct HeldKey<'k> {
    /// Whether the ticket is for a service of this server.
    pub is_for_us: bool,
    /// Whether the service has a key of the ticket's encryption type, of any version.
    pub has_type: bool,
    /// The service's key of the ticket's encryption type and key version; without a version, the current one.
    pub key: Option<&'k Key>,
}

impl<'k> Model for HeldKey<'k> {
    ghost use Rattle.std.specs.Prelude.{option_copied};
    ghost use Rattle.ap_req.specs.HeldKey as trees;

    ghost Value = { trees.HeldKey };

    ghost view = { λ held. record {
      is_for_us = held.is_for_us;
      has_type = held.has_type;
      key = option_copied held.key;
    } };
}

/// Checks whether no version has a key of the encryption type, or the ticket names no key version and the current one
/// has no such key.
pub fn lacks_key(held: &HeldKey<'_>, sealed: &EncryptedDataRef<'_>) -> bool
    ensures { result ≡ lacks_key held.now sealed.now }
{
    !held.has_type || (sealed.kvno.is_none() && held.key.is_none())
}

/// Checks whether the ticket names a key version that has no key of the encryption type.
pub fn lacks_version(held: &HeldKey<'_>, sealed: &EncryptedDataRef<'_>) -> bool
    ensures { result ≡ lacks_version held.now sealed.now }
{
    sealed.kvno.is_some() && held.key.is_none()
}

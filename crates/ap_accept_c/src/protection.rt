//! Seals, opens and checks bytes with a key: what client and service say after an AP exchange.
ghost use Rattle.std.specs.Prelude.{◌≡◌};
ghost use Rattle.enctypes.specs.Sealing.{mac, opened, seal};
ghost use Rattle.ap_accept_c.specs.declared.status.Status.TheVariants.{BadArgument};
ghost use Rattle.ap_accept_c.specs.Protection.{key_in, verified, IsDone, IsMade, IsRefused, IsUnsealed};

use crate::buffers::{Given, give};
use crate::raw_key::RawKey;
use crate::status::Status;
use enctypes::ApplicationUsage;
use krb_fields::Code;
use std::alloc::Global;

/// The usage and the confounder with which a text is sealed.
#[repr(C)]
#[derive(Clone, Copy)]
pub struct Sealing {
    /// The number of the usage; one has 1024 to 2047.
    pub usage: u32,
    /// Random bytes that nobody else knows.
    pub confounder: [u8; 16],
}

/// Seals a text.
pub fn seal(alloc: Global, key: &RawKey, sealing: &Sealing, text: &[u8], to: &mut [u8]) -> Given
    ensures { IsDone (key_in key.now.number key.now.octets) sealing.now.usage
        (IsRefused result.status to.old to.new result.len)
        (λ k. IsMade result.status (seal k.etype k.bytes sealing.now.usage sealing.now.confounder text.now)
        to.old to.new result.len) }
{
    let Some(key) = key.key() else {
        return Given::none(Status::BadArgument);
    };
    let Some(usage) = ApplicationUsage::new(sealing.usage) else {
        return Given::none(Status::BadArgument);
    };
    match usage.seal(alloc, &key, &sealing.confounder, text) {
        Ok(sealed) => give(sealed.as_slice(), to),
        Err(_) => Given::none(Status::NoMemory),
    }
}

/// Opens a sealed text.
pub fn unseal(alloc: Global, key: &RawKey, usage: u32, sealed: &[u8], to: &mut [u8]) -> Given
    ensures { IsDone (key_in key.now.number key.now.octets) usage
        (IsRefused result.status to.old to.new result.len)
        (λ k. IsUnsealed result.status (opened k.etype k.bytes usage sealed.now) to.old to.new result.len) }
{
    let Some(key) = key.key() else {
        return Given::none(Status::BadArgument);
    };
    let Some(usage) = ApplicationUsage::new(usage) else {
        return Given::none(Status::BadArgument);
    };
    match usage.open(alloc, &key, sealed) {
        Ok(Some(text)) => give(text.as_slice(), to),
        Ok(None) => Given::none(Status::Failed(Code::KrbApErrBadIntegrity)),
        Err(_) => Given::none(Status::NoMemory),
    }
}

/// Copies the checksum of a text.
pub fn checksum(key: &RawKey, usage: u32, text: &[u8], to: &mut [u8]) -> Given
    ensures { IsDone (key_in key.now.number key.now.octets) usage
        (IsRefused result.status to.old to.new result.len)
        (λ k. IsMade result.status (mac k.etype k.bytes usage text.now) to.old to.new result.len) }
{
    let Some(key) = key.key() else {
        return Given::none(Status::BadArgument);
    };
    let Some(usage) = ApplicationUsage::new(usage) else {
        return Given::none(Status::BadArgument);
    };
    give(usage.checksum(&key, text).bytes(), to)
}

/// Checks whether the bytes are the checksum of a text.
pub fn verify(key: &RawKey, usage: u32, text: &[u8], octets: &[u8]) -> Status
    ensures { IsDone (key_in key.now.number key.now.octets) usage (result ≡ BadArgument)
        (λ k. result ≡ verified k usage text.now octets.now) }
{
    let Some(key) = key.key() else {
        return Status::BadArgument;
    };
    let Some(usage) = ApplicationUsage::new(usage) else {
        return Status::BadArgument;
    };
    if usage.verify(&key, text, octets) {
        Status::Done
    } else {
        Status::Failed(Code::KrbApErrModified)
    }
}

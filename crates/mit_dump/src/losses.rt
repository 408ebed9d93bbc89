//! The parts of a principal that have no place in a row.
ghost use Rattle.std.specs.Prelude.{◌≡◌, ◌++◌, IfOk, OnOk};
ghost use Rattle.mit_dump.specs.Losses.{has_policy, has_twin, is_default, key_loss, key_losses, loss_if, losses};
ghost use Rattle.mit_dump.specs.Losses.{lost_bits, names_policy};

use crate::Attribute;
use crate::master::part_tagged;
use crate::part::Part;
use crate::place::has_key;
use crate::principal::DumpedPrincipal;
use crate::stored_key::StoredKey;
use krb_fields::{Flags, Name};
use std::alloc::{AllocError, Global};
use std::fmt;

/// A part of a principal that has no place in a row.
#[derive(Clone, Copy, Debug, PartialEq, Eq)]
pub enum Loss {
    /// The principal: it is of another realm.
    Realm,
    /// The principal: its name has more than 16 components, or one of them doesn't have 1 to 255 bytes.
    Name,
    /// The principal: it has no key with a place.
    NoKeys,
    /// Its password policy, with the lock after failed logins.
    Policy,
    /// Its string attributes (`setstr`).
    Strings,
    /// These bits of its attributes.
    Attributes(u32),
    /// A key with another encryption type.
    KeyType { etype: u32, version: u32 },
    /// A key with version 0.
    NoVersion { etype: u32 },
    /// The second key with the same type and version.
    Twin { etype: u32, version: u32 },
    /// The salt of a key: it is not that of the principal's name, so the password doesn't give the key.
    Salt { etype: u32, version: u32 },
}

/// The attributes without a place that MIT gives a name, with the words of `kadmin`.
const ATTRIBUTES: &[(Attribute, &str)] = &[
    (Attribute::DisallowTgsReq, "-allow_tgs_req"),
    (Attribute::DisallowDupSkey, "-allow_dup_skey"),
    (Attribute::RequiresHwAuth, "+requires_hwauth"),
    (Attribute::PwchangeService, "+password_changing_service"),
    (Attribute::OkToAuthAsDelegate, "+ok_to_auth_as_delegate"),
];

impl fmt::Display for Loss {
    fn fmt<W: fmt::Write>(&self, f: &mut fmt::Formatter<W>) -> fmt::Result {
        match self {
            Loss::Realm => f.write_str("it is of another realm"),
            Loss::Name => f.write_str(
                "its name has more than 16 components, or one that has not 1 to 255 bytes",
            ),
            Loss::NoKeys => f.write_str("it has no key of type 17, 18, 19 or 20"),
            Loss::Policy => f.write_str("its policy, with the lock after failed logins"),
            Loss::Strings => f.write_str("its string attributes"),
            Loss::Attributes(bits) => write_attributes(f, *bits),
            Loss::KeyType { etype, version } => {
                write!(f, "its key of type {etype}, version {version}")
            }
            Loss::NoVersion { etype } => write!(f, "its key of type {etype}, version 0"),
            Loss::Twin { etype, version } => {
                write!(f, "its second key of type {etype}, version {version}")
            }
            Loss::Salt { etype, version } => write!(
                f,
                "the salt of its key of type {etype}, version {version}: the password does not give this key here"
            ),
        }
    }
}

/// Writes attributes in the words of `kadmin`, and bits without a word as a number.
fn write_attributes<W: fmt::Write>(f: &mut fmt::Formatter<W>, bits: u32) -> fmt::Result {
    f.write_str("its attributes")?;
    let mut left = Flags::from_bits(bits);
    for (attribute, word) in ATTRIBUTES {
        if left.has(*attribute) {
            write!(f, " {word}")?;
            left = left.without(*attribute);
        }
    }
    if left.bits() == 0 {
        return Ok(());
    }
    write!(f, " {:#x}", left.bits())
}

/// The number of the tagged data with the policy: `KRB5_TL_KADM_DATA`.
const KADM_DATA: u32 = 3;

/// The number of the tagged data with string attributes: `KRB5_TL_STRING_ATTRS`.
const STRING_ATTRS: u32 = 11;

/// The attributes that matter for tickets and have no place in a policy: [`ATTRIBUTES`], and bits that MIT gives no
/// name.
const UNPLACED: u32 = 0xff2f_2d24;

/// The type of the default salt: `KRB5_KDB_SALTTYPE_NORMAL`.
const NORMAL_SALT: u32 = 0;

impl DumpedPrincipal {
    /// Returns what has no place in a database of this realm.
    pub fn losses(&self, alloc: Global, realm: &[u8]) -> Result<Vec<Loss>, AllocError>
        // Promise, as import_dump of kadm_changes: without `--skip` nothing of ..
        ensures { IfOk result (λ found. found.items ≡ losses realm.now self.now) }
    {
        let mut losses = Vec::new(alloc);
        push_if(&mut losses, self.realm.as_slice() != realm, Loss::Realm)?;
        push_if(&mut losses, !self.name.is_within_limits(), Loss::Name)?;
        push_if(&mut losses, !has_key(&self.keys), Loss::NoKeys)?;
        push_if(&mut losses, has_policy(&self.tagged), Loss::Policy)?;
        push_if(
            &mut losses,
            part_tagged(&self.tagged, STRING_ATTRS).is_some(),
            Loss::Strings,
        )?;
        let lost = lost_bits(self.numbers.attributes.bits());
        push_if(&mut losses, lost != 0, Loss::Attributes(lost))?;
        let salt = self.name.salt(alloc, self.realm.as_slice())?;
        push_key_losses(&mut losses, &self.keys, salt.as_slice())?;
        Ok(losses)
    }
}

/// Checks whether tagged data names a policy: its second four bytes, which are the length of the name, are not zero.
fn has_policy(tagged: &[Part]) -> bool
    ensures { result ≡ has_policy tagged.now }
{
    match part_tagged(tagged, KADM_DATA) {
        Some(part) => names_policy(part.octets.as_slice()),
        None => false,
    }
}

fn names_policy(octets: &[u8]) -> bool
    ensures { result ≡ names_policy octets.now }
{
    match octets {
        [_, _, _, _, a, b, c, d, ..] => *a != 0 || *b != 0 || *c != 0 || *d != 0,
        _ => false,
    }
}

/// Returns the attributes without a place.
fn lost_bits(attributes: u32) -> u32
    ensures { result ≡ lost_bits attributes }
{
    attributes & UNPLACED
}

fn push_if(losses: &mut Vec<Loss>, is_lost: bool, loss: Loss) -> Result<(), AllocError>
    ensures { OnOk result (losses.new.items ≡ losses.old.items ++ loss_if is_lost loss) }
{
    if is_lost {
        losses.push(loss)?;
    }
    Ok(())
}

fn push_key_losses(
    losses: &mut Vec<Loss>,
    keys: &[StoredKey],
    salt: &[u8],
) -> Result<(), AllocError>
    ensures { OnOk result (losses.new.items ≡ losses.old.items ++ key_losses salt.now keys.entry.now) }
{
    let mut rest = keys;
    while let [key, later @ ..] = rest {
        if let Some(loss) = key_loss(key, later, salt) {
            losses.push(loss)?;
        }
        rest = later;
    }
    Ok(())
}

/// Returns what is lost of a key, given the keys after it.
fn key_loss(key: &StoredKey, later: &[StoredKey], salt: &[u8]) -> Option<Loss>
    ensures { result ≡ key_loss salt.now key.now later.now }
{
    let etype = key.key.tag;
    let version = key.version;
    if version == 0 {
        return Some(Loss::NoVersion { etype });
    }
    if key.etype().is_none() {
        return Some(Loss::KeyType { etype, version });
    }
    if has_twin(key, later) {
        return Some(Loss::Twin { etype, version });
    }
    if !has_default_salt(key, salt) {
        return Some(Loss::Salt { etype, version });
    }
    None
}

fn has_twin(key: &StoredKey, later: &[StoredKey]) -> bool
    ensures { result ≡ has_twin key.now later.now }
{
    later.iter().any(|other| other.key.tag == key.key.tag && other.version == key.version)
}

/// Checks whether the salt of a key is the default one, by its type or by its bytes.
fn has_default_salt(key: &StoredKey, salt: &[u8]) -> bool
    ensures { result ≡ is_default salt.now key.now.salt }
{
    match &key.salt {
        Some(given) => given.tag == NORMAL_SALT || given.octets.as_slice() == salt,
        None => true,
    }
}

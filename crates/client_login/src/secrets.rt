//! How a client proves who it is: with a password, or a keytab (RFC 4120, section 5.2.7.5).
ghost use Rattle.std.specs.Prelude.{◌≡◌, ◌∷◌, true, Err, None, Some, option_copied, Ok, IfErr, IfOk, OnOk};
ghost use Rattle.client_core.specs.Passwords as passwords;
ghost use Rattle.client_login.specs.Faults.{IsNoKey, IsNoKeytabKey, IsNoPasswordKey, info_for};
ghost use Rattle.client_login.specs.Infos.{default_info};
ghost use Rattle.client_login.specs.declared.faults.LoginError.TheVariants as causes;
ghost use Rattle.client_login.specs.declared.secrets.Secret.TheVariants as secrets;
ghost use Rattle.client_login.specs.Keys.{IsKeytabKey, IsOwnKey, IsPasswordKey, etypes_for, held_types, is_below};
ghost use Rattle.client_login.specs.Keys.{is_weak, is_weak_if, key_named, key_numbered, key_typed};
ghost use Rattle.client_login.specs.Keys.{least_count, next_key, with_held};

use crate::faults::LoginError;
use crate::infos::info_in_reply;
use crate::ticket_requests::offered;
use client_core::{Asked, EtypeInfo2, ReplyError, iteration_count, password_key, usable_entry};
use cred_files::{Keytab, Principal};
use encrypted_data::type_numbered;
use enctypes::{Etype, Key};
use krb_elements::{Octets, Seq};
use krb_fields::Name;
use krb_fields::numbers::AS_REP;
use krb_types::{EtypeInfo2Entry, KdcRepRef};
use std::alloc::{AllocError, Global};

/// A client's secret, which proves who it is.
#[derive(Drop)]
pub enum Secret {
    /// A password.
    Password(Password),
    /// A keytab with the client's keys.
    Keytab(Keytab),
}

impl Secret {
    /// Returns the secret of a password: the bytes of this text, with each type's default count as the fewest
    /// iterations.
    pub fn password(alloc: Global, text: &str) -> Result<Secret, AllocError>
        // Promise: the secret of a password has the bytes of its text, and each type's default count as the fewest
        // iterations.
        ensures { IfOk result (λ secret.
            secret ≡ secrets.Password (record { octets = text.now; least_count = None })) }
    {
        Ok(Secret::Password(Password {
            octets: Octets::from_slice(alloc, text.as_bytes())?,
            least_count: None,
        }))
    }
}

/// A password, from which a key is derived as the KDC says.
#[derive(Drop)]
pub struct Password {
    /// The bytes of the password, which string-to-key takes as they are.
    pub octets: Octets,
    /// The fewest iterations of string-to-key that the client accepts. Absent: the type's default, 4,096 for the types
    /// 17 and 18 and 32,768 for the types 19 and 20. A program on the path to the KDC may name any count and salt, and
    /// sees what is encrypted with such a key. So fewer iterations make passwords cheaper to guess.
    pub least_count: Option<u32>,
}

/// Returns the types that a client requests: with a keytab those of the client's keys in it.
pub(crate) fn etypes_for(
    alloc: Global,
    secret: &Secret,
    client: &Principal,
) -> Result<Seq<Etype>, AllocError>
    // Promise, as first_asked: a request has the ..
    ensures { IfOk result (λ etypes. etypes ≡ etypes_for secret.now client.now) }
{
    match secret {
        Secret::Password(_) => offered(alloc),
        Secret::Keytab(keytab) => held_types(alloc, keytab, client),
    }
}

fn held_types(alloc: Global, keytab: &Keytab, client: &Principal) -> Result<Seq<Etype>, AllocError>
    ensures { IfOk result (λ etypes.
        etypes ≡ held_types keytab.now (client.now.realm ∷ client.now.name.components)) }
{
    let mut etypes = Seq::new(alloc);
    push_held(&mut etypes, keytab, client, Etype::Aes256CtsHmacSha1_96)?;
    push_held(&mut etypes, keytab, client, Etype::Aes128CtsHmacSha1_96)?;
    push_held(&mut etypes, keytab, client, Etype::Aes256CtsHmacSha384_192)?;
    push_held(&mut etypes, keytab, client, Etype::Aes128CtsHmacSha256_128)?;
    Ok(etypes)
}

fn push_held(
    etypes: &mut Seq<Etype>,
    keytab: &Keytab,
    client: &Principal,
    etype: Etype,
) -> Result<(), AllocError>
    ensures { OnOk result (etypes.new
        ≡ with_held keytab.now (client.now.realm ∷ client.now.name.components) etype etypes.old) }
{
    if keytab.has(client.realm.as_slice(), &client.name, Some(etype)) {
        etypes.push(etype)?;
    }
    Ok(())
}

/// Returns the key for a timestamp, given the KDC's information about the client's keys. With a keytab it is that of
/// the first type that the KDC names and the keytab has.
pub(crate) fn key_wanted(
    alloc: Global,
    secret: &Secret,
    asked: &Asked,
    info: &EtypeInfo2,
) -> Result<Key, LoginError>
    ensures own { IfOk result (λ key. IsOwnKey secret.now asked.now.realm asked.now.client key) }
    ensures err { IfErr result (λ why. IsNoKey secret.now asked.now.realm asked.now.client info.now why) }
{
    match secret {
        Secret::Password(password) => key_of_password(alloc, password, asked, info),
        Secret::Keytab(keytab) => named_key(keytab, asked, info),
    }
}

/// Returns the key that decrypts an AS-REP. With a keytab it is that of the reply's type.
pub(crate) fn key_of_reply(
    alloc: Global,
    secret: &Secret,
    asked: &Asked,
    reply: &KdcRepRef<'_, AS_REP>,
) -> Result<Key, LoginError>
    ensures own { IfOk result (λ key. IsOwnKey secret.now asked.now.realm asked.now.client key) }
    ensures err { IfErr result (λ why.
        IsNoKey secret.now asked.now.realm asked.now.client (info_for secret.now reply.now) why) }
{
    match secret {
        Secret::Password(password) => {
            let info = info_in_reply(alloc, reply)?;
            key_of_password(alloc, password, asked, &info)
        }
        Secret::Keytab(keytab) => numbered_key(keytab, asked, reply.enc_part.etype),
    }
}

/// Returns the key that decrypts the reply to a request with a timestamp: with a password the timestamp's.
pub(crate) fn key_of_next_reply(
    secret: &Secret,
    asked: &Asked,
    key: &Key,
    reply: &KdcRepRef<'_, AS_REP>,
) -> Result<Key, LoginError>
    requires { IsOwnKey secret.now asked.now.realm asked.now.client key.now }
    // With a keytab it is that of the type that the reply is encrypted with.
    // Promise: the timestamp's key decrypts the reply to a request with a timestamp.
    ensures next { IfOk result (λ found. Some found
        ≡ next_key secret.now (asked.now.realm ∷ asked.now.client.components) key.now reply.now.enc_part.etype) }
    ensures own { IfOk result (λ found. IsOwnKey secret.now asked.now.realm asked.now.client found) }
    ensures err { IfErr result (λ why.
        IsNoKey secret.now asked.now.realm asked.now.client (info_for secret.now reply.now) why) }
{
    let Secret::Keytab(keytab) = secret else {
        return Ok(*key);
    };
    numbered_key(keytab, asked, reply.enc_part.etype)
}

/// Returns the client's key with a type.
#[tactic(auto, using(crate::proofs::OwnKeys::numbered_held, crate::proofs::OwnKeys::unnumbered))]
fn numbered_key(keytab: &Keytab, asked: &Asked, number: i32) -> Result<Key, LoginError>
    ensures value { IfOk result (λ key. Some key
        ≡ key_numbered keytab.now (asked.now.realm ∷ asked.now.client.components) number) }
    ensures own { IfOk result (λ key.
        IsKeytabKey keytab.now (asked.now.realm ∷ asked.now.client.components) key) }
    ensures err { IfErr result (λ why.
        IsNoKeytabKey keytab.now (asked.now.realm ∷ asked.now.client.components) (default_info number) why) }
{
    given(key_numbered(keytab, asked.realm.as_slice(), &asked.client, number))
}

/// Returns the key of a password, unless the KDC requests fewer iterations than the least count.
#[tactic(auto, using(crate::proofs::OwnKeys::strong_key))]
fn key_of_password(
    alloc: Global,
    password: &Password,
    asked: &Asked,
    info: &EtypeInfo2,
) -> Result<Key, LoginError>
    // Promise, as info_in_reply: a key from a ..
    ensures value { IfOk result (λ key. Ok key
        ≡ passwords.password_key password.now.octets asked.now.realm asked.now.client info.now) }
    ensures own { IfOk result (λ key. IsPasswordKey password.now asked.now.realm asked.now.client key) }
    ensures weak { is_weak password.now.least_count info.now ≡ true → result ≡ Err causes.WeakCount }
    ensures err { IfErr result (λ why.
        IsNoPasswordKey password.now asked.now.realm asked.now.client info.now why) }
{
    if is_weak(password.least_count, info.as_slice()) {
        return Err(LoginError::WeakCount);
    }
    made_key(alloc, password, asked, info)
}

fn made_key(
    alloc: Global,
    password: &Password,
    asked: &Asked,
    info: &EtypeInfo2,
) -> Result<Key, LoginError>
    ensures value { IfOk result (λ key. Ok key
        ≡ passwords.password_key password.now.octets asked.now.realm asked.now.client info.now) }
    ensures err { IfErr result (λ why.
        IsNoPasswordKey password.now asked.now.realm asked.now.client info.now why) }
{
    let octets = password.octets.as_slice();
    match password_key(alloc, octets, asked.realm.as_slice(), &asked.client, info) {
        Ok(key) => Ok(key),
        Err(ReplyError::CannotOpen) => Err(LoginError::NoKnownType),
        Err(ReplyError::CountTooLarge) => Err(LoginError::CountTooLarge),
        // a password gives no other fault
        Err(_) => Err(LoginError::Memory),
    }
}

/// Checks whether the entry that the key is derived from requests fewer iterations than the least count.
fn is_weak(least: Option<u32>, info: &[EtypeInfo2Entry]) -> bool
    ensures { result ≡ is_weak least info.now }
{
    match usable_entry(info) {
        Some(entry) => is_weak_entry(least, entry),
        None => false,
    }
}

fn is_weak_entry(least: Option<u32>, entry: &EtypeInfo2Entry) -> bool
    ensures { result ≡ is_weak_if least (Some entry.now) }
{
    match type_numbered(entry.etype) {
        Some(etype) => is_below(
            least_count(least, etype),
            iteration_count(etype, &entry.s2kparams),
        ),
        None => false,
    }
}

fn is_below(least: u32, count: Option<u32>) -> bool
    ensures { result ≡ is_below least count }
{
    match count {
        Some(count) => count < least,
        None => false,
    }
}

fn least_count(least: Option<u32>, etype: Etype) -> u32
    ensures { result ≡ least_count least etype }
{
    match least {
        Some(least) => least,
        None => etype.default_count(),
    }
}

#[tactic(auto, using(crate::proofs::OwnKeys::named_held, crate::proofs::OwnKeys::unnamed))]
fn named_key(keytab: &Keytab, asked: &Asked, info: &EtypeInfo2) -> Result<Key, LoginError>
    ensures value { IfOk result (λ key. Some key
        ≡ key_named keytab.now (asked.now.realm ∷ asked.now.client.components) info.now) }
    ensures own { IfOk result (λ key. IsKeytabKey keytab.now (asked.now.realm ∷ asked.now.client.components) key) }
    ensures err { IfErr result (λ why.
        IsNoKeytabKey keytab.now (asked.now.realm ∷ asked.now.client.components) info.now why) }
{
    given(key_named(
        keytab,
        asked.realm.as_slice(),
        &asked.client,
        info.as_slice(),
    ))
}

fn given(found: Option<&Key>) -> Result<Key, LoginError>
    ensures ok { IfOk result (λ key. Some key ≡ option_copied found.entry) }
    ensures err { IfErr result (λ why. (option_copied found.entry ≡ None) × (why ≡ causes.NoKey)) }
{
    match found {
        Some(key) => Ok(*key),
        None => Err(LoginError::NoKey),
    }
}

/// Returns the key of the first type that the KDC names and the keytab has.
fn key_named<'k>(
    keytab: &'k Keytab,
    realm: &[u8],
    name: &Name,
    info: &[EtypeInfo2Entry],
) -> Option<&'k Key>
    // Promise: from a keytab, the key is that of the first type that the KDC names and the keytab has, or of the
    // reply's type, in its highest version.
    ensures { option_copied result ≡ key_named keytab.now (realm.now ∷ name.now.components) info.now }
{
    for entry in info {
        if let Some(key) = key_numbered(keytab, realm, name, entry.etype) {
            return Some(key);
        }
    }
    None
}

fn key_numbered<'k>(keytab: &'k Keytab, realm: &[u8], name: &Name, number: i32) -> Option<&'k Key>
    // Promise, as key_named: from a keytab, the ..
    ensures { option_copied result ≡ key_numbered keytab.now (realm.now ∷ name.now.components) number }
{
    key_typed(keytab, realm, name, type_numbered(number))
}

/// Returns the key of a type with the greatest version.
fn key_typed<'k>(
    keytab: &'k Keytab,
    realm: &[u8],
    name: &Name,
    etype: Option<Etype>,
) -> Option<&'k Key>
    ensures { option_copied result ≡ key_typed keytab.now (realm.now ∷ name.now.components) etype }
{
    match etype {
        Some(etype) => keytab.find(realm, name, etype, None).ok(),
        None => None,
    }
}

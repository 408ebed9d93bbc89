//! A principal in a dump.
ghost use Rattle.std.specs.Prelude.{◌≡◌, IfOk, OnOk};
ghost use Rattle.mit_dump.specs.Principal.{IsEnd, IsPrincipal, TakesCounts, TakesLogins, TakesName, TakesNumbers};

use crate::fault::Cause;
use crate::fields::{Fields, octets};
use crate::name_text::{FullName, read_full_name};
use crate::part::{Part, read_parts};
use crate::stored_key::{StoredKey, read_keys};
use krb_elements::KerberosString;
use krb_fields::{Flags, Name};
use std::alloc::Global;

/// The length of the fixed part of MIT's `krb5_db_entry`, with which each principal begins.
const BASE_LENGTH: u32 = 38;

/// What a dump says about a principal.
#[derive(Drop)]
pub struct DumpedPrincipal {
    /// Its name in the realm. A dump has no name-type: it is NT-PRINCIPAL.
    pub name: Name,
    /// Its realm, which may be another than that of the database.
    pub realm: KerberosString,
    /// What it is allowed, and until when.
    pub numbers: Numbers,
    /// Tagged data: the version of the master key, the policy and other things.
    pub tagged: Vec<Part>,
    /// Its keys in all versions, of any encryption type, encrypted with the master key.
    pub keys: Vec<StoredKey>,
}

/// The numbers of a principal that say what it is allowed.
#[derive(Clone, Copy)]
pub struct Numbers {
    /// Its attributes in MIT's database. `Attribute` names the bits.
    pub attributes: Flags,
    /// The maximum lifetime of tickets, in seconds; 0 sets no limit.
    pub max_life: u32,
    /// How long tickets may be renewable at most, in seconds.
    pub max_renewable_life: u32,
    /// The second since 1970 when the principal expires; 0 is never.
    pub expiration: u32,
    /// The second since 1970 when the password expires; 0 is never.
    pub pw_expiration: u32,
}

/// The numbers of bytes or things in the fields that follow.
#[derive(Clone, Copy)]
struct Counts {
    name: u32,
    tagged: u32,
    keys: u32,
    extra: u32,
}

/// Reads a principal, after the word `princ`.
pub(crate) fn read_principal(
    alloc: Global,
    fields: &mut Fields<'_, '_>,
) -> Result<DumpedPrincipal, Cause>
    ensures { IfOk result (λ principal. IsPrincipal fields.old principal) }
{
    let counts = read_counts(fields)?;
    let full = read_name(alloc, fields, counts.name)?;
    let numbers = read_numbers(fields)?;
    skip_logins(fields)?;
    let tagged = read_parts(alloc, fields, counts.tagged)?;
    let keys = read_keys(alloc, fields, counts.keys)?;
    check_end(alloc, fields, counts.extra)?;
    let FullName { name, realm } = full;
    Ok(DumpedPrincipal {
        name,
        realm,
        numbers,
        tagged,
        keys,
    })
}

fn read_counts(fields: &mut Fields<'_, '_>) -> Result<Counts, Cause>
    ensures { IfOk result (λ counts. TakesCounts fields.old counts fields.new) }
{
    if fields.number()? != BASE_LENGTH {
        return Err(Cause::Number);
    }
    Ok(Counts {
        name: fields.number()?,
        tagged: fields.number()?,
        keys: fields.number()?,
        extra: fields.number()?,
    })
}

/// Reads a name that has this many bytes.
fn read_name(alloc: Global, fields: &mut Fields<'_, '_>, len: u32) -> Result<FullName, Cause>
    ensures { IfOk result (λ full. TakesName fields.old len full.name.components full.realm fields.new) }
{
    let text = fields.next()?;
    if text.len() != len as usize {
        return Err(Cause::Name);
    }
    read_full_name(alloc, text)
}

fn read_numbers(fields: &mut Fields<'_, '_>) -> Result<Numbers, Cause>
    ensures { IfOk result (λ numbers. TakesNumbers fields.old numbers fields.new) }
{
    Ok(Numbers {
        attributes: Flags::from_bits(fields.number()?),
        max_life: fields.number()?,
        max_renewable_life: fields.number()?,
        expiration: fields.number()?,
        pw_expiration: fields.number()?,
    })
}

/// Skips the last successful login, the last failed one, and the number of failed ones.
fn skip_logins(fields: &mut Fields<'_, '_>) -> Result<(), Cause>
    ensures { OnOk result (TakesLogins fields.old fields.new) }
{
    let _succeeded = fields.number()?;
    let _failed = fields.number()?;
    let _count = fields.number()?;
    Ok(())
}

/// Checks that the last field has this many bytes, and a semicolon after them.
fn check_end(alloc: Global, fields: &mut Fields<'_, '_>, len: u32) -> Result<(), Cause>
    ensures { OnOk result (IsEnd fields.old len) }
{
    let last = fields.next()?;
    if !fields.is_empty() {
        return Err(Cause::Count);
    }
    match last.split_last() {
        Some((b';', field)) => {
            let _extra = octets(alloc, len, field)?;
            Ok(())
        }
        _ => Err(Cause::Octets),
    }
}

//! The settings that a client looks up.
ghost use Rattle.std.specs.Prelude.{◌≡◌, map, IfOk};
ghost use Rattle.std.specs.List.{slice_get};
ghost use Rattle.std.specs.Option.{option_map};
ghost use Rattle.krb5_conf.specs.Kdc.{kdc_texts};
ghost use Rattle.krb5_conf.specs.Values.{default_realms, kdc_values, library_values};

use crate::kdc::plain_texts;
use crate::place::LinePlace;
use crate::values::values;
use std::alloc::{AllocError, Global};

/// Returns the default realm: the first `default_realm` of `[libdefaults]`, as written.
pub fn default_realm(alloc: Global, text: &[u8]) -> Result<Option<&[u8]>, AllocError>
    // Promise: `default_realm` returns the first `default_realm` in `[libdefaults]`, and `library_settings` all values
    // of a setting there, in order.
    ensures { IfOk result (λ found. option_map (λ realm. realm.now) found ≡ slice_get (default_realms text.now) 0) }
{
    let wanted = LinePlace::of_section(b"libdefaults");
    Ok(
        values(alloc, text, wanted, b"default_realm")?
            .first()
            .copied(),
    )
}

/// Returns the values with this tag in `[libdefaults]`, in order, as written. The first counts.
pub fn library_settings<'a>(
    alloc: Global,
    text: &'a [u8],
    tag: &[u8],
) -> Result<Vec<&'a [u8]>, AllocError>
    // Promise, as default_realm: `default_realm` returns the first ..
    ensures { IfOk result (λ found.
        map (λ value. value.now) found.items ≡ library_values tag.now text.now) }
{
    let wanted = LinePlace::of_section(b"libdefaults");
    values(alloc, text, wanted, tag)
}

/// Returns the texts that name a realm's KDCs, in order: each `kdc` of the realm in `[realms]`. Empty ones, and those
/// with a `/`, such as `tcp/192.0.2.1`, are left out. `kdc_address` reads a text that is an address; the others are
/// host names.
pub fn kdcs<'a>(alloc: Global, text: &'a [u8], realm: &[u8]) -> Result<Vec<&'a [u8]>, AllocError>
    // Promise: `kdcs` returns each `kdc` of the realm in `[realms]`, in order, without empty values and those that have
    // a slash.
    ensures { IfOk result (λ found.
        map (λ text. text.now) found.items ≡ kdc_texts (kdc_values realm.now text.now)) }
{
    let wanted = LinePlace::of_group(b"realms", realm);
    let values = values(alloc, text, wanted, b"kdc")?;
    plain_texts(alloc, &values)
}

//! METHOD-DATA: what the KDC sends to a client that must show its key (RFC 4120, sections 5.2.7.5 and 5.9.1).
ghost use Rattle.std.specs.Prelude.{◌≡◌, ◌≤◌, length, IfOk, map};
ghost use Rattle.preauth.specs.MethodData.{info_entry, etype_info2, timestamp_wanted, method_data};

use krb_elements::{KerberosString, Octets, Seq, write};
use krb_fields::PaData;
use krb_fields::numbers::{PA_ENC_TIMESTAMP, PA_ETYPE_INFO2};
use krb_types::EtypeInfo2Entry;
use std::alloc::{AllocError, Global};

/// Returns PA-ETYPE-INFO2 for these encryption types, each with the salt of the client's password.
pub fn etype_info2(alloc: Global, salt: &[u8], types: &[i32]) -> Result<PaData, AllocError>
    requires short { length salt.now ≤ 8192 }
    requires few { length types.now ≤ 4 }
    // Promise (value, short), as method_data: METHOD-DATA and PA-ETYPE-INFO2 are ..
    ensures value { IfOk result (λ made. made ≡ etype_info2 salt.now types.now) }
    ensures short { IfOk result (λ made. length made.padata_value ≤ 32926) }
{
    let entries = info_entries(alloc, salt, types)?;
    Ok(PaData {
        padata_type: PA_ETYPE_INFO2,
        padata_value: Octets::new(write(alloc, &entries)?),
    })
}

fn info_entries(
    alloc: Global,
    salt: &[u8],
    types: &[i32],
) -> Result<Seq<EtypeInfo2Entry>, AllocError>
    ensures { IfOk result (λ entries. entries ≡ map (info_entry salt.now) types.now) }
{
    let mut entries = Seq::new(alloc);
    for etype in types {
        entries.push(EtypeInfo2Entry {
            etype: *etype,
            salt: Some(KerberosString::from_slice(alloc, salt)?),
            s2kparams: None,
        })?;
    }
    Ok(entries)
}

/// Returns the METHOD-DATA of KDC_ERR_PREAUTH_REQUIRED: PA-ETYPE-INFO2 for these encryption types, and an empty
/// PA-ENC-TIMESTAMP.
pub fn method_data(alloc: Global, salt: &[u8], types: &[i32]) -> Result<Octets, AllocError>
    requires short { length salt.now ≤ 8192 }
    requires few { length types.now ≤ 4 }
    // Promise (value, short): METHOD-DATA and PA-ETYPE-INFO2 are those of the definitions, and short enough for a
    // message.
    ensures value { IfOk result (λ octets. octets ≡ method_data salt.now types.now) }
    ensures short { IfOk result (λ octets. length octets ≤ 65535) }
{
    let mut methods = Seq::new(alloc);
    methods.push(etype_info2(alloc, salt, types)?)?;
    methods.push(timestamp_wanted(alloc))?;
    Ok(Octets::new(write(alloc, &methods)?))
}

/// Returns an empty PA-ENC-TIMESTAMP, which asks for one.
fn timestamp_wanted(alloc: Global) -> PaData
    ensures { result ≡ timestamp_wanted }
{
    PaData {
        padata_type: PA_ENC_TIMESTAMP,
        padata_value: Octets::new(Vec::new(alloc)),
    }
}

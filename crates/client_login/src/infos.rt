//! A KDC's information about the types of a client's keys (RFC 4120, section 5.2.7.5): in the METHOD-DATA of a refusal,
//! or in the padata of an AS-REP.
ghost use Rattle.std.specs.Prelude.{◌≡◌, IfOk, option_copied};
ghost use Rattle.client_login.specs.Infos.{default_info, first_info, info_in, info_in_reply, info_of_refusal};
ghost use Rattle.client_login.specs.Infos.{info_of_method_data};

use client_core::EtypeInfo2;
use krb_elements::{MakeOwned, Octets, OctetsRef, Seq, SeqRef, read};
use krb_fields::PaDataRef;
use krb_fields::numbers::{AS_REP, PA_ETYPE_INFO2};
use krb_types::{EtypeInfo2Entry, EtypeInfo2EntryRef, KdcRepRef};
use std::alloc::{AllocError, Global};

/// Returns the information in an AS-REP. Without any, the key of the type that the reply is encrypted with has the
/// default salt and parameters.
pub(crate) fn info_in_reply(
    alloc: Global,
    reply: &KdcRepRef<'_, AS_REP>,
) -> Result<EtypeInfo2, AllocError>
    // Promise: a key from a password is made as the KDC says (the first PA-ETYPE-INFO2 of an AS-REP, or a refusal's
    // e-data), or as the default of the reply's type if it says nothing.
    ensures { IfOk result (λ info. info ≡ info_in_reply reply.now) }
{
    match first_info(reply.padata.as_ref()) {
        Some(octets) => info_in(alloc, octets.as_slice()),
        None => default_info(alloc, reply.enc_part.etype),
    }
}

fn default_info(alloc: Global, etype: i32) -> Result<EtypeInfo2, AllocError>
    ensures { IfOk result (λ info. info ≡ default_info etype) }
{
    let mut info = Seq::new(alloc);
    info.push(EtypeInfo2Entry {
        etype,
        salt: None,
        s2kparams: None,
    })?;
    Ok(info)
}

/// Returns the information in the e-data of a refusal; an empty list if there is none.
pub(crate) fn info_of_refusal(
    alloc: Global,
    e_data: &Option<Octets>,
) -> Result<EtypeInfo2, AllocError>
    // Promise, as info_in_reply: a key from a ..
    ensures { IfOk result (λ info. info ≡ info_of_refusal e_data.now) }
{
    match e_data {
        Some(octets) => info_of_method_data(alloc, octets.as_slice()),
        None => Ok(Seq::new(alloc)),
    }
}

fn info_of_method_data(alloc: Global, octets: &[u8]) -> Result<EtypeInfo2, AllocError>
    ensures { IfOk result (λ info. info ≡ info_of_method_data octets.now) }
{
    let Ok(padata) = read::<SeqRef<'_, PaDataRef<'_>>>(octets) else {
        return Ok(Seq::new(alloc));
    };
    match first_info(Some(&padata)) {
        Some(value) => info_in(alloc, value.as_slice()),
        None => Ok(Seq::new(alloc)),
    }
}

/// Returns the value of the first PA-ETYPE-INFO2.
fn first_info<'p>(padata: Option<&SeqRef<'p, PaDataRef<'p>>>) -> Option<OctetsRef<'p>>
    ensures { result ≡ first_info (option_copied padata.entry) }
{
    for entry in padata?.iter() {
        if entry.padata_type == PA_ETYPE_INFO2 {
            return Some(entry.padata_value);
        }
    }
    None
}

/// Returns the list that the bytes encode, or an empty one.
fn info_in(alloc: Global, octets: &[u8]) -> Result<EtypeInfo2, AllocError>
    ensures { IfOk result (λ info. info ≡ info_in octets.now) }
{
    match read::<SeqRef<'_, EtypeInfo2EntryRef<'_>>>(octets) {
        Ok(entries) => copied(alloc, &entries),
        Err(_) => Ok(Seq::new(alloc)),
    }
}

fn copied<'p>(
    alloc: Global,
    entries: &SeqRef<'p, EtypeInfo2EntryRef<'p>>,
) -> Result<EtypeInfo2, AllocError>
    ensures { IfOk result (λ info. info ≡ entries.now) }
{
    entries.copy(alloc)
}

//! The errors that refuse AS-REQs.
ghost use Rattle.std.specs.Prelude.{◌≡◌, ◌<◌, ◌≤◌, length, None, IfOk, IfSome, option_copied};
ghost use Rattle.krb_elements.specs.Codec.{written};
ghost use Rattle.krb_fields.specs.NameLimits.{IsWithinLimits};
ghost use Rattle.krb_fields.specs.Salt.{default_salt};
ghost use Rattle.krb_types.specs.KrbError.{krb_error};
ghost use Rattle.as_exchange.specs.Answer.{as_error, e_data_of, methods_for};
ghost use Rattle.as_exchange.specs.Known.{IsKnown};

use crate::refusal::{AsRefusal, Effect};
use crate::view::AsView;
use kdc_replies::error_reply;
use krb_elements::{KerberosString, Octets};
use krb_fields::{Moment, NameRef};
use krb_types::ReqBodyRef;
use preauth::{method_data, usable_types};
use principal_rows::Row;
use std::alloc::{AllocError, Global};

/// Returns the bytes of the error that refuses a request.
pub fn as_error(
    alloc: Global,
    view: &AsView<'_>,
    at: Moment,
    body: &ReqBodyRef<'_>,
    refusal: AsRefusal,
) -> Result<Vec<u8>, AllocError>
    requires { IsKnown view.now body.now }
    ensures written { IfOk result (λ octets. octets.items ≡ written krb_error (as_error view.now at body.now refusal)) }
    ensures spelled { IfOk result (λ octets. krb_error.Spells (as_error view.now at body.now refusal) octets.items) }
{
    let e_data = error_data(alloc, view, body, refusal.effect())?;
    error_reply(
        alloc,
        view.realm,
        at,
        refusal.code(),
        body.sname.as_ref(),
        e_data,
    )
}

fn error_data(
    alloc: Global,
    view: &AsView<'_>,
    body: &ReqBodyRef<'_>,
    effect: Effect,
) -> Result<Option<Octets>, AllocError>
    requires { IsKnown view.now body.now }
    ensures value { IfOk result (λ found. found ≡ e_data_of view.now body.now effect) }
    ensures short { IfOk result (λ found. IfSome found (λ octets. length octets ≤ 65535)) }
{
    match effect {
        Effect::SendsMethods => methods_for(alloc, view, body),
        _ => Ok(None),
    }
}

/// Returns METHOD-DATA for a client that has a row.
fn methods_for(
    alloc: Global,
    view: &AsView<'_>,
    body: &ReqBodyRef<'_>,
) -> Result<Option<Octets>, AllocError>
    requires { IsKnown view.now body.now }
    ensures value { IfOk result (λ found. found ≡ methods_for view.now.realm body.now view.now.client body.now.cname) }
    ensures short { IfOk result (λ found. IfSome found (λ octets. length octets ≤ 65535)) }
{
    let Some(row) = view.client else {
        return Ok(None);
    };
    let Some(name) = &body.cname else {
        return Ok(None);
    };
    let salt = salt_of(alloc, view.realm, name)?;
    let types = usable_types(alloc, &row.versions.current().keys, &body.etype)?;
    Ok(Some(method_data(alloc, salt.as_slice(), &types)?))
}

/// Returns the salt for a principal's password.
#[tactic(auto, using(crate::specs::Known::salt_short))]
pub fn salt_of(
    alloc: Global,
    realm: &[u8],
    name: &NameRef<'_>,
) -> Result<KerberosString, AllocError>
    requires realm { length realm.now ≤ 255 }
    requires name { IsWithinLimits name.now.components }
    ensures value { IfOk result (λ salt. salt ≡ default_salt realm.now name.now.components) }
    ensures short { IfOk result (λ salt. length salt ≤ 8192) }
{
    name.to_name(alloc)?.salt(alloc, realm)
}

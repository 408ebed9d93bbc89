//! Refusals of TGS-REQs.
ghost use Rattle.std.specs.Prelude.{◌≡◌, ◌<◌, ◌≤◌, length, IfOk, IfSome};
ghost use Rattle.krb_elements.specs.Codec.{written};
ghost use Rattle.krb_fields.specs.PrincipalName.{name};
ghost use Rattle.krb_types.specs.KrbError.{krb_error};
ghost use Rattle.tgs_exchange.specs.Answer.{tgs_error};

use kdc_replies::error_reply;
use krb_fields::Moment;
use krb_types::ReqBodyRef;
use std::alloc::{AllocError, Global};
use tgs_opening::TgsRefusal;

/// Returns the bytes of the error that refuses a request.
pub fn tgs_error(
    alloc: Global,
    realm: &[u8],
    at: Moment,
    body: &ReqBodyRef<'_>,
    refusal: TgsRefusal,
) -> Result<Vec<u8>, AllocError>
    requires realm { length realm.now ≤ 255 }
    requires sname { IfSome body.now.sname (λ n. length (name.text n) < 2147483648) }
    // Promise (written, spelled), as error_reply of kdc_replies: an error is written ..
    ensures written { IfOk result (λ octets.
        octets.items ≡ written krb_error (tgs_error realm.now at body.now refusal)) }
    ensures spelled { IfOk result (λ octets. krb_error.Spells (tgs_error realm.now at body.now refusal) octets.items) }
{
    error_reply(alloc, realm, at, refusal.code(), body.sname.as_ref(), None)
}

//! Replies that refuse a request: KRB-ERROR (RFC 4120, section 5.9.1).
ghost use Rattle.std.specs.Prelude.{◌≡◌, ◌<◌, ◌≤◌, length, None, IfOk, IfSome};
ghost use Rattle.std.specs.Option.{option_copied};
ghost use Rattle.krb_elements.specs.Codec.{written};
ghost use Rattle.krb_fields.specs.Code.{number_of};
ghost use Rattle.krb_fields.specs.PrincipalName.{name};
ghost use Rattle.krb_types.specs.KrbError.{krb_error};
ghost use Rattle.kdc_replies.specs.ErrorReply.{error_reply, too_big};

use crate::sent_names::sent_name;
use krb_elements::{Coded, KerberosStringRef, Octets, write};
use krb_fields::{Code, Moment, NameRef, tgs_name};
use krb_types::{KrbError, ReqBodyRef};
use std::alloc::{AllocError, Global};

/// An error that borrows its realm.
type LentError<'r, N> = KrbError<KerberosStringRef<'r>, N, Octets>;

/// Returns the bytes of the error with this code and data, for a client that asked for this service.
pub fn error_reply(
    alloc: Global,
    realm: &[u8],
    at: Moment,
    code: Code,
    sname: Option<&NameRef<'_>>,
    e_data: Option<Octets>,
) -> Result<Vec<u8>, AllocError>
    requires realm { length realm.now ≤ 255 }
    requires sname { IfSome (option_copied sname) (λ n. length (name.text n) < 2147483648) }
    requires e_data { IfSome e_data (λ d. length d ≤ 65535) }
    // Promise (written, spelled): an error is written as the definition says, in bytes that spell it.
    ensures written { IfOk result (λ octets.
        octets.items ≡ written krb_error (error_reply realm.now at code (option_copied sname.entry) e_data)) }
    ensures spelled { IfOk result (λ octets.
        krb_error.Spells (error_reply realm.now at code (option_copied sname.entry) e_data) octets.items) }
{
    match sname {
        Some(name) => write(alloc, &lent_error(realm, at, code, sent_name(name), e_data)),
        None => {
            let tgs = tgs_name(alloc, realm)?;
            write(alloc, &lent_error(realm, at, code, tgs, e_data))
        }
    }
}

/// Returns the bytes of the error that is sent instead of a reply that doesn't fit.
pub fn too_big(
    alloc: Global,
    realm: &[u8],
    at: Moment,
    body: &ReqBodyRef<'_>,
) -> Result<Vec<u8>, AllocError>
    requires realm { length realm.now ≤ 255 }
    requires sname { IfSome body.now.sname (λ n. length (name.text n) < 2147483648) }
    // Promise (written, spelled), as error_reply: an error is written ..
    ensures written { IfOk result (λ octets. octets.items ≡ written krb_error (too_big realm.now at body.now)) }
    ensures spelled { IfOk result (λ octets. krb_error.Spells (too_big realm.now at body.now) octets.items) }
{
    error_reply(
        alloc,
        realm,
        at,
        Code::KrbErrResponseTooBig,
        body.sname.as_ref(),
        None,
    )
}

/// Returns the error, which borrows its realm and name.
fn lent_error<'r, N: Coded>(
    realm: &'r [u8],
    at: Moment,
    code: Code,
    sname: N,
    e_data: Option<Octets>,
) -> LentError<'r, N>
    ensures { result ≡ record {
      ctime = None;
      cusec = None;
      stime = at.sec;
      susec = at.usec;
      error_code = number_of code;
      crealm = None;
      cname = None;
      realm = realm.now;
      sname = sname;
      e_text = None;
      e_data = e_data;
    } }
{
    KrbError {
        ctime: None,
        cusec: None,
        stime: at.time(),
        susec: at.microseconds(),
        error_code: code.number(),
        crealm: None,
        cname: None,
        realm: KerberosStringRef::new(realm),
        sname,
        e_text: None,
        e_data,
    }
}

//! KRB-ERROR, by which a service tells a client that it refuses an AP-REQ (RFC 4120, sections 3.2.3 and 5.9.1).
ghost use Rattle.std.specs.Prelude.{◌≡◌, IfOk, IfSome, option_map};
ghost use Rattle.krb_types.specs.KrbError.{krb_error};
ghost use Rattle.ap_accept.specs.Label.{error_bytes, error_of, is_nameable};

use crate::label::TicketLabel;
use ap_req::ApRefusal;
use krb_fields::{Moment, is_component};
use krb_types::{KrbError, encode_krb_error};
use std::alloc::{AllocError, Global};

impl TicketLabel {
    /// Returns the bytes of the KRB-ERROR for a refusal at this moment: the rule's code, the service and the time.
    ///
    /// Returns `None` for a service that can't be a principal: its name doesn't have 1 to 16 components, or one of
    /// them, or the realm, doesn't have 1 to 255 bytes.
    pub fn error(
        &self,
        alloc: Global,
        at: Moment,
        refusal: ApRefusal,
    ) -> Result<Option<Vec<u8>>, AllocError>
        // Promise (value, spelled): the KRB-ERROR for a refusal is written as the definition says, in bytes that spell
        // it.
        ensures value { IfOk result (λ found.
            option_map (λ octets. octets.items) found ≡ error_bytes self.now at refusal) }
        // The bytes are those of that error.
        ensures spelled { IfOk result (λ found. IfSome found (λ octets.
            krb_error.Spells (error_of self.now at refusal) octets.items)) }
    {
        if !self.is_nameable() {
            return Ok(None);
        }
        let error = make_error(alloc, self, at, refusal)?;
        Ok(Some(encode_krb_error(alloc, &error)?))
    }

    /// Checks whether the service may be a principal.
    fn is_nameable(&self) -> bool
        ensures { result ≡ is_nameable self.now }
    {
        is_component(self.service.realm.as_slice()) && self.service.name.is_within_limits()
    }
}

fn make_error(
    alloc: Global,
    label: &TicketLabel,
    at: Moment,
    refusal: ApRefusal,
) -> Result<KrbError, AllocError>
    ensures { IfOk result (λ error. error ≡ error_of label.now at refusal) }
{
    Ok(KrbError {
        ctime: None,
        cusec: None,
        stime: at.time(),
        susec: at.microseconds(),
        error_code: refusal.code().number(),
        crealm: None,
        cname: None,
        realm: label.service.realm.copy(alloc)?,
        sname: label.service.name.copy(alloc)?,
        e_text: None,
        e_data: None,
    })
}

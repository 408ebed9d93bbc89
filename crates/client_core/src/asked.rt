//! What a client requests from a KDC (RFC 4120, section 5.4.1).
ghost use Rattle.std.specs.Prelude.{◌≡◌, ◌≤◌, IfOk, map};
ghost use Rattle.enctypes.specs.Etype.{number};
ghost use Rattle.krb_types.specs.ReqBody.{req_body};
ghost use Rattle.client_core.specs.Asked.{IsAskable, is_askable};
ghost use Rattle.client_core.specs.Requests.{body_of};
ghost use Rattle.client_core.specs.ShortLaws.{IsShortName};

use enctypes::Etype;
use krb_der::KTime;
use krb_elements::{KerberosString, Seq, UInt32};
use krb_fields::{Flags, Name, is_component};
use krb_types::ReqBody;
use std::alloc::{AllocError, Global};

/// The most encryption types in a request.
pub const MAX_ETYPES: usize = 64;

/// A ticket that a client requests.
#[derive(Drop)]
pub struct Asked {
    /// The options. `krb_fields::KdcOption` names the bits.
    pub options: Flags,
    /// The client's name. The KDC-REQ-BODY has it only in an AS-REQ.
    pub client: Name,
    /// The realm of the client and of the service.
    pub realm: KerberosString,
    /// The name of the service that the ticket is for.
    pub service: Name,
    /// When the ticket is to start; absent: at once.
    pub from: Option<KTime>,
    /// When it is to end; the start of 1970 requests no bound.
    pub till: KTime,
    /// Until when it is to be renewable.
    pub rtime: Option<KTime>,
    /// The number that the reply repeats. Many KDCs accept only one below 2147483648.
    pub nonce: u32,
    /// The encryption types that the client accepts, in order of preference.
    pub etypes: Seq<Etype>,
}

impl Asked {
    /// Checks whether it can be requested: the realm has 1 to 255 bytes, the names are within the limits of a database,
    /// and there are at most [`MAX_ETYPES`] encryption types.
    pub fn is_askable(&self) -> bool
        // Promise: `is_askable` says whether a request can be made, and `is_presentable` whether a credential can be
        // presented.
        ensures { result ≡ is_askable self.now }
    {
        is_component(self.realm.as_slice())
            && self.client.is_within_limits()
            && self.service.is_within_limits()
            && self.etypes.len() <= MAX_ETYPES
    }

    /// Returns the KDC-REQ-BODY, which names the client only in an AS-REQ.
    #[tactic(auto, using(crate::specs::ShortLaws::body_short))]
    pub(crate) fn body(&self, alloc: Global, cname: Option<Name>) -> Result<ReqBody, AllocError>
        requires askable { IsAskable self.now }
        requires cname { IsShortName cname }
        ensures value { IfOk result (λ body. body ≡ body_of cname self.now) }
        ensures short { IfOk result (λ body. req_body.most body ≤ 20000) }
    {
        Ok(ReqBody {
            kdc_options: self.options,
            cname,
            realm: self.realm.copy(alloc)?,
            sname: Some(self.service.copy(alloc)?),
            from: self.from,
            till: self.till,
            rtime: self.rtime,
            nonce: UInt32::new(i64::from(self.nonce)).unwrap(),
            etype: numbers(alloc, self.etypes.as_slice())?,
            addresses: None,
            enc_authorization_data: None,
            additional_tickets: None,
        })
    }
}

/// Returns the numbers of the types.
fn numbers(alloc: Global, etypes: &[Etype]) -> Result<Seq<i32>, AllocError>
    ensures { IfOk result (λ numbers. numbers ≡ map number etypes.now) }
{
    let mut numbers = Seq::new(alloc);
    for etype in etypes {
        numbers.push(etype.number())?;
    }
    Ok(numbers)
}

//! The reply to a request, and what a server records with it.
ghost use Rattle.std.specs.Prelude.{◌≡◌, IfOk, option_map};
ghost use Rattle.kdc_core.specs.ReplyIn.{IsReplyIn};

use crate::audit::AuditRecord;
use krb_elements::Octets;
use replay::Seen;
use std::alloc::{AllocError, Global};

/// The reply to a request. A request without a reply has none of this.
#[derive(Drop)]
pub struct Reply {
    /// An AS-REP, a TGS-REP or a KRB-ERROR, without a length before it.
    pub message: Octets,
    /// How the request was handled. `None` if audit records are not wanted, and in the answer to a length that is too
    /// large.
    pub audit: Option<AuditRecord>,
    /// The authenticator that this request records, if any. A refused request may record one too, if its authenticator
    /// was new. A reply that is sent again has none.
    pub newly_seen: Option<Seen>,
}

impl Reply {
    /// Returns a copy.
    pub fn copy(&self, alloc: Global) -> Result<Reply, AllocError>
        ensures { IfOk result (λ reply. reply ≡ self.now) }
    {
        let audit = match &self.audit {
            Some(audit) => Some(audit.copy(alloc)?),
            None => None,
        };
        let newly_seen = match &self.newly_seen {
            Some(seen) => Some(seen.copy(alloc)?),
            None => None,
        };
        Ok(Reply {
            message: self.message.copy(alloc)?,
            audit,
            newly_seen,
        })
    }
}

/// Returns the bytes of the reply alone.
pub fn bytes_alone(
    answered: Result<Option<Reply>, AllocError>,
) -> Result<Option<Vec<u8>>, AllocError>
    ensures { IsReplyIn (λ octets. octets.items) answered result }
{
    match answered {
        Ok(Some(reply)) => Ok(Some(reply.message.into_vec())),
        Ok(None) => Ok(None),
        Err(error) => Err(error),
    }
}

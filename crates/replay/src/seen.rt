//! Seen authenticators, which a start resumes with.
ghost use Rattle.std.specs.Prelude.{◌≡◌, IfOk};

use krb_elements::Seq;
use krb_fields::Name;
use std::alloc::{AllocError, Global};

/// A recorded authenticator: its client, and its time.
#[derive(Drop)]
pub struct Seen {
    /// The client's name. Only its components matter.
    pub client: Name,
    /// Its time, in seconds since 1970.
    pub ctime: i64,
    /// The microseconds of its time, after `ctime`.
    pub cusec: u32,
}

impl Seen {
    /// Returns a copy.
    pub fn copy(&self, alloc: Global) -> Result<Seen, AllocError>
        ensures { IfOk result (λ seen. seen ≡ self.now) }
    {
        Ok(Seen {
            client: self.client.copy(alloc)?,
            ctime: self.ctime,
            cusec: self.cusec,
        })
    }
}

/// What a server resumes with, instead of refusing all authenticators of the time before its start.
#[derive(Drop)]
pub struct Resumption {
    /// The second since 1970 below which a time is too old.
    pub floor: i64,
    /// Every authenticator that is recorded and is not too old.
    pub seen: Seq<Seen>,
}

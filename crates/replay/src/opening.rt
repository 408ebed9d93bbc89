//! How a replay cache begins.
ghost use Rattle.std.specs.Prelude.{◌≡◌};
ghost use Rattle.replay.specs.Opening.{opened_cache, opening_floor};

use crate::cache::ReplayCache;
use crate::keep::Keep;
use krb_fields::{Moment, SKEW};
use std::alloc::Global;

/// The start of a server: its first one, or another one after it had answered requests.
#[derive(Clone, Copy, PartialEq, Eq)]
pub enum Opening {
    /// The first start.
    First,
    /// A start at this moment, after requests were answered.
    Restart(Moment),
}

impl Opening {
    /// Returns the second since 1970 below which a time is too old, for a client that sent nothing since the opening.
    pub fn floor(self) -> i64
        // Promise, as tidied_unseen: a tidying drops authenticators ..
        // Promise, as Kdc::open of kdc_core: a KDC starts with ..
        ensures { result ≡ opening_floor self }
    {
        match self {
            Opening::First => -SKEW,
            Opening::Restart(at) => at.sec + SKEW + 1,
        }
    }
}

impl<T: Keep> ReplayCache<T> {
    /// Returns the cache of a client that sent nothing since the opening.
    pub fn opened(alloc: Global, opening: Opening) -> ReplayCache<T>
        // Promise, as ReplayCache::first: a client's replay cache ..
        ensures { result ≡ opened_cache opening }
    {
        match opening {
            Opening::First => ReplayCache::first(alloc),
            Opening::Restart(at) => ReplayCache::restarted(alloc, at),
        }
    }
}

//! How much the replay caches of a key distribution centre hold.
ghost use Rattle.std.specs.Prelude.{◌≡◌};
ghost use Rattle.std.specs.FinMap as map;
ghost use Rattle.principal_rows.specs.NameMap.{pairs};
ghost use Rattle.kdc_state.specs.Sizes.{bytes_of, pairs_of};
ghost use Rattle.replay.specs.Sizes.{limited};

use crate::state::State;
use principal_rows::Entry;
use replay::{Kept, ReplayCache};

/// The sizes of the replay caches of all clients. The last two stop at the greatest `u64`.
#[derive(Clone, Copy, Debug, PartialEq, Eq)]
pub struct CacheSizes {
    /// The clients that have a cache of their own.
    pub clients: u64,
    /// The authenticators that are recorded.
    pub authenticators: u64,
    /// The bytes of the requests and replies that are kept.
    pub kept_bytes: u64,
}

impl State {
    /// Returns how much the replay caches hold. It goes through all of them, and allocates nothing.
    pub fn cache_sizes(&self) -> CacheSizes
        ensures clients { result.clients ≡ map.len self.now.caches }
        ensures authenticators { result.authenticators ≡ limited (pairs_of (map.entries self.now.caches)) }
        ensures kept_bytes { result.kept_bytes ≡ limited (bytes_of (map.entries self.now.caches)) }
    {
        let (authenticators, kept_bytes) = sizes_of(self.caches.entries());
        CacheSizes {
            clients: self.caches.len() as u64,
            authenticators,
            kept_bytes,
        }
    }
}

/// Returns how many authenticators these caches have, and how many bytes are kept for them.
fn sizes_of(caches: &[Entry<ReplayCache<Kept>>]) -> (u64, u64)
    ensures authenticators { result.0 ≡ limited (pairs_of (pairs caches.now)) }
    ensures kept_bytes { result.1 ≡ limited (bytes_of (pairs caches.now)) }
{
    let mut authenticators: u64 = 0;
    let mut kept_bytes: u64 = 0;
    for entry in caches {
        let held = &entry.value.pairs;
        authenticators = authenticators.saturating_add(held.len() as u64);
        kept_bytes = kept_bytes.saturating_add(held.kept_bytes());
    }
    (authenticators, kept_bytes)
}

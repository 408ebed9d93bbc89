//! Starting with the authenticators that were seen before.
ghost use Rattle.std.specs.Prelude.{◌≡◌, IfOk, OnOk, OnErr};
ghost use Rattle.std.specs.FinMap as map;
ghost use Rattle.krb_fields.specs.Name.{Components};
ghost use Rattle.replay.specs.Kept.{nothing_kept};
ghost use Rattle.replay.specs.Resumed.{resumed_cache};
ghost use Rattle.kdc_state.specs.Resumed.{after_all_seen, resumed_state};
ghost use Rattle.kdc_state.specs.State.{cache_of, with_cache};

use crate::state::State;
use krb_fields::Name;
use principal_rows::{Limits, NameMap};
use principals::Database;
use replay::{Kept, ReplayCache, Resumption, Seen};
use std::alloc::{AllocError, Global};

impl State {
    /// Returns the state of a key distribution centre that resumes: each client's cache has the authenticators that
    /// were seen, with nothing stored for them.
    pub fn resume(
        alloc: Global,
        database: Database,
        limits: Limits,
        resumption: &Resumption,
    ) -> Result<State, AllocError>
        ensures state { IfOk result (λ state. state ≡ resumed_state database limits resumption.now) }
        ensures caches { (name : Components)
            → IfOk result (λ state. cache_of state name ≡ resumed_cache resumption.now name) }
    {
        let state = State::with_seen(alloc, database, limits, resumption)?;
        Ok(state)
    }

    fn with_seen(
        alloc: Global,
        database: Database,
        limits: Limits,
        resumption: &Resumption,
    ) -> Result<State, AllocError>
        ensures { IfOk result (λ state. state ≡ resumed_state database limits resumption.now) }
    {
        let mut state = State {
            database,
            limits,
            floor: resumption.floor,
            caches: NameMap::new(alloc),
        };
        state.see_all(alloc, resumption.seen.as_slice())?;
        Ok(state)
    }

    /// Records these authenticators. If memory runs out, some of them are recorded.
    fn see_all(&mut self, alloc: Global, all: &[Seen]) -> Result<(), AllocError>
        ensures { OnOk result (self.new ≡ after_all_seen self.old all.now) }
    {
        for seen in all {
            self.see(alloc, &seen.client, seen.ctime, seen.cusec)?;
        }
        Ok(())
    }

    /// Records an authenticator of the client, with nothing stored for it. If memory runs out, nothing changes.
    fn see(
        &mut self,
        alloc: Global,
        client: &Name,
        ctime: i64,
        cusec: u32,
    ) -> Result<(), AllocError>
        ensures ok { OnOk result
            (self.new
            ≡ with_cache self.old client.now.components
            (record (cache_of self.old client.now.components) {
              pairs = map.insert (cache_of self.old client.now.components).pairs (ctime, cusec) nothing_kept;
            })) }
        ensures err { OnErr result (self.new ≡ self.old) }
    {
        let kept = Kept::nothing(alloc);
        let mut cache = ReplayCache::empty(alloc, self.floor);
        if self.caches.replace(client, &mut cache) {
            let done = keep(&mut cache, ctime, cusec, kept);
            let _ = self.caches.replace(client, &mut cache);
            done
        } else {
            keep(&mut cache, ctime, cusec, kept)?;
            self.caches.put(client.copy(alloc)?, cache)
        }
    }
}

/// Sets what is stored for a pair. The floor and all other pairs are unchanged. If memory runs out, nothing changes.
fn keep(cache: &mut ReplayCache<Kept>, ctime: i64, cusec: u32, kept: Kept) -> Result<(), AllocError>
    ensures ok { OnOk result
        (cache.new ≡ record cache.old { pairs = map.insert cache.old.pairs (ctime, cusec) kept }) }
    ensures err { OnErr result (cache.new ≡ cache.old) }
{
    cache.pairs.put(ctime, cusec, kept)
}

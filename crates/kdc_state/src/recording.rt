//! The changes that a request makes in the replay cache of its client.
ghost use Rattle.std.specs.Prelude.{◌≡◌, false, None, OnOk, OnErr};
ghost use Rattle.std.specs.FinMap as map;
ghost use Rattle.replay.specs.Stamp.{is_beyond_clock_skew};
ghost use Rattle.replay.specs.ReplayCache.{recorded};
ghost use Rattle.krb_fields.specs.Name.{Components};
ghost use Rattle.replay.specs.ReplayCache as caches;
ghost use Rattle.kdc_state.specs.State.{cache_of, restarted, with_cache};

use crate::state::State;
use krb_fields::{Moment, Name, NameRef};
use replay::{Failures, Kept, Opening, ReplayCache, Seen};
use std::alloc::{AllocError, Global};

impl State {
    /// Records an authenticator that is within the clock skew and no repeat. If memory runs out, nothing changes.
    pub fn record_seen(
        &mut self,
        alloc: Global,
        at: Moment,
        seen: &Seen,
        kept: Kept,
    ) -> Result<(), AllocError>
        requires timely { is_beyond_clock_skew (cache_of self.old seen.now.client.components).floor at.sec
            seen.now.ctime
            ≡ false }
        requires new { map.get (cache_of self.old seen.now.client.components).pairs (seen.now.ctime, seen.now.cusec)
            ≡ None }
        // Promise (ok, err): storing an authenticator, or setting failures, changes only that client's replay cache.
        ensures ok { OnOk result
            (self.new
            ≡ with_cache self.old seen.now.client.components
            (recorded (cache_of self.old seen.now.client.components) at.sec (seen.now.ctime, seen.now.cusec) kept)) }
        ensures err { OnErr result (self.new ≡ self.old) }
    {
        let mut cache = ReplayCache::empty(alloc, self.floor);
        if self.caches.replace(&seen.client, &mut cache) {
            let done = cache.record_seen(at, seen.ctime, seen.cusec, kept);
            let _ = self.caches.replace(&seen.client, &mut cache);
            done
        } else {
            cache.record_seen(at, seen.ctime, seen.cusec, kept)?;
            self.caches.put(seen.client.copy(alloc)?, cache)
        }
    }

    /// Returns the failures of the client.
    pub fn failures(&self, client: &NameRef<'_>) -> Failures
        ensures { result ≡ (cache_of self.now client.now.components).failures }
    {
        match self.caches.get(client) {
            Some(cache) => cache.failures,
            None => Failures::none(),
        }
    }

    /// Sets the failures of the client. If memory runs out, nothing changes.
    pub fn set_failures(
        &mut self,
        alloc: Global,
        client: &Name,
        failures: Failures,
    ) -> Result<(), AllocError>
        // Promise (ok, err), as State::record_seen: storing an authenticator, or ..
        ensures ok { OnOk result
            (self.new
            ≡ with_cache self.old client.now.components
            (record (cache_of self.old client.now.components) { failures = failures })) }
        ensures err { OnErr result (self.new ≡ self.old) }
    {
        let mut cache = ReplayCache::empty(alloc, self.floor);
        if self.caches.replace(client, &mut cache) {
            cache.set_failures(failures);
            let _ = self.caches.replace(client, &mut cache);
            Ok(())
        } else {
            cache.set_failures(failures);
            self.caches.put(client.copy(alloc)?, cache)
        }
    }

    /// Drops all replay caches, as when a process ends: each client has the cache of a restart at this moment.
    pub fn restart(&mut self, at: Moment)
        // Promise (state, caches), as Kdc::restart of kdc_core: a restart gives each ..
        ensures state { self.new ≡ restarted self.old at }
        ensures caches { (name : Components) → cache_of self.new name ≡ caches.restarted_cache at.sec }
    {
        self.caches.clear();
        self.floor = Opening::Restart(at).floor();
    }
}

//! The replay cache of one client.
ghost use Rattle.std.specs.Prelude.{◌≡◌, false, None, IfOk, OnOk, OnErr};
ghost use Rattle.std.specs.FinMap as map;
ghost use Rattle.replay.specs.Stamp.{is_beyond_clock_skew};
ghost use Rattle.replay.specs.ReplayCache.{IfNew, first, restarted_cache, verdict, verdict_copied, recorded};
ghost use Rattle.replay.specs.Tidied.{empty_cache, floor_on, is_empty, tidied};

use crate::failures::Failures;
use crate::keep::Keep;
use crate::pairs::Pairs;
use crate::verdict::Verdict;
use krb_fields::{Moment, SKEW};
use std::alloc::{AllocError, Global};

/// The seconds of a day.
const DAY: i64 = 86_400;

/// The replay cache of one client: its failures, and what is stored for each of its accepted authenticators.
#[derive(Drop)]
pub struct ReplayCache<T> {
    /// The client's failed preauthentications; none in the cache of a service.
    pub failures: Failures,
    /// The second since 1970 below which a time is too old to be compared with the pairs.
    pub floor: i64,
    /// What is stored for each recorded authenticator, by its ctime and cusec.
    pub pairs: Pairs<T>,
}

impl<T: Keep> ReplayCache<T> {
    /// Returns the cache of a client that never sent anything.
    pub fn first(alloc: Global) -> ReplayCache<T>
        // Promise: a client's replay cache after a first start, after a restart and with other failures is that of the
        // definition; a copy is equal.
        ensures { result ≡ first }
    {
        ReplayCache {
            failures: Failures::none(),
            floor: -SKEW,
            pairs: Pairs::new(alloc),
        }
    }

    /// Returns the cache of a client after a loss: no authenticator that may have been accepted before `at` is accepted
    /// again.
    pub fn restarted(alloc: Global, at: Moment) -> ReplayCache<T>
        // Promise, as ReplayCache::first: a client's replay cache ..
        ensures { result ≡ restarted_cache at.sec }
    {
        ReplayCache {
            failures: Failures::none(),
            floor: at.sec + SKEW + 1,
            pairs: Pairs::new(alloc),
        }
    }

    /// Returns an empty cache with this floor.
    pub fn empty(alloc: Global, floor: i64) -> ReplayCache<T>
        // Promise: an empty replay cache has nothing recorded and the given floor; `is_empty` says whether a cache is
        // that one.
        ensures { result ≡ empty_cache floor }
    {
        ReplayCache {
            failures: Failures::none(),
            floor,
            pairs: Pairs::new(alloc),
        }
    }

    /// Checks whether nothing is recorded, and the floor is this one.
    pub fn is_empty(&self, floor: i64) -> bool
        // Promise, as ReplayCache::empty: an empty replay cache ..
        ensures { result ≡ is_empty floor self.now }
    {
        self.failures.are_none() && self.floor == floor && self.pairs.is_empty()
    }

    /// Returns the verdict on the pair (`ctime`, `cusec`) at this moment, when at most `limit` pairs are recorded.
    pub fn check(&self, at: Moment, ctime: i64, cusec: u32, limit: u32) -> Verdict<&T>
        // Promise (verdict, timely, new): a replay cache's verdict on an authenticator, and what it stores for one, are
        // those of the definition.
        ensures verdict { verdict_copied result ≡ verdict self.now at.sec (ctime, cusec) limit }
        // A pair within the clock skew that is no repeat may be recorded.
        ensures timely { IfNew result (is_beyond_clock_skew self.now.floor at.sec ctime ≡ false) }
        ensures new { IfNew result (map.get self.now.pairs (ctime, cusec) ≡ None) }
    {
        if ctime.abs_diff(at.sec) > SKEW.unsigned_abs() || ctime < self.floor {
            return Verdict::Skew;
        }
        if let Some(kept) = self.pairs.get(ctime, cusec) {
            return Verdict::Repeat(kept);
        }
        if self.pairs.has_from(self.floor.max(at.sec - SKEW), limit) {
            return Verdict::Full;
        }
        Verdict::Fresh
    }

    /// Records a pair that is within the clock skew and no repeat, with what is stored for it, and drops the pairs
    /// that are too old to come again. If memory runs out, nothing changes.
    pub fn record_seen(
        &mut self,
        at: Moment,
        ctime: i64,
        cusec: u32,
        kept: T,
    ) -> Result<(), AllocError>
        requires timely { is_beyond_clock_skew self.old.floor at.sec ctime ≡ false }
        requires new { map.get self.old.pairs (ctime, cusec) ≡ None }
        // Promise (ok, err), as ReplayCache::check: a replay cache's verdict ..
        ensures ok { OnOk result (self.new ≡ recorded self.old at.sec (ctime, cusec) kept) }
        ensures err { OnErr result (self.new ≡ self.old) }
    {
        self.pairs.put(ctime, cusec, kept)?;
        self.floor = self.floor.max(at.sec - SKEW);
        let _ = self.pairs.drop_before(self.floor, self.floor);
        self.pairs.free_dropped();
        Ok(())
    }

    /// Drops the pairs that are too old to come again at this moment. It raises the floor above them, and to a day
    /// before this moment; the failures are unchanged. It allocates nothing.
    pub fn tidy(&mut self, at: Moment)
        // Promise, as tidied_unseen: a tidying drops authenticators ..
        ensures { self.new ≡ tidied self.old at.sec }
    {
        let start = self.floor.max(at.sec - SKEW);
        let above = self.pairs.drop_before(start, self.floor);
        self.floor = tidied_floor(above, at);
    }

    /// Frees the memory of the pairs that a tidying dropped.
    pub fn free_dropped(&mut self)
        // Promise, as Pairs::free_dropped: tidying allocates nothing, and ..
        ensures { self.new ≡ self.old }
    {
        self.pairs.free_dropped();
    }

    /// Sets the failures. The recorded authenticators are unchanged.
    pub fn set_failures(&mut self, failures: Failures)
        // Promise, as ReplayCache::first: a client's replay cache ..
        ensures { self.new ≡ record self.old { failures = failures } }
    {
        self.failures = failures;
    }

    /// Returns a copy.
    pub fn copy(&self, alloc: Global) -> Result<ReplayCache<T>, AllocError>
        // Promise, as ReplayCache::first: a client's replay cache ..
        ensures { IfOk result (λ copy. copy ≡ self.now) }
    {
        Ok(ReplayCache {
            failures: self.failures,
            floor: self.floor,
            pairs: self.pairs.copy(alloc)?,
        })
    }
}

/// Returns the floor that a tidying at this moment leaves to a client with nothing recorded. It is at most a day before
/// the moment.
pub fn tidied_floor(floor: i64, at: Moment) -> i64
    // Promise, as tidied_unseen: a tidying drops authenticators ..
    ensures { result ≡ floor_on floor at.sec }
{
    floor.max(at.sec - DAY)
}

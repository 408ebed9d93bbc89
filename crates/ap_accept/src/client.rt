//! The replay cache of a client, with a list of what it has, from which it is saved.
ghost use Rattle.std.specs.Prelude.{◌≡◌, false, None, IfOk, OnOk, OnErr};
ghost use Rattle.std.specs.FinMap as map;
ghost use Rattle.std.specs.List.{filter};
ghost use Rattle.replay.specs.ReplayCache.{recorded};
ghost use Rattle.replay.specs.Stamp.{is_beyond_clock_skew, is_from};
ghost use Rattle.ap_accept.specs.Clients.{empty_cache};
ghost use Rattle.ap_accept.specs.Saved.{cache};
ghost use Rattle.ap_accept.specs.Stamps.{cache_with, listed, with_stamps};

use crate::saved::{Saved, put_list, put_second, take_list};
use cred_files::{CredError, Reader};
use krb_fields::Moment;
use replay::{Failures, Pairs, ReplayCache};
use std::alloc::{AllocError, Global};
use std::marker::Model;

/// The list keeps stamps that the cache dropped until it has this many stamps, and twice as many as the cache.
const FEW: usize = 64;

/// A client's replay cache. Contracts see the cache.
#[derive(Drop)]
pub struct Client {
    cache: ReplayCache<()>,
    /// The stamps that the cache has, and some that it dropped: those that are not below its floor are the cache's.
    stamps: Vec<(i64, u32)>,
}

impl Model for Client {
    ghost use Rattle.std.specs.Prelude.{◌≡◌, ⊤};
    ghost use denote.Plain.{Nothing};
    ghost use Rattle.replay.specs.contracts.cache.ReplayCache.{the_row};
    ghost use Rattle.replay.specs.declared.cache.ReplayCache.{ReplayCache};
    ghost use Rattle.ap_accept.specs.Stamps.{cache_with};

    ghost Value = { ReplayCache ⊤ };

    ghost coded = { (the_row Nothing).coded };

    ghost view = { λ c. c.cache };

    ghost invariant = { λ c. c.cache ≡ cache_with c.cache.floor c.stamps.items };
}

impl Client {
    /// Returns a client with nothing recorded, whose cache has this floor.
    pub fn empty(alloc: Global, floor: i64) -> Client
        ensures { result ≡ empty_cache floor }
    {
        Client {
            cache: ReplayCache::empty(alloc, floor),
            stamps: Vec::new(alloc),
        }
    }

    /// Returns a client with these stamps recorded. Those below the floor don't count.
    fn of(alloc: Global, floor: i64, stamps: Vec<(i64, u32)>) -> Result<Client, AllocError>
        ensures { IfOk result (λ client. client ≡ cache_with floor stamps.items) }
    {
        let pairs = listed(alloc, floor, stamps.as_slice())?;
        Ok(Client {
            cache: ReplayCache {
                failures: Failures::none(),
                floor,
                pairs,
            },
            stamps,
        })
    }

    /// Returns the cache.
    pub fn cache(&self) -> &ReplayCache<()>
        ensures { result.now ≡ self.now }
    {
        &self.cache
    }

    /// Records an authenticator that is within the clock skew and new. If memory runs out, nothing changes.
    pub fn record_seen(&mut self, at: Moment, ctime: i64, cusec: u32) -> Result<(), AllocError>
        requires timely { is_beyond_clock_skew self.old.floor at.sec ctime ≡ false }
        requires new { map.get self.old.pairs (ctime, cusec) ≡ None }
        ensures ok { OnOk result (self.new ≡ recorded self.old at.sec (ctime, cusec) tt) }
        ensures err { OnErr result (self.new ≡ self.old) }
    {
        self.stamps.reserve(1)?;
        self.cache.record_seen(at, ctime, cusec, ())?;
        self.stamps.push_reserved((ctime, cusec));
        self.shorten();
        Ok(())
    }

    /// Drops the stamps that the cache dropped, once the list is long and half of it are such stamps.
    fn shorten(&mut self)
        ensures { self.new ≡ self.old }
    {
        if self.stamps.len() >= FEW && self.stamps.len() / 2 >= self.cache.pairs.len() {
            let floor = self.cache.floor;
            drop_below(&mut self.stamps, floor);
        }
    }
}

/// Returns the pairs of a cache with this floor and these stamps.
fn listed(alloc: Global, floor: i64, stamps: &[(i64, u32)]) -> Result<Pairs<()>, AllocError>
    ensures { IfOk result (λ pairs. pairs ≡ listed floor stamps.now) }
{
    let mut pairs = collect_pairs(alloc, stamps)?;
    let _ = pairs.drop_before(floor, floor);
    Ok(pairs)
}

/// Returns these stamps as pairs.
fn collect_pairs(alloc: Global, stamps: &[(i64, u32)]) -> Result<Pairs<()>, AllocError>
    ensures { IfOk result (λ pairs. pairs ≡ with_stamps map.empty stamps.now) }
{
    let mut pairs = Pairs::new(alloc);
    for stamp in stamps {
        put_stamp(&mut pairs, stamp)?;
    }
    Ok(pairs)
}

fn put_stamp(pairs: &mut Pairs<()>, stamp: &(i64, u32)) -> Result<(), AllocError>
    ensures { OnOk result (pairs.new ≡ map.insert pairs.old stamp.now tt) }
{
    let (ctime, cusec) = *stamp;
    pairs.put(ctime, cusec, ())
}

/// Drops the stamps below the floor.
fn drop_below(stamps: &mut Vec<(i64, u32)>, floor: i64)
    ensures { stamps.new.items ≡ filter (is_from floor) stamps.old.items }
{
    stamps.retain(|stamp| stamp.0 >= floor);
}

impl Saved for Client {
    ghost at = { cache };

    fn take(alloc: Global, reader: &mut Reader<'_>) -> Result<Client, CredError> {
        let floor = reader.read_i64()?;
        let stamps = take_list(alloc, reader)?;
        Ok(Client::of(alloc, floor, stamps)?)
    }

    fn put(&self, out: &mut Vec<u8>) -> Result<(), AllocError> {
        put_second(out, self.cache.floor)?;
        put_list(out, self.stamps.as_slice())
    }
}

//! The replay caches of a service's clients.
ghost use Rattle.std.specs.Prelude.{◌≡◌, false, None, OnOk, OnErr};
ghost use Rattle.std.specs.FinMap as map;
ghost use Rattle.replay.specs.Stamp.{is_beyond_clock_skew};
ghost use Rattle.replay.specs.ReplayCache.{recorded};
ghost use Rattle.ap_accept.specs.Accepts.{stamp_of};
ghost use Rattle.ap_accept.specs.Clients.{empty_cache, floor_for, lasts, drop_expired, cache_among, cache_in};
ghost use Rattle.ap_accept.specs.Clients.{opened_clients, with_cache};
ghost use Rattle.ap_accept.specs.Saved.{clients};

use crate::client::Client;
use crate::presented::Presented;
use crate::saved::{Saved, put_list, put_second, take_list};
use cred_files::{CredError, Reader};
use krb_fields::{Moment, Name, SKEW};
use principal_rows::{NameMap, ValueTest};
use replay::ReplayCache;
use std::alloc::{AllocError, Global};

/// An hour, in seconds. At most once an hour, the acceptor drops entries that can't be replayed any more. It drops only
/// what is older than an hour plus the clock skew.
const HOUR: i64 = 3_600;

/// The clients of a service.
#[derive(Drop)]
pub struct Clients {
    /// An authenticator from a client without a cache of its own is too old if its ctime, in seconds since 1970, is
    /// below this. All dropped entries lie below it.
    pub floor: i64,
    /// By the client's name, the replay cache of each client that has one of its own.
    pub caches: NameMap<Client>,
}

impl Clients {
    /// Returns the clients of a service that has accepted nothing since the acceptor started with this floor.
    pub fn opened(alloc: Global, floor: i64) -> Clients
        ensures { result ≡ opened_clients floor }
    {
        Clients {
            floor,
            caches: NameMap::new(alloc),
        }
    }

    /// Returns a client's replay cache, or `empty` if it has none.
    pub fn cache<'c>(&'c self, client: &Name, empty: &'c ReplayCache<()>) -> &'c ReplayCache<()>
        requires { empty.now ≡ empty_cache self.now.floor }
        ensures { result.now ≡ cache_in self.now client.now.components }
    {
        match self.caches.get(client) {
            Some(client) => client.cache(),
            None => empty,
        }
    }

    /// Records an authenticator of its client. It must be within the clock skew and new. Drops entries that can't be
    /// replayed any more. Changes nothing if memory runs out.
    pub fn record_seen(
        &mut self,
        alloc: Global,
        at: Moment,
        presented: &Presented,
    ) -> Result<(), AllocError>
        requires timely { is_beyond_clock_skew (cache_in self.old presented.now.ticket.cname.components).floor at.sec
            presented.now.authenticator.ctime
            ≡ false }
        requires new { map.get (cache_in self.old presented.now.ticket.cname.components).pairs (stamp_of presented.now)
            ≡ None }
        ensures ok { OnOk result (self.new
            ≡ drop_expired at.sec (with_cache self.old presented.now.ticket.cname.components
            (recorded (cache_in self.old presented.now.ticket.cname.components) at.sec (stamp_of presented.now) tt))) }
        ensures err { OnErr result (self.new ≡ self.old) }
    {
        let floor = self.floor;
        record_among(alloc, &mut self.caches, floor, at, presented)?;
        self.drop_expired(at);
        Ok(())
    }

    /// Raises the floor, at most once an hour, and drops the clients whose caches refuse no more than an empty one.
    fn drop_expired(&mut self, at: Moment)
        ensures { self.new ≡ drop_expired at.sec self.old }
    {
        let floor = floor_for(at);
        if self.floor < floor - HOUR {
            self.caches.retain(&Lasting { floor });
            self.floor = floor;
        }
    }
}

/// Returns the second that lies an hour plus the clock skew before this moment.
fn floor_for(at: Moment) -> i64
    ensures { result ≡ floor_for at.sec }
{
    at.sec - SKEW - HOUR
}

/// Returns an empty replay cache with this floor.
pub fn empty_cache(alloc: Global, floor: i64) -> ReplayCache<()>
    ensures { result ≡ empty_cache floor }
{
    ReplayCache::empty(alloc, floor)
}

/// Records an authenticator among the replay caches of a service's clients.
fn record_among(
    alloc: Global,
    caches: &mut NameMap<Client>,
    floor: i64,
    at: Moment,
    presented: &Presented,
) -> Result<(), AllocError>
    requires timely { is_beyond_clock_skew
        (cache_among floor caches.old presented.now.ticket.cname.components).floor at.sec
        presented.now.authenticator.ctime
        ≡ false }
    requires new { map.get (cache_among floor caches.old presented.now.ticket.cname.components).pairs
        (stamp_of presented.now)
        ≡ None }
    ensures ok { OnOk result (caches.new ≡ map.insert caches.old presented.now.ticket.cname.components
        (recorded (cache_among floor caches.old presented.now.ticket.cname.components) at.sec
        (stamp_of presented.now) tt)) }
    ensures err { OnErr result (caches.new ≡ caches.old) }
{
    let client = &presented.ticket.cname;
    let mut cache = Client::empty(alloc, floor);
    if caches.replace(client, &mut cache) {
        let done = record_in(&mut cache, at, presented);
        let _ = caches.replace(client, &mut cache);
        done
    } else {
        record_in(&mut cache, at, presented)?;
        caches.put(client.copy(alloc)?, cache)
    }
}

/// Records an authenticator in the replay cache of its client.
fn record_in(cache: &mut Client, at: Moment, presented: &Presented) -> Result<(), AllocError>
    requires timely { is_beyond_clock_skew cache.old.floor at.sec presented.now.authenticator.ctime ≡ false }
    requires new { map.get cache.old.pairs (stamp_of presented.now) ≡ None }
    ensures ok { OnOk result (cache.new ≡ recorded cache.old at.sec (stamp_of presented.now) tt) }
    ensures err { OnErr result (cache.new ≡ cache.old) }
{
    let ctime = presented.authenticator.ctime.seconds();
    let cusec = presented.authenticator.cusec.get();
    cache.record_seen(at, ctime, cusec)
}

/// The test for replay caches that refuse more than an empty one with this floor.
#[derive(Drop)]
struct Lasting {
    floor: i64,
}

impl ValueTest<Client> for Lasting {
    ghost passes = { λ lasting m. lasts lasting.floor m };

    fn passes(&self, client: &Client) -> bool {
        let cache = client.cache();
        cache.floor > self.floor || cache.pairs.has_from(self.floor, 1)
    }
}

impl Saved for Clients {
    ghost at = { clients };

    fn take(alloc: Global, reader: &mut Reader<'_>) -> Result<Clients, CredError> {
        let floor = reader.read_i64()?;
        let caches = take_list(alloc, reader)?;
        Ok(Clients {
            floor,
            caches: NameMap::from_entries(caches)?,
        })
    }

    fn put(&self, out: &mut Vec<u8>) -> Result<(), AllocError> {
        put_second(out, self.floor)?;
        put_list(out, self.caches.entries())
    }
}

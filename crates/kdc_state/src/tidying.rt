//! Dropping the authenticators of all clients that can't come again.
ghost use Rattle.std.specs.Prelude.{◌≡◌};
ghost use Rattle.krb_fields.specs.Name.{Components};
ghost use Rattle.replay.specs.Tidied.{tidied};
ghost use Rattle.kdc_state.specs.State.{cache_of, tidied_state};

use crate::state::State;
use krb_fields::Moment;
use principal_rows::{Upkeep, ValueChange, ValueTest};
use replay::{Kept, ReplayCache, tidied_floor};

impl State {
    /// Drops each client's authenticators that are too old to come again at this moment, and each cache that
    /// then equals that of a client without a stored one. It allocates nothing.
    pub fn tidy(&mut self, at: Moment)
        // Promise (state, caches), as Kdc::tidy of kdc_core: a tidying drops what ..
        ensures state { self.new ≡ tidied_state self.old at }
        ensures caches { (name : Components) → cache_of self.new name ≡ tidied (cache_of self.old name) at.sec }
    {
        self.floor = tidied_floor(self.floor, at);
        self.caches.change_values(&Tidying { at });
        self.caches.retain(&Used { floor: self.floor });
    }

    /// Frees the memory of dropped authenticators, for this many clients from a place on. Returns the next place, if
    /// there is one. So a tidying of many clients doesn't free all of it at once.
    pub fn free_dropped(&mut self, from: usize, clients: usize) -> Option<usize>
        // Promise, as Pairs::free_dropped of replay: tidying allocates nothing, and ..
        ensures { self.new ≡ self.old }
    {
        self.caches.keep_up(from, clients, &Freeing)
    }
}

/// The change that tidies a cache at this moment.
#[derive(Drop)]
struct Tidying {
    at: Moment,
}

impl ValueChange<ReplayCache<Kept>> for Tidying {
    ghost use Rattle.replay.specs.Tidied.{tidied};

    ghost changed = { λ tidying m. tidied m tidying.at.sec };

    fn change(&self, cache: &mut ReplayCache<Kept>) {
        cache.tidy(self.at);
    }
}

/// The work that frees the memory of a client's dropped authenticators.
#[derive(Drop)]
struct Freeing;

impl Upkeep<ReplayCache<Kept>> for Freeing {
    fn keep_up(&self, cache: &mut ReplayCache<Kept>) {
        cache.free_dropped();
    }
}

/// The test whether a cache differs from an empty one with this floor.
#[derive(Drop)]
struct Used {
    floor: i64,
}

impl ValueTest<ReplayCache<Kept>> for Used {
    ghost use Rattle.std.specs.Prelude.{not};
    ghost use Rattle.replay.specs.Tidied.{is_empty};

    ghost passes = { λ used m. not (is_empty used.floor m) };

    fn passes(&self, cache: &ReplayCache<Kept>) -> bool {
        !cache.is_empty(self.floor)
    }
}

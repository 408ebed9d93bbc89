//! The sockets of a server in memory. They keep a record of what they did.
ghost use Rattle.std.specs.Prelude.{◌≡◌, ◌∷◌, []};
ghost use Rattle.std.specs.Option.{option_copied};
ghost use Rattle.std.proofs.Common.{ap};
ghost use Rattle.kdc_hub.specs.Wire.{Records};
ghost use Rattle.kdc_files.specs.Recorded.{IsNew};

use crate::sockets::ServerSockets;
use kdc_files::Record;
use kdc_hub::{Action, Event, MemoryWire, Peers, Wire, WireCall, WireFault};
use krb_fields::Moment;
use std::alloc::Global;
use std::collections::VecDeque;
use std::net::SocketAddr;

/// A Wire in memory that can end connections. For tests.
#[derive(Drop)]
pub struct MemorySockets {
    wire: MemoryWire,
    ended: Record<u64>,
}

impl MemorySockets {
    /// Returns sockets at which these events come.
    pub fn new(alloc: Global, coming: VecDeque<(Moment, Event)>) -> MemorySockets
        // Promise, as MemoryHost::new: host, sockets, tally, journal ..
        ensures { IsNew (⟦<MemorySockets as Wire>⟧.recorded result) }
    {
        MemorySockets {
            wire: MemoryWire::new(alloc, coming, None),
            ended: Record::new(alloc),
        }
    }

    /// Returns what was polled and done, in order, unless memory ran out for it.
    pub fn did(&self) -> Option<&[WireCall]>
        // Promise, as MemoryWire::did of kdc_hub: what is in memory ..
        ensures { option_copied result ≡ ⟦<MemorySockets as Wire>⟧.recorded self.now }
    {
        self.wire.did()
    }

    /// Returns the connections that were ended since their replies were withheld, unless memory ran out for them.
    pub fn ended(&self) -> Option<&[u64]>
        ensures { option_copied result ≡ self.now.ended }
    {
        self.ended.entries()
    }
}

impl Wire for MemorySockets {
    ghost recorded = { λ s. ⟦<MemoryWire as Wire>⟧.recorded s.wire };

    ghost fault_count = { λ s. ⟦<MemoryWire as Wire>⟧.fault_count s.wire };

    fn poll(&mut self, alloc: Global) -> Result<(Moment, Option<Event>), WireFault> {
        self.wire.poll(alloc)
    }

    fn act(&mut self, alloc: Global, action: &Action) -> Result<(), WireFault> {
        self.wire.act(alloc, action)
    }

    fn faults(&self) -> u64 {
        self.wire.faults()
    }
}

impl Peers for MemorySockets {
    ghost peer_of = { λ s. ⟦<MemoryWire as Peers>⟧.peer_of s.wire };

    fn peer(&self, conn: u64) -> Option<SocketAddr> {
        self.wire.peer(conn)
    }
}

impl ServerSockets for MemorySockets {
    ghost HangsUp = { λ old conn new. (new.wire ≡ old.wire) × Records old.ended (conn ∷ []) new.ended };

    ghost lost_count = { λ _. 0 };

    ghost keeps_record = { λ old new conn is. ap (λ w. ⟦<MemoryWire as Wire>⟧.recorded w) is.0 };

    fn hang_up(&mut self, conn: u64) {
        self.ended.keep(Ok(conn));
    }

    fn lost(&self) -> u64 {
        0
    }
}

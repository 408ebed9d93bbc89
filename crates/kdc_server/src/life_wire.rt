//! The wire of a server in its life.
//!
//! `serve_life` says of a wire only what the wire recorded, and what becomes of a journal is in no record. So the
//! journal with which a life began is a ghost of a type parameter, which `run_server` picks.
ghost use Rattle.std.specs.Prelude.{◌≡◌};
ghost use Rattle.journal.specs.Life.{JournalState};
ghost use Rattle.kdc_files.specs.Keeping.{unrecorded};
ghost use Rattle.kdc_files.specs.Recorded.{IsNew};
ghost use Rattle.kdc_hub.specs.Hub.{hub_state};
ghost use Rattle.kdc_hub.specs.Life.{IsLife, periods_of};
ghost use Rattle.kdc_hub.specs.Recorded.{is_fixed_if, recorded_by_any};
ghost use Rattle.kdc_server.specs.Asking.{HasAsked};
ghost use Rattle.kdc_server.specs.Starting.{chacha20};

use crate::host::Host;
use crate::reporter::Reporter;
use crate::server_wire::ServerWire;
use kdc_hub::{Action, Event, Hub, Totals, Wire, WireFault, serve_life};
use krb_fields::Moment;
use rand_chacha::ChaCha20Rng;
use std::alloc::Global;
use std::marker::{Brand, PhantomData};

/// The journal with which a life begins, for contracts alone.
pub trait Begun {
    ghost journal: { JournalState };
}

impl Begun for Brand {
    ghost journal = { unrecorded };
}

/// The wire of a server in a life that began with this journal.
#[derive(Drop)]
pub struct LifeWire<H: Host, B: Begun> {
    wire: ServerWire<H>,
    of: PhantomData<B>,
    // Its journal was asked what the tally says, and nothing else.
    ghost asked: { ∥ HasAsked B.journal (H.Tally.recorded wire.tally) (H.Journal.state wire.journal) ∥₁ },
}

impl<H: Host, B: Begun> LifeWire<H, B> {
    /// Returns the wire of a server whose life begins.
    fn new(wire: ServerWire<H>) -> LifeWire<H, B>
        requires tally { IsNew (H.Tally.recorded wire.tally) }
        requires begun { H.Journal.state wire.journal ≡ B.journal }
        ensures wire { result.wire ≡ wire }
    {
        LifeWire {
            wire,
            of: PhantomData,
        }
    }

    /// Returns the server's wire.
    pub fn server_wire(&self) -> &ServerWire<H>
        ensures { result.now ≡ self.now.wire }
    {
        &self.wire
    }

    /// Returns the server's wire after its life.
    fn into_wire(self) -> ServerWire<H>
        ensures wire { result ≡ self.wire }
        ensures asked { ∥ HasAsked B.journal (H.Tally.recorded result.tally) (H.Journal.state result.journal) ∥₁ }
    {
        self.wire
    }
}

impl<H: Host, B: Begun> Wire for LifeWire<H, B> {
    ghost recorded = { λ w. H.Tally.recorded w.wire.tally };

    ghost fault_count = { λ w. H.Tally.fault_count w.wire.tally };

    fn poll(&mut self, alloc: Global) -> Result<(Moment, Option<Event>), WireFault> {
        self.wire.poll(alloc)
    }

    fn act(&mut self, alloc: Global, action: &Action) -> Result<(), WireFault> {
        self.wire.act(alloc, action)
    }

    fn faults(&self) -> u64 {
        self.wire.faults()
    }
}

/// A wire after its life.
#[derive(Drop)]
pub(crate) struct Lived<H: Host> {
    /// The wire.
    pub wire: ServerWire<H>,
    /// What was counted in its life.
    pub totals: Totals,
}

/// Serves this many rounds over the wire of a server that has started.
pub(crate) fn live<B: Begun, H: Host>(
    alloc: Global,
    wire: ServerWire<H>,
    source: &mut Option<H::Rows>,
    hub: &mut Hub<ChaCha20Rng>,
    rounds: u64,
    reporter: &mut Reporter<H>,
) -> Lived<H>
    requires tally { IsNew (H.Tally.recorded wire.tally) }
    requires begun { H.Journal.state wire.journal ≡ B.journal }
    ensures life { IsLife (H.Tally.recorded wire.tally) (is_fixed_if H.Rows.is_fixed source.old)
        (recorded_by_any H.Rows.recorded source.old) (hub_state chacha20 hub.old) (periods_of rounds) result.totals
        (H.Tally.recorded result.wire.tally) (recorded_by_any H.Rows.recorded source.new)
        (hub_state chacha20 hub.new) }
    ensures stays { is_fixed_if H.Rows.is_fixed source.new ≡ is_fixed_if H.Rows.is_fixed source.old }
    // Since then its journal was asked what the tally says, and nothing else.
    ensures asked { ∥ HasAsked B.journal (H.Tally.recorded result.wire.tally)
        (H.Journal.state result.wire.journal) ∥₁ }
{
    let mut wire: LifeWire<H, B> = LifeWire::new(wire);
    let totals = serve_life(alloc, &mut wire, source, hub, rounds, reporter);
    Lived {
        wire: wire.into_wire(),
        totals,
    }
}

//! The tally of a server in memory. It keeps a record of what it counted.
ghost use Rattle.std.specs.Prelude.{◌≡◌, IfOk};
ghost use Rattle.std.specs.Option.{option_copied};
ghost use Rattle.kdc_hub.specs.Wire.{acted, polled};
ghost use Rattle.kdc_files.specs.Recorded.{IsNew};

use crate::tally::{FaultCount, Tally};
use kdc_hub::{Action, Event, Record, WireCall, WireFault};
use krb_fields::Moment;
use std::alloc::{AllocError, Global};

/// A tally that records all that it counts. For tests.
#[derive(Drop)]
pub struct MemoryTally {
    did: Record<WireCall>,
    count: FaultCount,
}

impl MemoryTally {
    /// Returns a tally that has counted nothing.
    pub fn new(alloc: Global) -> MemoryTally
        // Promise, as MemoryHost::new of kdc_server: host, sockets, tally, journal ..
        ensures { IsNew (⟦<MemoryTally as Tally>⟧.recorded result) }
    {
        MemoryTally {
            did: Record::new(alloc),
            count: FaultCount::new(),
        }
    }

    /// Returns what was polled and tried, in order, unless memory ran out for it.
    pub fn did(&self) -> Option<&[WireCall]>
        // Promise, as MemoryWire::did of kdc_hub: what is in memory ..
        ensures { option_copied result ≡ ⟦<MemoryTally as Tally>⟧.recorded self.now }
    {
        self.did.entries()
    }
}

impl Tally for MemoryTally {
    ghost recorded = { λ t. t.did };

    ghost fault_count = { λ t. t.count.faults };

    fn add_poll(&mut self, alloc: Global, outcome: &Result<(Moment, Option<Event>), WireFault>) {
        self.count.add_poll(alloc, outcome);
        self.did.keep(copy_poll(alloc, outcome));
    }

    fn add_act(&mut self, alloc: Global, action: &Action, outcome: Result<(), WireFault>) {
        self.count.add_act(alloc, action, outcome);
        self.did.keep(copy_act(alloc, action, outcome));
    }

    fn faults(&self) -> u64 {
        self.count.faults()
    }
}

/// Returns a copy of a poll's outcome.
fn copy_poll(
    alloc: Global,
    outcome: &Result<(Moment, Option<Event>), WireFault>,
) -> Result<WireCall, AllocError>
    ensures { IfOk result (λ did. did ≡ polled outcome.now) }
{
    match outcome {
        Ok((at, Some(event))) => Ok(WireCall::Polled {
            at: *at,
            event: event.copy(alloc)?,
        }),
        Ok((at, None)) => Ok(WireCall::Waited { at: *at }),
        Err(_) => Ok(WireCall::Missed),
    }
}

/// Returns a copy of an action with its outcome.
fn copy_act(
    alloc: Global,
    action: &Action,
    outcome: Result<(), WireFault>,
) -> Result<WireCall, AllocError>
    ensures { IfOk result (λ did. did ≡ acted action.now outcome) }
{
    let action = action.copy(alloc)?;
    match outcome {
        Ok(()) => Ok(WireCall::Acted { action }),
        Err(_) => Ok(WireCall::Failed { action }),
    }
}

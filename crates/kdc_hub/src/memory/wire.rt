//! A Wire in memory.
ghost use Rattle.std.specs.Prelude.{◌≡◌, [], Some, if◌then◌else◌};
ghost use Rattle.std.specs.Option.{option_copied};
ghost use Rattle.kdc_hub.specs.Wire.{IsCounted};

use crate::event::{Action, Event};
use crate::record::Record;
use crate::wires::{Wire, WireCall, WireFault};
use krb_fields::Moment;
use std::alloc::Global;
use std::collections::VecDeque;

/// A Wire that returns the events that it was given, and records what it does.
#[derive(Drop)]
pub struct MemoryWire {
    coming: VecDeque<(Moment, Event)>,
    /// When the last event came.
    at: Moment,
    did: Record<WireCall>,
    /// How many calls succeed before one fails, if one is to fail.
    calls_before_fault: Option<u64>,
    faults: u64,
}

impl MemoryWire {
    /// Returns a Wire with these events. After them none come, and time stands still. One poll or act fails after
    /// `calls_before_fault` others, if that is given.
    pub fn new(
        alloc: Global,
        coming: VecDeque<(Moment, Event)>,
        calls_before_fault: Option<u64>,
    ) -> MemoryWire
        // Promise: what is in memory, over which tests serve, begins with an empty record: wire and source.
        ensures records { ⟦<MemoryWire as Wire>⟧.recorded result ≡ Some [] }
    {
        MemoryWire {
            coming,
            at: Moment { sec: 0, usec: 0 },
            did: Record::new(alloc),
            calls_before_fault,
            faults: 0,
        }
    }

    /// Returns what it did, in order, if there was enough memory to record all of it.
    pub fn did(&self) -> Option<&[WireCall]>
        // Promise: what is in memory returns its record; so every record that the clauses of this part speak of is kept
        // by something.
        ensures { option_copied result ≡ ⟦<MemoryWire as Wire>⟧.recorded self.now }
    {
        self.did.entries()
    }

    /// Checks whether this call fails, and counts a failure.
    fn fails(&mut self) -> bool
        ensures counted { IsCounted self.old.faults (if result then 1 else 0) self.new.faults }
        ensures did { self.new.did ≡ self.old.did }
    {
        match self.calls_before_fault {
            Some(0) => {
                self.calls_before_fault = None;
                self.faults = self.faults.saturating_add(1);
                true
            }
            Some(calls) => {
                self.calls_before_fault = Some(calls.saturating_sub(1));
                false
            }
            None => false,
        }
    }
}

impl Wire for MemoryWire {
    ghost recorded = { λ w. w.did };

    ghost fault_count = { λ w. w.faults };

    fn poll(&mut self, alloc: Global) -> Result<(Moment, Option<Event>), WireFault> {
        if self.fails() {
            self.did.keep(Ok(WireCall::Missed));
            return Err(WireFault);
        }
        let Some((at, event)) = self.coming.pop_front() else {
            self.did.keep(Ok(WireCall::Waited { at: self.at }));
            return Ok((self.at, None));
        };
        self.at = at;
        self.did.keep(
            event
                .copy(alloc)
                .map(|event| WireCall::Polled { at, event }),
        );
        Ok((at, Some(event)))
    }

    fn act(&mut self, alloc: Global, action: &Action) -> Result<(), WireFault> {
        if self.fails() {
            self.did.keep(action.copy(alloc).map(|action| WireCall::Failed { action }));
            return Err(WireFault);
        }
        self.did.keep(action.copy(alloc).map(|action| WireCall::Acted { action }));
        Ok(())
    }

    fn faults(&self) -> u64 {
        self.faults
    }
}

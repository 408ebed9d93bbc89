//! Counting the failed calls of a server.
ghost use Rattle.std.specs.Prelude.{◌≡◌, ◌∷◌, [], ℕ, List, Option, None};
ghost use Rattle.kdc_hub.specs.declared.wires.WireCall.{WireCall};
ghost use Rattle.kdc_hub.specs.Wire.{IsCounted, Records, acted, faults_of, polled};

use kdc_hub::{Action, Event, WireFault};
use krb_fields::Moment;
use std::alloc::Global;

/// Counts the polls and acts of a server that failed. It may keep a record of all, for contracts alone.
pub trait Tally {
    // The polls and acts so far with their outcomes, in order, if it keeps a record.
    ghost recorded: { Self → Option (List WireCall) };

    // How many have failed.
    ghost fault_count: { Self → ℕ };

    /// Adds a poll, and counts it if it failed.
    fn add_poll(&mut self, alloc: Global, outcome: &Result<(Moment, Option<Event>), WireFault>)
        ensures records { Records (recorded self.old) (polled outcome.now ∷ []) (recorded self.new) }
        ensures counted { IsCounted (fault_count self.old) (faults_of outcome.now) (fault_count self.new) };

    /// Adds an act, and counts it if it failed.
    fn add_act(&mut self, alloc: Global, action: &Action, outcome: Result<(), WireFault>)
        ensures records { Records (recorded self.old) (acted action.now outcome ∷ []) (recorded self.new) }
        ensures counted { IsCounted (fault_count self.old) (faults_of outcome) (fault_count self.new) };

    /// Returns how many have failed. The count stops at the greatest `u64`.
    fn faults(&self) -> u64
        ensures { result ≡ fault_count self.now };
}

/// A count alone.
#[derive(Clone, Copy, PartialEq, Eq)]
pub struct FaultCount {
    faults: u64,
}

impl FaultCount {
    /// Returns a count of 0.
    pub fn new() -> FaultCount
        ensures { result.faults ≡ 0 }
    {
        FaultCount { faults: 0 }
    }
}

impl Tally for FaultCount {
    ghost recorded = { λ _. None };

    ghost fault_count = { λ count. count.faults };

    fn add_poll(&mut self, _alloc: Global, outcome: &Result<(Moment, Option<Event>), WireFault>) {
        match outcome {
            Ok(_) => {}
            Err(_) => self.faults = self.faults.saturating_add(1),
        }
    }

    fn add_act(&mut self, _alloc: Global, _action: &Action, outcome: Result<(), WireFault>) {
        match outcome {
            Ok(()) => {}
            Err(WireFault) => self.faults = self.faults.saturating_add(1),
        }
    }

    fn faults(&self) -> u64 {
        self.faults
    }
}

//! The wire through which a hub receives and sends.
ghost use Rattle.std.specs.Prelude.{◌≡◌, ◌∷◌, [], ℕ, List, Option};
ghost use Rattle.kdc_hub.specs.declared.wires.WireCall.{WireCall};
ghost use Rattle.kdc_hub.specs.Wire.{IsCounted, Records, acted, polled, faults_of};

use crate::event::{Action, Event};
use krb_fields::Moment;
use std::alloc::Global;
use std::error::Error;
use std::fmt;

/// A call of a Wire failed.
#[derive(Clone, Copy, Debug)]
pub struct WireFault;

impl fmt::Display for WireFault {
    fn fmt<W: fmt::Write>(&self, f: &mut fmt::Formatter<W>) -> fmt::Result {
        f.write_str("a call to the network failed")
    }
}

impl Error for WireFault {}

/// A call of a Wire, with its outcome.
#[derive(Drop)]
pub enum WireCall {
    /// A poll returned an event.
    Polled { at: Moment, event: Event },
    /// A poll returned no event until this moment.
    Waited { at: Moment },
    /// A poll failed.
    Missed,
    /// An act succeeded.
    Acted { action: Action },
    /// An act failed.
    Failed { action: Action },
}

/// The source of events and the target of actions. A Wire may keep a record, for contracts alone.
pub trait Wire {
    // The polls and acts so far with their outcomes, in order, if the Wire keeps a record.
    ghost recorded: { Self → Option (List WireCall) };

    // How often a call has failed.
    ghost fault_count: { Self → ℕ };

    /// Returns the next event and its moment, or the moment alone if no event has come after a while.
    fn poll(&mut self, alloc: Global) -> Result<(Moment, Option<Event>), WireFault>
        // Promise (records, counted): a wire records what was polled and acted on, if it records anything, and counts
        // its failed calls.
        ensures records { Records (recorded self.old) (polled result ∷ []) (recorded self.new) }
        ensures counted { IsCounted (fault_count self.old) (faults_of result) (fault_count self.new) };

    /// Does an action. A `Write` puts the message's length before it (RFC 4120, section 7.2.2).
    fn act(&mut self, alloc: Global, action: &Action) -> Result<(), WireFault>
        // Promise (records, counted), as Wire::poll: a wire records what ..
        ensures records { Records (recorded self.old) (acted action.now result ∷ []) (recorded self.new) }
        ensures counted { IsCounted (fault_count self.old) (faults_of result) (fault_count self.new) };

    /// Returns how often a poll or an act has failed. The count stops at the greatest `u64`.
    fn faults(&self) -> u64
        // Promise, as Wire::poll: a wire records what ..
        ensures { result ≡ fault_count self.now };
}

//! Serving the events of a Wire.
ghost use Rattle.std.specs.Prelude.{◌≡◌, ◌≤◌, length};
ghost use Rattle.kdc_hub.specs.Acts.{AreActs};
ghost use Rattle.kdc_hub.specs.Hub.{hub_state};
ghost use Rattle.kdc_hub.specs.Logged.{logged};
ghost use Rattle.kdc_hub.specs.Rounds.{IsRun, close_of, ending};
ghost use Rattle.kdc_hub.specs.Wire.{IsCounted};

use crate::event::{Action, CloseReason, Event};
use crate::hub::Hub;
use crate::wires::{Wire, WireFault};
use krb_fields::Moment;
use rand_core::Rng;
use std::alloc::Global;

/// The counts of a run.
#[derive(Clone, Copy, PartialEq, Eq)]
pub struct Served {
    /// Events that arrived.
    pub events: u32,
    /// Failed calls of the Wire. The count stops at the greatest `u64`.
    pub faults: u64,
    /// Events that ran out of memory.
    pub refused: u32,
    /// When the last successful poll returned.
    pub last: Option<Moment>,
}

/// Returns the counts when no event came.
fn nothing_served(faults: u64, last: Option<Moment>) -> Served
    ensures events { result.events ≡ 0 }
    ensures faults { result.faults ≡ faults }
    ensures refused { result.refused ≡ 0 }
    ensures last { result.last ≡ last }
{
    Served {
        events: 0,
        faults,
        refused: 0,
        last,
    }
}

/// Serves this many rounds, with one poll in each. A failed poll ends its round. It tries every action of an event,
/// even after one that failed. A connection on which an action failed ends.
pub fn serve<W: Wire, R: Rng>(alloc: Global, wire: &mut W, hub: &mut Hub<R>, rounds: u32) -> Served
    // Promise, as Hub::step: each request that is ..
    // Promise, as one_run: **each gets its own in ..
    // Promise: serving polls once a round, steps the polled event, tries each action of that step once and in order,
    // even after one that failed, and does nothing else; a connection on which one failed ends.
    // Promise (run, counted): serving returns when its last poll came back that did not fail; it counts the calls that
    // failed.
    ensures run { IsRun (W.recorded wire.old) (hub_state R.stream hub.old) rounds result (W.recorded wire.new)
        (hub_state R.stream hub.new) }
    ensures counted { IsCounted (W.fault_count wire.old) result.faults (W.fault_count wire.new) }
    // A round takes one event at most.
    // Promise (few_events, few_refused): serving takes no more events than it has rounds, and refuses no more because
    // memory ran out.
    ensures few_events { result.events ≤ rounds }
    ensures few_refused { result.refused ≤ rounds }
{
    let mut served = nothing_served(0, None);
    for _ in 0..rounds {
        let round = serve_round(alloc, wire, hub);
        served = Served {
            events: served.events + round.events,
            faults: served.faults.saturating_add(round.faults),
            refused: served.refused + round.refused,
            last: round.last.or(served.last),
        };
    }
    served
}

/// Polls once, and does the actions of an event that came. If memory ran out for some of them, it closes the event's
/// connection.
fn serve_round<W: Wire, R: Rng>(alloc: Global, wire: &mut W, hub: &mut Hub<R>) -> Served
    ensures run { IsRun (W.recorded wire.old) (hub_state R.stream hub.old) 1 result (W.recorded wire.new)
        (hub_state R.stream hub.new) }
    ensures counted { IsCounted (W.fault_count wire.old) result.faults (W.fault_count wire.new) }
    ensures one_event { result.events ≤ 1 }
    ensures one_refused { result.refused ≤ 1 }
{
    match wire.poll(alloc) {
        Ok((at, Some(event))) => match hub.step(alloc, at, event) {
            Ok(actions) => {
                let faults = act_all(alloc, wire, hub, at, &actions);
                Served {
                    events: 1,
                    faults,
                    refused: 0,
                    last: Some(at),
                }
            }
            Err(fault) => {
                let faults = act_all(alloc, wire, hub, at, &fault.done);
                let more = close(alloc, wire, hub, at, fault.conn);
                Served {
                    events: 1,
                    faults: faults + more,
                    refused: 1,
                    last: Some(at),
                }
            }
        },
        Ok((at, None)) => nothing_served(0, Some(at)),
        Err(_) => nothing_served(1, None),
    }
}

/// Tries each action, in order. If one fails on a connection, the connection then ends. Returns how many failed.
fn act_all<W: Wire, R: Rng>(
    alloc: Global,
    wire: &mut W,
    hub: &mut Hub<R>,
    at: Moment,
    actions: &[Action],
) -> u64
    ensures acts { AreActs (W.recorded wire.old) (hub_state R.stream hub.old) at actions.now result
        (W.recorded wire.new) (hub_state R.stream hub.new) }
    ensures counted { IsCounted (W.fault_count wire.old) result (W.fault_count wire.new) }
    ensures few { result ≤ length actions.now }
{
    let mut faults = 0;
    let mut lost = None;
    for action in actions {
        match wire.act(alloc, action) {
            Ok(()) => {}
            Err(WireFault) => {
                faults += 1;
                lost = lost.or(action.connection());
            }
        }
    }
    end_lost(alloc, hub, at, lost);
    faults
}

/// Closes the connection of an event that ran out of memory.
fn close<W: Wire, R: Rng>(
    alloc: Global,
    wire: &mut W,
    hub: &mut Hub<R>,
    at: Moment,
    conn: Option<u64>,
) -> u64
    ensures acts { AreActs (W.recorded wire.old) (hub_state R.stream hub.old) at (close_of conn) result
        (W.recorded wire.new)
        (hub_state R.stream hub.new) }
    ensures counted { IsCounted (W.fault_count wire.old) result (W.fault_count wire.new) }
    ensures few { result ≤ 1 }
{
    match conn {
        Some(conn) => {
            let reason = CloseReason::OutOfMemory;
            let closing = &[Action::Close { conn, reason }];
            act_all(alloc, wire, hub, at, closing)
        }
        None => 0,
    }
}

/// Ends a connection that was lost.
fn end_lost<R: Rng>(alloc: Global, hub: &mut Hub<R>, at: Moment, lost: Option<u64>)
    ensures { hub_state R.stream hub.new ≡ (logged (hub_state R.stream hub.old) (ending at lost)).hub }
{
    if let Some(conn) = lost {
        let _ = hub.step(alloc, at, Event::Closed { conn });
    }
}

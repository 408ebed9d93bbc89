//! The wire of a server.
ghost use Rattle.std.specs.Prelude.{◌≡◌, ◌∷◌, [], true, false, None};
ghost use Rattle.std.specs.Result.{is_ok};
ghost use Rattle.kdc_hub.specs.Wire.{IsCounted, Records, acted, faults_of, polled};
ghost use Rattle.kdc_hub.specs.Rounds.{action_connection};
ghost use Rattle.server_notices.specs.Clocks.{clock_after};
ghost use Rattle.kdc_files.specs.Journal.{handed_by, is_kept};
ghost use Rattle.kdc_files.specs.Keeping.{AsksFor};
ghost use Rattle.request_log.specs.Log.{LogsAll, arrival_after, entries_of};
ghost use Rattle.server_notices.specs.Unanswered.{after_act, memory_after};
ghost use Rattle.kdc_files.specs.Recorded.{IsNew};
ghost use Rattle.kdc_server.specs.Served.{Serves};
ghost use Rattle.kdc_server.specs.Quiet.{quiet_withholds};
ghost use Rattle.kdc_server.specs.Withheld.{EndsOnly, may_send, withheld_after};

use crate::host::Host;
use crate::quiet::quiet_withholds;
use crate::sockets::ServerSockets;
use crate::withheld::Withheld;
use kdc_files::keep_action;
use kdc_hub::{Action, Event, Wire, WireFault};
use kdc_metrics::Tally;
use krb_fields::Moment;
use request_log::{Arrival, Tried, arrival_after, log_action};
use server_notices::{ClockWatch, MemoryWatch, watch_clock, watch_memory};
use std::alloc::Global;

/// The times of a server's start.
#[derive(Clone, Copy)]
pub struct StartTimes {
    /// When the server started.
    pub at: Moment,
    /// The floor of the start, in seconds since 1970.
    pub floor: i64,
    /// The second before which a TGS-REQ gets no KRB_AP_ERR_SKEW. `None` if none is withheld.
    pub quiet_until: Option<i64>,
}

/// The sockets of a server. Before it sends a reply, it has its journal keep what the reply makes the KDC remember. It
/// withholds a reply if the journal can't, or if the start is quiet and the reply is one that a quiet start withholds:
/// then the act fails, and ends the connection that it was for. After each act it writes to its log.
///
/// Its record is that of its tally: all that was polled, and all acts that were tried, with those that were withheld.
#[derive(Drop)]
pub struct ServerWire<H: Host> {
    sockets: H::Sockets,
    tally: H::Tally,
    journal: H::Journal,
    log: H::Log,
    /// The second before which it is quiet, if the start is quiet.
    quiet_until: Option<i64>,
    clock: ClockWatch,
    memory: MemoryWatch,
    withheld: Withheld,
    /// Takes the lines that say that the clock went back, or that memory ran out.
    errors: H::Errors,
    /// The last event, or the start.
    came: Arrival,
    // The sockets, the journal and the log have recorded what the tally says.
    ghost served: { ∥ Serves (H.Tally.recorded tally) (H.Sockets.recorded sockets) (H.Journal.handed journal)
        (H.Log.logged log) came.at ∥₁ },
}

impl<H: Host> ServerWire<H> {
    /// Returns the wire of a server with these times.
    pub fn new(
        sockets: H::Sockets,
        journal: H::Journal,
        log: H::Log,
        errors: H::Errors,
        tally: H::Tally,
        times: StartTimes,
    ) -> ServerWire<H>
        requires sockets { IsNew (H.Sockets.recorded sockets) }
        requires journal { IsNew (H.Journal.handed journal) }
        requires log { IsNew (H.Log.logged log) }
        requires tally { IsNew (H.Tally.recorded tally) }
        ensures sockets { result.sockets ≡ sockets }
        ensures journal { result.journal ≡ journal }
        ensures log { result.log ≡ log }
        ensures tally { result.tally ≡ tally }
        ensures quiet { result.quiet_until ≡ times.quiet_until }
        ensures clock { result.clock ≡ record { floor = times.floor; latest = None; said = None } }
        ensures memory { result.memory ≡ record { awaits = false; count = 0; reported = 0; said = None } }
        ensures withheld { result.withheld ≡ record { by_journal = 0; by_quiet_start = 0 } }
        ensures came { result.came ≡ record { at = times.at; source = None } }
    {
        ServerWire {
            sockets,
            tally,
            journal,
            log,
            quiet_until: times.quiet_until,
            clock: ClockWatch::new(times.floor),
            memory: MemoryWatch::new(),
            withheld: Withheld::new(),
            errors,
            came: Arrival {
                at: times.at,
                source: None,
            },
        }
    }

    /// Returns the log of its requests.
    pub fn log(&self) -> &H::Log
        ensures { result.now ≡ self.now.log }
    {
        &self.log
    }

    /// Returns the sockets below it.
    pub fn sockets(&self) -> &H::Sockets
        ensures { result.now ≡ self.now.sockets }
    {
        &self.sockets
    }

    /// Returns the tally of what was polled and of the acts that were tried.
    pub fn tally(&self) -> &H::Tally
        ensures { result.now ≡ self.now.tally }
    {
        &self.tally
    }

    /// Returns the journal of the authenticators that it recorded.
    pub fn journal(&self) -> &H::Journal
        ensures { result.now ≡ self.now.journal }
    {
        &self.journal
    }

    /// Returns how many replies were withheld.
    pub fn withheld(&self) -> Withheld
        ensures { result ≡ self.now.withheld }
    {
        self.withheld
    }

    /// Returns when the last event came, or when the server started.
    pub fn came_at(&self) -> Moment
        ensures { result ≡ self.now.came.at }
    {
        self.came.at
    }
}

impl<H: Host> Wire for ServerWire<H> {
    ghost recorded = { λ o. H.Tally.recorded o.tally };

    ghost fault_count = { λ o. H.Tally.fault_count o.tally };

    /// Polls the sockets, and looks at the clock and at what the last event got.
    fn poll(&mut self, alloc: Global) -> Result<(Moment, Option<Event>), WireFault>
        ensures records { Records (H.Tally.recorded self.old.tally) (polled result ∷ [])
            (H.Tally.recorded self.new.tally) }
        ensures counted { IsCounted (H.Tally.fault_count self.old.tally) (faults_of result)
            (H.Tally.fault_count self.new.tally) }
        // Promise: **no answer depends on the log**: a server's wire forwards each poll, and each act that it doesn't
        // withhold, to its sockets, whatever its log is.
        ensures polls { Records (H.Sockets.recorded self.old.sockets) (polled result ∷ [])
            (H.Sockets.recorded self.new.sockets) }
        // The log's entries name the peer of the event's connection, as the sockets know it.
        // Promise, as ServerWire::act: **the log has one ..
        // Promise, as ServerWire::act: the address of a ..
        // Promise (came, journal), as ServerWire::act: **an authenticator is kept ..
        ensures came { self.new.came
            ≡ arrival_after (H.Sockets.peer_of self.new.sockets) self.old.came (polled result) }
        ensures clock { self.new.clock ≡ clock_after self.old.clock (polled result) }
        // How many requests were lost before they were read is what the sockets counted.
        // Promise: **unanswered requests are counted**: a datagram that had no action until the next poll, and a
        // connection that ends because memory ran out, and nothing else that was read.
        // Promise: the wire says at most once a minute how many there are, with those that its sockets counted as lost
        // before they were read.
        ensures memory { self.new.memory
            ≡ memory_after (H.Sockets.lost_count self.new.sockets) self.old.memory (polled result) }
        // Promise, as ServerWire::act: a withheld reply is ..
        ensures withheld { self.new.withheld ≡ self.old.withheld }
        ensures journal { self.new.journal ≡ self.old.journal }
        ensures log { self.new.log ≡ self.old.log }
        ensures quiet { self.new.quiet_until ≡ self.old.quiet_until }
    {
        let polled = self.sockets.poll(alloc);
        self.tally.add_poll(alloc, &polled);
        watch_clock(&mut self.clock, &mut self.errors, &polled);
        let lost = self.sockets.lost();
        watch_memory(&mut self.memory, &mut self.errors, lost, &polled);
        self.came = arrival_after(&self.sockets, self.came, &polled);
        polled
    }

    /// Does an action, or withholds it and ends its connection.
    fn act(&mut self, alloc: Global, action: &Action) -> Result<(), WireFault>
        ensures records { Records (H.Tally.recorded self.old.tally) (acted action.now result ∷ [])
            (H.Tally.recorded self.new.tally) }
        ensures counted { IsCounted (H.Tally.fault_count self.old.tally) (faults_of result)
            (H.Tally.fault_count self.new.tally) }
        // The authenticator that the reply makes the KDC remember is handed to the journal, and no other.
        // Promise: **an authenticator is kept before its reply is sent**: the authenticator that an action's request
        // made the KDC remember is handed to the journal, with the moment of the last event, and no other.
        ensures handed { Records (H.Journal.handed self.old.journal) (handed_by self.old.came.at action.now)
            (H.Journal.handed self.new.journal) }
        // Nothing else is asked of it.
        ensures asked { AsksFor action.now (is_kept H.Journal.is_whole self.new.journal action.now)
            (H.Journal.state self.old.journal) (H.Journal.state self.new.journal) }
        // If the journal has kept all, and the start is not quiet about it, the action is done.
        // Promise (sent, withheld), as ServerWire::poll: **no answer depends on ..
        // Promise (sent, withheld): when memory runs out, a request may get no reply because its audit record could not
        // be made.
        // Promise: an action with a reply is passed to the sockets only if the journal has kept all that it was handed.
        // Promise (sent, withheld): **a quiet start withholds nothing else**: what isn't sent is a refusal with 37,
        // before the second up to which all are refused; its connection ends.
        ensures sent { may_send H.Journal.is_whole self.new.journal self.old.quiet_until self.old.came.at action.now
            ≡ true
            → Records (H.Sockets.recorded self.old.sockets) (acted action.now result ∷ [])
            (H.Sockets.recorded self.new.sockets) }
        // Otherwise nothing is sent, and a connection ends: so an authenticator is kept before the reply to its request
        // is sent, and a client on a connection can ask another server at once.
        // Promise: where the journal has not kept all, or a quiet start withholds it, nothing is sent, the connection
        // that the action was for ends, and the act fails.
        ensures withheld { may_send H.Journal.is_whole self.new.journal self.old.quiet_until self.old.came.at action.now
            ≡ false → EndsOnly H.Sockets.HangsUp self.old.sockets (action_connection action.now) self.new.sockets
            × (is_ok result ≡ false) }
        // The log has an entry for the request that the action answers, if it answers one, and no other.
        // Promise: **the log has one entry for each action that answers a request**: its audit record, the moment at
        // which the request came, who sent it, and whether the action was done; no other entry is written.
        // Promise: the address of a datagram in the log is that of its action; that of a connection is the peer that
        // the sockets had for the connection of the event.
        ensures logged { LogsAll H.Log.Logs self.old.log
            (entries_of self.old.came action.now (is_ok result)) self.new.log }
        ensures came { self.new.came ≡ self.old.came }
        ensures clock { self.new.clock ≡ self.old.clock }
        // Promise, as ServerWire::poll: **unanswered requests are counted**: ..
        ensures memory { self.new.memory ≡ after_act self.old.memory action.now }
        // Promise: a withheld reply is counted by why, and nothing else is.
        ensures withheld_count { self.new.withheld ≡ withheld_after self.old.withheld
            (is_kept H.Journal.is_whole self.new.journal action.now)
            (quiet_withholds self.old.quiet_until self.old.came.at action.now) }
        ensures quiet { self.new.quiet_until ≡ self.old.quiet_until }
    {
        let is_kept = keep_action(alloc, &mut self.journal, self.came.at, action);
        let is_withheld = quiet_withholds(&self.quiet_until, self.came.at, action);
        let outcome = send(alloc, &mut self.sockets, is_kept && !is_withheld, action);
        self.withheld.note(is_kept, is_withheld);
        self.tally.add_act(alloc, action, outcome);
        self.memory.note(action);
        let tried = Tried {
            came: self.came,
            action,
            is_sent: outcome.is_ok(),
        };
        log_action(alloc, &mut self.log, &tried);
        outcome
    }

    /// Returns how often a poll failed, or an act failed or was withheld.
    fn faults(&self) -> u64 {
        self.tally.faults()
    }
}

/// Does an action if it may be done. If not, it fails, and its connection ends.
fn send<S: ServerSockets>(
    alloc: Global,
    sockets: &mut S,
    may_send: bool,
    action: &Action,
) -> Result<(), WireFault>
    ensures sent { may_send ≡ true
        → Records (S.recorded sockets.old) (acted action.now result ∷ []) (S.recorded sockets.new) }
    ensures withheld { may_send ≡ false
        → EndsOnly S.HangsUp sockets.old (action_connection action.now) sockets.new × (is_ok result ≡ false) }
{
    if may_send {
        sockets.act(alloc, action)
    } else {
        end_withheld(sockets, action.connection());
        Err(WireFault)
    }
}

/// Ends the connection whose reply is withheld, if it is one.
fn end_withheld<S: ServerSockets>(sockets: &mut S, conn: Option<u64>)
    ensures { EndsOnly S.HangsUp sockets.old conn sockets.new }
{
    match conn {
        Some(conn) => sockets.hang_up(conn),
        None => {}
    }
}

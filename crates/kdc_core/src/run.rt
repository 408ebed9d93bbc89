//! Runs of a key distribution centre: events in order.
ghost use Rattle.std.specs.Prelude.{◌≡◌, ◌<◌, ◌++◌, ◌∷◌, [], length, map, take, IfOk, IfErr, IfSome, IsOk, OnOk, OnErr};
ghost use Rattle.std.specs.Prelude.{option_map};
ghost use Rattle.kdc_core.specs.Run.{after_change, after_event, event_reply, replies, run};
ghost use Rattle.kdc_state.specs.Resumed.{resumed_state};
ghost use Rattle.kdc_state.specs.State.{opened_state};
ghost use Rattle.replay.specs.declared.opening.Opening.TheVariants.{Restart};
ghost use Rattle.kdc_core.specs.Struck.{Isolation};
ghost use Rattle.kdc_core.specs.Tickets.{OneTicket};
ghost use Rattle.principals.specs.Change.{refusal};

use crate::kdc::Kdc;
use kdc_state::Opening;
use krb_elements::Octets;
use krb_fields::Moment;
use principal_rows::Limits;
use principals::{Change, ChangeFault, Database};
use replay::Resumption;
use std::alloc::{AllocError, Global};
use std::error::Error;
use std::fmt;

/// An event of a KDC.
#[derive(Drop)]
pub enum Event {
    /// A request arrives.
    Request {
        /// When it comes in.
        at: Moment,
        /// 32 random bytes for the session key, and 16 each for the confounders of ticket and reply.
        random: [u8; 64],
        /// The maximum length of a reply with a ticket, in bytes.
        room: u32,
        /// The bytes of the request.
        request: Octets,
    },
    /// A change of the database is requested.
    Change {
        change: Change,
    },
    /// Another database of the same realm replaces this one. One of another realm changes nothing.
    Replace {
        database: Database,
    },
    /// Authenticators that are too old to come again at this moment are dropped.
    Tidy {
        at: Moment,
    },
    /// The replay caches are lost, and the KDC starts again at this moment.
    Restart {
        at: Moment,
    },
    /// The replay caches are lost, and the KDC starts again at this moment with this database and these limits.
    Reopen {
        database: Database,
        limits: Limits,
        at: Moment,
    },
    /// The KDC starts again with this database and these limits, and with the authenticators that are known from
    /// before.
    Resume {
        database: Database,
        limits: Limits,
        resumption: Resumption,
    },
}

/// Memory ran out during a run. The KDC is in the state after the completed events.
#[derive(Debug, Drop)]
pub struct RunFault {
    /// How many events were completed.
    pub done: usize,
    /// The reply to each completed event, if it has one.
    pub replies: Vec<Option<Vec<u8>>>,
}

impl fmt::Display for RunFault {
    fn fmt<W: fmt::Write>(&self, f: &mut fmt::Formatter<W>) -> fmt::Result {
        write!(f, "out of memory after {} events", self.done)
    }
}

impl Error for RunFault {}

impl Kdc {
    /// Runs the events in order, and returns the reply to each, if it has one: only a request has one. A refused change
    /// leaves everything unchanged.
    ///
    /// A run ends early only if memory runs out. It can continue with the first event that was not completed.
    pub fn run(&mut self, alloc: Global, events: &[Event]) -> Result<Vec<Option<Vec<u8>>>, RunFault>
        // The replies are those that the rules prescribe, each from the state that the events before it left.
        // Promise (replies, state): each event of a run (a request, a change, a replacement, a tidying or a restart) is
        // handled, in order, from the state that the events before it left; the final state is the one that they leave.
        ensures replies { IfOk result (λ r.
            map (option_map (λ octets. octets.items)) r.items ≡ replies self.old events.now) }
        // The state afterwards is the one that the rules prescribe.
        ensures state { OnOk result (self.new ≡ run self.old events.now) }
        // If memory runs out, both are as after the completed events.
        // Promise (done, done_replies, done_state), as Kdc::handle: if memory runs out, ..
        ensures done { IfErr result (λ fault. fault.done < length events.now) }
        ensures done_replies { IfErr result (λ fault.
            map (option_map (λ octets. octets.items)) fault.replies.items
            ≡ replies self.old (take fault.done events.now)) }
        ensures done_state { IfErr result (λ fault. self.new ≡ run self.old (take fault.done events.now)) }
        // What others request, and changes of others, never change what a client gets.
        // Promise (isolation, done_isolation), as any_run: **isolation**: for a client, ..
        // Promise (isolation, done_isolation), as any_run: the set of names ..
        // Promise (isolation, done_isolation), as any_run: the two runs agree ..
        ensures isolation { Isolation self.old events.now }
        // No authenticator gets two different tickets, even across replacements and restarts, and across resumptions
        // that take over all that was recorded.
        // Promise (one_ticket, done_one_ticket), as any_run: **one ticket per authenticator**: ..
        // Promise, as any_run: one ticket per authenticator ..
        ensures one_ticket { OneTicket self.old events.now }
        // Both hold of the completed events too.
        ensures done_isolation { IfErr result (λ fault. Isolation self.old (take fault.done events.now)) }
        ensures done_one_ticket { IfErr result (λ fault. OneTicket self.old (take fault.done events.now)) }
    {
        let mut replies = Vec::new(alloc);
        for event in events {
            if let Err(AllocError) = self.step(alloc, event, &mut replies) {
                return Err(RunFault {
                    done: replies.len(),
                    replies,
                });
            }
        }
        Ok(replies)
    }

    /// Handles an event and appends its reply to the others. It reserves the place first, so that no reply is lost.
    fn step(
        &mut self,
        alloc: Global,
        event: &Event,
        replies: &mut Vec<Option<Vec<u8>>>,
    ) -> Result<(), AllocError>
        ensures reply { OnOk result (
            map (option_map (λ octets. octets.items)) replies.new.items
            ≡ map (option_map (λ octets. octets.items)) replies.old.items ++ event_reply self.old event.now ∷ []) }
        ensures state { OnOk result (self.new ≡ after_event self.old event.now) }
        ensures err { OnErr result ((self.new ≡ self.old) × (replies.new.items ≡ replies.old.items)) }
    {
        replies.reserve(1)?;
        let reply = self.take_event(alloc, event)?;
        replies.push_reserved(reply);
        Ok(())
    }

    /// Handles an event, and returns its reply, if it has one.
    fn take_event(&mut self, alloc: Global, event: &Event) -> Result<Option<Vec<u8>>, AllocError>
        ensures reply { IfOk result (λ reply.
            option_map (λ octets. octets.items) reply ≡ event_reply self.old event.now) }
        ensures state { OnOk result (self.new ≡ after_event self.old event.now) }
        ensures err { OnErr result (self.new ≡ self.old) }
    {
        match event {
            Event::Request {
                at,
                random,
                room,
                request,
            } => { self.handle(alloc, *at, random, *room, request.as_slice()) }
            Event::Change { change } => {
                self.change(alloc, change)?;
                Ok(None)
            }
            Event::Replace { database } => {
                let _ = self.replace(database.copy(alloc)?);
                Ok(None)
            }
            Event::Tidy { at } => {
                self.tidy(*at);
                Ok(None)
            }
            Event::Restart { at } => {
                self.restart(*at);
                Ok(None)
            }
            Event::Reopen {
                database,
                limits,
                at,
            } => {
                self.reopen(alloc, database, *limits, *at)?;
                Ok(None)
            }
            Event::Resume {
                database,
                limits,
                resumption,
            } => {
                self.resume_copy(alloc, database, *limits, resumption)?;
                Ok(None)
            }
        }
    }

    /// Reopens with a copy of this database.
    fn reopen(
        &mut self,
        alloc: Global,
        database: &Database,
        limits: Limits,
        at: Moment,
    ) -> Result<(), AllocError>
        ensures state { OnOk result (self.new ≡ opened_state database.now limits (Restart at)) }
        ensures err { OnErr result (self.new ≡ self.old) }
    {
        let database = database.copy(alloc)?;
        *self = Kdc::open(alloc, database, limits, Opening::Restart(at))?;
        Ok(())
    }

    /// Resumes with a copy of this database.
    fn resume_copy(
        &mut self,
        alloc: Global,
        database: &Database,
        limits: Limits,
        resumption: &Resumption,
    ) -> Result<(), AllocError>
        ensures state { OnOk result (self.new ≡ resumed_state database.now limits resumption.now) }
        ensures err { OnErr result (self.new ≡ self.old) }
    {
        let database = database.copy(alloc)?;
        *self = Kdc::resume(alloc, database, limits, resumption)?;
        Ok(())
    }

    /// Makes a change, or changes nothing if the change is refused.
    fn change(&mut self, alloc: Global, change: &Change) -> Result<(), AllocError>
        ensures state { OnOk result (self.new ≡ after_change self.old change.now) }
        ensures refused { IfSome (refusal self.old.database change.now) (λ _. IsOk result) }
        ensures err { OnErr result (self.new ≡ self.old) }
    {
        match self.apply(alloc, change) {
            Ok(()) => Ok(()),
            Err(ChangeFault::Memory) => Err(AllocError),
            Err(_) => Ok(()),
        }
    }
}

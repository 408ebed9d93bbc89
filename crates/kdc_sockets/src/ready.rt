//! The sockets that may be ready, in the order in which they are read.
ghost use Rattle.std.specs.Prelude.{◌≡◌, ◌++◌, ◌∷◌, [], false, nat_eq, if◌then◌else◌, option_to_list};
ghost use Rattle.std.specs.Prelude.{IfOk, IfSome, OnErr, OnOk};
ghost use Rattle.std.specs.List.{IsDistinct-prop};
ghost use Rattle.kdc_sockets.specs.Queue.{HasEachOnce, has};

use crate::connections::MOST_CONNECTIONS;
use std::alloc::{AllocError, Global};
use std::collections::VecDeque;

/// Numbers of sockets, none of them twice.
#[derive(Drop)]
pub struct Queue {
    numbers: VecDeque<u64>,
    // Promise: no socket stands twice among those that wait to be read.
    ghost once: { HasEachOnce numbers.items } by { IsDistinct-prop nat_eq numbers.items },
}

impl Queue {
    /// Returns an empty queue with room for this many numbers.
    fn with_capacity(alloc: Global, capacity: usize) -> Result<Queue, AllocError>
        ensures { IfOk result (λ queue. queue.numbers.items ≡ []) }
    {
        let numbers = VecDeque::with_capacity(alloc, capacity)?;
        Ok(Queue { numbers })
    }

    fn is_empty(&self) -> bool {
        self.numbers.is_empty()
    }

    /// Takes the first number. It stands in the queue no longer.
    pub fn pop_front(&mut self) -> Option<u64>
        ensures first { self.old.numbers.items ≡ option_to_list result ++ self.new.numbers.items }
        ensures gone { IfSome result (λ number. has self.new.numbers.items number ≡ false) }
    {
        self.numbers.pop_front()
    }

    /// Appends a number that doesn't stand in the queue.
    pub fn push_back(&mut self, number: u64) -> Result<(), AllocError>
        requires { has self.old.numbers.items number ≡ false }
        ensures ok { OnOk result (self.new.numbers.items ≡ self.old.numbers.items ++ number ∷ []) }
        ensures err { OnErr result (self.new.numbers.items ≡ self.old.numbers.items) }
    {
        self.numbers.push_back(number)?;
        Ok(())
    }

    /// Appends a number, unless it stands in the queue already.
    pub fn note(&mut self, number: u64) -> Result<(), AllocError>
        ensures ok { OnOk result (self.new.numbers.items ≡
            (if has self.old.numbers.items number then self.old.numbers.items
            else self.old.numbers.items ++ number ∷ [])) }
        ensures err { OnErr result (self.new.numbers.items ≡ self.old.numbers.items) }
    {
        if self.numbers.contains(&number) {
            return Ok(());
        }
        self.push_back(number)
    }
}

/// The ports and connections that may be ready.
#[derive(Drop)]
pub struct Ready {
    /// The UDP sockets, by their indices.
    pub datagrams: Queue,
    /// The TCP listeners, by their indices.
    pub newcomers: Queue,
    /// The connections, by their numbers.
    pub connections: Queue,
}

impl Ready {
    /// Returns empty queues with room for this many ports of each kind.
    pub fn new(alloc: Global, datagrams: usize, newcomers: usize) -> Result<Ready, AllocError> {
        Ok(Ready {
            datagrams: Queue::with_capacity(alloc, datagrams)?,
            newcomers: Queue::with_capacity(alloc, newcomers)?,
            connections: Queue::with_capacity(alloc, 2 * MOST_CONNECTIONS)?,
        })
    }

    /// Checks whether no socket is known to be ready.
    pub fn is_empty(&self) -> bool {
        self.datagrams.is_empty() && self.newcomers.is_empty() && self.connections.is_empty()
    }

    /// Queues all listeners: those with an index below this number.
    pub fn note_newcomers(&mut self, count: u64) -> Result<(), AllocError> {
        for place in 0..count {
            self.newcomers.note(place)?;
        }
        Ok(())
    }

    /// Queues the socket that has this poll token. The UDP sockets come first, then the listeners, then the
    /// connections.
    pub fn note(
        &mut self,
        token: u64,
        first_newcomers: u64,
        first_connection: u64,
    ) -> Result<(), AllocError> {
        if token < first_newcomers {
            self.datagrams.note(token)
        } else if token < first_connection {
            self.newcomers.note(token - first_newcomers)
        } else {
            self.connections.note(token)
        }
    }
}

//! Borrowed tickets, and copies of them.
ghost use Rattle.std.specs.Prelude.{◌≡◌, IfOk};

use crate::ticket::{Ticket, TicketRef};
use krb_elements::{Fault, MakeOwned, ReadOwned, read};
use std::alloc::{AllocError, Global};

impl<'a> TicketRef<'a> {
    /// Returns a copy that owns its parts.
    pub fn to_ticket(&self, alloc: Global) -> Result<Ticket, AllocError>
        ensures { IfOk result (λ ticket. ticket ≡ self.now) }
    {
        self.copy(alloc)
    }
}

impl ReadOwned for Ticket {
    fn read_parts(alloc: Global, bytes: &[u8]) -> Result<Ticket, Fault> {
        let found: TicketRef<'_> = read(bytes)?;
        Ok(found.to_ticket(alloc)?)
    }
}

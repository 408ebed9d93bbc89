//! The context of a command.
ghost use Rattle.std.specs.Prelude.{◌≡◌};

use client_files::{ClientError, unknown_hosts};
use client_login::{KdcClient, TicketError};
use std::alloc::{AllocError, Global};

/// What a command uses besides its words: memory, files, and a client of KDCs, whose addresses the command finds.
#[derive(Drop)]
pub struct Context<T, X> {
    pub alloc: Global,
    pub store: T,
    pub client: KdcClient<X>,
    /// Lines for standard error, besides that of the error that ends the command.
    notes: String,
}

impl<T, X> Context<T, X> {
    /// Returns a context that has noted nothing.
    pub fn new(alloc: Global, store: T, client: KdcClient<X>) -> Context<T, X> {
        Context {
            alloc,
            store,
            client,
            notes: String::new(alloc),
        }
    }

    /// Begins a command: forgets what the one before noted.
    pub(crate) fn begin(&mut self)
        ensures store { self.new.store ≡ self.old.store }
        ensures clock { self.new.client.at.sec ≡ self.old.client.at.sec }
    {
        self.notes.clear();
    }

    pub(crate) fn notes(&self) -> &str {
        self.notes.as_str()
    }

    /// Notes each of these lines that was not noted before.
    pub(crate) fn note_lines(&mut self, lines: &str) -> Result<(), AllocError>
        ensures store { self.new.store ≡ self.old.store }
    {
        for line in lines.lines() {
            if !self.notes.contains(line) {
                writeln!(self.notes, "kclient: {line}")?;
            }
        }
        Ok(())
    }

    /// Notes the hosts that were not asked because their addresses are unknown.
    pub(crate) fn note_unknown(&mut self) -> Result<(), AllocError>
        ensures store { self.new.store ≡ self.old.store }
    {
        let hosts = unknown_hosts(self.alloc, &self.client.kdcs.places)?;
        if hosts.is_empty() {
            return Ok(());
        }
        writeln!(
            self.notes,
            "kclient: {hosts}: no address is known, so it is not asked"
        )
    }

    /// Notes at which of several names the command stopped.
    pub(crate) fn note_name(&mut self, name: &str) -> Result<(), AllocError>
        ensures store { self.new.store ≡ self.old.store }
    {
        let word = if name.is_empty() { NO_WORD } else { name };
        writeln!(
            self.notes,
            "kclient: {word}: the command stopped at this name"
        )
    }

    /// Takes the time of a KDC that refuses because the clocks differ, once. Otherwise returns the error. `source` is
    /// the file with the keys of the request.
    pub(crate) fn take_clock(&mut self, source: &str, fault: TicketError) -> Result<(), ClientError>
        ensures store { self.new.store ≡ self.old.store }
    {
        if let Some(ahead) = self.client.take_clock(fault) {
            return Ok(note_clock(&mut self.notes, ahead)?);
        }
        Err(self.fault(source, fault))
    }

    /// Returns the error for a login that got no ticket. `source` is the file with the keys of the request.
    pub(crate) fn fault(&self, source: &str, fault: TicketError) -> ClientError {
        ClientError::of_login(self.alloc, &self.client.kdcs, source, fault)
    }
}

/// The text that is shown in place of an empty word.
pub(crate) const NO_WORD: &str = "an empty name";

/// Notes by how many seconds the KDC's clock is ahead.
fn note_clock(notes: &mut String, ahead: i64) -> Result<(), AllocError> {
    let seconds = ahead.unsigned_abs();
    let way = if ahead < 0 { "behind" } else { "ahead of" };
    writeln!(
        notes,
        "kclient: the KDC's clock is {seconds} seconds {way} this computer's: the KDC's time was taken"
    )
}

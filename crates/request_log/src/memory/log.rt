//! The log of a server in memory. It keeps a record of its entries.
ghost use Rattle.std.specs.Prelude.{◌≡◌, ◌∷◌, [], IfOk};
ghost use Rattle.std.specs.Option.{option_copied};
ghost use Rattle.kdc_hub.specs.Wire.{Records};
ghost use Rattle.kdc_files.specs.InMemory.{seen_as};
ghost use Rattle.kdc_files.specs.Recorded.{IsNew};
ghost use Rattle.request_log.specs.InMemory.{entry_by};
ghost use Rattle.request_log.specs.Entry.{LogEntry};

use crate::asker::Asker;
use crate::entries::Entry;
use crate::logging::LogWriter;
use kdc_core::AuditRecord;
use kdc_hub::Record;
use krb_fields::Moment;
use std::alloc::{AllocError, Global};

/// An entry of a log.
#[derive(Drop)]
pub struct MemoryEntry {
    /// When the request came in.
    pub at: Moment,
    /// Who sent it.
    pub asker: Asker,
    /// What the KDC made of it. There is no audit record if memory ran out.
    pub audit: Option<AuditRecord>,
    /// Whether its reply was sent.
    pub is_sent: bool,
}

/// A log in memory. For tests.
#[derive(Drop)]
pub struct MemoryLog {
    entries: Record<MemoryEntry>,
}

impl MemoryLog {
    /// Returns an empty log.
    pub fn new(alloc: Global) -> MemoryLog
        // Promise, as MemoryHost::new of kdc_server: host, sockets, tally, journal ..
        ensures { IsNew (⟦<MemoryLog as LogWriter>⟧.logged result) }
    {
        MemoryLog {
            entries: Record::new(alloc),
        }
    }

    /// Returns the entries, in order, unless memory ran out for one.
    pub fn entries(&self) -> Option<&[MemoryEntry]>
        // Promise, as MemoryWire::did of kdc_hub: what is in memory ..
        ensures { seen_as entry_by (option_copied result) ≡ ⟦<MemoryLog as LogWriter>⟧.logged self.now }
    {
        self.entries.entries()
    }

    /// Records an entry.
    fn note(&mut self, entry: Result<MemoryEntry, AllocError>)
        ensures { (wanted : LogEntry) → IfOk entry (λ entry. entry_by entry ≡ wanted)
            → Records (seen_as entry_by self.old.entries) (wanted ∷ []) (seen_as entry_by self.new.entries) }
    {
        self.entries.keep(entry);
    }
}

impl LogWriter for MemoryLog {
    ghost logged = { λ l. seen_as entry_by l.entries };

    ghost Logs = { λ old entry new. Records (seen_as entry_by old.entries) (entry ∷ [])
        (seen_as entry_by new.entries) };

    ghost records = { λ old entry new is. is };

    fn write_entry(&mut self, alloc: Global, entry: &Entry<'_>) {
        self.note(entry_copy(alloc, entry));
    }
}

fn entry_copy(alloc: Global, entry: &Entry<'_>) -> Result<MemoryEntry, AllocError>
    ensures { IfOk result (λ copy. entry_by copy ≡ entry.now) }
{
    let audit = match entry.audit {
        Some(audit) => Some(audit.copy(alloc)?),
        None => None,
    };
    Ok(MemoryEntry {
        at: entry.at,
        asker: entry.asker,
        audit,
        is_sent: entry.is_sent,
    })
}

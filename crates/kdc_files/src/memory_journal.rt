//! The journal of a server in memory. It keeps a record of what it was handed.
ghost use Rattle.std.specs.Prelude.{◌≡◌, ◌∷◌, [], IfOk, true, false};
ghost use Rattle.std.specs.Option.{option_copied};
ghost use Rattle.std.specs.Result.{is_ok};
ghost use Rattle.kdc_hub.specs.Wire.{Records};
ghost use Rattle.kdc_files.specs.InMemory.{handed_by, seen_as};
ghost use Rattle.kdc_files.specs.Journal.{Handed};
ghost use Rattle.kdc_files.specs.Keeping.{unrecorded_in};
ghost use Rattle.kdc_files.specs.Recorded.{IsNew};

use crate::keeping::JournalWriter;
use journal::NotKept;
use kdc_core::Seen;
use kdc_hub::Record;
use krb_fields::Moment;
use std::alloc::{AllocError, Global};

/// An authenticator that was handed to a journal.
#[derive(Drop)]
pub struct HandedOver {
    /// When its request came in.
    pub at: Moment,
    /// The authenticator's client and time.
    pub seen: Seen,
}

/// A journal in memory that records what it is handed. For tests.
#[derive(Drop)]
pub struct MemoryJournal {
    handed: Record<HandedOver>,
    /// After how many calls one fails, if one is to fail.
    calls_before_fault: Option<u64>,
    is_whole: bool,
    /// Whether it stands for a journal, and not for one that is absent.
    is_there: bool,
}

impl MemoryJournal {
    /// Returns a journal that was handed nothing. One of its calls fails after `calls_before_fault` others, if that is
    /// given.
    pub fn new(alloc: Global, calls_before_fault: Option<u64>) -> MemoryJournal
        // Promise (new, there), as MemoryHost::new of kdc_server: host, sockets, tally, journal ..
        ensures new { IsNew (⟦<MemoryJournal as JournalWriter>⟧.handed result) }
        ensures there { result.is_there ≡ true }
    {
        MemoryJournal {
            handed: Record::new(alloc),
            calls_before_fault,
            is_whole: true,
            is_there: true,
        }
    }

    /// Returns what stands for a journal that is absent.
    pub fn absent(alloc: Global) -> MemoryJournal
        ensures new { IsNew (⟦<MemoryJournal as JournalWriter>⟧.handed result) }
        ensures there { result.is_there ≡ false }
    {
        MemoryJournal {
            handed: Record::new(alloc),
            calls_before_fault: None,
            is_whole: true,
            is_there: false,
        }
    }

    /// Returns what it was handed, in order, unless memory ran out for it.
    pub fn handed(&self) -> Option<&[HandedOver]>
        // Promise, as MemoryWire::did of kdc_hub: what is in memory ..
        ensures { seen_as handed_by (option_copied result) ≡ ⟦<MemoryJournal as JournalWriter>⟧.handed self.now }
    {
        self.handed.entries()
    }

    /// Records what is handed over.
    fn note(&mut self, handed: Result<HandedOver, AllocError>)
        ensures { (wanted : Handed) → IfOk handed (λ handed. handed_by handed ≡ wanted)
            → Records (seen_as handed_by self.old.handed) (wanted ∷ []) (seen_as handed_by self.new.handed) }
    {
        self.handed.keep(handed);
    }

    /// Marks all as kept, or fails if this call is to fail.
    fn finish(&mut self) -> Result<(), NotKept>
        ensures handed { self.new.handed ≡ self.old.handed }
        ensures whole { self.new.is_whole ≡ is_ok result }
    {
        self.is_whole = self.calls_before_fault != Some(0);
        self.calls_before_fault = match self.calls_before_fault {
            Some(calls) => calls.checked_sub(1),
            None => None,
        };
        if self.is_whole { Ok(()) } else { Err(NotKept) }
    }
}

impl JournalWriter for MemoryJournal {
    ghost handed = { λ j. seen_as handed_by j.handed };

    ghost is_whole = { λ j. j.is_whole };

    ghost is_there = { λ j. j.is_there };

    ghost state = { unrecorded_in };

    #[tactic(auto, using(crate::proofs::Calls::nothing_called))]
    fn keep(&mut self, alloc: Global, at: Moment, seen: &Seen) -> Result<(), NotKept> {
        self.note(handed_copy(alloc, at, seen));
        self.finish()
    }

    #[tactic(auto, using(crate::proofs::Calls::nothing_called))]
    fn mend(&mut self, _alloc: Global, _at: Moment) -> Result<(), NotKept> {
        self.finish()
    }
}

fn handed_copy(alloc: Global, at: Moment, seen: &Seen) -> Result<HandedOver, AllocError>
    ensures { IfOk result (λ handed. handed_by handed ≡ record { at = at; seen = seen.now }) }
{
    Ok(HandedOver {
        at,
        seen: seen.copy(alloc)?,
    })
}

//! Counting the replies that a server withholds.
ghost use Rattle.std.specs.Prelude.{◌≡◌};
ghost use Rattle.kdc_server.specs.Withheld.{withheld_after};

/// How many replies were withheld. A count stops at the greatest `u64`.
#[derive(Clone, Copy, Debug, PartialEq, Eq)]
pub struct Withheld {
    /// Because the journal could not keep what they make the KDC remember.
    pub by_journal: u64,
    /// Because the start is quiet.
    pub by_quiet_start: u64,
}

impl Withheld {
    /// Returns the counts of a server that has withheld nothing.
    pub fn new() -> Withheld
        ensures { result ≡ record { by_journal = 0; by_quiet_start = 0 } }
    {
        Withheld {
            by_journal: 0,
            by_quiet_start: 0,
        }
    }

    /// Counts an action by whether the journal has kept all, and whether the quiet start withholds it.
    pub fn note(&mut self, is_kept: bool, is_withheld: bool)
        ensures { self.new ≡ withheld_after self.old is_kept is_withheld }
    {
        if !is_kept {
            self.by_journal = self.by_journal.saturating_add(1);
        } else if is_withheld {
            self.by_quiet_start = self.by_quiet_start.saturating_add(1);
        }
    }
}

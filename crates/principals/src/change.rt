//! Changes of a database.
ghost use Rattle.std.specs.Prelude.{◌≡◌};
ghost use Rattle.principals.specs.FaultName.{fault_name};

use krb_fields::Name;
use principal_rows::{KeyList, Policy};
use std::alloc::AllocError;
use std::error::Error;
use std::fmt;

/// A change of one principal's row.
#[derive(Drop)]
pub struct Change {
    /// The name of the row. Only its components matter.
    pub name: Name,
    /// What happens to the row.
    pub what: RowChange,
}

/// The change of a row.
#[derive(Drop)]
pub enum RowChange {
    /// Adds a principal, with these keys as version 1 and the default policy.
    Add(KeyList),
    /// Removes the row.
    Remove,
    /// Makes these keys the current ones, with the next version number.
    NewKeys(KeyList),
    /// Drops the keys of this version, which is not the current one.
    DropKeys(u32),
    /// Sets the principal's policy.
    SetPolicy(Policy),
}

/// The reason why a change is refused.
#[derive(Debug, Clone, Copy, PartialEq, Eq)]
pub enum ChangeFault {
    /// The name does not have 1 to 16 components, or one of them does not have 1 to 255 bytes.
    BadName,
    /// The name already has a row.
    Exists,
    /// The ticket-granting service can't be removed.
    Protected,
    /// The name has no row, or its row has no such version.
    Absent,
    /// The current version is 4294967295, so there is no next one.
    LastVersion,
    /// The version is the current one.
    CurrentKeys,
    /// Memory ran out.
    Memory,
}

impl ChangeFault {
    /// Returns the word for the fault in what commands print.
    pub fn name(self) -> &'static str
        ensures { result.now ≡ fault_name self }
    {
        match self {
            ChangeFault::BadName => "BadName",
            ChangeFault::Exists => "Exists",
            ChangeFault::Protected => "Protected",
            ChangeFault::Absent => "Absent",
            ChangeFault::LastVersion => "LastVersion",
            ChangeFault::CurrentKeys => "CurrentKeys",
            ChangeFault::Memory => "Memory",
        }
    }
}

impl fmt::Display for ChangeFault {
    fn fmt<W: fmt::Write>(&self, f: &mut fmt::Formatter<W>) -> fmt::Result {
        f.write_str(match self {
            ChangeFault::BadName => "the name is beyond the limits of names",
            ChangeFault::Exists => "the name has a row already",
            ChangeFault::Protected => "the ticket-granting service cannot go",
            ChangeFault::Absent => "there is no such row, or no such version",
            ChangeFault::LastVersion => "the current version has the last number",
            ChangeFault::CurrentKeys => "the version is the current one",
            ChangeFault::Memory => "out of memory",
        })
    }
}

impl Error for ChangeFault {}

impl From<AllocError> for ChangeFault {
    ghost use Rattle.std.specs.Prelude.{◌≡◌};
    ghost use Rattle.principals.specs.declared.change.ChangeFault.{ChangeFault};

    ghost from_gives = { λ _ fault. fault ≡ ChangeFault.Memory };

    fn from(_: AllocError) -> ChangeFault {
        ChangeFault::Memory
    }
}

//! The journals that a start finds, and what its own begins with.
use journal::{FoundFiles, Start};
use krb_elements::Octets;
use krb_fields::Moment;

/// The journals that a start finds.
#[derive(Drop)]
pub struct Journals {
    /// The system's name for its current boot.
    pub boot: Octets,
    /// What is in the files.
    pub found: FoundFiles,
    /// The seal beside them. Without one there are no octets.
    pub seal: Octets,
    /// The floor that the removed files asked for, if a start without a journal removed files that showed anything.
    pub removed: Option<i64>,
}

/// What the journal of a server begins with.
#[derive(Drop)]
pub struct JournalBeginning {
    /// The realm that the server serves.
    pub realm: Octets,
    /// When the server started.
    pub at: Moment,
    /// The floor of the start.
    pub floor: i64,
    /// What the start made of the journals that it found.
    pub start: Start,
    /// The journals that the start found.
    pub journals: Journals,
}

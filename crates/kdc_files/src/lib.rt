//! The files of a server: its database, its seed, and its journal, which keeps the authenticators of its requests.
//!
//! ```
//! let mut rows = RowsFile::new(rt, "database", rt.stderr());
//! let database = rows.read(alloc)?;
//! let place = JournalPlace { files: rt, path: "database.journal", lines: rt.stderr() };
//! let OpenedJournals { journals, files } = open_journals(alloc, place)?;
//! let mut journal = begin_journal(alloc, files, beginning, most)?;
//! let is_kept = keep_action(alloc, &mut journal, at, &action);
//! ```
//!
//! A [`RowsFile`] is also the source from which a running server takes changed rows. [`open_journals`] keeps other
//! servers from the journal. No contract can say what a file of the system holds; a [`MemoryJournal`] records what it
//! is handed.
//!
//! It does not decide whether a start resumes, or what a journal's octets mean: `journal` does. `principals_text` reads
//! the text of a database. A server's start, and the wire that hands authenticators over, are in `kdc_server`.
#![tactic(auto)]

mod files;
mod journal_file;
mod journal_files;
mod journal_parts;
mod journal_store;
mod journals;
mod keeping;
mod key_files;
mod memory_journal;
mod rows_file;
mod sealing;

pub use crate::files::{ServerFileError, read_up_to, read_whole, seed_in};
pub use crate::journal_file::{FileJournal, Unbegun, begin_journal, begun};
pub use crate::journal_files::{OpenedJournals, open_journals};
pub use crate::journal_parts::{JournalPart, JournalPaths};
pub use crate::journal_store::{JournalPlace, SystemJournal};
pub use crate::journals::{JournalBeginning, Journals};
pub use crate::keeping::{JournalWriter, keep_action};
pub use crate::key_files::{KeyFile, say_rights};
pub use crate::memory_journal::{HandedOver, MemoryJournal};
pub use crate::rows_file::RowsFile;
pub use crate::sealing::{Leftover, doubt_word, refuse_journal, seal_at_path};
pub use kdc_hub::Record;

//! A KDC's journal: a file of the authenticators in its replay caches, from which the next start resumes.
//!
//! ```
//! let found = read_files(alloc, &mut files)?;
//! let start = decide_start(alloc, &place, &found)?;
//! let mut journal = JournalFile::new(files, realm, boot, floor, most);
//! journal.start(alloc, at, &start, &found.newer, len)?;
//! journal.keep(alloc, at, &seen)?; // before the reply to its request is sent
//! ```
//!
//! A journal is a header and entries. Each is in DER, in an OCTET STRING, and is followed by its check: a digest of the
//! check before it and of its octets. So an entry that was cut or changed breaks the chain, and so does one that was
//! left out or added before others. Nothing shows that the last entries are missing, or that somebody put an older
//! journal back.
//!
//! A start in another boot resumes only with a sealed journal. The system may have lost the end of any other.
//!
//! It opens no file itself: [`JournalFiles`] are what a [`JournalFile`] reads and writes, and `kdc_files` has those of
//! the system. It reads no clock.
#![tactic(auto)]

mod checks;
mod decision;
mod entry;
mod fault;
mod files;
mod found_files;
mod head;
mod header;
mod journal_file;
mod keeping;
mod laws;
mod memory_files;
mod reading;
mod sealing;
mod showing;
mod writing;

pub use decision::{
    Found, FoundFiles, Place, ResumeRefusal, Start, decide_start, found_floor, greater,
};
pub use entry::{Entry, EntryRef};
pub use fault::Unfit;
pub use files::{BeginError, Begun, FileText, JournalFiles, Left, News, Part};
pub use found_files::{judge_text, read_files, read_part};
pub use head::{HEAD, may_be_journal};
pub use header::{Header, HeaderRef};
pub use journal_file::{JournalFile, NotKept};
pub use keeping::{above, floor_on, write_beginning, write_seen};
pub use laws::{every_counted_life, every_front, every_journal, every_journal_life, every_seal};
pub use memory_files::{MemoryFiles, WriteFailures};
pub use reading::Journal;
pub use sealing::{SealOutcome, seal_journal};
pub use showing::shown_in;
pub use writing::{Written, write_entry, write_header};

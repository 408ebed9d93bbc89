//! The KDC's request log: which actions of a server have an entry, and the line of an entry.
//!
//! ```
//! let mut log = RequestLines::new(lines, LogFormat::Text);
//! log_action(alloc, &mut log, &Tried { came, action: &action, is_sent });
//!
//! let asker = Asker { transport: Transport::Udp, peer: Some(peer) };
//! let audit = reply.audit.as_ref(); // of `Kdc::answer` in `kdc_core`
//! let line = text_line(alloc, &Entry { at, asker, audit, is_sent: true })?;
//! ```
//!
//! A log entry is a list of fields, built from the audit record and the sender. A line is those fields as text or as
//! one JSON object: each field is written straight into it. So it shows what the KDC decided, and nothing parses the
//! request or the reply again.
//!
//! [`MemoryLog`] keeps its entries in memory, for tests.
//!
//! It opens no file: a program hands it a writer. It counts nothing: `kdc_metrics` does.
#![tactic(auto)]

mod asker;
mod entries;
mod field;
mod json_lines;
mod laws;
mod logging;
mod memory;
mod names;
mod outcome;
mod peer;
mod request_lines;
mod text_lines;
mod times;
mod values;
mod words;

pub use crate::asker::{Asker, Transport};
pub use crate::entries::Entry;
pub use crate::json_lines::json_line;
pub use crate::laws::rule_names;
pub use crate::logging::{Arrival, LogWriter, Tried, arrival_after, log_action};
pub use crate::memory::log::{MemoryEntry, MemoryLog};
pub use crate::request_lines::{LogFormat, RequestLines};
pub use crate::text_lines::text_line;
pub use crate::words::code_word;

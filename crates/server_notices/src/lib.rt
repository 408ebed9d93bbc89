//! What a server says of itself on standard error: how it started, that its clock went back, that its memory ran out.
//!
//! ```
//! let refused = refused_at_start(floor, at);
//! watch_clock(&mut clock, &mut errors, &polled); // after each poll
//! watch_memory(&mut memory, &mut errors, lost, &polled);
//! ```
//!
//! Each is said at once, and again after a minute while it lasts. A line that can't be written is lost.
//!
//! It says nothing of a single request: `request_log` does. It decides nothing: what is refused after a clock that went
//! back is decided by `replay`, and what a journal is worth by `journal`.
#![tactic(auto)]

mod clock_watch;
mod started;
mod unanswered;

pub use crate::clock_watch::{ClockWatch, Refused, refused_at_start, watch_clock};
pub use crate::started::{JournalFound, JournalNews, Started};
pub use crate::unanswered::{MemoryWatch, watch_memory};

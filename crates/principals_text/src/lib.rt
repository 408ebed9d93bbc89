//! The text of a database of principals: JSON, read and written.
//!
//! ```
//! let text = write(alloc, &database)?;
//! let database = read(alloc, text.as_str())?;
//!
//! if let Err(fault) = read_bytes(alloc, file) {
//!     if let Some(place) = &fault.place {
//!         println!(rt; "{place}")?; // the line and column, or the principal and the member of its row
//!     }
//!     println!(rt; "{fault}")?;
//! }
//! ```
//!
//! [`write`] writes the newest version of the text; [`read`] also reads the older ones.
//!
//! These and [`read_bytes`] work on the text alone: nothing here opens a file. `kdc_files` does for a server, and
//! `kadm_changes` for an administrator. Changes of a database are in `principals`.
#![tactic(auto)]

mod by_rows;
mod bytes;
mod format;
mod next_value;
mod places;
mod read_fault;
mod row_fault;
mod row_reading;
mod row_tokens;
mod row_value;
mod text;

pub use bytes::{DatabaseError, read_bytes};
pub use read_fault::ReadError;
pub use text::{LONGEST_TEXT, read, write};

//! The text of a `krb5.conf`: its lines, and the settings that a client looks up in it.
//!
//! ```
//! let realm = default_realm(alloc, text)?;
//! for kdc in &kdcs(alloc, text, b"EXAMPLE.COM")? {
//!     let address = kdc_address(alloc, kdc)?;
//! }
//! ```
//!
//! A line is one of four things: the start of a section (`[realms]`), the start of a group (`EXAMPLE.COM = {`), its end
//! (`}`), or a relation (`kdc = 192.0.2.1:88`). The brace that starts a group may be on a line of its own, after
//! `EXAMPLE.COM =`. Blanks around a line, a name or a value are ignored, and so are quotation marks around a value.
//! Lines that start with `#` or `;`, and those in any other form, are ignored too.
//!
//! A file may also have lines that include others ([`Included`]). It reads no file itself: `client_files` does.
#![tactic(auto)]

mod defaults;
mod included;
mod kdc;
mod line;
mod place;
mod values;

pub use defaults::{default_realm, kdcs, library_settings};
pub use included::Included;
pub use kdc::kdc_address;

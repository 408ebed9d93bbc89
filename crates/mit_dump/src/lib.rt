//! The text of a database that MIT's `kdb5_util dump` writes, and what its principals become here.
//!
//! ```
//! let found = read_dump(alloc, text)?;
//! let realm = dump_realm(&found)?; // None without krbtgt/REALM@REALM
//! for principal in &found {
//!     let losses = principal.losses(alloc, realm)?;
//!     if principal.has_place(realm) {
//!         let entries = principal.entries(alloc, &stash)?; // `stash`: a keytab with the master key
//!         let policy = principal.policy();
//!     }
//! }
//! ```
//!
//! [`read_dump`] reads the text; a `DumpedPrincipal` is what it says about one principal. For a row, `entries` returns
//! the principal's keys, decrypted with a master key, and `policy` its policy; `losses` returns what has no place
//! there. [`dump_realm`] says whose database it is.
//!
//! It reads no file and makes no database: `kadm_changes` does. It writes no dump.
#![tactic(auto)]

mod attribute;
mod dump;
mod entries;
mod fault;
mod fields;
mod line;
mod losses;
mod master;
mod name_text;
mod part;
mod place;
mod policy;
mod principal;
mod stored_key;

pub use attribute::Attribute;
pub use dump::read_dump;
pub use fault::DumpError;
pub use losses::Loss;
pub use part::Part;
pub use place::dump_realm;
pub use principal::{DumpedPrincipal, Numbers};
pub use stored_key::StoredKey;

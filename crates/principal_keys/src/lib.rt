//! Makes a principal's new keys, from a password or random, and finds those that it has in a keytab.
//!
//! ```
//! let etypes = offered(alloc)?; // of `text_fields`
//! let keys = password_keys(alloc, &etypes, b"a password", b"EXAMPLE.COMalice")?;
//! let keys = random_keys(alloc, &etypes, seed)?;
//! let versions = keytab_versions(alloc, &KeytabKeys { keytab, realm, who }, &etypes)?;
//! ```
//!
//! It reads no file, and draws no seed: the caller supplies the bytes and the seed. `kadm_changes` changes rows.
#![tactic(auto)]

mod keys;
mod keytabs;

pub use keys::{password_keys, random_keys};
pub use keytabs::{KeytabKeys, keytab_text, keytab_versions};

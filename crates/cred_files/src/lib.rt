//! Keytabs and credential caches: the bytes of their files, read, searched and written.
//!
//! ```
//! let keytab = Keytab::read(alloc, octets)?;
//! let key = keytab.find(b"EXAMPLE.COM", &service, Etype::Aes256CtsHmacSha1_96, None)?; // of the highest key version
//!
//! let mut cache = Cache::new(alloc, b"EXAMPLE.COM", &client)?;
//! cache.put(alloc, &credential)?;
//! let octets = cache.write(alloc)?;
//! ```
//!
//! | call | what it does |
//! |---|---|
//! | [`Keytab::read`], [`Keytab::write`] | a keytab from the bytes of a file; the bytes of its file |
//! | [`Keytab::find`], [`Keytab::key_for`] | a service's key, also as an encrypted part names it |
//! | [`Cache::read`], [`Cache::write`] | a credential cache from the bytes of a file; the bytes of its file |
//! | [`Cache::find`], [`Cache::put`] | the credential for a service; puts one in, in place of an earlier one |
//!
//! [`Reader`] reads numbers and bytes from the front of any bytes.
//!
//! It does not open files: `client_files` does. Keytabs of version 1 and caches of versions 1 to 3 are refused.
#![tactic(auto)]

mod cache;
mod credential;
mod fault;
mod keytab;
mod keytab_entry;
mod magic;
mod principal;
mod principal_text;
mod reader;
mod room;
mod stored;
mod width;
mod writer;

pub use cache::Cache;
pub use credential::{Credential, SessionKey, Times, TypedOctets};
pub use fault::CredError;
pub use keytab::{Keytab, Miss};
pub use keytab_entry::KeytabEntry;
pub use principal::Principal;
pub use reader::Reader;

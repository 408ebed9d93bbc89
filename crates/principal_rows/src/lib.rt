//! Rows of the database: a principal's keys by version, and its policy. Also the limits of a realm, and maps from
//! names.
//!
//! ```
//! let keys = KeyList::new(alloc, &[aes256_key, aes128_key])?; // in order of preference
//! let mut row = Row::first(alloc, keys)?; // key version 1, and the default policy
//! row.policy.preauth = false;
//!
//! let mut rows = NameMap::new(alloc);
//! rows.put(name, row)?;
//! if let Some(row) = rows.get(&client) {
//!     let key = row.versions.current().keys.find(Etype::Aes256CtsHmacSha1_96);
//! }
//! ```
//!
//! Nothing here makes a key: `principal_keys` does. `principals` has the database of a realm, and changes it.
#![tactic(auto)]

mod key_list;
mod limits;
mod name_map;
mod policy;
mod row;

pub use key_list::{KeyList, KeyListError};
pub use limits::Limits;
pub use name_map::{Entry, NameKey, NameMap, Upkeep, ValueChange, ValueTest};
pub use policy::Policy;
pub use row::{KeyVersion, Row, Versions};

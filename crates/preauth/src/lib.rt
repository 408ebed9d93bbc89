//! Preauthentication by timestamps (RFC 4120, sections 3.1.3 and 5.2.7), and the lock of clients that fail at it.
//!
//! ```
//! let counted = counted_for(failures, client.versions.current().number); // `client`: a `Row` of `principal_rows`
//! let is_refused = is_locked(counted, &limits, at);
//! let failures = match check_timestamp(alloc, &ready, &client, at, message.padata.as_ref())? {
//!     Outcome::Good => after_success(counted),
//!     Outcome::Bad => after_failure(counted, at),
//!     Outcome::Skewed | Outcome::Absent => failures,
//! };
//! let types = usable_types(alloc, &client.versions.current().keys, &message.body.value.etype)?;
//! let methods = method_data(alloc, salt, &types)?; // for KDC_ERR_PREAUTH_REQUIRED
//! ```
//!
//! There is no other method of preauthentication, such as FAST or PKINIT. `as_exchange` decides what each outcome
//! causes, and `kdc_state` stores the failures.
#![tactic(auto)]

mod keys;
mod lock;
mod methods;
mod timestamp;

pub use keys::{first_key, key_by, key_numbered, usable_types};
pub use lock::{after_failure, after_success, counted_for, is_locked};
pub use methods::{etype_info2, method_data};
pub use timestamp::{Outcome, check_timestamp, first_padata};

//! Lists that decide, and lists that are maps.
//!
//! Refusals are a list of named reasons, each with its condition, in the order in which they are checked:
//!
//! ```
//! decide(&[(is_locked, Reason::Locked), (is_expired, Reason::Expired)], row, Reason::Unknown)?;
//! ```
//!
//! Sorted entries have no code here, only what ordered maps share in their contracts and proofs. A map keeps a `Vec` of
//! entries in ascending order of their keys and searches it with `binary_search_by`. Contracts see it as a finite map
//! (`FinMap`). `specs/Entries.antt` defines the place of a key. `proofs/Entries.antt` says what a search finds and what
//! an edit at that place does, for every type of entry and every order of keys.
#![tactic(auto)]

mod refusals;

pub use refusals::{Attempt, decide, first_holding};

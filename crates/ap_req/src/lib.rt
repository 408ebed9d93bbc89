//! The ticket and the authenticator that an AP-REQ presents, decrypted and checked (RFC 4120, section 3.2.3).
//!
//! ```
//! let held = held_in(&keytab, &ap.ticket, &service);
//! let part = shown_ticket(alloc, None, &held, &ap)??; // AllocError, then ApRefusal
//! let key = checked_session_key(realm, &part)?;
//! let usage = KeyUsage::ApReqAuthenticator;
//! let authenticator = open_authenticator(alloc, None, usage, &key, &ap.authenticator)??;
//! let is_other = is_mismatched(&part, &authenticator);
//! let subkey = subkey_in(authenticator.subkey.as_ref());
//! let is_over = has_ended(&ticket_terms(&part), at);
//! ```
//!
//! A ticket-granting service checks them by the same rules as any other service (section 3.3.2). The servers differ in
//! where they find the ticket's key, in the key usage of the authenticator, and in the rules that they add.
//!
//! The servers have the replay caches: `ap_accept` and `tgs_exchange` check for replays. `tgs_opening` checks the
//! authenticator's checksum.
#![tactic(auto)]

mod authenticated;
mod authenticators;
mod decryption;
mod held_key;
mod keytab_keys;
mod refusal;
mod refusal_texts;
mod session_keys;
mod tickets;
mod validity;

pub use authenticated::Authenticated;
pub use authenticators::{is_mismatched, open_authenticator, subkey_in};
pub use held_key::HeldKey;
pub use keytab_keys::{held_in, keytab_key};
pub use refusal::ApRefusal;
pub use session_keys::checked_session_key;
pub use tickets::shown_ticket;
pub use validity::{has_ended, has_not_started, ticket_terms};

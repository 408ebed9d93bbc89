//! The Ticket-Granting Service exchange (RFC 4120, section 3.3): from what a request presents and the rows of its
//! client and its service to the reply, and to what is stored of both.
//!
//! ```
//! let incoming = Incoming { at, random, room, octets, ready }; // of `kdc_replies`
//! let view = TgsView { realm, limits, client, service, cache };
//! let answer = tgs_answer(alloc, &view, &incoming, &message.body.value, &presented)?;
//! if let Some(kept) = answer.kept {
//!     state.record_seen(alloc, at, &seen, kept)?; // of `kdc_state`
//! }
//!
//! let error = tgs_error(alloc, realm, at, &message.body.value, rejection.rule)?; // if `tgs_open` rejected it
//! ```
//!
//! It decrypts nothing: `tgs_opening` finds what a request presents. It looks up no row and stores nothing: `kdc_core`
//! does.
#![tactic(auto)]

mod answering;
mod deciding;
mod decision;
mod errors;
mod issuing;
mod outcome;
mod rules;
mod terms;
mod view;

pub use answering::{TgsAnswer, tgs_answer};
pub use errors::tgs_error;
pub use outcome::TgsOutcome;
pub use view::TgsView;

//! The KDC's replies: errors, and replies with a ticket (RFC 4120, sections 5.4.2 and 5.9.1).
//!
//! ```
//! let error = error_reply(alloc, realm, at, Code::KdcErrPolicy, body.sname.as_ref(), None)?;
//!
//! if let Some(terms) = service_terms(alloc, &body.etype, sname, row)? {
//!     let key = session_key(terms.session_type, random); // the one of `grant`
//!     let reply = ticket_reply::<AS_REP, ENC_AS_REP_PART>(alloc, &grant, &terms.key, &reply_key, None, &inputs)?;
//! }
//! ```
//!
//! `grant` is the [`Grant`] of the ticket, and `reply_key` the `PartKey` (of `encrypted_data`) that encrypts the
//! reply's part. Random bytes come with the request, in an [`Incoming`].
//!
//! It does not decide which reply a request gets: `as_exchange` and `tgs_exchange` do.
#![tactic(auto)]

mod errors;
mod grant;
mod granted;
mod incoming;
mod replies;
mod sent_names;
mod services;
mod session_keys;
mod standing;
mod tickets;

pub use errors::{error_reply, too_big};
pub use grant::Grant;
pub use granted::Granted;
pub use incoming::Incoming;
pub use replies::{ReplyInputs, ticket_reply};
pub use services::{ServiceTerms, service_terms};
pub use session_keys::session_key;
pub use standing::{denies_tickets, has_come, is_disabled, is_expired};
pub use tickets::{ServiceKey, version_number};

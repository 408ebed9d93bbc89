//! The Authentication Service exchange (RFC 4120, section 3.1): from a request and the rows of its client and its
//! service to the reply.
//!
//! ```
//! let (_, message) = read_kdc_req(octets)?; // of `krb_types`
//! let incoming = Incoming { at, random, room, octets, ready }; // of `kdc_replies`
//! let view = AsView { realm, limits, client, service, failures };
//! let answer = as_answer(alloc, &view, &incoming, &message)?;
//! if let AsOutcome::Refused(rule) = answer.outcome {
//!     let code = rule.code(); // that of the KRB-ERROR in `answer.reply`
//! }
//! ```
//!
//! The rules are in `rules.rt`. `preauth` checks the timestamp, `ticket_times` has the times and flags of a ticket, and
//! `kdc_replies` writes the replies.
//!
//! It looks up no row and stores nothing: `kdc_core` finds the rows, and stores the failures of the answer.
#![tactic(auto)]

mod answering;
mod deciding;
mod decision;
mod errors;
mod issuing;
mod outcome;
mod refusal;
mod rules;
mod terms;
mod view;

pub use answering::{AsAnswer, as_answer};
pub use outcome::AsOutcome;
pub use refusal::AsRefusal;
pub use view::AsView;

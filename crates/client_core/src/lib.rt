//! A client of a KDC and of services: writes the requests, and reads the replies (RFC 4120, sections 3.1, 3.2 and 3.3).
//!
//! | call | message | section |
//! |---|---|---|
//! | [`as_request`], [`with_timestamp`] | AS-REQ | 3.1.1 |
//! | [`read_as_reply`] | AS-REP, or KRB-ERROR | 3.1.5 |
//! | [`tgs_request`] | TGS-REQ | 3.3.1 |
//! | [`read_tgs_reply`] | TGS-REP, or KRB-ERROR | 3.3.4 |
//! | [`ap_request`] | AP-REQ | 3.2.2 |
//! | [`read_ap_reply`] | AP-REP, or KRB-ERROR | 3.2.5 |
//! | [`password_key`] | ETYPE-INFO2 | 5.2.7.5 |
//!
//! ```
//! let key = password_key(alloc, pass, asked.realm.as_slice(), &asked.client, &info)?;
//! let request = with_timestamp(alloc, &asked, &key, at, &confounder)?;
//! // The caller sends the request, and receives the reply.
//! let credential = read_as_reply(alloc, &asked, &key, at, &reply)?;
//! if is_presentable(&credential) {
//!     let ap_req = ap_request(alloc, &credential, at, &wanted, &next_confounder)?;
//! }
//! ```
//!
//! A request needs an [`Asked`] that is askable ([`Asked::is_askable`]). A caller that has to look at a reply before it
//! has the key reads it once, with [`refusal_in`] and [`ticket_reply_in`], and passes it to [`judge_as_reply`] or
//! [`judge_tgs_reply`].
//!
//! Nothing here sends or waits, draws random bytes or reads a clock: the caller supplies the moment and the
//! confounders. `client_login` is such a caller.
#![tactic(auto)]

mod asked;
mod credentials;
mod fault;
mod key_role;
mod passwords;
mod presenting;
mod replies;
mod requests;
mod service_asked;
mod service_replies;
mod service_requests;
mod sessions;
mod tgs_requests;

pub use asked::{Asked, MAX_ETYPES};
pub use fault::{Mismatch, Refusal, ReplyError, ServerError};
pub use key_role::KeyRole;
pub use passwords::{EtypeInfo2, MAX_COUNT, iteration_count, password_key, usable_entry};
pub use replies::{
    judge_as_reply, judge_tgs_reply, read_as_reply, read_tgs_reply, refusal_in, ticket_reply_in,
};
pub use requests::{as_request, with_timestamp};
pub use service_asked::ServiceAsked;
pub use service_replies::read_ap_reply;
pub use service_requests::ap_request;
pub use sessions::{MAX_OCTETS_SENT, is_presentable, session_key};
pub use tgs_requests::tgs_request;

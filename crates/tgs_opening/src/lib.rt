//! The ticket and the authenticator that a TGS-REQ presents, decrypted and checked (RFC 4120, sections 3.2.3 and
//! 3.3.2).
//!
//! ```
//! let (_, message) = read_kdc_req(octets)?; // of `krb_types`
//! let view = TicketView { realm, tgs, service, ready };
//! let presented = match tgs_open(alloc, &view, &message)? {
//!     Ok(presented) => presented,
//!     Err(rejection) => return Ok(Err(rejection)), // the caller answers with `rejection.rule`
//! };
//! let client = &presented.ticket.cname;
//! ```
//!
//! [`TgsRefusal`] has the rules of the whole exchange. Those that every AP-REQ has to pass are in `ap_req`.
//!
//! Nothing here depends on the replay cache, on the client's row or on the time: `tgs_exchange` decides by these.
#![tactic(auto)]

mod authenticators;
mod opened;
mod opening;
mod presented;
mod refusal;
mod rejection;
mod tickets;
mod view;

pub use opening::tgs_open;
pub use presented::Presented;
pub use refusal::TgsRefusal;
pub use rejection::OpeningRefusal;
pub use tickets::is_named;
pub use view::TicketView;

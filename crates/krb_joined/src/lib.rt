//! A ticket's whole path: a KDC issues it, a client reads it from the reply and presents it, and a service accepts the
//! client.
//!
//! ```
//! let tgt = obtain(alloc, &mut kdc, &issuing, &as_req, &login)?;
//! // The client writes a TGS-REQ with the TGT (`tgs_request` of `client_core`).
//! let accepted = end_to_end(alloc, &mut kdc, &mut acceptor, &answering, &tgs_req, &client)?;
//! let key = accepted.session_key;
//! ```
//!
//! The contracts of [`obtain`] and [`end_to_end`] say that `client_core` reads what `kdc_core` issues, and when
//! `ap_accept` accepts it. No program calls them; `exchange_tests` does.
//!
//! It writes no AS-REQ and no TGS-REQ: `client_core` does. It sends nothing over a network: `client_login` and
//! `kdc_hub` do. It draws no random bytes and reads no clock: the caller supplies bytes and moments, in [`Answering`]
//! and [`Client`].
#![tactic(auto)]

mod client;
mod joined;
mod obtaining;
mod path_end;
mod presenting;
mod reading;

pub use client::Client;
pub use joined::{Answering, end_to_end};
pub use obtaining::{Issuing, obtain};
pub use path_end::PathEnd;
pub use presenting::Sealing;
pub use reading::Reader;

//! Accepting AP-REQ messages as a service (RFC 4120, section 3.2.3).
//!
//! ```
//! let keytab = Keytab::read(alloc, octets)?; // of `cred_files`
//! let options = AcceptorOptions::default();
//! let mut acceptor = Acceptor::open(alloc, keytab, options, Opening::Restart(start))?;
//! let accepted = acceptor.accept(alloc, at, &confounder, ap_req)?; // or an ApFault
//! let is_alice = accepted.client.is(b"EXAMPLE.COM", &alice);
//! let key = accepted.subkey.unwrap_or(accepted.session_key);
//! ```
//!
//! | call | what it does |
//! |---|---|
//! | [`Acceptor::open`] | an acceptor for the services of a keytab |
//! | [`Acceptor::accept`] | the client, keys and ticket of an AP-REQ ([`Accepted`]), or its refusal |
//! | [`Acceptor::accept_for`] | the same, for one service of the keytab alone |
//! | [`TicketLabel::read`] | the service, key version and encryption type of the ticket, for a log |
//! | [`TicketLabel::error`] | the bytes of the KRB-ERROR for a refusal |
//! | [`Accepted::judge_checksum`] | judges the authenticator's checksum over the application's data |
//! | [`Acceptor::replace`] | replaces the keytab; the replay caches stay |
//! | [`Acceptor::save`], [`Acceptor::resume`] | bytes of the replay caches; an acceptor that goes on with them |
//!
//! Nothing here sends or waits, draws random bytes or reads a clock: the caller supplies the moment and the confounder.
//! It does not decide what a client may do, reads no authorization data, and protects no later message.
//! A process that was not saved loses its replay caches: [`Opening`] says what the next start does about them.
#![tactic(auto)]

mod accepted;
mod accepting;
mod acceptor;
mod authenticators;
mod checksum;
mod client;
mod clients;
mod error_reply;
mod fault;
mod label;
mod laws;
mod naming;
mod options;
mod presented;
mod protection;
mod receipt;
mod recording;
mod replies;
mod saved;
mod saving;
mod state;
mod validity;

pub use accepted::Accepted;
pub use acceptor::Acceptor;
pub use ap_req::ApRefusal;
pub use checksum::ChecksumVerdict;
pub use fault::ApFault;
pub use label::TicketLabel;
pub use laws::{accepted_once, drops_unseen, resumed_once};
pub use options::AcceptorOptions;
pub use replay::Opening;

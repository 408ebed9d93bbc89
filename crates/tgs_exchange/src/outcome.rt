//! The outcome of a TGS-REQ.
use kdc_replies::Granted;
use replay::Bears;
use tgs_opening::TgsRefusal;

/// The outcome of a request.
#[derive(Clone, Copy, PartialEq, Eq)]
pub enum TgsOutcome {
    /// This rule refused it.
    Refused(TgsRefusal),
    /// This ticket was issued for it.
    Issued(Granted),
    /// It came before, and the stored reply, which bears this, was sent again.
    Resent(Bears),
    /// A reply with a ticket did not fit the room: error 52 was sent in its place.
    TooBig,
}

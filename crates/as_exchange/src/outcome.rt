//! The outcome of an AS-REQ.
use crate::refusal::AsRefusal;
use kdc_replies::Granted;

/// The outcome of a request.
#[derive(Clone, Copy, PartialEq, Eq)]
pub enum AsOutcome {
    /// Refused by this rule.
    Refused(AsRefusal),
    /// Issued this ticket.
    Issued(Granted),
    /// The reply with a ticket didn't fit, so error 52 was sent instead.
    TooBig,
}

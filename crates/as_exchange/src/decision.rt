//! The decision about an AS-REQ.
use crate::refusal::AsRefusal;
use crate::terms::Admission;
use preauth::Outcome;

/// The decision about a request.
#[derive(Drop)]
pub enum Decision {
    /// Refuse it. The second field is the outcome of its timestamp.
    Refuses(AsRefusal, Outcome),
    /// Issue a ticket.
    Issues(Admission),
}

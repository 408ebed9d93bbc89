//! The outcomes of replies to a client.
use client_core::{Mismatch, ReplyError};
use krb_elements::Octets;

/// The outcome of a reply.
#[derive(Clone, Copy, PartialEq, Eq)]
pub enum Outcome {
    /// It is accepted, with the contents that it has to have.
    Taken,
    /// It is accepted, with other contents.
    Other,
    NotAReply,
    /// A KRB-ERROR with this code, and with e-data of three bytes.
    Refused(i32, Option<[u8; 3]>),
    Differs(Mismatch),
    CannotOpen,
    CountTooLarge,
    Memory,
}

/// Returns the e-data, or three zeros if it doesn't have three bytes.
fn e_data(found: &Option<Octets>) -> Option<[u8; 3]> {
    match found {
        Some(octets) => match octets.as_slice() {
            [first, second, third] => Some([*first, *second, *third]),
            _ => Some([0; 3]),
        },
        None => None,
    }
}

pub fn outcome_by(fault: &ReplyError) -> Outcome {
    match fault {
        ReplyError::NotAReply => Outcome::NotAReply,
        ReplyError::Refused(refusal) => {
            Outcome::Refused(refusal.error.code, e_data(&refusal.e_data))
        }
        ReplyError::Mismatch(what) => Outcome::Differs(*what),
        ReplyError::CannotOpen => Outcome::CannotOpen,
        ReplyError::CountTooLarge => Outcome::CountTooLarge,
        ReplyError::Memory => Outcome::Memory,
    }
}

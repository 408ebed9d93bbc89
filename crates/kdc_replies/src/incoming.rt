//! An incoming request.
use encrypted_data::ReadyKeys;
use krb_fields::Moment;
use std::marker::Model;

/// An incoming request, and what its answer needs besides the KDC's state.
#[derive(Drop)]
pub struct Incoming<'a> {
    /// When it came in.
    pub at: Moment,
    /// The random bytes for its answer: 32 for the session key, and 16 each for the confounders of ticket and reply.
    pub random: &'a [u8; 64],
    /// The maximum length of a reply with a ticket, in bytes.
    pub room: u32,
    /// The bytes of the request.
    pub octets: &'a [u8],
    /// A cache of recently used keys. It affects speed only, never a reply: contracts don't see it.
    pub ready: &'a ReadyKeys,
}

impl<'a> Model for Incoming<'a> {
    ghost use Rattle.kdc_replies.specs.Incoming as trees;

    ghost Value = { trees.Incoming };

    ghost view = { λ i. record { at = i.at; random = i.random.now; room = i.room; octets = i.octets.now } };
}

//! AP-REQs with what a service learns from them.
use crate::asking::Parts;
use crate::contents::{Terms, is_client, is_granted};
use crate::fixtures::is_spelled;
use ap_accept::Accepted;
use enctypes::{Etype, Key};
use std::alloc::Global;

/// An AP-REQ with its contents, and the AP-REP to it. Bytes are hexadecimal digits.
pub struct Made {
    pub ap_req: &'static str,
    /// The start and the end of the ticket's cipher in it.
    pub ticket_cipher: (usize, usize),
    pub authenticator_cipher: (usize, usize),
    pub client: Parts,
    /// The encryption type of the session key.
    pub etype: Etype,
    pub session_key: &'static str,
    pub subkey: Option<(Etype, &'static str)>,
    pub number: Option<i64>,
    /// The checksum, with its type.
    pub cksum: Option<(i32, &'static str)>,
    pub terms: Terms,
    /// The AP-REP whose confounder is the bytes 48 to 63, if the AP-REQ has MUTUAL-REQUIRED.
    pub ap_rep: Option<&'static str>,
}

fn is_key(key: &Key, etype: Etype, digits: &str) -> bool {
    key.etype() == etype && is_spelled(key.bytes(), digits)
}

fn has_keys(accepted: &Accepted, made: &Made) -> bool {
    let has_subkey = match (&accepted.subkey, made.subkey) {
        (Some(key), Some((etype, digits))) => is_key(key, etype, digits),
        (None, None) => true,
        _ => false,
    };
    has_subkey && is_key(&accepted.session_key, made.etype, made.session_key)
}

/// Checks the sequence number, the checksum and the AP-REP.
fn has_rest(accepted: &Accepted, made: &Made) -> bool {
    let has_number = match (accepted.seq_number, made.number) {
        (Some(number), Some(wanted)) => number.get() == wanted,
        (None, None) => true,
        _ => false,
    };
    let has_cksum = match (&accepted.cksum, made.cksum) {
        (Some(cksum), Some((number, digits))) => {
            cksum.number == number && is_spelled(cksum.octets.as_slice(), digits)
        }
        (None, None) => true,
        _ => false,
    };
    let has_reply = match (&accepted.ap_rep, made.ap_rep) {
        (Some(octets), Some(digits)) => is_spelled(octets.as_slice(), digits),
        (None, None) => true,
        _ => false,
    };
    has_number && has_cksum && has_reply
}

/// Checks whether the service learns these contents.
pub fn is_as_made(alloc: Global, accepted: &Accepted, made: &Made) -> bool {
    is_client(alloc, &accepted.client, made.client)
        && is_granted(&accepted.ticket, &made.terms)
        && has_keys(accepted, made)
        && has_rest(accepted, made)
}

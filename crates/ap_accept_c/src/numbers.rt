//! The numbers of an AP-REQ.
ghost use Rattle.std.specs.Prelude.{◌≡◌, pos, is_some, option_copied, option_map};
ghost use Rattle.std.specs.Option.{unwrap_or};
ghost use Rattle.enctypes.specs.Etype.{number};
ghost use Rattle.ap_accept_c.specs.Numbers.{labeled, numbers_if, numbers_in, numbers_of};

use crate::last::Last;
use ap_accept::{Accepted, TicketLabel};

/// The `struct ap_accepted` of the header. Times are seconds since 1970-01-01T00:00:00Z. Those of the ticket's key are
/// there for each AP-REQ, the others for an accepted one.
#[repr(C)]
#[derive(Clone, Copy)]
pub struct Numbers {
    /// When the client first authenticated.
    pub authtime: i64,
    /// The authtime, if the ticket has no starttime.
    pub starttime: i64,
    /// When the ticket expires.
    pub endtime: i64,
    /// The endtime, if the ticket has no renew-till.
    pub renew_till: i64,
    /// 0 if the authenticator has none.
    pub seq_number: i64,
    /// 0 if the ticket names no version of the key that encrypts it.
    pub ticket_key_version: i64,
    /// Bit 0 of RFC 4120 is the most significant.
    pub flags: u32,
    /// The number of the session key's encryption type.
    pub session_key_type: i32,
    /// 0 if the client chose no subkey.
    pub subkey_type: i32,
    /// 0 if the authenticator has no checksum.
    pub checksum_type: i32,
    /// The number of the encryption type of the key that encrypts the ticket.
    pub ticket_key_type: i32,
    /// Whether the authenticator has a sequence number, which may be 0.
    pub has_seq_number: bool,
    /// Whether the authenticator has a checksum.
    pub has_checksum: bool,
    /// Whether the client asks the service to prove its identity.
    pub has_ap_rep: bool,
    /// Whether the ticket names a version of its key, which may be 0.
    pub has_ticket_key_version: bool,
}

impl Numbers {
    /// The numbers after bytes that encode no AP-REQ.
    pub const NONE: Numbers = Numbers {
        authtime: 0,
        starttime: 0,
        endtime: 0,
        renew_till: 0,
        seq_number: 0,
        ticket_key_version: 0,
        flags: 0,
        session_key_type: 0,
        subkey_type: 0,
        checksum_type: 0,
        ticket_key_type: 0,
        has_seq_number: false,
        has_checksum: false,
        has_ap_rep: false,
        has_ticket_key_version: false,
    };

    /// Returns the numbers of the last AP-REQ.
    pub fn of(last: &Last) -> Numbers
        ensures { result ≡ numbers_in last.now }
    {
        let numbers = Numbers::if_accepted(last.accepted.as_ref());
        labeled(numbers, last.label.as_ref())
    }

    /// Returns the numbers of an accepted AP-REQ, or [`Numbers::NONE`] if there is none.
    fn if_accepted(accepted: Option<&Accepted>) -> Numbers
        ensures { result ≡ numbers_if (option_copied accepted.entry) }
    {
        match accepted {
            Some(accepted) => Numbers::of_accepted(accepted),
            None => Numbers::NONE,
        }
    }

    fn of_accepted(accepted: &Accepted) -> Numbers
        ensures { result ≡ numbers_of accepted.now }
    {
        let ticket = &accepted.ticket;
        Numbers {
            authtime: ticket.authtime.seconds(),
            starttime: ticket.start(),
            endtime: ticket.endtime.seconds(),
            renew_till: ticket.renewal(),
            seq_number: seq_number(accepted),
            ticket_key_version: 0,
            flags: ticket.flags.bits(),
            session_key_type: accepted.session_key.etype().number(),
            subkey_type: subkey_type(accepted),
            checksum_type: checksum_type(accepted),
            ticket_key_type: 0,
            has_seq_number: accepted.seq_number.is_some(),
            has_checksum: accepted.cksum.is_some(),
            has_ap_rep: accepted.ap_rep.is_some(),
            has_ticket_key_version: false,
        }
    }
}

fn seq_number(accepted: &Accepted) -> i64
    ensures { result ≡ unwrap_or accepted.now.seq_number (pos 0) }
{
    match accepted.seq_number {
        Some(number) => number.get(),
        None => 0,
    }
}

fn subkey_type(accepted: &Accepted) -> i32
    ensures { result ≡ unwrap_or (option_map (λ k. number k.etype) accepted.now.subkey) (pos 0) }
{
    match &accepted.subkey {
        Some(key) => key.etype().number(),
        None => 0,
    }
}

fn checksum_type(accepted: &Accepted) -> i32
    ensures { result ≡ unwrap_or (option_map (λ c. c.number) accepted.now.cksum) (pos 0) }
{
    match &accepted.cksum {
        Some(cksum) => cksum.number,
        None => 0,
    }
}

/// Returns the numbers with those of the ticket's key.
fn labeled(numbers: Numbers, label: Option<&TicketLabel>) -> Numbers
    ensures { result ≡ labeled (option_copied label.entry) numbers }
{
    match label {
        Some(label) => Numbers {
            ticket_key_version: key_version(label),
            ticket_key_type: label.etype,
            has_ticket_key_version: label.kvno.is_some(),
            ..numbers
        },
        None => numbers,
    }
}

fn key_version(label: &TicketLabel) -> i64
    ensures { result ≡ unwrap_or label.now.kvno (pos 0) }
{
    match label.kvno {
        Some(kvno) => kvno.get(),
        None => 0,
    }
}

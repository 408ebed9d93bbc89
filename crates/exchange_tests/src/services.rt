//! The services of the tests, and their keytabs in hexadecimal digits (docs/FORMATS.md).
use crate::fixtures::octets;
use ap_accept::{Acceptor, AcceptorOptions, Opening};
use cred_files::Keytab;
use principal_rows::Limits;
use std::alloc::Global;
use std::test::Fail;

/// The keys of `h`, of all four types and with version 1: bytes that count up from 160.
pub const ALL_TYPES: &str = "\
    05020000002b00010003412e4200016800000001000000000100110010a0a1a2a3a4a5a6a7a8a9aaabacadaeaf0000000100\
    00003b00010003412e4200016800000001000000000100120020a0a1a2a3a4a5a6a7a8a9aaabacadaeafb0b1b2b3b4b5b6b7\
    b8b9babbbcbdbebf000000010000002b00010003412e4200016800000001000000000100130010a0a1a2a3a4a5a6a7a8a9aa\
    abacadaeaf000000010000003b00010003412e4200016800000001000000000100140020a0a1a2a3a4a5a6a7a8a9aaabacad\
    aeafb0b1b2b3b4b5b6b7b8b9babbbcbdbebf00000001";

/// The one of type 18 alone.
pub const OWN: &str = "\
    05020000003b00010003412e4200016800000001000000000100120020a0a1a2a3a4a5a6a7a8a9aaabacadaeafb0b1b2b3b4\
    b5b6b7b8b9babbbcbdbebf00000001";

/// The same, but for `krbtgt/A.B`.
pub const OF_TGS: &str = "\
    05020000004500020003412e4200066b72627467740003412e4200000002000000000100120020a0a1a2a3a4a5a6a7a8a9aa\
    abacadaeafb0b1b2b3b4b5b6b7b8b9babbbcbdbebf00000001";

/// The one of type 17 alone.
pub const OTHER_TYPE: &str = "\
    05020000002b00010003412e4200016800000001000000000100110010a0a1a2a3a4a5a6a7a8a9aaabacadaeaf00000001";

/// The one of type 18 with version 2.
pub const OTHER_VERSION: &str = "\
    05020000003b00010003412e4200016800000001000000000200120020a0a1a2a3a4a5a6a7a8a9aaabacadaeafb0b1b2b3b4\
    b5b6b7b8b9babbbcbdbebf00000002";

/// A key of type 18 and version 1 whose bytes count up from 161.
pub const OTHER_KEY: &str = "\
    05020000003b00010003412e4200016800000001000000000100120020a1a2a3a4a5a6a7a8a9aaabacadaeafb0b1b2b3b4b5\
    b6b7b8b9babbbcbdbebfc000000001";

/// Returns limits of tickets: a lifetime of ten hours, renewable for a week. A replay cache has this many places for
/// each client.
pub fn limits(remembered: u32) -> Result<Limits, Fail> {
    match Limits::new(remembered, 0, 0, 36_000, 604_800) {
        Some(limits) => Ok(limits),
        None => Err(Fail::from("no limits")),
    }
}

/// Returns the keytab with these hexadecimal digits.
pub fn keytab(alloc: Global, digits: &str) -> Result<Keytab, Fail> {
    let octets = octets(alloc, digits)?;
    match Keytab::read(alloc, &octets) {
        Ok(keytab) => Ok(keytab),
        Err(_) => Err(Fail::from("no keytab")),
    }
}

/// Returns an acceptor with the keys of this keytab. A replay cache has this many places for each client.
pub fn opened(alloc: Global, digits: &str, remembered: u32) -> Result<Acceptor, Fail> {
    let keytab = keytab(alloc, digits)?;
    let options = AcceptorOptions { remembered };
    Ok(Acceptor::open(alloc, keytab, options, Opening::First)?)
}

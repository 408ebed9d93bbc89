//! A text for each status number.

use ap_accept::ApRefusal;
use krb_fields::numbers;

/// Returns the text for a status number, with the name from RFC 4120, section 7.5.9, in capitals.
pub fn status_text(number: i32) -> &'static str {
    match number {
        0 => "done",
        -1 => "the bytes do not encode an AP-REQ",
        -2 => "out of memory",
        -3 =>
            "a null pointer, a number out of its range, or an acceptor that is open already or no acceptor",
        -4 => "the buffer is too small",
        -5 => "the bytes are not a keytab",
        -6 => "the acceptor is closed",
        -7 => "there is no such part",
        -8 => "the library does not serve programs of this version of its header",
        -9 => "the bytes are not those of a saved acceptor",
        numbers::KDC_ERR_ETYPE_NOSUPP =>
            "KDC_ERR_ETYPE_NOSUPP: a key has an encryption type that is not supported",
        numbers::KRB_AP_ERR_BAD_INTEGRITY =>
            "KRB_AP_ERR_BAD_INTEGRITY: the ticket, the authenticator or the sealed bytes can't be decrypted",
        numbers::KRB_AP_ERR_NOKEY =>
            "KRB_AP_ERR_NOKEY: the keytab has no key of the ticket's encryption type, \
             or the client asks for user-to-user",
        numbers::KRB_AP_ERR_MODIFIED => "KRB_AP_ERR_MODIFIED: the checksum is that of other bytes",
        numbers::KRB_AP_ERR_INAPP_CKSUM =>
            "KRB_AP_ERR_INAPP_CKSUM: the checksum's type is not the one for the session key",
        _ => rule_text(number),
    }
}

/// Returns the sentence of the rule that has this code. Each of the codes that are left has one rule.
fn rule_text(number: i32) -> &'static str {
    for rule in ApRefusal::ALL.as_slice() {
        if rule.code().number() == number {
            return rule.text();
        }
    }
    "not the number of a status"
}

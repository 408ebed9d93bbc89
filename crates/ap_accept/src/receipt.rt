//! The receipt of an AP-REQ (RFC 4120, section 3.2.3).
use krb_fields::Moment;

/// The receipt of an AP-REQ, and what a reply to it needs.
#[derive(Clone, Copy)]
pub struct Receipt {
    /// When the AP-REQ comes in.
    pub at: Moment,
    /// 16 random bytes, for the AP-REP.
    pub confounder: [u8; 16],
    /// Whether the client asks for an AP-REP.
    pub wanted: bool,
}

//! A TGS-REQ whose ticket or authenticator is refused.
use crate::refusal::TgsRefusal;
use krb_fields::Name;

/// The refusal of a ticket or of its authenticator.
#[derive(Debug, Drop)]
pub struct OpeningRefusal {
    /// The first rule that refuses what the TGS-REQ presents.
    pub rule: TgsRefusal,
    /// The client of the ticket, if the ticket could be decrypted.
    pub client: Option<Name>,
}

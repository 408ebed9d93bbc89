//! A request as it came in.
use krb_fields::Moment;

/// A request as it came in.
#[derive(Drop)]
pub struct TimedRequest<'a> {
    /// When it came in.
    pub at: Moment,
    /// The bytes of the request.
    pub octets: &'a [u8],
}

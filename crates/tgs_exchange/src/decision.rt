//! The decision on a TGS-REQ whose ticket and authenticator were decrypted.
use crate::terms::Admission;
use tgs_opening::TgsRefusal;

/// The decision on a request. `K` is what is stored for an authenticator.
#[derive(Drop)]
pub enum Decision<K> {
    /// It is refused, and nothing is recorded.
    Refuses(TgsRefusal),
    /// It is refused, and the refusal is recorded with its authenticator.
    Records(TgsRefusal),
    /// Its authenticator came before, and this was stored for it.
    Repeats(K),
    /// A ticket is issued for it.
    Issues(Admission),
}

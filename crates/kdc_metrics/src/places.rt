//! The place of each kind of request among all kinds.
ghost use Rattle.std.specs.Prelude.{◌≡◌, ◌<◌};
ghost use Rattle.kdc_metrics.specs.Places.{kind_count, place};

use crate::kind::Kind;
use kdc_core::{AsRefusal, Bears, TgsRefusal};

/// How many kinds there are beside the rules of the TGS exchange.
const BEFORE_TGS: usize = 8 + AsRefusal::COUNT;

/// How many kinds there are.
pub(crate) const KIND_COUNT: usize = BEFORE_TGS + TgsRefusal::COUNT;

/// The kinds before the rules of the AS exchange, each at its place.
pub(crate) const BEFORE_RULES: [Kind; 4] = [
    Kind::NoRequest,
    Kind::Unanswered,
    Kind::AsTicket,
    Kind::AsTooBig,
];

/// The kinds between the rules of the AS exchange and those of the TGS exchange.
pub(crate) const BETWEEN_RULES: [Kind; 4] = [
    Kind::TgsTicket,
    Kind::TgsTooBig,
    Kind::TgsAgain(Bears::Ticket),
    Kind::TgsAgain(Bears::Error),
];

/// Returns the place of a kind.
pub(crate) fn place(kind: Kind) -> usize
    ensures value { result ≡ place kind }
    ensures range { result < kind_count }
{
    match kind {
        Kind::NoRequest => 0,
        Kind::Unanswered => 1,
        Kind::AsTicket => 2,
        Kind::AsTooBig => 3,
        Kind::AsRefused(rule) => 4 + rule.place(),
        Kind::TgsTicket => 4 + AsRefusal::COUNT,
        Kind::TgsTooBig => 5 + AsRefusal::COUNT,
        Kind::TgsAgain(Bears::Ticket) => 6 + AsRefusal::COUNT,
        Kind::TgsAgain(Bears::Error) => 7 + AsRefusal::COUNT,
        Kind::TgsRefused(rule) => BEFORE_TGS + rule.place(),
    }
}

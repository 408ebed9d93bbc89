//! Where a ticket's path ends early.
use ap_accept::ApFault;
use client_core::ReplyError;
use std::alloc::AllocError;

/// Where a ticket's path ends before the service has accepted the client and the client the service, and why.
#[derive(Debug, Drop)]
pub enum PathEnd {
    /// The KDC gave no reply.
    NoReply,
    /// The client rejected the KDC's reply.
    NotTaken(ReplyError),
    /// The client's credential can't be presented (see `client_core::is_presentable`).
    NotPresentable,
    /// The service did not accept the client.
    NotAccepted(ApFault),
    /// The client rejected the service's reply.
    NotAnswered(ReplyError),
    /// The KDC, or the client that was about to present its ticket, ran out of memory.
    Memory,
}

impl From<AllocError> for PathEnd {
    ghost use Rattle.std.specs.Prelude.{◌≡◌};
    ghost use Rattle.krb_joined.specs.declared.path_end.PathEnd.TheVariants.{Memory};

    ghost from_gives = { λ _ end. end ≡ Memory };

    fn from(_error: AllocError) -> PathEnd {
        PathEnd::Memory
    }
}

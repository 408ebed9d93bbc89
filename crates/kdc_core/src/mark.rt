//! The change that a request makes in its client's replay cache.
ghost use Rattle.std.specs.Prelude.{◌≡◌, IfOk, IfSome, OnOk, OnErr};
ghost use Rattle.kdc_core.specs.After.{after, marked_seen, MayStay};

use kdc_state::State;
use krb_fields::{Moment, Name};
use replay::{Failures, Kept, Seen};
use std::alloc::{AllocError, Global};

/// A change of a client's replay cache.
#[derive(Drop)]
pub enum Mark {
    /// Its failures change.
    Counted {
        client: Name,
        failures: Failures,
    },
    /// A new authenticator is recorded at this moment, and this is stored for it.
    Stamped {
        client: Name,
        at: Moment,
        ctime: i64,
        cusec: u32,
        kept: Kept,
    },
}

/// Makes the change, if there is one, and returns the authenticator that it records, if any. If memory runs out,
/// nothing changes.
pub fn keep_mark(
    state: &mut State,
    alloc: Global,
    mark: Option<Mark>,
) -> Result<Option<Seen>, AllocError>
    requires { IfSome mark (MayStay state.old) }
    ensures ok { OnOk result (state.new ≡ after state.old mark) }
    ensures seen { IfOk result (λ seen. seen ≡ marked_seen mark) }
    ensures err { OnErr result (state.new ≡ state.old) }
{
    match mark {
        None => Ok(None),
        Some(Mark::Counted { client, failures }) => {
            state.set_failures(alloc, &client, failures)?;
            Ok(None)
        }
        Some(
            Mark::Stamped {
                client,
                at,
                ctime,
                cusec,
                kept,
            },
        ) => {
            let seen = Seen {
                client,
                ctime,
                cusec,
            };
            state.record_seen(alloc, at, &seen, kept)?;
            Ok(Some(seen))
        }
    }
}

//! Locks clients that fail to show their key, so that passwords can't be guessed by trial.
ghost use Rattle.std.specs.Prelude.{◌≡◌, ◌≢◌, ℤ, false};
ghost use Rattle.preauth.specs.Lock.{counted_for, is_locked, after_failure, after_success};
ghost use Rattle.principal_rows.specs.declared.limits.Limits as limits;

use krb_fields::Moment;
use principal_rows::Limits;
use replay::Failures;

/// Returns the failures that count for this key version of the client: none of those for another version.
pub fn counted_for(failures: Failures, version: u32) -> Failures
    // Promise (value, unlocked): failures for another key version don't count, so a new one ends a lock.
    ensures value { result ≡ counted_for failures version }
    // So a new version ends a lock.
    ensures unlocked { failures.version ≢ version → (l : limits.Limits) (now : ℤ) → is_locked result l now ≡ false }
{
    let count = if failures.version == version {
        failures.count
    } else {
        0
    };
    Failures {
        count,
        last: failures.last,
        version,
    }
}

/// Checks whether a client with these failures is locked at this moment.
pub fn is_locked(failures: Failures, limits: &Limits, at: Moment) -> bool
    // Promise: a client is locked exactly if it failed often enough, the last time less than `lock_seconds` ago.
    ensures { result ≡ is_locked failures limits.now at.sec }
{
    limits.lock_after != 0
        && failures.count >= limits.lock_after
        && at.sec < failures.last.sec + i64::from(limits.lock_seconds)
}

/// Returns the failures after one more for the same key version, at this moment.
pub fn after_failure(failures: Failures, at: Moment) -> Failures
    // Promise: a failure adds one to the count for its key version, up to 4294967295; a success sets the count to 0,
    // and keeps the time of the last failure.
    ensures { result ≡ after_failure failures at }
{
    Failures {
        count: failures.count.saturating_add(1),
        last: at,
        version: failures.version,
    }
}

/// Returns the failures after the client has shown its key: none is counted, so they are of no key version.
pub fn after_success(failures: Failures) -> Failures
    // Promise, as after_failure: a failure adds one ..
    ensures { result ≡ after_success failures }
{
    Failures {
        count: 0,
        last: failures.last,
        version: 0,
    }
}

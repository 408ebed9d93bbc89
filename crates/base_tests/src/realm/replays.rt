//! Tests of a client's replay cache (`replay`): replays, restarts and limits, at the second T.
use crate::expect::{at_last, judged, same, shows};
use crate::realm::fixtures::{T, at};
use krb_elements::Octets;
use replay::{Bears, Failures, Keep, Kept, ReplayCache, Verdict};
use std::alloc::{AllocError, Global};
use std::process::Abort;

/// Adds a pair to the replay cache, if it is fresh.
fn accept<K: Keep>(
    cache: &mut ReplayCache<K>,
    later: u32,
    ctime: i64,
    cusec: u32,
    kept: K,
) -> Result<bool, AllocError> {
    let at = at(later);
    let is_fresh = matches!(cache.check(at, ctime, cusec, 64), Verdict::Fresh);
    if is_fresh {
        cache.record_seen(at, ctime, cusec, kept)?;
    }
    Ok(is_fresh)
}

fn kept(alloc: Global) -> Result<Kept, AllocError> {
    Ok(Kept {
        request: Octets::from_slice(alloc, b"asked".as_slice())?,
        reply: Octets::from_slice(alloc, b"told".as_slice())?,
        bears: Bears::Ticket,
    })
}

/// Checks whether this is what `kept` returns.
fn is_kept(kept: &Kept) -> bool {
    kept.request.as_slice() == b"asked".as_slice()
        && kept.reply.as_slice() == b"told".as_slice()
        && kept.bears == Bears::Ticket
}

/// Returns the verdict at the second T, and for a repeated pair whether its reply is that of `kept`.
fn verdict(cache: &ReplayCache<Kept>, ctime: i64, cusec: u32, limit: u32) -> Verdict<bool> {
    match cache.check(at(0), ctime, cusec, limit) {
        Verdict::Fresh => Verdict::Fresh,
        Verdict::Skew => Verdict::Skew,
        Verdict::Full => Verdict::Full,
        Verdict::Repeat(kept) => Verdict::Repeat(is_kept(kept)),
    }
}

/// Returns a copy of a replay cache with one pair, which must have been fresh.
fn recorded(alloc: Global) -> Result<ReplayCache<Kept>, AllocError> {
    let kept = kept(alloc)?;
    let mut cache = ReplayCache::first(alloc);
    if accept(&mut cache, 0, T - 300, 7, kept)? {
        cache.copy(alloc)
    } else {
        Err(AllocError)
    }
}

/// Returns the verdicts on the pair, on another one, on an early one, and on one too many.
fn verdicts(alloc: Global) -> Result<[Verdict<bool>; 4], AllocError> {
    let cache = recorded(alloc)?;
    Ok([
        verdict(&cache, T - 300, 7, 2),
        verdict(&cache, T - 300, 8, 2),
        verdict(&cache, T - 301, 7, 2),
        verdict(&cache, T - 300, 8, 1),
    ])
}

#[test]
fn a_repeated_pair_finds_its_kept_reply(rt: HostRuntime) {
    let found = at_last(rt.alloc(), &AllocError, || verdicts(rt.alloc()));
    let wanted = [
        Verdict::Repeat(true),
        Verdict::Fresh,
        Verdict::Skew,
        Verdict::Full,
    ];
    same(&rt, &"four pairs", &found, &Ok(wanted));
    judged(rt.alloc());
}

/// What is done with a replay cache: the first number is the second after T, the other one that of the pair.
enum Step {
    Accept(u32, u32),
    Check(u32, u32),
    Tidy(u32),
    Free,
    /// Whether no pair is left, and the floor is this second after T.
    IsEmpty(u32),
    /// Whether there is a second pair.
    HasTwo,
    Floor,
    Fail,
}

/// Steps, and what they show.
type Steps = &'static [(Step, &'static str)];

/// A pair below the floor is dropped.
const BELOW_THE_FLOOR: Steps = &[
    (Step::Accept(0, 0), "Ok(true)"),
    (Step::Accept(301, 301), "Ok(true)"),
    (Step::Floor, "1"),
    (Step::Check(0, 0), "Skew"),
    (Step::HasTwo, "(true, false)"),
];

/// A tidying drops what can't come again. It stays dropped at an earlier moment, and once its memory is freed.
const TIDIED: Steps = &[
    (Step::Accept(0, 0), "Ok(true)"),
    (Step::Tidy(300), "()"),
    (Step::Check(300, 0), "Repeat(())"),
    (Step::Tidy(301), "()"),
    (Step::Tidy(0), "()"),
    (Step::Check(0, 0), "Skew"),
    (Step::IsEmpty(1), "true"),
    (Step::IsEmpty(0), "false"),
    (Step::Free, "()"),
    (Step::Check(0, 0), "Skew"),
    (Step::IsEmpty(1), "true"),
    (Step::IsEmpty(0), "false"),
];

/// A clock that was ahead refuses nothing later. Then the floor is a day before.
const AHEAD: Steps = &[
    (Step::Accept(0, 0), "Ok(true)"),
    (Step::Tidy(60_000), "()"),
    (Step::Check(0, 0), "Skew"),
    (Step::IsEmpty(1), "true"),
    (Step::IsEmpty(0), "false"),
    (Step::Accept(1, 1), "Ok(true)"),
    (Step::Tidy(86_410), "()"),
    (Step::IsEmpty(10), "true"),
];

/// A restart refuses what may have come before.
const RESTARTED: Steps = &[
    (Step::Check(0, 300), "Skew"),
    (Step::Check(1, 301), "Fresh"),
    (Step::Fail, "2"),
    (Step::Floor, "301"),
];

/// Adds a pair, a second time if memory ran out. Then it is still fresh.
fn accept_at_last(
    alloc: Global,
    cache: &mut ReplayCache<()>,
    later: u32,
    pair: u32,
) -> Result<bool, AllocError> {
    let ctime = T + i64::from(pair);
    at_last(alloc, &AllocError, || accept(cache, later, ctime, 0, ()))
}

/// Takes a step, and asserts what it shows.
fn take(rt: &impl Abort, alloc: Global, cache: &mut ReplayCache<()>, step: &Step, shown: &str) {
    match step {
        Step::Accept(later, pair) => {
            shows(
                rt,
                alloc,
                accept_at_last(alloc, cache, *later, *pair),
                shown,
            )
        }
        Step::Check(later, pair) => {
            shows(
                rt,
                alloc,
                cache.check(at(*later), T + i64::from(*pair), 0, 64),
                shown,
            )
        }
        Step::Tidy(later) => shows(rt, alloc, cache.tidy(at(*later)), shown),
        Step::Free => shows(rt, alloc, cache.free_dropped(), shown),
        Step::IsEmpty(later) => shows(rt, alloc, cache.is_empty(T + i64::from(*later)), shown),
        Step::HasTwo => {
            let found = (cache.pairs.has_from(0, 1), cache.pairs.has_from(0, 2));
            shows(rt, alloc, found, shown)
        }
        Step::Floor => shows(rt, alloc, cache.floor.wrapping_sub(T), shown),
        Step::Fail => {
            cache.set_failures(Failures {
                count: 2,
                last: at(0),
                version: 1,
            });
            shows(rt, alloc, cache.failures.count, shown)
        }
    }
}

/// Takes steps with a first replay cache, or with that of a restart.
fn run(rt: &impl Abort, alloc: Global, is_restarted: bool, steps: Steps) {
    let mut cache = if is_restarted {
        ReplayCache::restarted(alloc, at(0))
    } else {
        ReplayCache::first(alloc)
    };
    for (step, shown) in steps {
        take(rt, alloc, &mut cache, step, *shown);
        judged(alloc);
    }
}

#[test]
fn pairs_are_dropped_once_they_are_too_old(rt: HostRuntime) {
    for (is_restarted, steps) in [
        (false, BELOW_THE_FLOOR),
        (false, TIDIED),
        (false, AHEAD),
        (true, RESTARTED),
    ] {
        run(&rt, rt.alloc(), is_restarted, steps);
    }
}

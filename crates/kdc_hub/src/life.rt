//! Serving a realm whose rows may change in the meantime.
ghost use Rattle.std.specs.Prelude.{◌≡◌, ◌≤◌};
ghost use Rattle.kdc_hub.specs.Hub.{hub_state};
ghost use Rattle.kdc_hub.specs.Wire.{IsCounted};
ghost use Rattle.kdc_hub.specs.Life.{HasLooked, HasTidied, IsLife, IsPeriod, periods_of};

use crate::hub::Hub;
use crate::laws::one_run;
use crate::observer::{Observer, ServerView};
use crate::rows::{Look, RowSource};
use crate::server::{Served, serve};
use crate::timer::due_at;
use crate::totals::Totals;
use crate::wires::Wire;
use krb_fields::Moment;
use rand_core::Rng;
use std::alloc::Global;

/// How many seconds pass between two tidyings.
const MINUTE: i64 = 60;

/// For how many clients a period frees the memory of dropped authenticators.
const CLIENTS_FREED: usize = 512;

/// The tidyings of a life.
#[derive(Drop)]
struct Tidyings {
    /// The moment of the last one.
    last: Option<Moment>,
    freeing: Freeing,
}

/// The freeing of what tidyings dropped, for some clients after each period.
#[derive(Drop)]
struct Freeing {
    /// The next client.
    place: usize,
    /// How often the last client is still to be reached: twice after a tidying, so that each one has its turn.
    passes: u32,
}

/// Serves this many rounds. Before the first, and again after each 16, it checks whether the source has new rows. Rows
/// of the same realm replace those that are served; the replay caches are unchanged. After the rounds it drops
/// authenticators that can't come again, at most once a minute by the moment of the last poll. So a server without
/// requests drops them too. Their memory is freed in parts, after the rounds that follow. The observer looks at the
/// server after each 16 rounds, and at the end.
pub fn serve_life<W: Wire, S: RowSource, R: Rng, O: Observer<W, R>>(
    alloc: Global,
    wire: &mut W,
    source: &mut S,
    hub: &mut Hub<R>,
    rounds: u64,
    observer: &mut O,
) -> Totals
    // The records of the Wire and of the source, and the hub at the end, are those of one history, which is one run of
    // the key distribution centre. No authenticator gets two different tickets in it. What others send changes nothing
    // for a client. What is dropped changes nothing either, if no request is before an earlier tidying.
    // Promise: what `one_run` promises of histories holds of a server's life.
    // Promise, as one_run: **others can move the ..
    // Promise: a look at new rows comes after 16 polls, each a tenth of a second if nothing comes, so what others send
    // moves it by up to about 1.6 seconds.
    // Promise: **the life of a server is one history**: before its first round, and again after each 16, it looks at
    // the source of rows once.
    // Promise: what a look returns replaces the rows before the next round begins, and never within one; a source that
    // is fixed, or none, returns nothing.
    // Promise: after a period's rounds the hub is tidied at the moment of its last poll that did not fail, with an
    // event or without one, if a minute or more has passed since the last tidying.
    // Promise: the hub is also tidied if that moment is before the last tidying's, or there was none, and at no other
    // time.
    // Promise: the wire records the polls and acts of these rounds and no others, and the source these looks and no
    // others; the hub is then as that history leaves it.
    // Promise (life, counted): what is counted are the events, the calls that failed (up to the greatest `u64`) and the
    // refusals of that record.
    // Promise, as take_rows of kdc_server: **changes are served**: unless ..
    ensures life { IsLife (W.recorded wire.old) (S.is_fixed source.old) (S.recorded source.old)
        (hub_state R.stream hub.old)
        (periods_of rounds) result (W.recorded wire.new) (S.recorded source.new) (hub_state R.stream hub.new) }
    // A source whose rows may change is not exchanged for one whose rows never do.
    // Promise, as take_rows of kdc_server: **changes are served**: unless ..
    ensures stays { S.is_fixed source.new ≡ S.is_fixed source.old }
    ensures counted { IsCounted (W.fault_count wire.old) result.faults (W.fault_count wire.new) }
{
    one_run();
    let mut totals = Totals::new();
    let mut tidied = Tidyings {
        last: None,
        freeing: Freeing {
            place: 0,
            passes: 0,
        },
    };
    for _ in 0..rounds / 16 {
        let served = serve_period(alloc, wire, source, hub, &mut tidied, 16);
        totals = totals.with(served);
        observer.see(
            alloc,
            &ServerView {
                wire,
                rows: source.state(),
                hub,
                served,
            },
        );
    }
    let rest = (rounds % 16) as u32;
    let last = serve_period(alloc, wire, source, hub, &mut tidied, rest);
    observer.see(
        alloc,
        &ServerView {
            wire,
            rows: source.state(),
            hub,
            served: last,
        },
    );
    totals.with(last)
}

/// Checks for new rows, serves this many rounds, and tidies if that is due.
fn serve_period<W: Wire, S: RowSource, R: Rng>(
    alloc: Global,
    wire: &mut W,
    source: &mut S,
    hub: &mut Hub<R>,
    tidied: &mut Tidyings,
    rounds: u32,
) -> Served
    ensures period { IsPeriod (W.recorded wire.old) (S.is_fixed source.old) (S.recorded source.old)
        (hub_state R.stream hub.old)
        tidied.old.last rounds result (W.recorded wire.new) (S.recorded source.new) (hub_state R.stream hub.new)
        tidied.new.last }
    ensures stays { S.is_fixed source.new ≡ S.is_fixed source.old }
    ensures counted { IsCounted (W.fault_count wire.old) result.faults (W.fault_count wire.new) }
    ensures few_events { result.events ≤ rounds }
    ensures few_refused { result.refused ≤ rounds }
{
    take_rows(alloc, source, hub);
    let served = serve(alloc, wire, hub, rounds);
    tidy_if_due(hub, tidied, &served.last);
    served
}

/// Drops authenticators that can't come again, if the last poll returned at least a minute after the last tidying, or
/// before it. If not, it frees the memory of some that were dropped.
fn tidy_if_due<R: Rng>(hub: &mut Hub<R>, tidied: &mut Tidyings, last: &Option<Moment>)
    ensures { HasTidied (hub_state R.stream hub.old) tidied.old.last last.now
        (hub_state R.stream hub.new) tidied.new.last }
{
    match due_at(MINUTE, &tidied.last, last) {
        Some(at) => {
            hub.tidy(at);
            tidied.last = Some(at);
            tidied.freeing.passes = 2;
        }
        None => free_some(hub, &mut tidied.freeing),
    }
}

/// Frees the memory of the dropped authenticators of the clients whose turn it is.
fn free_some<R: Rng>(hub: &mut Hub<R>, freeing: &mut Freeing)
    ensures { hub_state R.stream hub.new ≡ hub_state R.stream hub.old }
{
    if freeing.passes == 0 {
        return;
    }
    match hub.free_dropped(freeing.place, CLIENTS_FREED) {
        Some(next) => freeing.place = next,
        None => {
            freeing.place = 0;
            freeing.passes -= 1;
        }
    }
}

/// Replaces the rows that are served by those of the source, if they changed.
fn take_rows<S: RowSource, R: Rng>(alloc: Global, source: &mut S, hub: &mut Hub<R>)
    ensures looked { HasLooked (S.is_fixed source.old) (S.recorded source.old) (hub_state R.stream hub.old)
        (S.recorded source.new) (hub_state R.stream hub.new) }
    ensures stays { S.is_fixed source.new ≡ S.is_fixed source.old }
{
    match source.look(alloc) {
        Look::Changed(database) => {
            let taken = hub.replace(database);
            source.report(taken);
        }
        Look::Unchanged | Look::Failed => {}
    }
}

//! Tests of steps of a hub (`kdc_hub`) that run out of memory: each ends only its connection, and says what was done.
use crate::fixtures::{BEGIN, END, holds, mark, octets};
use crate::hubs::{Case, Come, Done, EACH, ONE, TO_1001, TWO, done, expect, is_done, push_all};
use crate::kdcs::opened;
use kdc_hub::{Action, Event, Hub, HubFault};
use krb_fields::Moment;
use rand_chacha::ChaCha20Rng;
use rand_core::SeedableRng;
use std::alloc::Global;
use std::collections::VecDeque;
use std::test::Fail;

/// Two requests in one piece, another one, and a datagram.
const STEPS: &[Come] = &[
    Come::Opened(7, 7),
    Come::Bytes(7, 0, TWO),
    Come::Bytes(7, 0, ONE),
    Come::Datagram(1001),
];

/// What is done then. The connection ends if memory runs out while it opens, with its first piece, before or after a
/// reply, or with its second piece, and its later pieces get nothing. If memory runs out later, the datagram has no
/// reply.
const STEPS_DONE: &[&[Done]] = &[
    &[TO_7, OTHER_TO_7, TO_7, TO_1001],
    &[END_OF_7, TO_1001],
    &[TO_7, END_OF_7, TO_1001],
    &[TO_7, OTHER_TO_7, END_OF_7, TO_1001],
    &[TO_7, OTHER_TO_7, TO_7],
];

const TO_7: Done = (b'w', 7, b't');

const OTHER_TO_7: Done = (b'w', 7, b'u');

const END_OF_7: Done = (b'c', 7, b'm');

const OUT_OF_MEMORY: &[Case] = &[Case {
    what: "a step out of memory ends only its connection",
    comes: STEPS,
    rounds: 4,
    events: 4,
    all_calls: 8,
    ways: STEPS_DONE,
    is_marked: true,
    ..EACH
}];

fn push_done(all: &mut Vec<Done>, actions: &[Action], wanted: &[u8]) -> Result<(), Fail> {
    for action in actions {
        all.push(done(action, wanted))?;
    }
    Ok(())
}

/// Appends what a step does. A connection that a fault names counts as closed. Returns whether memory ran out.
fn push_step(
    all: &mut Vec<Done>,
    step: Result<Vec<Action>, HubFault>,
    wanted: &[u8],
) -> Result<bool, Fail> {
    match step {
        Ok(actions) => {
            push_done(all, &actions, wanted)?;
            Ok(false)
        }
        Err(fault) => {
            push_done(all, &fault.done, wanted)?;
            if let Some(conn) = fault.conn {
                all.push((b'c', conn, b'm'))?;
            }
            Ok(true)
        }
    }
}

/// Takes a step for each event, as a marked call. Returns whether memory ran out.
fn steps(
    alloc: Global,
    hub: &mut Hub<ChaCha20Rng>,
    coming: &mut VecDeque<(Moment, Event)>,
    all: &mut Vec<Done>,
) -> Result<bool, Fail> {
    let wanted = octets(alloc, "CLIENT_UNKNOWN")?;
    let mut has_failed = false;
    for _ in 0..coming.len() {
        let Some((at, event)) = coming.pop_front() else {
            break;
        };
        mark(alloc, BEGIN);
        let step = hub.step(alloc, at, event);
        mark(alloc, END);
        if push_step(all, step, &wanted)? {
            has_failed = true;
        }
    }
    Ok(has_failed)
}

/// Takes the steps of `STEPS` with a new hub. Returns whether memory ran out.
fn step_through(alloc: Global, all: &mut Vec<Done>) -> Result<bool, Fail> {
    let mut coming = VecDeque::new(alloc);
    push_all(alloc, &mut coming, STEPS)?;
    let kdc = opened(alloc, (0, 0), 0)?;
    let mut hub = Hub::new(alloc, kdc, ChaCha20Rng::from_seed([0; 32]), true);
    steps(alloc, &mut hub, &mut coming, all)
}

#[test]
fn a_fault_names_its_connection_and_what_was_done(rt: HostRuntime) -> Result<(), Fail> {
    let mut all = Vec::new(rt.alloc());
    let has_failed = step_through(rt.alloc(), &mut all)?;
    holds(&rt, is_done(&all, STEPS_DONE, has_failed), "the steps");
    Ok(())
}

#[test]
fn a_step_out_of_memory_ends_only_its_connection(rt: HostRuntime) -> Result<(), Fail> {
    expect(&rt, OUT_OF_MEMORY)
}

//! Requests that are answered by `Kdc::handle`, each by a call of its own, and by a second call if memory ran out in
//! the first one.
use crate::fixtures::{BEGIN, END, mark};
use crate::kdcs::has_come;
use kdc_core::{Event, Kdc, RunFault};
use std::alloc::{AllocError, Global};
use std::test::Fail;

/// Checks whether each event of a run has its outcome.
pub fn are_handled(
    alloc: Global,
    kdc: &mut Kdc,
    events: &[Event],
    words: &[&str],
) -> Result<bool, Fail> {
    for (event, step) in events.chunks(1).zip(words.chunks(4)) {
        let outcome = step.last().ok_or("an outcome")?;
        if !is_handled(alloc, kdc, event, *outcome)? {
            return Ok(false);
        }
    }
    Ok(true)
}

fn is_handled(alloc: Global, kdc: &mut Kdc, event: &[Event], outcome: &str) -> Result<bool, Fail> {
    let reply = handle_event(alloc, kdc, event)?;
    Ok(has_come(&reply, outcome))
}

/// Returns the reply to the only event of a slice, if it has one. What is no request is run.
fn handle_event(
    alloc: Global,
    kdc: &mut Kdc,
    event: &[Event],
) -> Result<Option<Vec<u8>>, AllocError> {
    if matches!(event.first(), Some(Event::Request { .. })) {
        return handled(alloc, kdc, event);
    }
    match kdc.run(alloc, event) {
        Ok(_) => Ok(None),
        Err(RunFault { .. }) => Err(AllocError),
    }
}

/// Answers a request, by a second call if memory ran out in the first one.
fn handled(alloc: Global, kdc: &mut Kdc, event: &[Event]) -> Result<Option<Vec<u8>>, AllocError> {
    mark(alloc, BEGIN);
    let first = handle(alloc, kdc, event);
    mark(alloc, END);
    match first {
        Ok(reply) => Ok(reply),
        Err(AllocError) => handle(alloc, kdc, event),
    }
}

fn handle(alloc: Global, kdc: &mut Kdc, event: &[Event]) -> Result<Option<Vec<u8>>, AllocError> {
    let Some(
        Event::Request {
            at,
            random,
            room,
            request,
        },
    ) = event.first()
    else {
        return Ok(None);
    };
    kdc.handle(alloc, *at, random, *room, request.as_slice())
}

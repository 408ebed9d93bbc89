//! Tests of cutting a stream into messages (`framing`).
use crate::fixtures::{BEGIN, END, JUDGED, holds, mark};
use framing::{FrameFault, Splitter, frame, prefix};
use std::alloc::{AllocError, Global};

/// A piece of a stream, the messages that it completes, and what comes after them.
type Piece = (
    &'static [u8],
    &'static [&'static [u8]],
    Result<(), FrameFault>,
);

const TOO_LONG: Result<(), FrameFault> = Err(FrameFault::TooLong);

const HIGH_BIT: Result<(), FrameFault> = Err(FrameFault::HighBit);

/// Streams, each with the maximum length of its messages.
const STREAMS: &[(u32, &[Piece])] = &[
    // A message byte by byte.
    (
        65_535,
        &[
            (&[0], &[], Ok(())),
            (&[0], &[], Ok(())),
            (&[0], &[], Ok(())),
            (&[1], &[], Ok(())),
            (&[0x6a], &[&[0x6a]], Ok(())),
        ],
    ),
    // Messages in order.
    (
        2,
        &[
            (
                &[0, 0, 0, 2, 0x6a, 0x6b, 0, 0, 0, 0, 0, 0, 0],
                &[&[0x6a, 0x6b], &[]],
                Ok(()),
            ),
            (&[1, 0x6c], &[&[0x6c]], Ok(())),
        ],
    ),
    // A bad length ends the stream.
    (
        65_535,
        &[
            (&[0, 1, 0, 0], &[], TOO_LONG),
            (&[0, 0, 0, 0], &[], TOO_LONG),
        ],
    ),
    (
        65_535,
        &[
            (&[0x80, 0, 0, 0], &[], HIGH_BIT),
            (&[0, 0, 0, 0], &[], HIGH_BIT),
        ],
    ),
    (
        65_535,
        &[
            (&[0xff, 0xff, 0xff, 0xff], &[], HIGH_BIT),
            (&[0, 0, 0, 0], &[], HIGH_BIT),
        ],
    ),
];

/// Checks whether this message is next.
fn hands_out(alloc: Global, splitter: &mut Splitter, message: &[u8]) -> bool {
    matches!(&splitter.next(alloc), Ok(Some(next)) if next.as_slice() == message)
}

/// Checks whether no message is next, or this fault.
fn ends(alloc: Global, splitter: &mut Splitter, end: Result<(), FrameFault>) -> bool {
    match splitter.next(alloc) {
        Ok(None) => end.is_ok(),
        Ok(Some(_)) => false,
        Err(fault) => end == Err(fault),
    }
}

fn cuts(alloc: Global, splitter: &mut Splitter, piece: &Piece) -> bool {
    let (octets, messages, end) = piece;
    if splitter.feed(octets).is_err() {
        return false;
    }
    for message in *messages {
        if !hands_out(alloc, splitter, message) {
            return false;
        }
    }
    ends(alloc, splitter, *end)
}

fn is_cut(alloc: Global, greatest: u32, pieces: &[Piece]) -> bool {
    let mut splitter = Splitter::new(alloc, greatest);
    for piece in pieces {
        if !cuts(alloc, &mut splitter, piece) {
            return false;
        }
    }
    true
}

#[test]
fn a_stream_is_cut_into_messages(rt: HostRuntime) {
    for (greatest, pieces) in STREAMS {
        holds(&rt, is_cut(rt.alloc(), *greatest, pieces), "a stream");
    }
}

/// Checks whether faults have their texts.
fn are_texts(alloc: Global) -> Result<bool, AllocError> {
    let texts = format!(in alloc; "{}; {}", FrameFault::TooLong, FrameFault::HighBit)?;
    Ok(
        texts.as_str()
            == "a message is longer than the maximum; the first bit of a message's length is set",
    )
}

#[test]
fn each_fault_has_its_text(rt: HostRuntime) {
    holds(&rt, are_texts(rt.alloc()) == Ok(true), "the texts");
}

/// Frames a message, a second time if memory runs out.
fn framed(alloc: Global) -> Result<Vec<u8>, AllocError> {
    mark(alloc, BEGIN);
    let found = frame(alloc, &[0x6a]);
    mark(alloc, END);
    match found {
        Ok(octets) => Ok(octets),
        Err(AllocError) => frame(alloc, &[0x6a]),
    }
}

/// Feeds bytes, a second time if memory runs out.
fn feeds_again(alloc: Global, splitter: &mut Splitter, octets: &[u8]) -> bool {
    mark(alloc, BEGIN);
    let found = splitter.feed(octets);
    mark(alloc, END);
    found.is_ok() || splitter.feed(octets).is_ok()
}

/// Checks whether the message is next, the second time if memory runs out.
fn hands_out_again(alloc: Global, splitter: &mut Splitter) -> bool {
    mark(alloc, BEGIN);
    let found = splitter.next(alloc);
    mark(alloc, END);
    match found {
        Ok(Some(next)) => next.as_slice() == [0x6au8].as_slice(),
        Err(FrameFault::Memory) => hands_out(alloc, splitter, &[0x6a]),
        _ => false,
    }
}

/// Frames a message, and cuts the stream into it and nothing more. Each call that runs out of memory is made again.
fn is_cut_again(alloc: Global) -> Result<bool, AllocError> {
    let octets = framed(alloc)?;
    let mut splitter = Splitter::new(alloc, 65_535);
    let is_fed = feeds_again(alloc, &mut splitter, &octets);
    let is_framed = octets.as_slice() == [0u8, 0, 0, 1, 0x6a].as_slice();
    Ok(
        is_framed
            && is_fed
            && hands_out_again(alloc, &mut splitter)
            && ends(alloc, &mut splitter, Ok(())),
    )
}

#[test]
fn a_call_out_of_memory_fails_and_the_next_succeeds(rt: HostRuntime) {
    holds(&rt, is_cut_again(rt.alloc()) == Ok(true), "a message");
    mark(rt.alloc(), JUDGED);
    holds(&rt, prefix(0x0102_0304) == [1, 2, 3, 4], "a length");
}

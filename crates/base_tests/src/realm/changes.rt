//! Tests of changes of a database (`principals`).
use crate::expect::{judged, marked, same};
use crate::realm::fixtures::{Checks, LONGEST, Seen, Step, TOO_LONG, change, check, seen};
use principals::{ChangeFault, Database};
use std::alloc::Global;
use std::process::Abort;

/// A change of the principal with these components, its outcome, and the number of rows and the row of `u` afterwards.
pub type Case = (
    Step,
    &'static [&'static [u8]],
    Result<(), ChangeFault>,
    usize,
    Seen,
);

const U: &[u8] = b"u";

const TGS: &[&[u8]] = &[b"krbtgt", b"A.B"];

/// A new row.
const NEW: Seen = Some((1, 1, false));

const BAD: Result<(), ChangeFault> = Err(ChangeFault::BadName);

/// Changes of a first database, one after the other. Invalid names have too few or too many components, or one with too
/// few or too many bytes.
const CASES: &[Case] = &[
    (Step::Add, &[], BAD, 1, None),
    (Step::Add, &[b""], BAD, 1, None),
    (Step::Add, &[U, b""], BAD, 1, None),
    (Step::Add, &[TOO_LONG], BAD, 1, None),
    (Step::Add, &[U; 17], BAD, 1, None),
    (Step::Add, &[LONGEST], Ok(()), 2, None),
    (Step::Add, &[LONGEST; 16], Ok(()), 3, None),
    // A name is added once.
    (Step::Add, &[U], Ok(()), 4, NEW),
    (Step::Add, &[U], Err(ChangeFault::Exists), 4, NEW),
    (Step::Add, TGS, Err(ChangeFault::Exists), 4, NEW),
    // Protected rows and keys stay.
    (Step::Remove, TGS, Err(ChangeFault::Protected), 4, NEW),
    (
        Step::DropKeys(1),
        &[U],
        Err(ChangeFault::CurrentKeys),
        4,
        NEW,
    ),
    (Step::DropKeys(7), &[U], Err(ChangeFault::Absent), 4, NEW),
    // Keys come and go.
    (Step::NewKeys, &[U], Ok(()), 4, Some((2, 2, false))),
    (Step::DropKeys(1), &[U], Ok(()), 4, Some((2, 1, false))),
    // A policy is set, and a row is removed.
    (Step::Disable, &[U], Ok(()), 4, Some((2, 1, true))),
    (Step::Remove, &[U], Ok(()), 3, None),
];

/// Makes these changes. One that runs out of memory changes nothing, and is made again.
pub fn are_changed(rt: &impl Abort, alloc: Global, database: &mut Database, cases: &[Case]) {
    for (place, (step, components, wanted, rows, wanted_row)) in cases.iter().enumerate() {
        let before = (database.len(), seen(alloc, database, &[U]));
        let mut found = marked(alloc, || change(alloc, database, *components, *step));
        if found == Err(ChangeFault::Memory) {
            let left = (database.len(), seen(alloc, database, &[U]));
            same(rt, &place, &left, &before);
            found = change(alloc, database, *components, *step);
        }
        let after = (found, database.len(), seen(alloc, database, &[U]));
        same(rt, &place, &after, &(*wanted, *rows, Ok(*wanted_row)));
        judged(alloc);
    }
}

#[test]
fn each_change_is_made_or_refused(rt: HostRuntime) {
    check(&rt, rt.alloc(), &Checks::Changes(CASES));
}

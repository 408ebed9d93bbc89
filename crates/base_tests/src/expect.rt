//! Assertions of tests, and bytes in hexadecimal digits. A call of one of these takes about a quarter of the time to
//! prove that an `assert!` takes.
use std::alloc::Global;
use std::fmt::Debug;
use std::process::Abort;

// The marks that `tests/crates/allocations.py` reads. It refuses each allocation between `BEGIN` and `END`, one at a
// time. After a refusal, the test runs on to `JUDGED`.

const BEGIN: usize = 1 << 62;

const END: usize = 1 << 61;

const JUDGED: usize = 1 << 60;

/// Asks for as many bytes as no system has. The script takes the request as a mark; without it, nothing happens.
fn mark(alloc: Global, mark: usize) {
    let _ = Vec::<u8>::with_capacity(alloc, mark);
}

/// Makes this call between the marks, so the script refuses each of its allocations.
pub fn marked<T, F: FnOnce() -> T>(alloc: Global, call: F) -> T
    requires { F.IsAlwaysCallable call }
{
    mark(alloc, BEGIN);
    let found = call();
    mark(alloc, END);
    found
}

/// Makes this call between the marks, and a second time if it returned `memory`, the error that memory ran out.
pub fn at_last<T: Drop, E: Drop + PartialEq, F: FnMut() -> Result<T, E>>(
    alloc: Global,
    memory: &E,
    mut call: F,
) -> Result<T, E>
    requires { F.IsAlwaysCallable call }
{
    mark(alloc, BEGIN);
    let found = call();
    mark(alloc, END);
    match &found {
        Err(fault) if *fault == *memory => call(),
        _ => found,
    }
}

/// Marks that all was asserted that has to hold after a refusal.
pub fn judged(alloc: Global) {
    mark(alloc, JUDGED);
}

/// Asserts that this holds.
pub fn holds(rt: &impl Abort, holds: bool, what: &str) {
    assert!(rt; holds, "{what}");
}

/// Asserts that the expected value was found for this input.
pub fn same<T: PartialEq + Debug>(rt: &impl Abort, given: &impl Debug, found: &T, wanted: &T) {
    assert_eq!(rt; *found, *wanted, "of {given:?}");
}

/// Asserts that `{:?}` prints the value as this text, so one text compares each field.
pub fn shows<T: Debug + Drop>(rt: &impl Abort, alloc: Global, found: T, text: &str) {
    match format!(in alloc; "{found:?}") {
        Ok(printed) => same(rt, &"what is printed", &printed.as_str(), &text),
        Err(fault) => panic!(rt; "{fault:?}"),
    }
}

/// Asserts that a call succeeded with the expected value. Its error need not be one that can be compared.
pub fn gives<T: PartialEq + Debug + Drop, E: Debug + Drop>(
    rt: &impl Abort,
    given: &impl Debug,
    found: Result<T, E>,
    wanted: &T,
) {
    match found {
        Ok(found) => same(rt, given, &found, wanted),
        Err(fault) => panic!(rt; "{fault:?}"),
    }
}

/// Asserts that these bytes are written.
pub fn written<E: Debug + Drop>(rt: &impl Abort, found: Result<Vec<u8>, E>, wanted: &[u8]) {
    match found {
        Ok(found) => same(rt, &"what is written", &found.as_slice(), &wanted),
        Err(fault) => panic!(rt; "{fault:?}"),
    }
}

/// Returns the bytes of these digits, or no bytes if the digits are invalid. Tries again if memory ran out.
pub fn bytes(alloc: Global, digits: &str) -> Vec<u8> {
    match hex::decode(alloc, digits) {
        Ok(bytes) => bytes,
        Err(_) => hex::decode(alloc, digits).unwrap_or(Vec::new(alloc)),
    }
}

/// Checks whether these are the bytes of the digits.
pub fn are(alloc: Global, octets: &[u8], digits: &str) -> bool {
    octets == bytes(alloc, digits).as_slice()
}

//! Tests of the text of a database (`principals_text`).
use crate::expect::{at_last, judged, same};
use principals::Database;
use principals_text::ReadError;
use std::alloc::{AllocError, Global};

const VERSION_1: &str = "{\"principals\":{\"krbtgt/A.B\":{\"disabled\":false,\"expires\":null,\
    \"forwardable\":true,\"greatest_life\":4294967295,\"greatest_renewable\":4294967295,\
    \"keys\":[{\"keys\":[{\"etype\":17,\"key\":\"000102030405060708090a0b0c0d0e0f\"}],\"version\":1}],\
    \"ok_as_delegate\":false,\"password_expires\":null,\"postdate\":false,\"preauth\":true,\
    \"proxiable\":true}},\"realm\":\"A.B\",\"version\":1}";

const VERSION_2: &str = "{\"principals\":{\"krbtgt/A.B\":{\"disabled\":false,\"expires\":null,\
    \"forwardable\":true,\"greatest_life\":4294967295,\"greatest_renewable\":4294967295,\
    \"keys\":[{\"keys\":[{\"etype\":17,\"key\":\"000102030405060708090a0b0c0d0e0f\"}],\"version\":1}],\
    \"ok_as_delegate\":false,\"password_expires\":null,\"postdate\":false,\"preauth\":true,\
    \"proxiable\":true,\"revoked_before\":null}},\"realm\":\"A.B\",\"version\":2}";

const VERSION_3: &str = "{\"principals\":{\"krbtgt/A.B\":{\"disabled\":false,\"expires\":null,\
    \"forwardable\":true,\"greatest_life\":4294967295,\"greatest_renewable\":4294967295,\
    \"keys\":[{\"keys\":[{\"etype\":17,\"key\":\"000102030405060708090a0b0c0d0e0f\"}],\"version\":1}],\
    \"ok_as_delegate\":false,\"password_expires\":null,\"postdate\":false,\"preauth\":true,\
    \"proxiable\":true,\"revoked_before\":null,\"service\":true}},\"realm\":\"A.B\",\"version\":3}";

/// The text in the newest version, which each of them becomes, and its end.
const NEWEST: &str = VERSION_3;

const END_OF_NEWEST: &str = "\"version\":3}";

/// Whether the text of a database, and of its copy, are as expected.
type Read = Result<(bool, bool), ReadError>;

/// The keys in it, and the versions with these keys.
const KEYS: &str = "[{\"etype\":17,\"key\":\"000102030405060708090a0b0c0d0e0f\"}]";

const VERSIONS: &str =
    "[{\"keys\":[{\"etype\":17,\"key\":\"000102030405060708090a0b0c0d0e0f\"}],\"version\":1}]";

/// The end of the versions, with version 1 again, or with a later version.
const AND_VERSION_1: &str =
    "1},{\"keys\":[{\"etype\":17,\"key\":\"000102030405060708090a0b0c0d0e0f\"}],\"version\":1}],";

const AND_VERSION_2: &str =
    "1},{\"keys\":[{\"etype\":17,\"key\":\"000102030405060708090a0b0c0d0e0f\"}],\"version\":2}],";

/// A part of `NEWEST`, what replaces it, and how the text is then read. If an object has a member twice, the last
/// one counts.
const CHANGED: &[(&str, &str, Read)] = &[
    (END_OF_NEWEST, "\"version\":4}", Err(ReadError::BadVersion)),
    (
        END_OF_NEWEST,
        "\"version\":3.0}",
        Err(ReadError::BadVersion),
    ),
    (",\"version\":3}", "}", Err(ReadError::BadVersion)),
    (END_OF_NEWEST, "\"version\":2}", Err(ReadError::BadRow)),
    (END_OF_NEWEST, "\"version\":1}", Err(ReadError::BadRow)),
    (",\"service\":true", "", Err(ReadError::BadRow)),
    (
        "\"service\":true",
        "\"service\":null",
        Err(ReadError::BadRow),
    ),
    ("krbtgt/A.B", "krbtgt/A.C", Err(ReadError::NoTicketGranter)),
    ("krbtgt/A.B", "krbtgt/", Err(ReadError::BadRow)),
    ("\"A.B\"", "\"A/B\"", Err(ReadError::BadRow)),
    ("null", "253402300800", Err(ReadError::BadRow)),
    ("4294967295", "4294967296", Err(ReadError::BadRow)),
    ("\"version\":1", "\"version\":0", Err(ReadError::BadRow)),
    ("\"etype\":17", "\"etype\":18", Err(ReadError::BadRow)),
    ("0f\"", "0g\"", Err(ReadError::BadRow)),
    ("true,", "true,\"a\":1,", Err(ReadError::BadRow)),
    ("\"preauth\":true,", "", Err(ReadError::BadRow)),
    (
        "\"disabled\":false",
        "\"disabled\":0",
        Err(ReadError::BadRow),
    ),
    ("\"realm\":\"A.B\",", "", Err(ReadError::BadRow)),
    ("\"realm\":\"A.B\"", "\"realm\":1", Err(ReadError::BadRow)),
    (KEYS, "[]", Err(ReadError::BadRow)),
    (VERSIONS, "[]", Err(ReadError::BadRow)),
    ("1}],", AND_VERSION_1, Err(ReadError::BadRow)),
    ("1}],", AND_VERSION_2, Err(ReadError::BadRow)),
    (
        "\"disabled\":false",
        "\"disabled\":false,\"disabled\":0",
        Err(ReadError::BadRow),
    ),
    (
        "\"disabled\":false",
        "\"disabled\":0,\"disabled\":false",
        Ok((true, true)),
    ),
    (
        "{\"principals\"",
        "[{\"principals\"",
        Err(ReadError::NotJson),
    ),
];

/// Returns whether the database of the text is written as this text, and whether its copy is.
fn read_as(alloc: Global, text: &str, wanted: &str) -> Read {
    let database = principals_text::read(alloc, text)?;
    are_written(alloc, &database, wanted).map_err(ReadError::from)
}

fn are_written(
    alloc: Global,
    database: &Database,
    wanted: &str,
) -> Result<(bool, bool), AllocError> {
    let is_that = is_written(alloc, database, wanted)?;
    Ok((is_that, is_written(alloc, &database.copy(alloc)?, wanted)?))
}

/// Checks whether the database has one row and is written as this text.
fn is_written(alloc: Global, database: &Database, wanted: &str) -> Result<bool, AllocError> {
    Ok(database.len() == 1 && principals_text::write(alloc, database)?.as_str() == wanted)
}

/// Reads `NEWEST` with a part of it replaced.
fn read_replaced(alloc: Global, old: &str, new: &str) -> Read {
    let text = NEWEST.replace(alloc, old, new)?;
    read_as(alloc, text.as_str(), NEWEST)
}

/// Checks whether the text of a principal that is no service is written as it is read.
fn is_no_service_kept(alloc: Global) -> Read {
    let text = NEWEST.replace(alloc, "\"service\":true", "\"service\":false")?;
    read_as(alloc, text.as_str(), text.as_str())
}

#[test]
fn a_text_is_read_and_written_in_the_newest_version(rt: HostRuntime) {
    let alloc = rt.alloc();
    for (text, wanted) in [
        (VERSION_1, Ok((true, true))),
        (VERSION_2, Ok((true, true))),
        (VERSION_3, Ok((true, true))),
        ("[]", Err(ReadError::NotJson)),
    ] {
        let found = at_last(alloc, &ReadError::Memory, || read_as(alloc, text, NEWEST));
        same(&rt, &text, &found, &wanted);
        judged(alloc);
    }
}

#[test]
fn a_changed_text_is_refused_by_its_first_fault(rt: HostRuntime) {
    let alloc = rt.alloc();
    for (old, new, wanted) in CHANGED {
        same(&rt, &(old, new), &read_replaced(alloc, *old, *new), wanted);
    }
    let deep = read_with_realm(alloc, "", '[', 10_000);
    same(&rt, &"a deep text", &deep, &Err(ReadError::NotJson));
    let long = read_with_realm(alloc, "\"", 'x', 1_000_000);
    same(&rt, &"a long text", &long, &Err(ReadError::BadRow));
}

#[test]
fn a_principal_that_is_no_service_is_kept(rt: HostRuntime) {
    let found = is_no_service_kept(rt.alloc());
    same(&rt, &"no service", &found, &Ok((true, true)));
}

// No proper prefix is JSON.
#[test]
fn a_text_that_was_cut_is_refused(rt: HostRuntime) {
    let alloc = rt.alloc();
    for end in 0..NEWEST.len() {
        if let Some(front) = NEWEST.get(..end) {
            let found = read_as(alloc, front, "");
            same(&rt, &end, &found, &Err(ReadError::NotJson));
        }
    }
}

/// Reads `NEWEST` with this character this many times as its realm, between these quotes.
fn read_with_realm(alloc: Global, quote: &str, fill: char, count: usize) -> Read {
    let realm = filled(alloc, quote, fill, count)?;
    read_replaced(alloc, "\"A.B\"", realm.as_str())
}

fn filled(alloc: Global, quote: &str, fill: char, count: usize) -> Result<String, AllocError> {
    let mut text = String::new(alloc);
    text.push_str(quote)?;
    for _ in 0..count {
        text.push(fill)?;
    }
    text.push_str(quote)?;
    Ok(text)
}

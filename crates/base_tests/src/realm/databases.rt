//! Tests of databases and the order of names in them (`principals`).
use crate::expect::{at_last, bytes, judged, same, shows};
use crate::realm::fixtures::{Checks, LONGEST, Step, TOO_LONG, change, check, first, seen};
use krb_elements::read;
use krb_fields::{Name, NameFault, NameRef, tgs_name};
use principals::Database;
use std::alloc::Global;
use std::process::Abort;

/// Places, names, and whether a name is found in the database and stands at this place. They have the order of their
/// components.
const PLACES: &[(usize, &str, (bool, bool))] = &[
    (0, "a", (true, true)),
    (1, "b", (true, true)),
    (2, "h", (true, true)),
    (3, "krbtgt/A.B", (true, true)),
    (4, "u", (true, true)),
    (3, "krbtgt", (false, false)),
    (5, "u", (true, false)),
];

/// Checks a first database of `A.B`, which grants tickets, and adds four principals, in another order than that of
/// their names.
pub fn is_first(rt: &impl Abort, alloc: Global, database: &mut Database) {
    let tgs = seen(alloc, database, &[b"krbtgt", b"A.B"]);
    same(
        rt,
        &"a first database",
        &(database.realm(), database.len(), tgs),
        &(b"A.B".as_slice(), 1, Ok(Some((1, 1, false)))),
    );
    for component in [b"u", b"h", b"b", b"a"] {
        let added = change(alloc, database, &[component], Step::Add);
        same(rt, &component, &added, &Ok(()));
    }
    same(rt, &"the rows", &database.len(), &5);
    for (place, text, wanted) in PLACES {
        same(
            rt,
            text,
            &finds_name(alloc, database, *place, *text),
            &Ok(*wanted),
        );
    }
    // the PrincipalNames `u` and `v`, of name-type 1
    let u = has_ref(database, &bytes(alloc, "300ca003020101a10530031b0175"));
    let v = has_ref(database, &bytes(alloc, "300ca003020101a10530031b0176"));
    same(rt, &"in place", &(u, v), &(Some(true), Some(false)));
}

/// Checks whether the name is found, and whether it is at this place.
fn finds_name(
    alloc: Global,
    database: &Database,
    place: usize,
    text: &str,
) -> Result<(bool, bool), NameFault> {
    let name = Name::from_text(alloc, text)?;
    let is_there = match database.at(place) {
        Some((held, _)) => held.is_same(&name),
        None => false,
    };
    Ok((database.get(&name).is_some(), is_there))
}

/// Checks whether the database has the name that these bytes encode.
fn has_ref(database: &Database, octets: &[u8]) -> Option<bool> {
    let name: NameRef<'_> = read(octets).ok()?;
    Some(database.get_ref(&name).is_some())
}

/// Returns the number of rows of a first database of this realm.
fn rows(alloc: Global, realm: &[u8]) -> Result<usize, NameFault> {
    Ok(first(alloc, realm)?.len())
}

#[test]
fn a_realm_has_1_to_255_bytes(rt: HostRuntime) {
    let alloc = rt.alloc();
    for (realm, wanted) in [
        (b"A.B".as_slice(), Ok(1)),
        (LONGEST, Ok(1)),
        (b"", Err(NameFault::BadName)),
        (TOO_LONG, Err(NameFault::BadName)),
    ] {
        let found = at_last(alloc, &NameFault::Memory, || rows(alloc, realm));
        same(&rt, &realm, &found, &wanted);
        judged(alloc);
    }
}

#[test]
fn a_first_database_grants_tickets(rt: HostRuntime) {
    const TGS: &str = "\
        Ok(Name { name_type: 2, components: Seq { items: [KerberosString { bytes: [107, 114, 98, 116, 103, 116] }, \
        KerberosString { bytes: [65, 46, 66] }] } })";
    shows(&rt, rt.alloc(), tgs_name(rt.alloc(), b"A.B"), TGS);
    check(&rt, rt.alloc(), &Checks::First);
}

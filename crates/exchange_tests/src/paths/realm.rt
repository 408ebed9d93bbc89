//! The KDC of the tests.
use crate::asking::{HOST, Parts, REALM, TGS, USER};
use crate::fixtures::counted_key;
use enctypes::{Etype, Key};
use kdc_core::{Kdc, Opening};
use krb_fields::Name;
use principal_rows::{KeyList, Limits, Policy};
use principals::{Change, Database, RowChange};
use std::alloc::Global;
use std::test::Fail;

/// The encryption types of a realm's keys. Each principal has one key.
#[derive(Clone, Copy)]
pub struct Types {
    /// The type of `u` and `krbtgt/A.B`, and so of the keys of replies.
    pub reply: Etype,
    /// The type of `h`.
    pub service: Etype,
}

impl Types {
    /// Returns one type for all keys.
    pub fn alike(etype: Etype) -> Types {
        Types {
            reply: etype,
            service: etype,
        }
    }
}

// The bytes from which those of keys count up.

pub const USER_FIRST: u8 = 64;

const TGS_FIRST: u8 = 128;

const HOST_FIRST: u8 = 160;

fn apply(
    alloc: Global,
    database: &mut Database,
    parts: Parts,
    what: RowChange,
) -> Result<(), Fail> {
    let change = Change {
        name: Name::new(alloc, parts.0, parts.1)?,
        what,
    };
    match database.apply(alloc, &change) {
        Ok(()) => Ok(()),
        Err(_) => Err(Fail::from("no change")),
    }
}

fn keys(alloc: Global, etype: Etype, first: u8) -> Result<KeyList, Fail> {
    match KeyList::new(alloc, &[counted_key(etype, first)]) {
        Ok(keys) => Ok(keys),
        Err(_) => Err(Fail::from("no keys")),
    }
}

/// Adds `u` and `h`, and allows postdated tickets of all principals and for them.
fn add_all(alloc: Global, database: &mut Database, types: Types) -> Result<(), Fail> {
    let rows = [
        (USER, types.reply, USER_FIRST),
        (HOST, types.service, HOST_FIRST),
    ];
    for (parts, etype, first) in rows {
        apply(
            alloc,
            database,
            parts,
            RowChange::Add(keys(alloc, etype, first)?),
        )?;
    }
    for parts in [USER, HOST, TGS] {
        let policy = Policy {
            postdate: true,
            ..Policy::default()
        };
        apply(alloc, database, parts, RowChange::SetPolicy(policy))?;
    }
    Ok(())
}

fn database(alloc: Global, types: Types) -> Result<Database, Fail> {
    let mut database = Database::first(alloc, REALM, keys(alloc, types.reply, TGS_FIRST)?)?;
    match add_all(alloc, &mut database, types) {
        Ok(()) => Ok(database),
        Err(fail) => Err(fail),
    }
}

/// Returns a KDC for `A.B`.
pub fn kdc(alloc: Global, types: Types, limits: Limits) -> Result<Kdc, Fail> {
    let database = database(alloc, types)?;
    Ok(Kdc::open(alloc, database, limits, Opening::First)?)
}

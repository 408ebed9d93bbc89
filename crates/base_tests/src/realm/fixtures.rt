//! Times, names, keys and databases that several modules use. They have no contracts, so that tests with them are quick
//! to prove.
use crate::realm::changes::{Case, are_changed};
use crate::realm::databases::is_first;
use enctypes::{Etype, Key};
use krb_fields::{Moment, Name, NameFault};
use principal_rows::{KeyList, Policy};
use principals::{Change, ChangeFault, Database, RowChange};
use std::alloc::{AllocError, Global};
use std::process::Abort;

/// 2024-01-01 00:00:00.
pub const T: i64 = 1_704_067_200;

/// Returns the moment this many seconds after T.
pub fn at(later: u32) -> Moment {
    Moment {
        sec: T + i64::from(later),
        usec: 0,
    }
}

/// The longest realm and component of a name.
pub const LONGEST: &[u8] = &[b'x'; 255];

pub const TOO_LONG: &[u8] = &[b'x'; 256];

pub fn keys(alloc: Global) -> Result<KeyList, AllocError> {
    let key = Key::from_random(Etype::Aes256CtsHmacSha1_96, &[7; 32]);
    KeyList::new(alloc, &[key]).map_err(|_| AllocError)
}

/// Returns a first database of this realm.
pub fn first(alloc: Global, realm: &[u8]) -> Result<Database, NameFault> {
    Database::first(alloc, realm, keys(alloc)?)
}

/// Returns a database of the realm `A.B` with only the row of its ticket-granting service.
pub fn database(alloc: Global) -> Result<Database, NameFault> {
    first(alloc, b"A.B")
}

/// A change of the row of a principal.
#[derive(Clone, Copy)]
pub enum Step {
    Add,
    Remove,
    NewKeys,
    DropKeys(u32),
    /// The default policy, but disabled.
    Disable,
}

fn row_change(alloc: Global, step: Step) -> Result<RowChange, AllocError> {
    Ok(match step {
        Step::Add => RowChange::Add(keys(alloc)?),
        Step::Remove => RowChange::Remove,
        Step::NewKeys => RowChange::NewKeys(keys(alloc)?),
        Step::DropKeys(version) => RowChange::DropKeys(version),
        Step::Disable => RowChange::SetPolicy(Policy {
            disabled: true,
            ..Policy::default()
        }),
    })
}

/// Changes the row of the principal with these components.
pub fn change(
    alloc: Global,
    database: &mut Database,
    components: &[&[u8]],
    step: Step,
) -> Result<(), ChangeFault> {
    let name = Name::new(alloc, 1, components)?;
    let what = row_change(alloc, step)?;
    database.apply(alloc, &Change { name, what })
}

/// The current key version of a row, the number of its versions, and whether it is disabled.
pub type Seen = Option<(u32, usize, bool)>;

/// Returns what is seen of the row of the principal with these components, if there is one.
pub fn seen(alloc: Global, database: &Database, components: &[&[u8]]) -> Result<Seen, AllocError> {
    let name = Name::new(alloc, 1, components)?;
    Ok(match database.get(&name) {
        Some(row) => {
            let versions = row.versions.as_slice().len();
            Some((row.versions.current().number, versions, row.policy.disabled))
        }
        None => None,
    })
}

/// What is checked of a first database.
pub enum Checks {
    First,
    Changes(&'static [Case]),
}

/// Makes a first database, and checks it. Only this function drops a database: each place with a drop takes long to
/// prove.
pub fn check(rt: &impl Abort, alloc: Global, checks: &Checks) {
    match database(alloc) {
        Ok(mut database) => match checks {
            Checks::First => is_first(rt, alloc, &mut database),
            Checks::Changes(cases) => are_changed(rt, alloc, &mut database, *cases),
        },
        Err(fault) => panic!(rt; "{fault:?}"),
    }
}

//! Rows: what a database holds of one principal.
ghost use Rattle.std.specs.Prelude.{◌≡◌, ◌≢◌, ◌<◌, ◌∷◌, [], IfOk, IfSome, IsTrue, OnOk, OnErr, is_some, option_copied};
ghost use Rattle.principal_rows.specs.KeyList.{IsKeyList};
ghost use Rattle.principal_rows.specs.Versions.{IsVersions, are_versions};

use crate::{KeyList, Policy};
use std::alloc::{AllocError, Global};
use std::marker::Model;

/// One version of a principal's keys.
#[derive(Drop)]
pub struct KeyVersion {
    /// The key version (kvno), starting at 1.
    pub number: u32,
    /// The keys of this version, in order of preference.
    pub keys: KeyList,
}

/// The versions of a principal's keys, the current one first: at least one, with descending numbers.
#[derive(Drop)]
pub struct Versions {
    versions: Vec<KeyVersion>,
}

impl Model for Versions {
    ghost use Rattle.std.specs.Prelude.{List};
    ghost use Rattle.principal_rows.specs.declared.row.KeyVersion.{KeyVersion};

    ghost Value = { List KeyVersion };

    ghost use Rattle.principal_rows.specs.Versions.{IsVersions};

    ghost view = { λ a. a.versions.items };

    ghost invariant = { λ a. IsVersions a.versions.items };
}

impl KeyVersion {
    // Returns the version with this number. It looks at the keys, since the invariant of a `KeyList` is known only
    // after that.
    fn new(number: u32, keys: KeyList) -> KeyVersion
        ensures version { result ≡ record { number = number; keys = keys } }
        ensures valid { IsKeyList keys }
    {
        let _keys = keys.keys();
        KeyVersion { number, keys }
    }

    /// Returns a copy.
    pub fn copy(&self, alloc: Global) -> Result<KeyVersion, AllocError>
        ensures { IfOk result (λ version. version ≡ self.now) }
    {
        Ok(KeyVersion {
            number: self.number,
            keys: self.keys.copy(alloc)?,
        })
    }
}

impl Versions {
    ghost use Rattle.principal_rows.specs.Versions.{current, version_of, with_keys, without};

    /// Returns version 1 alone, with these keys.
    pub fn first(alloc: Global, keys: KeyList) -> Result<Versions, AllocError>
        // Promise: new keys become the current version, and a version that is not current can be dropped.
        ensures versions { IfOk result (λ versions. versions ≡ record { number = 1; keys = keys } ∷ []) }
        // Promise, as Versions::as_slice: every row has such ..
        ensures valid { IfOk result IsVersions }
    {
        let mut versions = Vec::new(alloc);
        versions.push(KeyVersion::new(1, keys))?;
        Ok(Versions { versions })
    }

    /// Returns these versions if they are valid: at least one, with positive, descending numbers.
    pub fn new(versions: Vec<KeyVersion>) -> Option<Versions>
        // Promise (some, versions): versions are made exactly from one or more with descending numbers from 1 to
        // 4294967295.
        ensures some { is_some result ≡ are_versions versions.items }
        ensures versions { IfSome result (λ made. made ≡ versions.items) }
        // Promise, as Versions::as_slice: every row has such ..
        ensures valid { IfSome result IsVersions }
    {
        if are_versions(&versions) {
            Some(Versions { versions })
        } else {
            None
        }
    }

    /// Returns the versions, the current one first.
    pub fn as_slice(&self) -> &[KeyVersion]
        // Promise, as Versions::first: new keys become the ..
        ensures versions { result.now ≡ self.now }
        // Promise: every row has such versions.
        ensures valid { IsVersions self.now }
    {
        self.versions.as_slice()
    }

    /// Returns the version whose keys encrypt new tickets.
    pub fn current(&self) -> &KeyVersion
        // Promise, as Versions::first: new keys become the ..
        ensures version { result.now ≡ current self.now }
        // Promise, as Versions::as_slice: every row has such ..
        ensures valid { IsKeyList result.now.keys }
    {
        &self.versions[0]
    }

    /// Returns the version with this number, if it is there.
    pub fn find(&self, number: u32) -> Option<&KeyVersion>
        // Promise, as Versions::first: new keys become the ..
        ensures { option_copied result ≡ version_of self.now number }
    {
        self.versions
            .iter()
            .find(|version| version.number == number)
    }

    /// Makes these keys the current version, with the next number.
    pub fn add(&mut self, keys: KeyList) -> Result<(), AllocError>
        requires { (current self.old).number < 4294967295 }
        // Promise (ok, err), as Versions::first: new keys become the ..
        ensures ok { OnOk result (self.new ≡ with_keys keys self.old) }
        ensures err { OnErr result (self.new ≡ self.old) }
        // Promise, as Versions::as_slice: every row has such ..
        ensures valid { IsVersions self.new }
    {
        let number = self.current().number + 1;
        Ok(self.versions.insert(0, KeyVersion::new(number, keys))?)
    }

    /// Drops the version with this number, which must not be the current one.
    pub fn drop(&mut self, number: u32)
        requires { (current self.old).number ≢ number }
        // Promise, as Versions::first: new keys become the ..
        ensures versions { self.new ≡ without number self.old }
        // Promise, as Versions::as_slice: every row has such ..
        ensures valid { IsVersions self.new }
    {
        self.versions.retain(|version| version.number != number);
    }

    /// Returns a copy.
    pub fn copy(&self, alloc: Global) -> Result<Versions, AllocError>
        // Promise, as Versions::first: new keys become the ..
        ensures versions { IfOk result (λ versions. versions ≡ self.now) }
        // Promise, as Versions::as_slice: every row has such ..
        ensures valid { IfOk result IsVersions }
    {
        let mut versions = Vec::new(alloc);
        for version in &self.versions {
            versions.push(version.copy(alloc)?)?;
        }
        Ok(Versions { versions })
    }
}

// Checks whether there is a version, and the numbers are positive and descending. It looks at each list of keys, since
// the invariant of a `KeyList` is known only after that.
fn are_versions(versions: &[KeyVersion]) -> bool
    ensures value { result ≡ are_versions versions.now }
    ensures valid { IsTrue result → IsVersions versions.now }
{
    let mut rest = versions;
    while let [version, later @ ..] = rest {
        let _keys = version.keys.keys();
        if version.number == 0 {
            return false;
        }
        if let [next, ..] = later {
            if next.number >= version.number {
                return false;
            }
        }
        rest = later;
    }
    !versions.is_empty()
}

/// A principal of the realm.
#[derive(Drop)]
pub struct Row {
    /// Its keys, the current version first.
    pub versions: Versions,
    /// What it is allowed as a client and as a service.
    pub policy: Policy,
}

impl Row {
    ghost use Rattle.principal_rows.specs.Row.{IsRow, first_row};

    /// Returns the row of a new principal, with these keys as version 1 and the default policy.
    pub fn first(alloc: Global, keys: KeyList) -> Result<Row, AllocError>
        // Promise (row, valid): the row of a new principal has its keys as version 1, and the policy of a new
        // principal; a copy is equal.
        ensures row { IfOk result (λ row. row ≡ first_row keys) }
        ensures valid { IfOk result IsRow }
    {
        Ok(Row {
            versions: Versions::first(alloc, keys)?,
            policy: Policy::default(),
        })
    }

    /// Returns a copy.
    pub fn copy(&self, alloc: Global) -> Result<Row, AllocError>
        // Promise (row, valid), as Row::first: the row of a ..
        ensures row { IfOk result (λ row. row ≡ self.now) }
        ensures valid { IfOk result IsRow }
    {
        Ok(Row {
            versions: self.versions.copy(alloc)?,
            policy: self.policy,
        })
    }
}

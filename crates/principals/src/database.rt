//! Databases.
ghost use Rattle.std.specs.Prelude.{◌≡◌, ◌↔◌, ◌≤◌, length, IfOk, IfSome, IfNone, IsTrue, OnOk, OnErr, IsOkUnless};
ghost use Rattle.std.specs.Prelude.{None, Some, if◌then◌else◌, option_copied, option_map, slice_get};
ghost use Rattle.std.specs.FinMap as map;
ghost use Rattle.rule_lists.specs.Refusals.{first_holding};
ghost use Rattle.krb_fields.specs.NameLimits.{IsComponent, IsWithinLimits};
ghost use Rattle.std.specs.Ordering.{eq_by_cmp};
ghost use Rattle.krb_fields.specs.Name.{Components, name_cmp};
ghost use Rattle.principal_rows.specs.NameMap.{pairs};
ghost use Rattle.principal_rows.specs.Row.{IsRow};
ghost use Rattle.principals.specs.Database.{AreRows, IsDatabase, first_database};
ghost use Rattle.krb_fields.specs.Granting.{tgs_principal};
ghost use Rattle.principals.specs.Change.{refusal, add_rules, changed, row_changed, row_refusal};

use crate::granting::TgsOf;
use crate::split_name::find_row;
use crate::{Change, ChangeFault, RowChange};
use krb_elements::KerberosString;
use krb_fields::{Name, NameFault, NameRef, is_component, tgs_name};
use principal_rows::{Entry, KeyList, NameMap, Policy, Row};
use rule_lists::first_holding;
use std::alloc::{AllocError, Global};
use std::marker::Model;

/// The principals of one realm. The ticket-granting service `krbtgt/REALM` is always among them.
#[derive(Drop)]
pub struct Database {
    realm: KerberosString,
    pub(crate) rows: NameMap<Row>,
}

impl Model for Database {
    ghost use Rattle.principals.specs.Database.{Principals, principals_code, IsDatabase};

    ghost Value = { Principals };

    ghost coded = { principals_code };

    ghost view = { λ a. record { realm = a.realm; rows = a.rows } };

    ghost invariant = { λ a. IsDatabase (record { realm = a.realm; rows = a.rows }) };
}

impl Database {
    /// Returns the database of a new realm, with only its ticket-granting service.
    ///
    /// Fails with `BadName` if the realm does not have 1 to 255 bytes.
    pub fn first(alloc: Global, realm: &[u8], krbtgt_keys: KeyList) -> Result<Database, NameFault>
        // Promise (first, bad_name): a new realm's database has only its ticket-granting service `krbtgt/REALM`; the
        // realm is refused exactly if it doesn't have 1 to 255 bytes.
        ensures first { IfOk result (λ database. database ≡ first_database realm.now krbtgt_keys) }
        ensures bad_name { (result ≡ Err NameFault.BadName) ↔ (¬ IsComponent realm.now) }
    {
        if !is_component(realm) {
            return Err(NameFault::BadName);
        }
        let tgs = tgs_name(alloc, realm)?;
        let mut rows = NameMap::new(alloc);
        rows.put(tgs, Row::first(alloc, krbtgt_keys)?)?;
        Ok(Database {
            realm: KerberosString::from_slice(alloc, realm)?,
            rows,
        })
    }

    /// Returns the database with these rows, if the ticket-granting service is among them.
    pub fn from_rows(realm: KerberosString, rows: NameMap<Row>) -> Option<Database>
        requires realm { IsComponent realm }
        requires names { (name : Components) → IsTrue (map.contains_key rows name) → IsWithinLimits name }
        requires rows { AreRows rows }
        // Promise: rows within the limits are a database exactly if `krbtgt/REALM` is among them.
        ensures { result ≡ (if map.contains_key rows (tgs_principal realm)
            then Some (record { realm = realm; rows = rows }) else None) }
    {
        let tgs = TgsOf {
            realm: realm.as_slice(),
        };
        if rows.get(&tgs).is_none() {
            return None;
        }
        Some(Database { realm, rows })
    }

    /// Returns a copy.
    pub fn copy(&self, alloc: Global) -> Result<Database, AllocError>
        // Promise: a copy of a database is equal.
        ensures { IfOk result (λ database. database ≡ self.now) }
    {
        let entries = copy_entries(alloc, self.rows.entries())?;
        Ok(Database {
            realm: self.realm.copy(alloc)?,
            rows: NameMap::from_entries(entries)?,
        })
    }

    /// Returns the realm's bytes, 1 to 255.
    pub fn realm(&self) -> &[u8]
        // Promise (realm, valid, short): every database has a realm within the limits, names within the limits, rows
        // with keys of their types' lengths, and `krbtgt/REALM`.
        ensures realm { result.now ≡ self.now.realm }
        ensures valid { IsDatabase self.now }
        ensures short { length self.now.realm ≤ 255 }
    {
        self.realm.as_slice()
    }

    /// Returns the row of a principal. Names are compared by their components alone.
    pub fn get(&self, name: &Name) -> Option<&Row>
        // Promise: a row is looked up by the name's components, owned or borrowed.
        ensures row { option_copied result ≡ map.get self.now.rows name.now.components }
        // Promise, as Database::realm: every database has a ..
        ensures valid { IfSome result (λ row. IsRow row.now) }
    {
        self.rows.get(name)
    }

    /// Returns the row of a principal whose name is borrowed, as from a request. It allocates nothing.
    pub fn get_ref(&self, name_ref: &NameRef<'_>) -> Option<&Row>
        // Promise, as Database::get: a row is looked ..
        ensures row { option_copied result ≡ map.get self.now.rows name_ref.now.components }
        // Promise, as Database::realm: every database has a ..
        ensures valid { IfSome result (λ row. IsRow row.now) }
    {
        find_row(&self.rows, name_ref)
    }

    /// Returns the row of the ticket-granting service, without building its name.
    pub fn tgs(&self) -> Option<&Row>
        // Promise, as Database::get: a row is looked ..
        ensures row { option_copied result ≡ map.get self.now.rows (tgs_principal self.now.realm) }
        // Promise, as Database::realm: every database has a ..
        ensures valid { IfSome result (λ row. IsRow row.now) }
    {
        self.rows.get(&TgsOf {
            realm: self.realm.as_slice(),
        })
    }

    /// Returns how many principals there are.
    pub fn len(&self) -> usize
        // Promise: each row has one index, in ascending order of the names.
        ensures { result ≡ map.len self.now.rows }
    {
        self.rows.len()
    }

    /// Returns the name and row at an index, for each index below `len`. Names are in ascending order.
    pub fn at(&self, place: usize) -> Option<(&Name, &Row)>
        // Promise, as Database::len: each row has one ..
        ensures { option_map (λ e. (e.0.now.components, e.1.now)) result ≡ slice_get (map.entries self.now.rows) place }
    {
        self.rows.at(place)
    }

    /// Returns the names with their rows, in ascending order.
    pub fn entries(&self) -> &[Entry<Row>]
        // Promise, as Database::len: each row has one ..
        ensures { pairs result.now ≡ map.entries self.now.rows }
    {
        self.rows.entries()
    }

    /// Makes the change. A refused change leaves the database unchanged.
    pub fn apply(&mut self, alloc: Global, change: &Change) -> Result<(), ChangeFault>
        // Promise (changed, refused, otherwise, err): a change changes the row that it names, or it is refused for the
        // first reason that holds, and the database stays as it was.
        ensures changed { OnOk result (self.new ≡ changed self.old change.now) }
        ensures refused { IfSome (refusal self.old change.now) (λ fault. result ≡ Err fault) }
        ensures otherwise { IfNone (refusal self.old change.now) (IsOkUnless result ChangeFault.Memory) }
        ensures err { OnErr result (self.new ≡ self.old) }
    {
        self.change_row(alloc, &change.name, &change.what)
    }

    /// Changes the row of this name.
    fn change_row(
        &mut self,
        alloc: Global,
        name: &Name,
        what: &RowChange,
    ) -> Result<(), ChangeFault>
        ensures changed { OnOk result (self.new ≡ row_changed self.old name.now.components what.now) }
        ensures refused { IfSome (row_refusal self.old name.now.components what.now) (λ fault. result ≡ Err fault) }
        ensures otherwise { IfNone (row_refusal self.old name.now.components what.now)
            (IsOkUnless result ChangeFault.Memory) }
        ensures err { OnErr result (self.new ≡ self.old) }
    {
        match what {
            RowChange::Add(keys) => self.add(alloc, name, keys),
            RowChange::Remove => self.remove(name),
            RowChange::NewKeys(keys) => self.new_keys(alloc, name, keys),
            RowChange::DropKeys(version) => self.drop_keys(alloc, name, *version),
            RowChange::SetPolicy(policy) => self.set_policy(alloc, name, *policy),
        }
    }

    fn add(&mut self, alloc: Global, name: &Name, keys: &KeyList) -> Result<(), ChangeFault>
        ensures changed { OnOk result (self.new ≡ row_changed self.old name.now.components (RowChange.Add keys.now)) }
        ensures refused { IfSome (row_refusal self.old name.now.components (RowChange.Add keys.now)) (λ fault.
            result ≡ Err fault) }
        ensures otherwise { IfNone (row_refusal self.old name.now.components (RowChange.Add keys.now))
            (IsOkUnless result ChangeFault.Memory) }
        ensures err { OnErr result (self.new ≡ self.old) }
    {
        if let Some(fault) = self.add_refusal(name) {
            return Err(fault);
        }
        let row = Row::first(alloc, keys.copy(alloc)?)?;
        self.rows.put(name.copy(alloc)?, row)?;
        Ok(())
    }

    fn remove(&mut self, name: &Name) -> Result<(), ChangeFault>
        ensures changed { OnOk result (self.new ≡ row_changed self.old name.now.components RowChange.Remove) }
        ensures refused { IfSome (row_refusal self.old name.now.components RowChange.Remove) (λ fault.
            result ≡ Err fault) }
        ensures otherwise { IfNone (row_refusal self.old name.now.components RowChange.Remove) (result ≡ Ok tt) }
        ensures err { OnErr result (self.new ≡ self.old) }
    {
        if is_tgs(name, self.realm.as_slice()) {
            return Err(ChangeFault::Protected);
        }
        if self.rows.get(name).is_none() {
            return Err(ChangeFault::Absent);
        }
        self.rows.remove(name);
        Ok(())
    }

    fn new_keys(&mut self, alloc: Global, name: &Name, keys: &KeyList) -> Result<(), ChangeFault>
        ensures changed { OnOk result
            (self.new ≡ row_changed self.old name.now.components (RowChange.NewKeys keys.now)) }
        ensures refused { IfSome (row_refusal self.old name.now.components (RowChange.NewKeys keys.now)) (λ fault.
            result ≡ Err fault) }
        ensures otherwise { IfNone (row_refusal self.old name.now.components (RowChange.NewKeys keys.now))
            (IsOkUnless result ChangeFault.Memory) }
        ensures err { OnErr result (self.new ≡ self.old) }
    {
        let Some(row) = self.rows.get(name) else {
            return Err(ChangeFault::Absent);
        };
        if row.versions.current().number == u32::MAX {
            return Err(ChangeFault::LastVersion);
        }
        let mut row = row.copy(alloc)?;
        row.versions.add(keys.copy(alloc)?)?;
        self.replace(name, row);
        Ok(())
    }

    fn drop_keys(&mut self, alloc: Global, name: &Name, version: u32) -> Result<(), ChangeFault>
        ensures changed { OnOk result
            (self.new ≡ row_changed self.old name.now.components (RowChange.DropKeys version)) }
        ensures refused { IfSome (row_refusal self.old name.now.components (RowChange.DropKeys version)) (λ fault.
            result ≡ Err fault) }
        ensures otherwise { IfNone (row_refusal self.old name.now.components (RowChange.DropKeys version))
            (IsOkUnless result ChangeFault.Memory) }
        ensures err { OnErr result (self.new ≡ self.old) }
    {
        let Some(row) = self.rows.get(name) else {
            return Err(ChangeFault::Absent);
        };
        if row.versions.find(version).is_none() {
            return Err(ChangeFault::Absent);
        }
        if row.versions.current().number == version {
            return Err(ChangeFault::CurrentKeys);
        }
        let mut row = row.copy(alloc)?;
        row.versions.drop(version);
        self.replace(name, row);
        Ok(())
    }

    fn set_policy(&mut self, alloc: Global, name: &Name, policy: Policy) -> Result<(), ChangeFault>
        ensures changed { OnOk result
            (self.new ≡ row_changed self.old name.now.components (RowChange.SetPolicy policy)) }
        ensures refused { IfSome (row_refusal self.old name.now.components (RowChange.SetPolicy policy)) (λ fault.
            result ≡ Err fault) }
        ensures otherwise { IfNone (row_refusal self.old name.now.components (RowChange.SetPolicy policy))
            (IsOkUnless result ChangeFault.Memory) }
        ensures err { OnErr result (self.new ≡ self.old) }
    {
        let Some(row) = self.rows.get(name) else {
            return Err(ChangeFault::Absent);
        };
        let mut row = row.copy(alloc)?;
        row.policy = policy;
        self.replace(name, row);
        Ok(())
    }

    /// Replaces the row of a name that has one.
    fn replace(&mut self, name: &Name, row: Row)
        requires there { IsTrue (map.contains_key self.old.rows name.now.components) }
        requires valid { IsRow row }
        ensures { self.new ≡ record self.old { rows = map.insert self.old.rows name.now.components row } }
    {
        let mut row = row;
        self.rows.replace(name, &mut row);
    }

    pub(crate) fn add_refusal(&self, name: &Name) -> Option<ChangeFault>
        ensures { result ≡ first_holding (add_rules self.now name.now.components) }
    {
        first_holding(&[
            (!name.is_within_limits(), ChangeFault::BadName),
            (self.get(name).is_some(), ChangeFault::Exists),
        ])
    }
}

fn copy_entries(alloc: Global, entries: &[Entry<Row>]) -> Result<Vec<Entry<Row>>, AllocError>
    ensures { IfOk result (λ copies. copies.items ≡ entries.now) }
{
    let mut copies = Vec::new(alloc);
    for entry in entries {
        copies.push(Entry {
            name: entry.name.copy(alloc)?,
            value: entry.value.copy(alloc)?,
        })?;
    }
    Ok(copies)
}

/// Checks whether the name is that of the realm's ticket-granting service.
fn is_tgs(name: &Name, realm: &[u8]) -> bool
    ensures { result ≡ eq_by_cmp name_cmp name.now.components (tgs_principal realm.now) }
{
    match name.components.as_slice() {
        [service, instance] => {
            service.as_slice() == b"krbtgt".as_slice() && instance.as_slice() == realm
        }
        _ => false,
    }
}

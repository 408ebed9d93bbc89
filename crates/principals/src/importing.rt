//! Principals that are added with versions of their keys, such as those from another realm's database.
ghost use Rattle.std.specs.Prelude.{◌≡◌, Err, IfNone, IfSome, IsOkUnless, OnErr, OnOk};
ghost use Rattle.rule_lists.specs.Refusals.{first_holding};
ghost use Rattle.principal_rows.specs.Policy.{default_policy};
ghost use Rattle.principal_rows.specs.Row.{IsRow};
ghost use Rattle.principals.specs.Change.{add_rules};
ghost use Rattle.principals.specs.Importing.{imported};

use crate::{ChangeFault, Database};
use krb_fields::Name;
use principal_rows::{Policy, Row, Versions};
use std::alloc::Global;

impl Database {
    /// Adds a principal with these versions of its keys and the default policy. If it is refused, the database is
    /// unchanged.
    pub fn import(
        &mut self,
        alloc: Global,
        name: &Name,
        versions: Versions,
    ) -> Result<(), ChangeFault>
        // Promise (imported, refused, otherwise, err): an imported principal is added with its versions of keys and the
        // default policy, or refused for the first reason that holds.
        ensures imported { OnOk result (self.new ≡ imported self.old name.now.components versions) }
        ensures refused { IfSome (first_holding (add_rules self.old name.now.components)) (λ fault. result
            ≡ Err fault) }
        ensures otherwise { IfNone (first_holding (add_rules self.old name.now.components))
            (IsOkUnless result ChangeFault.Memory) }
        ensures err { OnErr result (self.new ≡ self.old) }
    {
        if let Some(fault) = self.add_refusal(name) {
            return Err(fault);
        }
        self.rows.put(name.copy(alloc)?, default_row(versions))?;
        Ok(())
    }
}

/// Returns the row of a principal with these versions, and the default policy.
fn default_row(versions: Versions) -> Row
    ensures row { result ≡ record { versions = versions; policy = default_policy } }
    ensures valid { IsRow result }
{
    // looking at the list makes the invariant of versions known to the proof
    let _versions = versions.as_slice();
    Row {
        versions,
        policy: Policy::default(),
    }
}

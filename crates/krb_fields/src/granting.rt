//! The name of the ticket-granting service of a realm.
ghost use Rattle.std.specs.Prelude.{◌≡◌, IfOk};
ghost use Rattle.krb_fields.specs.Granting.{tgs_name};

use crate::Name;
use crate::numbers::NT_SRV_INST;
use std::alloc::{AllocError, Global};

/// Returns the name of a realm's ticket-granting service, `krbtgt/REALM`, with name-type NT-SRV-INST (RFC 4120 section
/// 7.3).
pub fn tgs_name(alloc: Global, realm: &[u8]) -> Result<Name, AllocError>
    // Promise: a realm's ticket-granting service is `krbtgt/REALM`; the default salt is the realm followed by the
    // name's components.
    ensures { IfOk result (λ name. name ≡ tgs_name realm.now) }
{
    Name::new(alloc, NT_SRV_INST, &[b"krbtgt", realm])
}

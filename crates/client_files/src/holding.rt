//! Credentials of a cache, and whether they can still be used.
ghost use Rattle.std.specs.Prelude.{◌≡◌, IfOk, Some, option_copied};
ghost use Rattle.client_files.specs.Holding.{good_credential, granting_credential, if_good, is_good};

use crate::faults::StepError;
use cred_files::{Cache, CredError, Credential};
use krb_fields::{Moment, Name, TicketFlag, tgs_name};
use std::alloc::Global;

/// Returns the cache's ticket-granting ticket.
pub fn granting_ticket(alloc: Global, cache: &Cache) -> Result<&Credential, StepError>
    // Promise: a cache's ticket-granting ticket is the first for the ticket-granting service of its client's realm
    // with a key of the four types.
    ensures { IfOk result (λ granting. granting_credential cache.now ≡ Some granting.now) }
{
    let service = tgs_name(alloc, cache.principal().realm.as_slice())?;
    match cache.find(&service) {
        Ok(granting) => Ok(granting),
        Err(_) => Err(StepError::Cache(CredError::Absent)),
    }
}

/// Returns the cache's credential for a service, if it has not ended and need not be validated first.
pub fn good_credential<'c>(cache: &'c Cache, service: &Name, at: Moment) -> Option<&'c Credential>
    // Promise: a cached ticket counts as good only before its end and not INVALID.
    ensures { option_copied result ≡ good_credential at.sec cache.now service.now.components }
{
    match cache.find(service) {
        Ok(credential) => if_good(credential, at),
        Err(_) => None,
    }
}

fn if_good(credential: &Credential, at: Moment) -> Option<&Credential>
    ensures { option_copied result ≡ if_good at.sec (Some credential.now) }
{
    if is_good(credential, at) {
        Some(credential)
    } else {
        None
    }
}

fn is_good(credential: &Credential, at: Moment) -> bool
    ensures { result ≡ is_good at.sec credential.now }
{
    at.sec < credential.times.end_time.seconds() && !credential.flags.has(TicketFlag::Invalid)
}

//! How a request was handled.
ghost use Rattle.std.specs.Prelude.{◌≡◌, IfOk, option_copied};
ghost use Rattle.kdc_core.specs.Audit.{audit_if};

use as_exchange::AsOutcome;
use krb_fields::{Name, NameRef};
use std::alloc::{AllocError, Global};
use tgs_exchange::TgsOutcome;

/// A record of how a request was handled, with the names that it gives. Logs are built from it. No reply depends on it.
///
/// `N` is the type of the names that the request gives: borrowed from its bytes ([`NameRef`]), or owned.
#[derive(Drop)]
pub enum AuditRecord<N = Name> {
    /// The bytes encode no request.
    NoRequest,
    /// An AS-REQ. A ticket's flag PRE-AUTHENT says whether the client proved its key.
    As {
        /// The client that the request names, if it names one.
        client: Option<N>,
        /// The service that the request names, if it names one.
        service: Option<N>,
        /// The issued ticket, or why there is none.
        outcome: AsOutcome,
    },
    /// A TGS-REQ.
    Tgs {
        /// The client of the presented ticket, if that could be decrypted.
        client: Option<Name>,
        /// The service that the request names, if it names one.
        service: Option<N>,
        /// The issued ticket, or why there is none; if a stored reply was sent again, what that bears.
        outcome: TgsOutcome,
    },
}

impl AuditRecord<NameRef<'_>> {
    /// Returns a copy with names of its own.
    fn to_owned(&self, alloc: Global) -> Result<AuditRecord, AllocError>
        ensures { IfOk result (λ audit. audit ≡ self.now) }
    {
        match self {
            AuditRecord::NoRequest => Ok(AuditRecord::NoRequest),
            AuditRecord::As {
                client,
                service,
                outcome,
            } => {
                let client = owned_name(alloc, client.as_ref())?;
                let service = owned_name(alloc, service.as_ref())?;
                Ok(AuditRecord::As {
                    client,
                    service,
                    outcome: *outcome,
                })
            }
            AuditRecord::Tgs {
                client,
                service,
                outcome,
            } => {
                let client = copied_name(alloc, client)?;
                let service = owned_name(alloc, service.as_ref())?;
                Ok(AuditRecord::Tgs {
                    client,
                    service,
                    outcome: *outcome,
                })
            }
        }
    }
}

/// Returns a copy of the audit record with names of its own, if it is wanted.
pub fn audit_if(
    alloc: Global,
    is_wanted: bool,
    audit: &AuditRecord<NameRef<'_>>,
) -> Result<Option<AuditRecord>, AllocError>
    ensures { IfOk result (λ owned. owned ≡ audit_if is_wanted audit.now) }
{
    if is_wanted {
        Ok(Some(audit.to_owned(alloc)?))
    } else {
        Ok(None)
    }
}

impl AuditRecord {
    /// Returns a copy.
    pub fn copy(&self, alloc: Global) -> Result<AuditRecord, AllocError>
        ensures { IfOk result (λ audit. audit ≡ self.now) }
    {
        match self {
            AuditRecord::NoRequest => Ok(AuditRecord::NoRequest),
            AuditRecord::As {
                client,
                service,
                outcome,
            } => {
                let (client, service) = copied_names(alloc, client, service)?;
                Ok(AuditRecord::As {
                    client,
                    service,
                    outcome: *outcome,
                })
            }
            AuditRecord::Tgs {
                client,
                service,
                outcome,
            } => {
                let (client, service) = copied_names(alloc, client, service)?;
                Ok(AuditRecord::Tgs {
                    client,
                    service,
                    outcome: *outcome,
                })
            }
        }
    }
}

fn copied_names(
    alloc: Global,
    client: &Option<Name>,
    service: &Option<Name>,
) -> Result<(Option<Name>, Option<Name>), AllocError>
    ensures client { IfOk result (λ names. names.0 ≡ client.now) }
    ensures service { IfOk result (λ names. names.1 ≡ service.now) }
{
    let client = copied_name(alloc, client)?;
    let service = copied_name(alloc, service)?;
    Ok((client, service))
}

fn copied_name(alloc: Global, name: &Option<Name>) -> Result<Option<Name>, AllocError>
    ensures { IfOk result (λ copy. copy ≡ name.now) }
{
    match name {
        Some(name) => Ok(Some(name.copy(alloc)?)),
        None => Ok(None),
    }
}

/// Borrows a name from the request.
pub fn lent_name<'q>(name: Option<&NameRef<'q>>) -> Option<NameRef<'q>>
    ensures { result ≡ option_copied name.entry }
{
    match name {
        Some(name) => Some(Name {
            name_type: name.name_type,
            components: name.components.iter(),
        }),
        None => None,
    }
}

fn owned_name(alloc: Global, name: Option<&NameRef<'_>>) -> Result<Option<Name>, AllocError>
    ensures { IfOk result (λ copy. copy ≡ option_copied name.entry) }
{
    match name {
        Some(name) => Ok(Some(name.to_name(alloc)?)),
        None => Ok(None),
    }
}

//! Principals that texts name.
ghost use Rattle.std.specs.Prelude.{IfOk};
ghost use Rattle.krb_fields.specs.NameText.{IsComponentText, IsNameText};

use crate::faults::{ClientError, StepError, at};
use cred_files::Principal;
use krb_fields::{Name, component_from_text, component_to_text};
use std::alloc::{AllocError, Global};

/// Returns the name that a text spells, such as `host/www.example.com`.
pub fn parse_name(alloc: Global, text: &str) -> Result<Name, ClientError>
    ensures { IfOk result (λ name. IsNameText name.components text.now) }
{
    at(
        alloc,
        text,
        Name::from_text(alloc, text).map_err(StepError::from),
    )
}

/// Returns the principal with a name and a realm. The subject of an error is the whole text.
pub(crate) fn make_principal(
    alloc: Global,
    text: &str,
    name: &str,
    realm: &str,
) -> Result<Principal, ClientError>
    ensures name { IfOk result (λ principal. IsNameText principal.name.components name.now) }
    ensures realm { IfOk result (λ principal. IsComponentText principal.realm realm.now) }
{
    let realm = at(
        alloc,
        text,
        component_from_text(alloc, realm).map_err(StepError::from),
    )?;
    let name = at(
        alloc,
        text,
        Name::from_text(alloc, name).map_err(StepError::from),
    )?;
    Ok(Principal { realm, name })
}

/// Returns the text of a principal: `alice@EXAMPLE.COM`.
pub fn principal_text(alloc: Global, principal: &Principal) -> Result<String, AllocError> {
    let name = principal.name.to_text(alloc)?;
    let realm = component_to_text(alloc, principal.realm.as_slice())?;
    format!(in alloc; "{name}@{realm}")
}

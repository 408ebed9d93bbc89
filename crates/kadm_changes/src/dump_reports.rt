//! What the import of a dump says of its principals. All ignore a failed write.
ghost use Rattle.std.specs.Prelude.{◌≡◌, All, IfOk, true};
ghost use Rattle.kadm_changes.specs.Dumps.{LosesNothing};

use crate::early_end::EarlyEnd;
use crate::reason::{CommandRefusal, Part};
use krb_fields::component_to_text;
use mit_dump::{DumpError, DumpedPrincipal};
use std::alloc::{AllocError, Global};
use std::io::Write;

/// Reports where a text is no dump. Returns how the command ends.
pub(crate) fn report_fault<E: Write>(
    errors: &mut E,
    dump: &str,
    fault: DumpError,
) -> EarlyEnd<'static> {
    if fault.is_memory() {
        return EarlyEnd::from(AllocError);
    }
    let _ = writeln!(errors, "kadm: {dump}: {fault}");
    EarlyEnd::refused(Part::Dump, CommandRefusal::BadDump)
}

/// Reports that the principals of a dump make no database. Returns how the command ends.
pub(crate) fn report_no_database<E: Write>(errors: &mut E) -> EarlyEnd<'static> {
    let _ = writeln!(
        errors,
        "kadm: no principal with a key is krbtgt/REALM@REALM, or one is there twice"
    );
    EarlyEnd::refused(Part::Dump, CommandRefusal::BadDump)
}

/// Reports that the keys of a principal can't be decrypted. Returns how the command ends.
pub(crate) fn report_key_fault<E: Write>(
    alloc: Global,
    errors: &mut E,
    principal: &DumpedPrincipal,
    fault: DumpError,
) -> EarlyEnd<'static> {
    if fault.is_memory() {
        return EarlyEnd::from(AllocError);
    }
    if let Err(error) = begin_principal(alloc, errors, principal) {
        return EarlyEnd::from(error);
    }
    let _ = writeln!(errors, "{fault}");
    EarlyEnd::refused(Part::Stash, CommandRefusal::BadStash)
}

/// Reports what has no place in a database of this realm, a line each. Returns whether there is nothing.
pub(crate) fn report_losses<E: Write>(
    alloc: Global,
    errors: &mut E,
    found: &[DumpedPrincipal],
    realm: &[u8],
) -> Result<bool, AllocError>
    ensures { IfOk result (λ whole. whole ≡ true → All (LosesNothing realm.now) found.now) }
{
    let mut is_whole = true;
    for principal in found {
        let is_kept = report_lost(alloc, errors, principal, realm)?;
        is_whole = is_whole && is_kept;
    }
    Ok(is_whole)
}

/// Reports what of a principal has no place. Returns whether there is nothing, or the principal is one of MIT's own.
fn report_lost<E: Write>(
    alloc: Global,
    errors: &mut E,
    principal: &DumpedPrincipal,
    realm: &[u8],
) -> Result<bool, AllocError>
    ensures { IfOk result (λ kept. kept ≡ true → LosesNothing realm.now principal.now) }
{
    if principal.is_own() {
        return Ok(true);
    }
    let losses = principal.losses(alloc, realm)?;
    for loss in &losses {
        begin_principal(alloc, errors, principal)?;
        let _ = writeln!(errors, "{loss}");
    }
    Ok(losses.is_empty())
}

/// Begins a line about a principal.
fn begin_principal<E: Write>(
    alloc: Global,
    errors: &mut E,
    principal: &DumpedPrincipal,
) -> Result<(), AllocError> {
    let name = principal.name.to_text(alloc)?;
    let realm = component_to_text(alloc, principal.realm.as_slice())?;
    let _ = write!(errors, "kadm: {name}@{realm}: ");
    Ok(())
}

/// Reports how many principals are taken, and which of MIT's own are left out.
pub(crate) fn report_taken<E: Write>(
    alloc: Global,
    errors: &mut E,
    found: &[DumpedPrincipal],
    taken: usize,
) -> Result<(), AllocError> {
    let _ = writeln!(errors, "kadm: {taken} principals are taken");
    for principal in found {
        if principal.is_own() {
            begin_principal(alloc, errors, principal)?;
            let _ = writeln!(errors, "left out: it serves MIT's own programs alone");
        }
    }
    Ok(())
}

//! The command that prints what an administrator should check.
ghost use Rattle.std.specs.Prelude.{◌≡◌, IfOk};
ghost use Rattle.kadm.specs.Printed.{HasDatabase};

use crate::json_lines::json_finding;
use enctypes::Etype;
use file_store::{FileRights, RIGHTS_OF_OTHERS, Store, file_rights, read_clock};
use kadm_changes::{Context, EarlyEnd, read_database};
use krb_fields::Name;
use principal_rows::Row;
use principals::Database;
use std::alloc::{AllocError, Global};
use std::io::Write;
use text_fields::{UtcDate, is_past, shell_word};

/// The user who may work on any file.
const ROOT: u32 = 0;

/// The least `greatest_life` of `krbtgt/REALM`, in seconds.
const LEAST_LIFE: u32 = 300;

/// The first component of the names of ticket-granting services.
const KRBTGT: &[u8] = b"krbtgt";

/// How to print what is found.
#[derive(Clone, Copy)]
pub(crate) struct LintArgs {
    /// Whether to end with `Refused` if there is a line.
    pub check: bool,
    /// Whether a line is an object of JSON.
    pub json: bool,
}

/// Prints a line for each thing to check, with the command that mends it behind a `#`: first those of the file, which
/// begin with `@database`, as no name does, and then those of principals, in the order of the names' texts. No command
/// removes a principal or lets one in that can't log in. Returns whether there is a line.
pub(crate) fn print_lint<'p, T: Store, W: Write, E: Write>(
    context: &mut Context<W, E>,
    store: &mut T,
    db: &'p str,
    lint: LintArgs,
) -> Result<bool, EarlyEnd<'p>>
    ensures read { IfOk result (λ found. HasDatabase (T.world store.old) db.now) }
    ensures unchanged { T.world store.new ≡ T.world store.old }
{
    let database = read_database(context, store, db)?;
    print_findings_of(context, store, db, &database, lint.json)
}

/// Prints a line for each thing to check of a database that was read. Returns whether there is a line.
pub(crate) fn print_findings_of<'p, T: Store, W: Write, E: Write>(
    context: &mut Context<W, E>,
    store: &mut T,
    db: &'p str,
    database: &Database,
    json: bool,
) -> Result<bool, EarlyEnd<'p>>
    ensures unchanged { T.world store.new ≡ T.world store.old }
{
    let rights = file_rights(store, db)?;
    let now = read_clock(store)?;
    let word = shell_word(context.alloc, db)?;
    let place = Place {
        alloc: context.alloc,
        db: &word,
        now,
    };
    print_findings(context, &place, rights, database, json)
}

fn print_findings<'p, W: Write, E: Write>(
    context: &mut Context<W, E>,
    place: &Place<'_>,
    rights: FileRights,
    database: &Database,
    json: bool,
) -> Result<bool, EarlyEnd<'p>> {
    let of_file = file_findings(place.alloc, place.db, rights)?;
    print_lines(place.alloc, &of_file, json, &mut context.out)?;
    let of_principals = findings(place, database)?;
    print_lines(place.alloc, &of_principals, json, &mut context.out)?;
    Ok(!of_file.is_empty() || !of_principals.is_empty())
}

fn print_lines<'p, W: Write>(
    alloc: Global,
    lines: &[String],
    json: bool,
    out: &mut W,
) -> Result<(), EarlyEnd<'p>> {
    for line in lines {
        if json {
            out.write_all(&json_finding(alloc, line)?)?;
            writeln!(out)?;
        } else {
            writeln!(out, "{line}")?;
        }
    }
    Ok(())
}

/// Returns what is wrong with the rights on the database.
fn file_findings(alloc: Global, db: &str, rights: FileRights) -> Result<Vec<String>, AllocError> {
    let mut lines = Vec::new(alloc);
    if rights.mode & RIGHTS_OF_OTHERS != 0 {
        lines.push(format!(in alloc; "@database mode {:o} # chmod 600 {db}", rights.mode)?)?;
    }
    if let Some(user) = stranger_to(rights) {
        lines.push(format!(in alloc; "@database owner {} # chown {user} {db}", rights.owner)?)?;
    }
    Ok(lines)
}

/// Returns the user who runs the program, if the file is another user's. Root works on others' files.
fn stranger_to(rights: FileRights) -> Option<u32> {
    rights
        .user
        .filter(|user| *user != ROOT && *user != rights.owner)
}

/// Where principals are looked at, and when.
#[derive(Clone, Copy)]
struct Place<'a> {
    alloc: Global,
    /// The path of the database, as a word of a shell.
    db: &'a str,
    /// The second of the look.
    now: u64,
}

/// A principal to look at.
#[derive(Clone, Copy)]
struct Subject<'a> {
    /// The text of its name.
    name: &'a str,
    row: &'a Row,
    /// The options of a command that say which principal it is, as words of a shell.
    options: &'a str,
    /// Whether it is the realm's ticket-granting service, which every login needs.
    is_tgs: bool,
}

fn findings(place: &Place<'_>, database: &Database) -> Result<Vec<String>, AllocError> {
    let mut lines = Vec::new(place.alloc);
    for i in 0..database.len() {
        if let Some((name, row)) = database.at(i) {
            push_findings(place, &mut lines, name, row, is_tgs(name, database.realm()))?;
        }
    }
    // no text of a name has a byte as low as the space after it, so lines have the order of names
    lines.sort()?;
    Ok(lines)
}

/// Adds what to check of one principal.
fn push_findings(
    place: &Place<'_>,
    lines: &mut Vec<String>,
    name: &Name,
    row: &Row,
    is_tgs: bool,
) -> Result<(), AllocError> {
    let (alloc, db) = (place.alloc, place.db);
    let text = name.to_text(alloc)?;
    let word = shell_word(alloc, &text)?;
    let options = format!(in alloc; "--db {db} --name={word}")?;
    let subject = Subject {
        name: &text,
        row,
        options: &options,
        is_tgs,
    };
    push_realm(alloc, lines, &subject)?;
    push_times(alloc, lines, &subject, place.now)?;
    push_keys(alloc, lines, &subject)?;
    push_service(alloc, lines, &subject, name)
}

/// Adds what keeps everybody in the realm from logging in, by the policy of the ticket-granting service.
fn push_realm(
    alloc: Global,
    lines: &mut Vec<String>,
    subject: &Subject<'_>,
) -> Result<(), AllocError> {
    if !subject.is_tgs {
        return Ok(());
    }
    let (name, options) = (subject.name, subject.options);
    let policy = subject.row.policy;
    for (is, word, setting) in [
        (policy.disabled, "realm_disabled", "disabled=false"),
        (!policy.service, "realm_denied", "service=true"),
        (
            policy.greatest_life < LEAST_LIFE,
            "realm_short",
            "greatest_life=10h",
        ),
    ] {
        if is {
            lines.push(format!(in alloc;
                "{name} {word} # kadm policy {options} --set {setting}"
            )?)?;
        }
    }
    Ok(())
}

/// Adds the times of a principal that have passed.
fn push_times(
    alloc: Global,
    lines: &mut Vec<String>,
    subject: &Subject<'_>,
    now: u64,
) -> Result<(), AllocError> {
    let name = subject.name;
    let policy = subject.row.policy;
    for (word, time, mend) in [
        ("expired", policy.expires, expired_mend(alloc, subject)?),
        (
            "password_expired",
            policy.password_expires,
            password_mend(alloc, subject)?,
        ),
    ] {
        if let Some(second) = time
            && is_past(second, now)
        {
            let date = UtcDate(second);
            lines.push(format!(in alloc; "{name} {word} {date} # kadm {mend}")?)?;
        }
    }
    Ok(())
}

/// Returns the command that mends a principal that has expired: it stays out. Only `krbtgt/REALM` is let in again.
fn expired_mend(alloc: Global, subject: &Subject<'_>) -> Result<String, AllocError> {
    let options = subject.options;
    if subject.is_tgs {
        return format!(in alloc; "policy {options} --set expires=never");
    }
    format!(in alloc; "policy {options} --set disabled=true --set expires=never")
}

/// Returns the command that mends a password that has expired. A service's keys are random ones: it has none.
fn password_mend(alloc: Global, subject: &Subject<'_>) -> Result<String, AllocError> {
    let options = subject.options;
    if subject.row.policy.service {
        return format!(in alloc; "policy {options} --set password_expires=never");
    }
    format!(in alloc; "passwd {options}")
}

/// Adds the risks of a principal's keys. A principal for which there are no tickets needs no older key.
fn push_keys(
    alloc: Global,
    lines: &mut Vec<String>,
    subject: &Subject<'_>,
) -> Result<(), AllocError> {
    let (name, options) = (subject.name, subject.options);
    let policy = subject.row.policy;
    let older = subject.row.versions.as_slice().len().saturating_sub(1);
    if older > 0 {
        let word = if policy.service {
            "older_versions"
        } else {
            "old_passwords"
        };
        lines.push(format!(in alloc; "{name} {word} {older} # kadm drop {options} --older")?)?;
    }
    if !policy.preauth {
        lines.push(format!(in alloc;
            "{name} no_preauth # kadm policy {options} --field preauth --value true"
        )?)?;
    }
    if !has_strong_key(subject.row) {
        let (command, last) = if policy.service {
            ("random", " --existing")
        } else {
            ("passwd", "")
        };
        lines.push(format!(in alloc; "{name} weak_types # kadm {command} {options}{last}")?)?;
    }
    Ok(())
}

/// Checks whether a principal has a current key of 256 bits.
fn has_strong_key(row: &Row) -> bool {
    for key in row.versions.current().keys.keys() {
        if matches!(
            key.etype(),
            Etype::Aes256CtsHmacSha1_96 | Etype::Aes256CtsHmacSha384_192
        ) {
            return true;
        }
    }
    false
}

/// Adds a principal for which there may be tickets although its name is not a service's: such a ticket is encrypted
/// with a key that may be derived from a password. Also adds a service of a host that no client asks for.
fn push_service(
    alloc: Global,
    lines: &mut Vec<String>,
    subject: &Subject<'_>,
    name: &Name,
) -> Result<(), AllocError> {
    let (text, options) = (subject.name, subject.options);
    if !subject.row.policy.service || is_krbtgt(name) {
        return Ok(());
    }
    match host_of(name) {
        None => lines.push(format!(in alloc;
            "{text} may_be_service # kadm policy {options} --field service --value false"
        )?)?,
        Some(host) if is_odd(host) => {
            lines.push(format!(in alloc;
                "{text} odd_host # kadm policy {options} --field service --value false"
            )?)?
        }
        Some(_) => (),
    }
    Ok(())
}

/// Checks whether a name is that of the realm's own ticket-granting service.
fn is_tgs(name: &Name, realm: &[u8]) -> bool {
    match name.components.as_slice() {
        [service, host] => service.as_slice() == KRBTGT && host.as_slice() == realm,
        _ => false,
    }
}

/// Checks whether a name is that of a ticket-granting service.
fn is_krbtgt(name: &Name) -> bool {
    match name.components.as_slice() {
        [service, _] => service.as_slice() == KRBTGT,
        _ => false,
    }
}

/// Checks whether a host has a capital letter or another byte that no client writes, or a dot at one of its ends.
fn is_odd(host: &[u8]) -> bool {
    !host.iter().all(is_hosts) || host.first() == Some(&b'.') || host.last() == Some(&b'.')
}

/// Checks whether the name of a host may have a byte. A port follows some of them, behind a colon.
fn is_hosts(octet: &u8) -> bool {
    octet.is_ascii_lowercase()
        || octet.is_ascii_digit()
        || matches!(octet, b'-' | b'.' | b'_' | b':')
}

/// Returns the host in which a name ends, which has a dot. Names of users with a role, such as `alice/admin`, have
/// none.
fn host_of(name: &Name) -> Option<&[u8]> {
    match name.components.as_slice() {
        [_, .., host] if host.as_slice().contains(&b'.') => Some(host.as_slice()),
        _ => None,
    }
}

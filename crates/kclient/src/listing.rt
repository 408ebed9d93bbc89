//! The lines that list a credential cache or a keytab. They contain no key.
ghost use Rattle.std.specs.Prelude.{◌≡◌, ◌++◌, IfOk, codes};
ghost use Rattle.std.specs.String.{string_bytes};
ghost use Rattle.krb_fields.specs.NameText.{component_text, text_of};

use cred_files::{Cache, Credential, Keytab, KeytabEntry, Principal};
use krb_der::KTime;
use krb_elements::{KerberosString, read};
use krb_fields::{Flags, Name, Second, TicketFlag, component_to_text};
use krb_types::TicketRef;
use std::alloc::{AllocError, Global};
use text_fields::UtcDate;

/// The realm of the settings that stock clients keep in a cache for themselves. A setting is no credential.
const SETTINGS_REALM: &[u8] = b"X-CACHECONF:";

/// The first component of its name.
const SETTINGS_NAME: &[u8] = b"krb5_ccache_conf_data";

/// The letters of a ticket's flags, as in MIT's `klist -f`, in its order.
const LETTERS: &[(TicketFlag, char)] = &[
    (TicketFlag::Forwardable, 'F'),
    (TicketFlag::Forwarded, 'f'),
    (TicketFlag::Proxiable, 'P'),
    (TicketFlag::Proxy, 'p'),
    (TicketFlag::MayPostdate, 'D'),
    (TicketFlag::Postdated, 'd'),
    (TicketFlag::Invalid, 'i'),
    (TicketFlag::Renewable, 'R'),
    (TicketFlag::Initial, 'I'),
    (TicketFlag::HwAuthent, 'H'),
    (TicketFlag::PreAuthent, 'A'),
    (TicketFlag::TransitedPolicyChecked, 'T'),
    (TicketFlag::OkAsDelegate, 'O'),
];

/// The flag `anonymous` (RFC 8062, section 3), whose letter follows. Only other KDCs set it.
const ANONYMOUS: u32 = 1 << 15;

/// Returns a line `principal NAME@REALM`, and one for each credential of the cache.
pub(crate) fn lines_of_cache(alloc: Global, cache: &Cache) -> Result<String, AllocError> {
    let holder = cache.principal();
    let mut lines = principal_line(alloc, holder)?;
    for credential in cache.credentials() {
        if !is_setting(&credential.server) {
            push_credential(alloc, &mut lines, credential, holder)?;
        }
    }
    Ok(lines)
}

fn principal_line(alloc: Global, holder: &Principal) -> Result<String, AllocError> {
    let name = principal_text(alloc, &holder.realm, &holder.name)?;
    format!(in alloc; "principal {name}\n")
}

fn is_setting(server: &Principal) -> bool {
    match server.name.components.as_slice().first() {
        Some(first) => server.realm.as_slice() == SETTINGS_REALM
            && first.as_slice() == SETTINGS_NAME,
        None => false,
    }
}

/// Appends `NAME@REALM from DATE till DATE renew DATE flags LETTERS key TYPE ticket TYPE`, with `-` for what is absent,
/// and ` client NAME@REALM` if the credential is not the cache owner's.
fn push_credential(
    alloc: Global,
    lines: &mut String,
    credential: &Credential,
    holder: &Principal,
) -> Result<(), AllocError> {
    let Credential { client, server, .. } = credential;
    push_name(alloc, lines, server)?;
    push_times(lines, credential)?;
    push_flags(lines, credential.flags)?;
    push_types(lines, credential)?;
    if !client.is(holder.realm.as_slice(), &holder.name) {
        lines.push_str(" client ")?;
        push_name(alloc, lines, client)?;
    }
    lines.push('\n')
}

fn push_name(alloc: Global, lines: &mut String, principal: &Principal) -> Result<(), AllocError> {
    let name = principal_text(alloc, &principal.realm, &principal.name)?;
    lines.push_str(name.as_str())
}

/// Returns the texts of the name and of the realm, in printable ASCII without spaces, with an `@` between them. Neither
/// has an `@`.
fn principal_text(alloc: Global, realm: &KerberosString, name: &Name) -> Result<String, AllocError>
    ensures { IfOk result (λ text.
        string_bytes text ≡ text_of name.now.components ++ codes "@" ++ component_text realm.now) }
{
    let mut text = name.to_text(alloc)?;
    let realm = component_to_text(alloc, realm.as_slice())?;
    text.push_str("@")?;
    text.push_str(realm.as_str())?;
    Ok(text)
}

/// Appends the times. A ticket without a start has that of its authentication.
fn push_times(lines: &mut String, credential: &Credential) -> Result<(), AllocError> {
    let times = &credential.times;
    let start = if times.start_time.seconds() == 0 {
        times.auth_time
    } else {
        times.start_time
    };
    push_time(lines, "from", start)?;
    push_time(lines, "till", times.end_time)?;
    push_time(lines, "renew", times.renew_till)
}

fn push_time(lines: &mut String, word: &str, time: KTime) -> Result<(), AllocError> {
    match date_of(time) {
        Some(date) => write!(lines, " {word} {date}"),
        None => write!(lines, " {word} -"),
    }
}

/// Returns a time of a credential; `None` if it is the start of 1970, which stands for no time.
fn date_of(time: KTime) -> Option<UtcDate> {
    let seconds = time.seconds();
    if seconds == 0 {
        return None;
    }
    Some(UtcDate(Second::new(seconds)?))
}

fn push_flags(lines: &mut String, flags: Flags) -> Result<(), AllocError> {
    lines.push_str(" flags ")?;
    let len = lines.len();
    for (flag, letter) in LETTERS {
        if flags.has(*flag) {
            lines.push(*letter)?;
        }
    }
    if flags.bits() & ANONYMOUS != 0 {
        lines.push('a')?;
    }
    if lines.len() == len {
        lines.push('-')?;
    }
    Ok(())
}

/// Appends the types of the session key and of the key that the ticket is encrypted with.
fn push_types(lines: &mut String, credential: &Credential) -> Result<(), AllocError> {
    write!(lines, " key {}", credential.key.key_type)?;
    match ticket_type(credential.ticket.as_slice()) {
        Some(etype) => write!(lines, " ticket {etype}"),
        None => write!(lines, " ticket -"),
    }
}

fn ticket_type(octets: &[u8]) -> Option<i32> {
    match read::<TicketRef<'_>>(octets) {
        Ok(ticket) => Some(ticket.enc_part.etype),
        Err(_) => None,
    }
}

/// Returns a line `NAME@REALM version NUMBER type TYPE` for each key of the keytab.
pub(crate) fn lines_of_keytab(alloc: Global, keytab: &Keytab) -> Result<String, AllocError> {
    let mut lines = String::new(alloc);
    for entry in keytab.entries() {
        push_entry(alloc, &mut lines, entry)?;
    }
    Ok(lines)
}

fn push_entry(alloc: Global, lines: &mut String, entry: &KeytabEntry) -> Result<(), AllocError> {
    let name = principal_text(alloc, &entry.realm, &entry.name)?;
    let etype = entry.key.etype().number();
    writeln!(lines, "{name} version {} type {etype}", entry.version)
}

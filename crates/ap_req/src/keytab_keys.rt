//! The keys of a keytab (RFC 4120, section 5.3).
ghost use Rattle.std.specs.Prelude.{◌≡◌, is_some, None, option_copied};
ghost use Rattle.cred_files.specs.Keytab.{entry_for};
ghost use Rattle.encrypted_data.specs.Keys.{type_numbered};
ghost use Rattle.ap_req.specs.Keytab.{held_in, service_of, ticket_key};

use crate::held_key::HeldKey;
use cred_files::Keytab;
use encrypted_data::type_numbered;
use enctypes::Key;
use krb_fields::Name;
use krb_types::TicketRef;

/// Returns what the keytab holds for a ticket with this service.
pub fn held_in<'k>(keytab: &'k Keytab, ticket: &TicketRef<'_>, service: &Name) -> HeldKey<'k>
    requires { service.now ≡ ticket.now.sname }
    // Promise: what a keytab holds for a ticket is that of the definition.
    ensures { result ≡ held_in keytab.now ticket.now }
{
    HeldKey {
        is_for_us: keytab.has(ticket.realm.as_slice(), service, None),
        has_type: has_type(keytab, ticket, service),
        key: keytab_key(keytab, ticket, service),
    }
}

/// Checks whether the keytab has a key of the ticket's encryption type for the service.
fn has_type(keytab: &Keytab, ticket: &TicketRef<'_>, service: &Name) -> bool
    requires { service.now ≡ ticket.now.sname }
    ensures { result
        ≡ is_some (entry_for keytab.now (service_of ticket.now) (type_numbered ticket.now.enc_part.etype) None) }
{
    match type_numbered(ticket.enc_part.etype) {
        Some(etype) => keytab.has(ticket.realm.as_slice(), service, Some(etype)),
        None => false,
    }
}

/// Returns the keytab's key for a ticket with this service: the one with the ticket's encryption type and key version.
pub fn keytab_key<'k>(keytab: &'k Keytab, ticket: &TicketRef<'_>, service: &Name) -> Option<&'k Key>
    requires { service.now ≡ ticket.now.sname }
    // Promise, as held_in: what a keytab holds ..
    ensures { option_copied result ≡ ticket_key keytab.now ticket.now }
{
    let etype = type_numbered(ticket.enc_part.etype)?;
    keytab.key_for(
        ticket.realm.as_slice(),
        service,
        etype,
        ticket.enc_part.kvno,
    )
}

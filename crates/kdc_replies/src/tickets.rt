//! Tickets (RFC 4120, section 5.3).
ghost use Rattle.std.specs.Prelude.{◌≡◌, ◌≤◌, ◌+◌, pos, length, take, drop, Some, IfOk};
ghost use Rattle.enctypes.specs.KeyUsage.{usage_number};
ghost use Rattle.enctypes.specs.declared.key_usage.KeyUsage.TheVariants.{Ticket as TicketUsage};
ghost use Rattle.krb_types.specs.EncTicketPart.{enc_ticket_part};
ghost use Rattle.encrypted_data.specs.Encrypted.{decrypted};
ghost use Rattle.kdc_replies.specs.Grant.{IsShort, ticket_part};
ghost use Rattle.kdc_replies.specs.Reply.{ticket_confounder, granted_ticket};

use crate::grant::{Grant, LentName, LentRealm};
use encrypted_data::{PartKey, ReadyKeys};
use enctypes::{Key, KeyUsage};
use krb_elements::{Lent, UInt32};
use krb_fields::EncryptedData;
use krb_fields::numbers::PVNO;
use krb_types::Ticket;
use std::alloc::{AllocError, Global};

/// A key of a service, which encrypts its tickets.
#[derive(Clone, Copy)]
pub struct ServiceKey {
    /// The key, with its encryption type.
    pub key: Key,
    /// Its key version (kvno), which the ticket names.
    pub version: u32,
}

/// A ticket that borrows the realm and the name from its grant.
pub type LentTicket<'g, 'a> = Ticket<LentRealm<'g, 'a>, LentName<'g, 'a>>;

/// Returns the ticket of a grant. Random bytes 32 to 48 are its confounder. The cache of keys affects speed only.
pub fn ticket<'g, 'a>(
    alloc: Global,
    grant: &'g Grant<'a>,
    service: &ServiceKey,
    ready: &ReadyKeys,
    random: &[u8; 64],
) -> Result<LentTicket<'g, 'a>, AllocError>
    requires { IsShort grant.now }
    ensures value { IfOk result (λ ticket. ticket ≡ granted_ticket grant.now service.now random.now) }
    ensures opens { IfOk result (λ ticket.
        decrypted enc_ticket_part service.now.key (usage_number TicketUsage) ticket.enc_part
        ≡ Some (ticket_part grant.now)) }
    ensures most { IfOk result (λ ticket. length ticket.enc_part.cipher ≤ 2147490100) }
{
    Ok(Ticket {
        tkt_vno: PVNO,
        realm: Lent::new(&grant.realm),
        sname: Lent::new(&grant.service),
        enc_part: sealed(alloc, grant, service, ready, random)?,
    })
}

/// Encrypts the ticket's contents with the service's key.
fn sealed(
    alloc: Global,
    grant: &Grant<'_>,
    service: &ServiceKey,
    ready: &ReadyKeys,
    random: &[u8; 64],
) -> Result<EncryptedData, AllocError>
    requires { IsShort grant.now }
    ensures value { IfOk result (λ sealed. sealed ≡ (granted_ticket grant.now service.now random.now).enc_part) }
    ensures opens { IfOk result (λ sealed.
        decrypted enc_ticket_part service.now.key (usage_number TicketUsage) sealed ≡ Some (ticket_part grant.now)) }
    ensures most { IfOk result (λ sealed. length sealed.cipher ≤ 2147490100) }
{
    let part = grant.ticket_part();
    let key = PartKey {
        key: service.key,
        usage: KeyUsage::Ticket,
        kvno: Some(version_number(service.version)),
    };
    ready.encrypted(alloc, &key, &confounder(random, 32), &part)
}

/// Returns a key version as a message has it.
pub fn version_number(version: u32) -> UInt32
    ensures { result ≡ pos version }
{
    UInt32::new(i64::from(version)).unwrap()
}

/// Returns the 16 random bytes that start at this place.
pub fn confounder(random: &[u8; 64], place: usize) -> [u8; 16]
    requires { place ≤ 48 }
    ensures { result ≡ take 16 (drop place random.now) }
{
    let mut octets = [0; 16];
    octets.copy_from_slice(&random[place..place + 16]);
    octets
}

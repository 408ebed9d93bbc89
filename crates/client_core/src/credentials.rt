//! The credential in a reply (RFC 4120, section 3.1.5).
ghost use Rattle.std.specs.Prelude.{◌≡◌, ◌<◌, ◌^◌, length, IfOk, map};
ghost use Rattle.std.specs.List.{list_all};
ghost use Rattle.krb_elements.specs.Codec.{written};
ghost use Rattle.krb_types.specs.Ticket.{ticket};
ghost use Rattle.client_core.specs.Credentials.{address_of, addresses_of, are_short_types, credential_in};
ghost use Rattle.client_core.specs.Credentials.{credential_of, has_16_bits, has_room, in_16_bits, is_short_type};
ghost use Rattle.client_core.specs.Credentials.{key_of, parties_of, times_of};

use cred_files::{Credential, Principal, SessionKey, Times, TypedOctets};
use krb_der::KTime;
use krb_elements::{KerberosString, Octets, Seq, write};
use krb_fields::Typed;
use krb_types::{EncKdcRepPart, KdcRepRef, TicketRef};
use std::alloc::{AllocError, Global};

/// Returns the credential; `None` if its key or an address has a type of more than 16 bits, for which it has no room.
pub fn credential_in<const TYPE: u8>(
    alloc: Global,
    reply: &KdcRepRef<'_, TYPE>,
    part: &EncKdcRepPart,
) -> Result<Option<Credential>, AllocError>
    requires { length (ticket.text reply.now.ticket) < 2 ^ 32 }
    ensures { IfOk result (λ found. found ≡ credential_in TYPE reply.now part.now) }
{
    if !has_room(part) {
        return Ok(None);
    }
    Ok(Some(make_credential(alloc, reply, part)?))
}

fn make_credential<const TYPE: u8>(
    alloc: Global,
    reply: &KdcRepRef<'_, TYPE>,
    part: &EncKdcRepPart,
) -> Result<Credential, AllocError>
    requires { length (ticket.text reply.now.ticket) < 2 ^ 32 }
    ensures { IfOk result (λ credential. credential ≡ credential_of TYPE reply.now part.now) }
{
    let addresses = copy_addresses(alloc, &part.caddr)?;
    let ticket = ticket_octets(alloc, &reply.ticket)?;
    let parties = copy_parties(alloc, reply, part)?;
    Ok(Credential {
        client: parties.client,
        server: parties.server,
        key: parties.key,
        times: times_of(part),
        flags: part.flags,
        addresses,
        authorization: Seq::new(alloc),
        ticket,
        second_ticket: Octets::new(Vec::new(alloc)),
    })
}

/// A client and a service, and the key that they share.
#[derive(Drop)]
struct Parties {
    client: Principal,
    server: Principal,
    key: SessionKey,
}

fn copy_parties<const TYPE: u8>(
    alloc: Global,
    reply: &KdcRepRef<'_, TYPE>,
    part: &EncKdcRepPart,
) -> Result<Parties, AllocError>
    ensures { IfOk result (λ parties. parties ≡ parties_of TYPE reply.now part.now) }
{
    Ok(Parties {
        client: copy_client(alloc, reply)?,
        server: copy_server(alloc, part)?,
        key: copy_session_key(alloc, &part.key)?,
    })
}

fn copy_client<const TYPE: u8>(
    alloc: Global,
    reply: &KdcRepRef<'_, TYPE>,
) -> Result<Principal, AllocError>
    ensures { IfOk result (λ client. client ≡ record { realm = reply.now.crealm; name = reply.now.cname }) }
{
    Ok(Principal {
        realm: KerberosString::from_slice(alloc, reply.crealm.as_slice())?,
        name: reply.cname.to_name(alloc)?,
    })
}

fn copy_server(alloc: Global, part: &EncKdcRepPart) -> Result<Principal, AllocError>
    ensures { IfOk result (λ server. server ≡ record { realm = part.now.srealm; name = part.now.sname }) }
{
    Ok(Principal {
        realm: part.srealm.copy(alloc)?,
        name: part.sname.copy(alloc)?,
    })
}

/// Returns the session key, with its type cut to 16 bits.
fn copy_session_key(alloc: Global, key: &Typed) -> Result<SessionKey, AllocError>
    ensures { IfOk result (λ made. made ≡ key_of key.now) }
{
    Ok(SessionKey {
        key_type: in_16_bits(key.number),
        octets: key.octets.copy(alloc)?,
    })
}

fn times_of(part: &EncKdcRepPart) -> Times
    ensures { result ≡ times_of part.now }
{
    let unset = KTime::of(0);
    Times {
        auth_time: part.authtime,
        start_time: part.starttime.unwrap_or(unset),
        end_time: part.endtime,
        renew_till: part.renew_till.unwrap_or(unset),
    }
}

/// Returns the bytes of the ticket.
fn ticket_octets(alloc: Global, found: &TicketRef<'_>) -> Result<Octets, AllocError>
    requires { length (ticket.text found.now) < 2 ^ 32 }
    ensures { IfOk result (λ octets. octets ≡ written ticket found.now) }
{
    let owned = found.to_ticket(alloc)?;
    Ok(Octets::new(write(alloc, &owned)?))
}

fn copy_addresses(alloc: Global, caddr: &Option<Seq<Typed>>) -> Result<Seq<TypedOctets>, AllocError>
    ensures { IfOk result (λ addresses. addresses ≡ addresses_of caddr.now) }
{
    match caddr {
        Some(list) => addresses(alloc, list.as_slice()),
        None => Ok(Seq::new(alloc)),
    }
}

fn addresses(alloc: Global, list: &[Typed]) -> Result<Seq<TypedOctets>, AllocError>
    ensures { IfOk result (λ addresses. addresses ≡ map address_of list.now) }
{
    let mut addresses = Seq::new(alloc);
    for address in list {
        addresses.push(TypedOctets {
            data_type: in_16_bits(address.number),
            octets: address.octets.copy(alloc)?,
        })?;
    }
    Ok(addresses)
}

/// Checks whether the types of the session key and of all addresses fit in 16 bits.
fn has_room(part: &EncKdcRepPart) -> bool
    ensures { result ≡ has_room part.now }
{
    is_short_type(&part.key) && are_short_types(&part.caddr)
}

fn are_short_types(caddr: &Option<Seq<Typed>>) -> bool
    ensures { result ≡ are_short_types caddr.now }
{
    match caddr {
        Some(list) => all_short(list.as_slice()),
        None => true,
    }
}

fn all_short(list: &[Typed]) -> bool
    ensures { result ≡ list_all is_short_type list.now }
{
    list.iter().all(|typed| is_short_type(typed))
}

fn is_short_type(typed: &Typed) -> bool
    ensures { result ≡ is_short_type typed.now }
{
    has_16_bits(typed.number)
}

fn has_16_bits(number: i32) -> bool
    ensures { result ≡ has_16_bits number }
{
    0 <= number && number < 65536
}

/// Returns the number, cut to 16 bits.
fn in_16_bits(number: i32) -> u16
    ensures { result ≡ in_16_bits number }
{
    (number.unsigned_abs() % 65536) as u16
}

//! The parts of an AP-REQ that are bytes.
ghost use Rattle.std.specs.Prelude.{◌≡◌, IfOk, option_and_then, option_map, option_copied};
ghost use Rattle.krb_fields.specs.NameText.{text_of};
ghost use Rattle.ap_accept_c.specs.Part.{octets_of, part_numbered};

use crate::last::Last;
use krb_fields::Name;
use std::alloc::{AllocError, Global};

/// A part of the last AP-REQ that is bytes. The first six are there if it was accepted.
#[derive(Clone, Copy)]
pub enum Part {
    /// The client's realm.
    ClientRealm,
    /// The client's name as text, without its realm.
    ClientName,
    /// The octets of the session key.
    SessionKey,
    /// The octets of the subkey.
    Subkey,
    /// The octets of the authenticator's checksum.
    Checksum,
    /// The AP-REP.
    ApRep,
    /// The realm of the service that the ticket is for.
    ServiceRealm,
    /// That service's name as text, without its realm.
    ServiceName,
    /// The KRB-ERROR for the refusal.
    Error,
}

impl Part {
    /// Returns the part with this number of `enum ap_part` in `docs/ap_accept.h`: 1 to 9.
    pub fn numbered(number: u32) -> Option<Part>
        ensures { result ≡ part_numbered number }
    {
        match number {
            1 => Some(Part::ClientRealm),
            2 => Some(Part::ClientName),
            3 => Some(Part::SessionKey),
            4 => Some(Part::Subkey),
            5 => Some(Part::Checksum),
            6 => Some(Part::ApRep),
            7 => Some(Part::ServiceRealm),
            8 => Some(Part::ServiceName),
            9 => Some(Part::Error),
            _ => None,
        }
    }

    /// Returns the bytes, if there is this part.
    pub fn octets(self, alloc: Global, last: &Last) -> Result<Option<Vec<u8>>, AllocError>
        ensures { IfOk result (λ octets. option_map (λ o. o.items) octets ≡ octets_of self last.now) }
    {
        match self {
            Part::ClientRealm => copied(alloc, client_realm(last)),
            Part::ClientName => name_octets(alloc, client_name(last)),
            Part::SessionKey => copied(alloc, session_key(last)),
            Part::Subkey => copied(alloc, subkey(last)),
            Part::Checksum => copied(alloc, checksum(last)),
            Part::ApRep => copied(alloc, ap_rep(last)),
            Part::ServiceRealm => copied(alloc, service_realm(last)),
            Part::ServiceName => name_octets(alloc, service_name(last)),
            Part::Error => last.error(alloc),
        }
    }
}

fn copied(alloc: Global, octets: Option<&[u8]>) -> Result<Option<Vec<u8>>, AllocError>
    ensures { IfOk result (λ copy. option_map (λ o. o.items) copy ≡ option_copied octets.entry) }
{
    match octets {
        Some(octets) => Ok(Some(Vec::from_slice(alloc, octets)?)),
        None => Ok(None),
    }
}

fn name_octets(alloc: Global, name: Option<&Name>) -> Result<Option<Vec<u8>>, AllocError>
    ensures { IfOk result (λ text. option_map (λ o. o.items) text
        ≡ option_map (λ n. text_of n.components) (option_copied name.entry)) }
{
    match name {
        Some(name) => Ok(Some(name.to_text(alloc)?.into_bytes())),
        None => Ok(None),
    }
}

// ---- of what was accepted

fn client_realm(last: &Last) -> Option<&[u8]>
    ensures { option_copied result ≡ option_map (λ a. a.client.realm) last.now.accepted }
{
    match &last.accepted {
        Some(accepted) => Some(accepted.client.realm.as_slice()),
        None => None,
    }
}

fn client_name(last: &Last) -> Option<&Name>
    ensures { option_copied result ≡ option_map (λ a. a.client.name) last.now.accepted }
{
    match &last.accepted {
        Some(accepted) => Some(&accepted.client.name),
        None => None,
    }
}

fn session_key(last: &Last) -> Option<&[u8]>
    ensures { option_copied result ≡ option_map (λ a. a.session_key.bytes) last.now.accepted }
{
    match &last.accepted {
        Some(accepted) => Some(accepted.session_key.bytes()),
        None => None,
    }
}

fn subkey(last: &Last) -> Option<&[u8]>
    ensures { option_copied result
        ≡ option_and_then (λ a. option_map (λ k. k.bytes) a.subkey) last.now.accepted }
{
    let accepted = last.accepted.as_ref()?;
    match &accepted.subkey {
        Some(key) => Some(key.bytes()),
        None => None,
    }
}

fn checksum(last: &Last) -> Option<&[u8]>
    ensures { option_copied result
        ≡ option_and_then (λ a. option_map (λ c. c.octets) a.cksum) last.now.accepted }
{
    let accepted = last.accepted.as_ref()?;
    match &accepted.cksum {
        Some(cksum) => Some(cksum.octets.as_slice()),
        None => None,
    }
}

fn ap_rep(last: &Last) -> Option<&[u8]>
    ensures { option_copied result ≡ option_and_then (λ a. a.ap_rep) last.now.accepted }
{
    let accepted = last.accepted.as_ref()?;
    match &accepted.ap_rep {
        Some(octets) => Some(octets.as_slice()),
        None => None,
    }
}

// ---- of the ticket in clear

fn service_realm(last: &Last) -> Option<&[u8]>
    ensures { option_copied result ≡ option_map (λ l. l.service.realm) last.now.label }
{
    match &last.label {
        Some(label) => Some(label.service.realm.as_slice()),
        None => None,
    }
}

fn service_name(last: &Last) -> Option<&Name>
    ensures { option_copied result ≡ option_map (λ l. l.service.name) last.now.label }
{
    match &last.label {
        Some(label) => Some(&label.service.name),
        None => None,
    }
}

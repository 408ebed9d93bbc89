//! Where a command works: its cache, and the KDCs of its realm, from its words or else from the environment.
ghost use Rattle.std.specs.Prelude.{◌≡◌, IfOk, string_bytes};
ghost use Rattle.kclient.specs.Given.{IsRealmFound, IsRealmOf};
ghost use Rattle.kclient.specs.Words.{IsCacheNamed, text_of};

use crate::context::Context;
use crate::words::word_fault;
use clap::ArgMatches;
use client_files::{ClientError, Config, Host, NameOf, StepError, file_path};
use client_login::{KdcPlace, Kdcs, TicketRequest, Transports};
use cred_files::Credential;
use krb_elements::KerberosString;
use std::alloc::Global;

/// The text after a value of `--kdc` that is not an address with a port.
const NO_ADDRESS: &str = "it takes an address and a port, as 127.0.0.1:88 or [::1]:88";

/// A ticket-granting ticket, and the path of the cache that has it.
#[derive(Clone, Copy)]
pub(crate) struct Granting<'a> {
    pub path: &'a str,
    pub credential: &'a Credential,
}

/// Returns the path of the cache with this name. Without a name it is the path of the default cache.
pub(crate) fn cache_path(
    alloc: Global,
    cache: Option<&str>,
    host: &Host<'_>,
) -> Result<String, ClientError>
    ensures named { IfOk result (λ path. IsCacheNamed (text_of cache.entry) host.now (string_bytes path)) }
{
    match cache {
        Some(name) => Ok(String::from_str(alloc, file_path(name, NameOf::Cache)?)?),
        None => host.cache_path(alloc),
    }
}

/// Sets the KDCs to those that the words name, and the transports that are used.
pub(crate) fn use_given_kdcs<X>(
    alloc: Global,
    kdcs: &mut Kdcs<X>,
    options: &ArgMatches<'_>,
) -> Result<(), ClientError> {
    kdcs.restart();
    kdcs.places.clear();
    kdcs.transports = if options.get_flag("tcp") {
        Transports::TcpOnly
    } else {
        Transports::UdpFirst
    };
    for word in options.get_strs("kdc").unwrap_or(&[]) {
        let Ok(address) = word.parse() else {
            return Err(word_fault(alloc, "--kdc", word, StepError::Usage(NO_ADDRESS)));
        };
        kdcs.places.push(KdcPlace::of_address(alloc, address)?)?;
    }
    Ok(())
}

fn has_kdcs<T, X>(context: &Context<T, X>) -> bool {
    !context.client.kdcs.places.is_empty()
}

/// Returns the realm that was read from the words, or else the default realm. If no word names a KDC, it sets the KDCs
/// to those of the realm in the `krb5.conf`.
pub(crate) fn find_realm<T, X>(
    context: &mut Context<T, X>,
    host: &Host<'_>,
    given: Option<KerberosString>,
) -> Result<KerberosString, ClientError>
    ensures realm { IfOk result (λ realm. IsRealmFound given host.now realm) }
    ensures store { context.new.store ≡ context.old.store }
{
    match given {
        Some(realm) if has_kdcs(context) => Ok(realm),
        given => configure(context, host, given),
    }
}

#[tactic(auto, using(crate::proofs::Giving::found_realm))]
fn configure<T, X>(
    context: &mut Context<T, X>,
    host: &Host<'_>,
    given: Option<KerberosString>,
) -> Result<KerberosString, ClientError>
    ensures realm { IfOk result (λ realm. IsRealmFound given host.now realm) }
    ensures store { context.new.store ≡ context.old.store }
{
    let config = host.config(context.alloc)?;
    context.note_lines(config.notes())?;
    let realm = realm_or_default(context.alloc, config, given)?;
    if !has_kdcs(context) {
        context.client.kdcs.places = config.kdcs(context.alloc, realm.as_slice())?;
    }
    Ok(realm)
}

fn realm_or_default(
    alloc: Global,
    config: &Config,
    given: Option<KerberosString>,
) -> Result<KerberosString, ClientError>
    ensures { IfOk result (λ realm. IsRealmOf given config.now realm) }
{
    match given {
        Some(realm) => Ok(realm),
        None => config.default_realm(alloc),
    }
}

/// Returns what the `krb5.conf` says of first tickets, if there is one.
pub(crate) fn configured_request<T, X>(
    context: &mut Context<T, X>,
    host: &Host<'_>,
) -> Result<TicketRequest, ClientError>
    ensures store { context.new.store ≡ context.old.store }
{
    let alloc = context.alloc;
    let Some(config) = host.config_if_there(alloc)? else {
        return Ok(TicketRequest::PLAIN);
    };
    context.note_lines(config.notes())?;
    config.ticket_request(alloc)
}

/// Sets the KDCs to those of a realm in the `krb5.conf`, unless a word names some or they are already set.
pub(crate) fn use_kdcs_of<T, X>(
    context: &mut Context<T, X>,
    host: &Host<'_>,
    realm: &[u8],
) -> Result<(), ClientError>
    ensures store { context.new.store ≡ context.old.store }
{
    if !has_kdcs(context) {
        let config = host.config(context.alloc)?;
        context.note_lines(config.notes())?;
        context.client.kdcs.places = config.kdcs(context.alloc, realm)?;
    }
    Ok(())
}

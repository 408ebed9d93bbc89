//! `kvno`: gets tickets for services, one after another.
ghost use Rattle.std.specs.Prelude.{◌≡◌, ◌⊎◌, All, IfOk, IfSome, OnErr, OnOk, false, map, option_map, true};
ghost use Rattle.std.specs.String.{string_bytes};
ghost use Rattle.command_line.specs.declared.status.Status.TheVariants.{Done};
ghost use Rattle.cred_files.specs.Cache.{cache_text, put_first};
ghost use Rattle.client_files.specs.Caches.{HasCache};
ghost use Rattle.client_login.specs.Verifying.{IsTicketOf};
ghost use Rattle.file_store.specs.World.{with_file};
ghost use Rattle.kclient.specs.CacheSessions.{Answered, Collected, IsGoodIn, IsHeld, IsSpelled, IsWritten};
ghost use Rattle.kclient.specs.Principals.{HasTicket};
ghost use Rattle.command_line.specs.Values.{texts};
ghost use Rattle.kclient.specs.Words.{IsCacheNamed, text_of};
ghost use Rattle.kclient.specs.Worlds.{Added, CameFurther, Filled, IsGranted, Served};

use crate::commands::Command;
use crate::context::Context;
use crate::kinit::generator;
use crate::places::{Granting, cache_path, use_given_kdcs, use_kdcs_of};
use crate::run::Printed;
use crate::words::{NO_SERVICE, keytab_path, read_name, read_realm};
use clap::ArgMatches;
use client_files::{
    ClientError, ClientStore, Host, StepError, at, good_credential, granting_ticket,
    put_credential, read_cache, read_keytab, write_cache,
};
use client_login::{AnyMessage, opened_ticket};
use cred_files::{Cache, Credential, Keytab};
use krb_elements::{KerberosString, read};
use krb_fields::{Moment, Name};
use krb_types::TicketRef;
use rand_chacha::ChaCha20Rng;
use std::alloc::Global;

/// The keytab that has to decrypt each ticket.
#[derive(Drop)]
struct Checks {
    path: String,
    keytab: Keytab,
}

/// A cache, and what `kvno` needs to get and check tickets for it.
#[derive(Drop)]
struct CacheSession {
    path: String,
    cache: Cache,
    checks: Option<Checks>,
    rng: ChaCha20Rng,
    /// Whether to request each ticket, even if the cache has one that can be used.
    fresh: bool,
    /// Whether the cache has a ticket that its file lacks.
    is_changed: bool,
}

/// Gets a ticket for each service, unless the cache has one that can be used, and puts it into the cache. It prints the
/// key versions of the tickets, in the order of the names. If a name ends the command, the tickets before it are kept.
#[tactic(auto, using(crate::proofs::Doing::filled, crate::proofs::Doing::unfilled, crate::proofs::Serving::served))]
pub(crate) fn get_tickets<T: ClientStore, X: AnyMessage>(
    context: &mut Context<T, X>,
    command: &Command<'_>,
    options: &ArgMatches<'_>,
    host: &Host<'_>,
) -> Result<Printed, ClientError>
    // Promise (world, served, status): `kvno`, refused or not, writes nothing, or the user's own cache with the tickets
    // that came.
    ensures world { (T.world context.new.store ≡ T.world context.old.store)
        ⊎ Filled (IsGranted (CameFurther X.finds X.carries X.answers))
        (IsCacheNamed (text_of command.now.cache) host.now)
        (T.world context.old.store) (T.world context.new.store) }
    // Promise (served): after a `kvno` that succeeds the cache has a ticket for each name of its words: one that came,
    // or one that can still be used by the clock that it began with.
    ensures served { OnOk result (Served (IsGranted (CameFurther X.finds X.carries X.answers)) context.old.client.at.sec
        (texts command.now.names.items) (IsCacheNamed (text_of command.now.cache) host.now)
        (T.world context.old.store) (T.world context.new.store)) }
    ensures status { IfOk result (λ printed. printed.status ≡ Done) }
{
    let at = context.client.at;
    check_some(&command.names)?;
    let keytab = keytab_path(options)?;
    let path = cache_path(context.alloc, command.cache, host)?;
    use_given_kdcs(context.alloc, &mut context.client.kdcs, options)?;
    let services = read_services(context, &command.names)?;
    let mut session = read_session(context, options, path, keytab)?;
    fill(context, host, &mut session, &services, at)
}

/// Checks that there is a name.
fn check_some(names: &[&str]) -> Result<(), ClientError> {
    if names.is_empty() {
        return Err(ClientError::usage(NO_SERVICE));
    }
    Ok(())
}

/// Gets a ticket for each service, until one fails, and writes the cache with those that came. Prints a line for each.
/// It asks for none if a service has another realm than the cache.
#[tactic(auto, using(crate::proofs::Doing::added, crate::proofs::Serving::answered))]
fn fill<T: ClientStore, X: AnyMessage>(
    context: &mut Context<T, X>,
    host: &Host<'_>,
    session: &mut CacheSession,
    services: &[Service],
    at: Moment,
) -> Result<Printed, ClientError>
    ensures world { (T.world context.new.store ≡ T.world context.old.store)
        ⊎ Added (IsGranted (CameFurther X.finds X.carries X.answers)) (string_bytes session.old.path) session.old.cache
        (T.world context.old.store) (T.world context.new.store) }
    ensures answered { OnOk result (Answered (IsGranted (CameFurther X.finds X.carries X.answers)) at.sec services.now
        (string_bytes session.old.path) session.old.cache (T.world context.old.store) (T.world context.new.store)) }
    ensures status { IfOk result (λ printed. printed.status ≡ Done) }
{
    check_realms(context, services, &session.cache)?;
    let lines = get_each(context, host, session, services, at);
    let written = write_changed(context.alloc, &mut context.store, session);
    // Why the command ends is what counts, not whether the tickets before can be written.
    let lines = lines?;
    written?;
    Ok(Printed::done(lines))
}

/// Gets a ticket for each service, until one fails. Returns a line for each.
#[tactic(auto, using(crate::proofs::Steps::each_service))]
fn get_each<T: ClientStore, X: AnyMessage>(
    context: &mut Context<T, X>,
    host: &Host<'_>,
    session: &mut CacheSession,
    services: &[Service],
    at: Moment,
) -> Result<String, ClientError>
    ensures collected { Collected (IsGranted (CameFurther X.finds X.carries X.answers)) session.old session.new }
    ensures held { OnOk result (All (IsHeld (IsGranted (CameFurther X.finds X.carries X.answers)) at.sec
        session.new.cache.credentials) services.now) }
    ensures unchanged { T.world context.new.store ≡ T.world context.old.store }
{
    let mut lines = String::new(context.alloc);
    for service in services {
        match get_ticket(context, host, session, &service.name, at) {
            Ok(version) => push_line(&mut lines, service, version, session.checks.is_some())?,
            Err(fault) => return Err(at_name(
                context,
                services.len(),
                service.word.as_str(),
                fault,
            )),
        }
    }
    Ok(lines)
}

fn read_session<T: ClientStore, X>(
    context: &mut Context<T, X>,
    options: &ArgMatches<'_>,
    path: String,
    keytab: Option<&str>,
) -> Result<CacheSession, ClientError>
    ensures held { IfOk result (λ session.
        HasCache (T.world context.old.store) (string_bytes session.path) session.cache) }
    ensures path { IfOk result (λ session. session.path ≡ path) }
    ensures unchanged { T.world context.new.store ≡ T.world context.old.store }
{
    let cache = read_cache(context.alloc, &mut context.store, path.as_str())?;
    let checks = read_checks(context.alloc, &mut context.store, keytab)?;
    let rng = generator(context.alloc, &mut context.store, options)?;
    Ok(CacheSession {
        path,
        cache,
        checks,
        rng,
        fresh: options.get_flag("fresh"),
        is_changed: false,
    })
}

#[tactic(auto, using(crate::proofs::Steps::cache_written))]
fn write_changed<T: ClientStore>(
    alloc: Global,
    store: &mut T,
    session: &CacheSession,
) -> Result<(), ClientError>
    ensures world { (T.world store.new ≡ T.world store.old) ⊎ (T.world store.new
        ≡ option_map (with_file (string_bytes session.now.path) (cache_text session.now.cache)) (T.world store.old)) }
    ensures written { OnOk result (IsWritten session.now (T.world store.old) (T.world store.new)) }
{
    if !session.is_changed {
        return Ok(());
    }
    write_cache(alloc, store, session.path.as_str(), &session.cache)
}

/// A service, the word that names it, and the realm behind its name.
#[derive(Drop)]
struct Service {
    word: String,
    name: Name,
    realm: Option<KerberosString>,
}

#[tactic(auto, using(crate::proofs::Serving::words_more, crate::proofs::Serving::spelled_more))]
fn read_services<T, X>(
    context: &mut Context<T, X>,
    names: &[&str],
) -> Result<Vec<Service>, ClientError>
    ensures words { IfOk result (λ services.
        map (λ service. string_bytes service.word) services.items ≡ texts names.now) }
    ensures spelled { IfOk result (λ services. All IsSpelled services.items) }
    ensures store { context.new.store ≡ context.old.store }
{
    let mut services = Vec::new(context.alloc);
    for name in names {
        match read_service(context.alloc, name) {
            Ok(service) => services.push(service)?,
            Err(fault) => return Err(at_name(context, names.len(), name, fault)),
        }
    }
    Ok(services)
}

fn read_service(alloc: Global, word: &str) -> Result<Service, ClientError>
    ensures word { IfOk result (λ service. string_bytes service.word ≡ word.now) }
    ensures spelled { IfOk result (λ service. IsSpelled service) }
{
    let Some((name, realm)) = word.split_once('@') else {
        return Ok(Service {
            word: String::from_str(alloc, word)?,
            name: read_name(alloc, "", word, word)?,
            realm: None,
        });
    };
    Ok(Service {
        word: String::from_str(alloc, word)?,
        name: read_name(alloc, "", word, name)?,
        realm: Some(read_realm(alloc, "", word, realm)?),
    })
}

/// Checks that each service has the cache's realm: only that realm's KDCs are asked.
fn check_realms<T, X>(
    context: &mut Context<T, X>,
    services: &[Service],
    cache: &Cache,
) -> Result<(), ClientError>
    ensures store { context.new.store ≡ context.old.store }
{
    for service in services {
        let word = service.word.as_str();
        if let Err(fault) = at(context.alloc, word, check_realm(service, cache)) {
            return Err(at_name(context, services.len(), word, fault));
        }
    }
    Ok(())
}

fn check_realm(service: &Service, cache: &Cache) -> Result<(), StepError> {
    match &service.realm {
        Some(realm) if realm.as_slice() != cache.principal().realm.as_slice() => {
            Err(StepError::OtherRealm)
        }
        _ => Ok(()),
    }
}

/// Returns the error. If there are several names, it notes the one that ends the command.
fn at_name<T, X>(
    context: &mut Context<T, X>,
    count: usize,
    name: &str,
    fault: ClientError,
) -> ClientError
    ensures store { context.new.store ≡ context.old.store }
{
    if count > 1
        && let Err(error) = context.note_name(name)
    {
        return ClientError::from(error);
    }
    fault
}

fn read_checks<T: ClientStore>(
    alloc: Global,
    store: &mut T,
    path: Option<&str>,
) -> Result<Option<Checks>, ClientError>
    ensures unchanged { T.world store.new ≡ T.world store.old }
{
    match path {
        Some(path) => Ok(Some(Checks {
            path: String::from_str(alloc, path)?,
            keytab: read_keytab(alloc, store, path)?,
        })),
        None => Ok(None),
    }
}

/// Appends the line of a service. If the keytab has decrypted its ticket, the line says so.
fn push_line(
    lines: &mut String,
    service: &Service,
    version: i64,
    opened: bool,
) -> Result<(), ClientError> {
    let more = if opened { OPENED } else { "" };
    let word = service.word.as_str();
    Ok(writeln!(lines, "{word} kvno {version}{more}")?)
}

/// The text after a version if the keytab has decrypted the ticket.
const OPENED: &str = ", keytab entry valid";

/// Returns the key version of a ticket for the service: of the one in the cache, if it can be used, or of a new one.
/// Only a request needs KDCs.
#[tactic(auto, using(crate::proofs::Steps::one_service))]
fn get_ticket<T: ClientStore, X: AnyMessage>(
    context: &mut Context<T, X>,
    host: &Host<'_>,
    session: &mut CacheSession,
    service: &Name,
    at: Moment,
) -> Result<i64, ClientError>
    ensures collected { Collected (IsGranted (CameFurther X.finds X.carries X.answers)) session.old session.new }
    ensures held { OnOk result (HasTicket (IsGranted (CameFurther X.finds X.carries X.answers)) at.sec
        service.now.components session.new.cache.credentials) }
    ensures unchanged { T.world context.new.store ≡ T.world context.old.store }
{
    let alloc = context.alloc;
    if let Some(version) = held_version(alloc, session, service, at)? {
        return Ok(version);
    }
    let path = session.path.as_str();
    let granting = Granting {
        path,
        credential: unended(alloc, path, &session.cache, context.client.at)?,
    };
    use_kdcs_of(context, host, session.cache.principal().realm.as_slice())?;
    let credential = requested(context, &mut session.rng, &granting, service)?;
    keep(alloc, session, &credential)
}

/// Requests a ticket for a service; once more, if the KDC's time is taken.
#[tactic(auto, using(crate::proofs::Doing::came_granted, crate::proofs::Serving::came_for))]
fn requested<T, X: AnyMessage>(
    context: &mut Context<T, X>,
    rng: &mut ChaCha20Rng,
    granting: &Granting<'_>,
    service: &Name,
) -> Result<Credential, ClientError>
    ensures came { IfOk result (λ ticket. IsGranted (CameFurther X.finds X.carries X.answers) ticket) }
    ensures service { IfOk result (λ ticket. ticket.server.name.components ≡ service.now.components) }
    ensures store { context.new.store ≡ context.old.store }
{
    match context
        .client
        .service_ticket(rng, granting.credential, service)
    {
        Ok(credential) => return Ok(credential),
        Err(fault) => context.take_clock(granting.path, fault)?,
    }
    match context
        .client
        .service_ticket(rng, granting.credential, service)
    {
        Ok(credential) => Ok(credential),
        Err(fault) => Err(context.fault(granting.path, fault)),
    }
}

/// Returns the key version of the ticket in the cache, if it can be used and no fresh one is asked for.
#[tactic(auto, using(crate::proofs::Serving::good_there))]
fn held_version(
    alloc: Global,
    session: &CacheSession,
    service: &Name,
    at: Moment,
) -> Result<Option<i64>, ClientError>
    ensures { IfOk result (λ held. IfSome held (λ version. IsGoodIn at.sec session.now.cache.credentials
        service.now.components)) }
{
    if session.fresh {
        return Ok(None);
    }
    match good_credential(&session.cache, service, at) {
        Some(credential) => Ok(Some(checked_version(alloc, &session.checks, credential)?)),
        None => Ok(None),
    }
}

/// Returns the cache's ticket-granting ticket, unless it has ended.
fn unended<'c>(
    alloc: Global,
    path: &str,
    cache: &'c Cache,
    now: Moment,
) -> Result<&'c Credential, ClientError> {
    let granting = at(alloc, path, granting_ticket(alloc, cache))?;
    let end = granting.times.end_time.seconds();
    if now.sec < end {
        return Ok(granting);
    }
    Err(ClientError::new(alloc, path, StepError::Ended(end)))
}

/// Puts a credential into the cache, and returns its key version.
fn keep(
    alloc: Global,
    session: &mut CacheSession,
    credential: &Credential,
) -> Result<i64, ClientError>
    ensures put { OnOk result (session.new.cache
        ≡ record session.old.cache { credentials = put_first credential.now session.old.cache.credentials }) }
    ensures changed { OnOk result (session.new.is_changed ≡ true) }
    ensures unchanged { OnErr result (session.new.cache ≡ session.old.cache) }
    ensures same { OnErr result (session.new.is_changed ≡ session.old.is_changed) }
    ensures path { session.new.path ≡ session.old.path }
{
    let version = checked_version(alloc, &session.checks, credential)?;
    match put_credential(alloc, &mut session.cache, credential) {
        Ok(()) => {}
        Err(cause) => return Err(ClientError::new(alloc, session.path.as_str(), cause)),
    }
    session.is_changed = true;
    Ok(version)
}

/// Returns the ticket's key version. If there is a keytab, it has to decrypt the ticket, to the credential's client and
/// session key.
fn checked_version(
    alloc: Global,
    checks: &Option<Checks>,
    credential: &Credential,
) -> Result<i64, ClientError>
    // Promise: a ticket that is reported as valid is decrypted by the keytab's key of its type and version, to the
    // credential's client and session key.
    ensures { IfOk result (λ version. IfSome checks.now (λ c. IsTicketOf c.keytab credential.now)) }
{
    if let Some(Checks { path, keytab }) = checks {
        at(
            alloc,
            path.as_str(),
            check_ticket(alloc, keytab, credential),
        )?;
    }
    Ok(version_of(credential))
}

fn check_ticket(alloc: Global, keytab: &Keytab, credential: &Credential) -> Result<(), StepError>
    ensures { IfOk result (λ done. IsTicketOf keytab.now credential.now) }
{
    match opened_ticket(alloc, keytab, credential)? {
        Ok(_) => Ok(()),
        Err(doubt) => Err(StepError::Login(doubt)),
    }
}

/// Returns the key version of the ticket; 0 if it names none.
fn version_of(credential: &Credential) -> i64 {
    let Ok(ticket) = read::<TicketRef<'_>>(credential.ticket.as_slice()) else {
        return 0;
    };
    match ticket.enc_part.kvno {
        Some(version) => version.get(),
        None => 0,
    }
}

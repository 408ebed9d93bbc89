//! `klist`: lists a credential cache or a keytab. `kdestroy`: removes a cache.
ghost use Rattle.std.specs.Prelude.{◌≡◌, IfOk, OnErr, OnOk};
ghost use Rattle.command_line.specs.declared.status.Status.TheVariants.{Done};
ghost use Rattle.kclient.specs.Words.{IsCacheNamed, text_of};
ghost use Rattle.kclient.specs.Worlds.{Removed};

use crate::context::Context;
use crate::listing::{lines_of_cache, lines_of_keytab};
use crate::places::cache_path;
use crate::run::Printed;
use crate::words::keytab_path;
use clap::ArgMatches;
use client_files::{
    ClientError, ClientStore, Host, StepError, good_credential, read_cache, read_keytab,
    remove_cache,
};
use command_line::Status;
use krb_fields::{Moment, tgs_name};
use std::alloc::Global;

const SILENT_KEYTAB: &str = "-s and --keytab don't go together";

const TWO_FILES: &str = "--cache and --keytab don't go together";

/// Lists a keytab, or else a cache. It prints no line before all are known, and changes no file.
pub(crate) fn list<T: ClientStore, X>(
    context: &mut Context<T, X>,
    cache: Option<&str>,
    options: &ArgMatches<'_>,
    host: &Host<'_>,
) -> Result<Printed, ClientError>
    // Promise, as destroy: `kdestroy` that succeeds removes ..
    ensures unchanged { T.world context.new.store ≡ T.world context.old.store }
{
    match keytab_path(options)? {
        Some(path) => list_keytab(context, options, path),
        None => list_cache(context, cache, options, host),
    }
}

fn list_keytab<T: ClientStore, X>(
    context: &mut Context<T, X>,
    options: &ArgMatches<'_>,
    path: &str,
) -> Result<Printed, ClientError>
    ensures unchanged { T.world context.new.store ≡ T.world context.old.store }
{
    check_alone(options)?;
    let keytab = read_keytab(context.alloc, &mut context.store, path)?;
    Ok(Printed::done(lines_of_keytab(context.alloc, &keytab)?))
}

fn list_cache<T: ClientStore, X>(
    context: &mut Context<T, X>,
    cache: Option<&str>,
    options: &ArgMatches<'_>,
    host: &Host<'_>,
) -> Result<Printed, ClientError>
    ensures unchanged { T.world context.new.store ≡ T.world context.old.store }
{
    let alloc = context.alloc;
    let path = cache_path(alloc, cache, host)?;
    if options.get_flag("s") {
        let at = context.client.at;
        let found = has_good_ticket(alloc, &mut context.store, path.as_str(), at);
        return Ok(Printed::silent(alloc, status_of(&found)));
    }
    let cache = read_cache(alloc, &mut context.store, path.as_str())?;
    Ok(Printed::done(lines_of_cache(alloc, &cache)?))
}

/// Checks that no option of a cache stands beside a keytab.
fn check_alone(options: &ArgMatches<'_>) -> Result<(), ClientError> {
    if options.get_flag("s") {
        return Err(ClientError::usage(SILENT_KEYTAB));
    }
    if options.get_str("cache").is_some() {
        return Err(ClientError::usage(TWO_FILES));
    }
    Ok(())
}

/// Checks whether a cache has a ticket-granting ticket that can be used.
fn has_good_ticket<T: ClientStore>(
    alloc: Global,
    store: &mut T,
    path: &str,
    at: Moment,
) -> Result<bool, ClientError>
    ensures unchanged { T.world store.new ≡ T.world store.old }
{
    let cache = read_cache(alloc, store, path)?;
    let service = tgs_name(alloc, cache.principal().realm.as_slice())?;
    Ok(good_credential(&cache, &service, at).is_some())
}

/// Returns the status of `klist -s`, as MIT's has it. A cache that is missing or can't be read counts as one without a
/// ticket.
fn status_of(found: &Result<bool, ClientError>) -> Status {
    match found {
        Ok(true) => Status::Done,
        Err(fault) if matches!(fault.cause, StepError::Memory) => Status::Failed,
        _ => Status::Refused,
    }
}

/// Removes a cache. After an `Err` no file is changed.
#[tactic(auto, using(crate::proofs::Doing::removed))]
pub(crate) fn destroy<T: ClientStore, X>(
    context: &mut Context<T, X>,
    cache: Option<&str>,
    host: &Host<'_>,
) -> Result<Printed, ClientError>
    // Promise (removed, status, unchanged): `kdestroy` that succeeds removes the file, and a refused one changes none;
    // `klist` changes none.
    ensures removed { OnOk result (Removed (IsCacheNamed (text_of cache.entry) host.now)
        (T.world context.old.store) (T.world context.new.store)) }
    ensures status { IfOk result (λ printed. printed.status ≡ Done) }
    ensures unchanged { OnErr result (T.world context.new.store ≡ T.world context.old.store) }
{
    let path = cache_path(context.alloc, cache, host)?;
    let printed = Printed::ok(context.alloc)?;
    remove_cache(context.alloc, &mut context.store, path.as_str())?;
    Ok(printed)
}

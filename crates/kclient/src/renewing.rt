//! `kinit --renew` and `kinit --validate`: gets the ticket-granting ticket again (RFC 4120, sections 2.3 and 2.4).
ghost use Rattle.std.specs.Prelude.{◌≡◌, IfOk, OnErr, OnOk, Some, string_bytes};
ghost use Rattle.client_files.specs.Caches.{HasCache};
ghost use Rattle.client_files.specs.Holding.{granting_credential};
ghost use Rattle.command_line.specs.declared.status.Status.TheVariants.{Done};
ghost use Rattle.kclient.specs.Words.{IsCacheNamed, text_of};
ghost use Rattle.kclient.specs.Worlds.{CameFurther, IsRenewed, Made};

use crate::context::Context;
use crate::kinit::{generator, write_new};
use crate::places::{Granting, cache_path, use_given_kdcs, use_kdcs_of};
use crate::run::Printed;
use clap::ArgMatches;
use client_files::{ClientError, ClientStore, Host, StepError, at, granting_ticket, read_cache};
use client_login::{AnyMessage, Renewal};
use cred_files::{Cache, Credential};
use krb_fields::TicketFlag;
use rand_chacha::ChaCha20Rng;
use std::alloc::Global;

/// Gets the cache's ticket-granting ticket again, and writes a new cache with it. After an `Err` no file is changed.
#[tactic(auto, using(crate::proofs::Doing::renewed_there))]
pub(crate) fn renew_ticket<T: ClientStore, X: AnyMessage>(
    context: &mut Context<T, X>,
    cache: Option<&str>,
    options: &ArgMatches<'_>,
    host: &Host<'_>,
    renewal: Renewal,
) -> Result<Printed, ClientError>
    // Promise (made, status, unchanged): `kinit --renew` and `--validate` make a cache of the ticket that came under
    // the session key of the cache's; a refused one changes no file.
    ensures made { OnOk result (Made (IsRenewed (CameFurther X.finds X.carries X.answers) (T.world context.old.store))
        (IsCacheNamed (text_of cache.entry) host.now) (T.world context.old.store) (T.world context.new.store)) }
    ensures status { IfOk result (λ printed. printed.status ≡ Done) }
    ensures unchanged { OnErr result (T.world context.new.store ≡ T.world context.old.store) }
{
    let path = cache_path(context.alloc, cache, host)?;
    let held = read_held(context, path, options)?;
    let mut rng = generator(context.alloc, &mut context.store, options)?;
    let path = held.path.as_str();
    let credential = renewable(context.alloc, path, &held.cache, renewal)?;
    use_kdcs_of(context, host, held.cache.principal().realm.as_slice())?;
    renew_from(context, &mut rng, &Granting { path, credential }, renewal)
}

/// A cache, and its path.
#[derive(Drop)]
struct HeldCache {
    path: String,
    cache: Cache,
}

fn read_held<T: ClientStore, X>(
    context: &mut Context<T, X>,
    path: String,
    options: &ArgMatches<'_>,
) -> Result<HeldCache, ClientError>
    ensures path { IfOk result (λ held. held.path ≡ path) }
    ensures held { IfOk result (λ held. HasCache (T.world context.old.store) (string_bytes path) held.cache) }
    ensures store { T.world context.new.store ≡ T.world context.old.store }
{
    let alloc = context.alloc;
    use_given_kdcs(alloc, &mut context.client.kdcs, options)?;
    let cache = read_cache(alloc, &mut context.store, path.as_str())?;
    Ok(HeldCache { path, cache })
}

/// Gets the ticket again, and writes a new cache with it. After an `Err` no file is changed.
#[tactic(auto, using(crate::proofs::Doing::made))]
fn renew_from<T: ClientStore, X: AnyMessage>(
    context: &mut Context<T, X>,
    rng: &mut ChaCha20Rng,
    granting: &Granting<'_>,
    renewal: Renewal,
) -> Result<Printed, ClientError>
    ensures made { OnOk result (Made (λ path. CameFurther X.finds X.carries X.answers granting.now.credential.now)
        (λ path. path ≡ granting.now.path.now)
        (T.world context.old.store) (T.world context.new.store)) }
    ensures status { IfOk result (λ printed. printed.status ≡ Done) }
    ensures unchanged { OnErr result (T.world context.new.store ≡ T.world context.old.store) }
{
    let credential = renewed(context, rng, granting, renewal)?;
    write_new(context, granting.path, &credential)
}

/// Requests the ticket again, renewed or validated; once more, if the KDC's time is taken.
#[tactic(auto, using(crate::proofs::Doing::came_further))]
fn renewed<T, X: AnyMessage>(
    context: &mut Context<T, X>,
    rng: &mut ChaCha20Rng,
    granting: &Granting<'_>,
    renewal: Renewal,
) -> Result<Credential, ClientError>
    ensures came { IfOk result (λ ticket.
        CameFurther X.finds X.carries X.answers granting.now.credential.now ticket) }
    ensures store { context.new.store ≡ context.old.store }
{
    match context.client.renew(rng, granting.credential, renewal) {
        Ok(credential) => return Ok(credential),
        Err(fault) => context.take_clock(granting.path, fault)?,
    }
    match context.client.renew(rng, granting.credential, renewal) {
        Ok(credential) => Ok(credential),
        Err(fault) => Err(context.fault(granting.path, fault)),
    }
}

/// Returns the cache's ticket-granting ticket. Fails if it is to be renewed and is not renewable.
fn renewable<'c>(
    alloc: Global,
    path: &str,
    cache: &'c Cache,
    renewal: Renewal,
) -> Result<&'c Credential, ClientError>
    ensures { IfOk result (λ granting. granting_credential cache.now ≡ Some granting.now) }
{
    let granting = at(alloc, path, granting_ticket(alloc, cache))?;
    match renewal {
        Renewal::Renew if !granting.flags.has(TicketFlag::Renewable) => {
            Err(ClientError::new(alloc, path, StepError::NotRenewable))
        }
        _ => Ok(granting),
    }
}

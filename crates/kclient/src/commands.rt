//! The command that the words of a command line spell.
ghost use Rattle.std.specs.Prelude.{◌≡◌, IfOk, Some, codes};
ghost use Rattle.command_line.specs.Values.{texts};
ghost use Rattle.kclient.specs.Words.{IsKindSpelled, Spells, command_of};

use crate::names::principal_names;
use crate::values::{CACHE, REALM, command_of, has_flag, value_of};
use client_files::ClientError;
use client_login::Renewal;
use std::alloc::Global;

/// What a command line asks for.
#[derive(Drop)]
pub(crate) struct Command<'a> {
    pub kind: CommandKind,
    /// The name of the cache. Without one it is the default cache.
    pub cache: Option<&'a str>,
    /// The names of principals: the client of `kinit`, the services of `kvno`.
    pub names: Vec<&'a str>,
    /// The value of `--realm`.
    pub realm: Option<&'a str>,
}

/// What a command does.
#[derive(Clone, Copy)]
pub(crate) enum CommandKind {
    /// Gets a first ticket.
    Kinit,
    /// Gets the ticket-granting ticket again.
    Renew(Renewal),
    /// Gets tickets for services.
    Kvno,
    /// Lists a cache or a keytab.
    Klist,
    /// Removes a cache.
    Kdestroy,
}

// The text after `error:` if the words spell no command.

pub(crate) const NO_COMMAND: &str = "a command is missing";

const TWO_WAYS: &str = "--renew and --validate don't go together";

/// Returns the command that the words spell.
pub(crate) fn read_command<'a>(alloc: Global, words: &[&'a str]) -> Result<Command<'a>, ClientError>
    // Promise: the command is the second word; the value of an option is the next word, or what follows `=`; behind
    // `--` there is no option; a name is a word that is neither, or the value of `--name`.
    ensures { IfOk result (λ command. Spells (texts words.now) command) }
{
    let Some(name) = command_of(words) else {
        return Err(ClientError::usage(NO_COMMAND));
    };
    let kind = kind_of(name, words)?;
    Ok(Command {
        kind,
        cache: value_of(words, CACHE),
        realm: value_of(words, REALM),
        names: principal_names(alloc, words)?,
    })
}

/// Returns what the command with this name does.
fn kind_of(name: &str, words: &[&str]) -> Result<CommandKind, ClientError>
    ensures { command_of (texts words.now) ≡ Some name.now
        → IfOk result (λ kind. IsKindSpelled (texts words.now) kind) }
{
    if name == "kinit" {
        return kinit_kind(words);
    }
    if name == "kvno" {
        return Ok(CommandKind::Kvno);
    }
    if name == "klist" {
        return Ok(CommandKind::Klist);
    }
    if name == "kdestroy" {
        return Ok(CommandKind::Kdestroy);
    }
    Err(ClientError::usage(NO_COMMAND))
}

/// Returns what `kinit` does.
fn kinit_kind(words: &[&str]) -> Result<CommandKind, ClientError>
    ensures { command_of (texts words.now) ≡ Some (codes "kinit")
        → IfOk result (λ kind. IsKindSpelled (texts words.now) kind) }
{
    match (has_flag(words, "--renew"), has_flag(words, "--validate")) {
        (true, true) => Err(ClientError::usage(TWO_WAYS)),
        (true, false) => Ok(CommandKind::Renew(Renewal::Renew)),
        (false, true) => Ok(CommandKind::Renew(Renewal::Validate)),
        (false, false) => Ok(CommandKind::Kinit),
    }
}

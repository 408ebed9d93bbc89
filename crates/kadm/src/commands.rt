//! The commands of `kadm`: all that their tables have, and the command that the words of a command line give.
ghost use Rattle.std.specs.Prelude.{◌≡◌, IfOk, Some, codes};
ghost use Rattle.kadm_changes.specs.Texts.{texts};
ghost use Rattle.kadm.specs.Words.{IsKindSpelled, Spells, command_of};
ghost use Rattle.kadm_changes.specs.Asking.{all_asked};
ghost use Rattle.kadm.specs.Assigning.{settings_of};
ghost use Rattle.kadm.specs.Types.{AreTypesAsked};
ghost use Rattle.kadm.specs.Values.{has_flag, value_of, values_of};

use crate::assigning::read_settings;
use crate::key_types::key_types;
use crate::printing::{PrintCommand, print_command, with_prints};
use crate::restoring::RESTORE_NAME;
use crate::usage::{NO_COMMAND, UsageError, required};
use crate::values::{DB, NAME, has_flag, option_values};
use crate::words::command_of;
use crate::writing::{WriteCommand, with_changes, with_later_changes, write_command};
use clap::error::Error;
use clap::{ArgMatches, Command as Parser};
use file_store::NewMode;
use kadm_changes::Target;
use std::alloc::{AllocError, Global};

const EXAMPLE: &str = "\
A first realm:
  kadm init --db database --realm EXAMPLE.COM
  kadm add --db database --name alice
  kadm add --db database --name host/www.example.com --random
  kadm keytab --db database --name host/www.example.com --out www.keytab
  kadm list --db database

Each command prints `ok`; `list`, `lint` and `show` print what they found. A command that is refused prints `refused`
and the reason, with status 1. If a file can't be read or written, or memory runs out, it prints `failed`, with
status 3. Standard error then says which name or file, and why. A usage error has status 2.

Without --db the database is the file that KADM_DB names in the environment.

A name is components joined by `/`. Write `/`, `\\` and `@` inside a component, and all bytes other than 21 to 7e, as
`\\` and two lower case hexadecimal digits.";

/// The option that allows a command to end the whole realm.
pub(crate) const WHOLE_REALM: &str = "--whole-realm";

/// What one command line asks for.
#[derive(Drop)]
pub(crate) struct Command<'a> {
    pub target: Target<'a>,
    pub kind: CommandKind<'a>,
}

/// What a command does. Paths and names are the command line's.
#[derive(Clone, Copy)]
pub(crate) enum CommandKind<'a> {
    Print(PrintCommand<'a>),
    Write(WriteCommand<'a>),
}

/// Parses the command line, whose first word is the program's name. Its values are then where `option_value` finds
/// them: the parser takes no word that begins with `--` as a value, and no option twice.
pub(crate) fn read_args<'a>(alloc: Global, words: &'a [&'a str]) -> Result<ArgMatches<'a>, Error> {
    parser(alloc)?.try_get_matches_from(words)
}

/// Returns the parser, with all commands in the order of the help.
fn parser<'a>(alloc: Global) -> Result<Parser<'a>, AllocError> {
    let kadm = Parser::new(alloc, "kadm")
        .about("Makes, changes and lists the database of a Kerberos realm")
        .after_help(EXAMPLE);
    let kadm = with_changes(alloc, kadm)?;
    let kadm = with_prints(alloc, kadm)?;
    with_later_changes(alloc, kadm)
}

/// Returns the command that the words give.
pub(crate) fn read_command<'a>(
    alloc: Global,
    words: &'a [&'a str],
) -> Result<Command<'a>, UsageError<'a>>
    // Promise: the command is read from the words, once: all names, with or without `--name`, the paths, all fields and
    // their values, and the types of new keys.
    ensures { IfOk result (λ command. Spells (texts words.now) command) }
{
    let Some(command) = command_of(words) else {
        return Err(UsageError::BadValue(NO_COMMAND));
    };
    let kind = command_kind(command, words)?;
    match read_target(alloc, words) {
        Ok(target) => Ok(Command { target, kind }),
        Err(fault) => Err(fault),
    }
}

/// Returns what the command works on.
fn read_target<'a>(alloc: Global, words: &'a [&'a str]) -> Result<Target<'a>, UsageError<'a>>
    ensures db { IfOk result (λ target. value_of (texts words.now) (codes "--db") ≡ Some target.db.now) }
    ensures names { IfOk result (λ target. texts target.names.items ≡ values_of (texts words.now) (codes "--name")) }
    ensures settings { IfOk result (λ target. all_asked target.settings.items ≡ settings_of (texts words.now)) }
    ensures etypes { IfOk result (λ target. AreTypesAsked (value_of (texts words.now) (codes "--types"))
        target.etypes.items) }
    ensures whole_realm { IfOk result (λ target. target.whole_realm
        ≡ has_flag (texts words.now) (codes "--whole-realm")) }
{
    let db = required(words, DB, NO_COMMAND)?;
    let etypes = key_types(alloc, words)?;
    let (Ok(names), Ok(settings)) = (
        option_values(alloc, words, NAME),
        read_settings(alloc, words),
    ) else {
        return Err(UsageError::Memory);
    };
    Ok(Target {
        db,
        names,
        settings,
        etypes,
        mode: new_mode(words),
        whole_realm: has_flag(words, WHOLE_REALM),
    })
}

/// Returns the mode of a file that the command changes. A restore keeps it.
fn new_mode(words: &[&str]) -> NewMode {
    if has_flag(words, "--keep-mode") || command_of(words) == Some(RESTORE_NAME) {
        NewMode::Kept
    } else {
        NewMode::OwnerOnly
    }
}

/// Returns what the command does.
fn command_kind<'a>(command: &str, words: &'a [&'a str]) -> Result<CommandKind<'a>, UsageError<'a>>
    ensures { command_of (texts words.now) ≡ Some command.now
        → IfOk result (λ kind. IsKindSpelled (texts words.now) kind) }
{
    match print_command(command, words)? {
        Some(print) => Ok(CommandKind::Print(print)),
        None => Ok(CommandKind::Write(write_command(command, words)?)),
    }
}

//! The commands that only print: the row of each, its words and how it is run.
ghost use Rattle.std.specs.Prelude.{◌≡◌, IfOk, IfSome, Some, codes};
ghost use Rattle.kadm_changes.specs.Texts.{texts};
ghost use Rattle.kadm.specs.Words.{IsPrintSpelled, command_of, shows_some};
ghost use Rattle.kadm.specs.Printed.{IsPrinted, IsPrintedOf};
ghost use Rattle.kadm.specs.declared.printing.PrintCommand.TheVariants as prints;

use crate::checking::print_check;
use crate::linting::{LintArgs, print_lint};
use crate::listing::{ListArgs, print_list};
use crate::options::DATABASE;
use crate::showing::{ShowArgs, print_rows};
use crate::usage::UsageError;
use crate::values::{NAME, has_flag, option_value};
use crate::words::is_given;
use clap::Command as Parser;
use command_line::{FlagRow, OptionRow, Status, SubcommandRow, Times, with_subcommands};
use file_store::Store;
use kadm_changes::{Context, EarlyEnd, Target};
use std::alloc::{AllocError, Global};
use std::convert::AsStr;
use std::io::Write;

/// The rows of the commands that only print.
const PRINTS: &[SubcommandRow] = &[
    SubcommandRow {
        name: "list",
        about: "Prints a line for each principal: its name, its current key version, and the types of its keys",
        options: &[DATABASE, LIKE],
        flags: &[LONGS, JSONS],
    },
    SubcommandRow {
        name: "lint",
        about: "Prints what to check, with the command that mends it: \
                rights on the file, what has expired, weak or older keys, and tickets for users",
        options: &[DATABASE],
        flags: &[CHECKS, JSON_FINDINGS],
    },
    SubcommandRow {
        name: "show",
        about: "Prints the policy of principals, and their key versions with their types",
        options: &[DATABASE, SHOWN, LIKE],
        flags: &[JSONS],
    },
    SubcommandRow {
        name: "check",
        about: "Prints the realm, the number of rows and the version of a database, and the lines of lint; \
                refuses a file that is none",
        options: &[DATABASE],
        flags: &[],
    },
];

const LIKE: OptionRow = OptionRow {
    name: "like",
    shape: "PATTERN",
    help: "Prints only the principals whose names match; `*` matches any bytes, as in 'host/*'",
    times: Times::AtMostOnce,
};

const LONGS: FlagRow = FlagRow {
    name: "long",
    help: "Also prints expires, password_expires, disabled, the number of key versions, and service",
};

const JSONS: FlagRow = FlagRow {
    name: "json",
    help: "Prints each principal as a JSON object on a line: its policy and its key versions with their types",
};

const SHOWN: OptionRow = OptionRow {
    name: "name",
    shape: "NAME",
    help: "A principal's name, without its realm; with more of them, each is shown, or none",
    times: Times::Any,
};

/// What follows `error:` if `show` has no principal, or has names and a pattern.
const NONE_SHOWN: &str = "show takes names, by --name or as plain words, or else --like";

const CHECKS: FlagRow = FlagRow {
    name: "check",
    help: "Ends with status 1 if there is a line, for a job that looks each night",
};

const JSON_FINDINGS: FlagRow = FlagRow {
    name: "json",
    help: "Prints each line as a JSON object, with name, finding, detail and mend",
};

/// Adds the commands that only print.
pub(crate) fn with_prints<'a>(alloc: Global, kadm: Parser<'a>) -> Result<Parser<'a>, AllocError> {
    with_subcommands(alloc, kadm, PRINTS)
}

/// A command that prints what a database has.
#[derive(Clone, Copy)]
pub(crate) enum PrintCommand<'a> {
    /// A line for each principal.
    List(ListArgs<'a>),
    /// A line for each oddity of a principal.
    Lint(LintArgs),
    /// Whole rows.
    Show(ShowArgs<'a>),
    /// Whether a file is a database.
    Check,
}

/// Returns what the command prints. `None` if it is a command that writes.
pub(crate) fn print_command<'a>(
    command: &str,
    words: &'a [&'a str],
) -> Result<Option<PrintCommand<'a>>, UsageError<'a>>
    ensures { command_of (texts words.now) ≡ Some command.now
        → IfOk result (λ found. IfSome found (λ print. IsPrintSpelled (texts words.now) print)) }
{
    match command {
        "list" => Ok(Some(PrintCommand::List(ListArgs {
            like: option_value(words, "--like"),
            long: has_flag(words, "--long"),
            json: has_flag(words, "--json"),
        }))),
        "lint" => Ok(Some(PrintCommand::Lint(LintArgs {
            check: has_flag(words, "--check"),
            json: has_flag(words, "--json"),
        }))),
        "show" => Ok(Some(show_args(words)?)),
        "check" => Ok(Some(PrintCommand::Check)),
        _ => Ok(None),
    }
}

/// Returns which rows to show. Fails unless there are either names or a pattern.
fn show_args<'a>(words: &'a [&'a str]) -> Result<PrintCommand<'a>, UsageError<'a>>
    ensures { command_of (texts words.now) ≡ Some (codes "show")
        → IfOk result (λ print. IsPrintSpelled (texts words.now) print) }
{
    if !shows_some(words) {
        return Err(UsageError::BadValue(NONE_SHOWN));
    }
    Ok(PrintCommand::Show(ShowArgs {
        like: option_value(words, "--like"),
        json: has_flag(words, "--json"),
    }))
}

/// Checks whether the words have names or a pattern, and not both.
fn shows_some(words: &[&str]) -> bool
    ensures { result ≡ shows_some (texts words.now) }
{
    if is_given(words, NAME) {
        return !is_given(words, "--like");
    }
    is_given(words, "--like")
}

/// Runs a command that only prints.
#[tactic(auto, using(crate::proofs::ReadDatabases::check_printed))]
pub(crate) fn run_print<'a, T: Store, W: Write, E: Write>(
    context: &mut Context<W, E>,
    store: &mut T,
    target: &Target<'a>,
    print: PrintCommand<'a>,
) -> Result<Status, EarlyEnd<'a>>
    // Promise: `list`, `lint`, `show` and `check` print what they found, with status `Done`, only of a database; `show`
    // only if that has each principal that the words name.
    ensures read { IfOk result (λ status. IsPrintedOf
        (T.world store.old) target.now.db.now (texts target.now.names.items) print.entry) }
    // Promise (printed, unchanged): these four leave all as it was; a `Refused` that is no refusal comes only from
    // `lint --check`.
    ensures printed { IfOk result (λ status. IsPrinted status print.entry) }
    ensures unchanged { T.world store.new ≡ T.world store.old }
{
    match print {
        PrintCommand::List(list) => {
            print_list(context, store, target.db, list)?;
            Ok(Status::Done)
        }
        PrintCommand::Lint(lint) => {
            let found = print_lint(context, store, target.db, lint)?;
            Ok(lint_status(lint, found))
        }
        PrintCommand::Show(show) => {
            print_rows(context, store, target, show)?;
            Ok(Status::Done)
        }
        PrintCommand::Check => {
            print_check(context, store, target.db)?;
            Ok(Status::Done)
        }
    }
}

/// Returns the status of `lint`. Lines are no refusal unless they are asked for as one.
fn lint_status(lint: LintArgs, found: bool) -> Status
    ensures { IsPrinted result (prints.Lint lint) }
{
    if lint.check && found {
        Status::Refused
    } else {
        Status::Done
    }
}

//! The subcommands of a program's command line and their options, as tables.
#![tactic(auto)]

use crate::status::Status;
use clap::builder::ValueParser;
use clap::error::Error;
use clap::{Arg, ArgAction, Command};
use file_store::VERSION;
use std::alloc::{AllocError, Global};

/// The shape of a file's path. An empty value is a usage error that names the option.
const FILE: &str = "FILE";

/// The number of times that an option may appear on a command line.
#[derive(Clone, Copy, Debug, PartialEq, Eq)]
pub enum Times {
    /// Not at all, or once.
    AtMostOnce,
    /// Once.
    Once,
    /// Once or more often.
    AtLeastOnce,
    /// Any number of times.
    Any,
}

impl Times {
    /// Checks whether the option is required.
    fn is_needed(self) -> bool {
        self == Times::Once || self == Times::AtLeastOnce
    }

    /// Returns what a further value does.
    fn action(self) -> ArgAction {
        match self {
            Times::AtMostOnce | Times::Once => ArgAction::Set,
            Times::AtLeastOnce | Times::Any => ArgAction::Append,
        }
    }
}

/// The words of an option with a value.
#[derive(Clone, Copy)]
pub struct OptionRow {
    /// The word after `--`, which is also the name that finds the value.
    pub name: &'static str,
    /// The placeholder for its value in the help. For a file's path it is `FILE`.
    pub shape: &'static str,
    /// The help for the value.
    pub help: &'static str,
    /// How often it may appear on a command line.
    pub times: Times,
}

/// The words of an option without a value, which is present or not.
#[derive(Clone, Copy)]
pub struct FlagRow {
    /// The word after `--`, or after `-` if it is one letter.
    pub name: &'static str,
    /// What the help says about it.
    pub help: &'static str,
}

/// The words of a subcommand.
#[derive(Clone, Copy)]
pub struct SubcommandRow {
    /// The word for it on the command line.
    pub name: &'static str,
    /// What the subcommand does.
    pub about: &'static str,
    /// Its options with a value.
    pub options: &'static [OptionRow],
    /// Its options without a value.
    pub flags: &'static [FlagRow],
}

/// Returns the status of a program whose command line `clap` does not accept. A command line that asks for help or for
/// the version is no error.
pub fn parse_status(error: &Error) -> Status {
    if error.exit_code() == 0 {
        Status::Done
    } else {
        Status::Usage
    }
}

/// Returns the command with its version and these subcommands. One of them is required.
pub fn with_subcommands<'a>(
    alloc: Global,
    command: Command<'a>,
    table: &[SubcommandRow],
) -> Result<Command<'a>, AllocError> {
    let mut command = command.version(VERSION).subcommand_required(true);
    for row in table {
        command = command.subcommand(subcommand(alloc, row)?)?;
    }
    Ok(command)
}

/// Returns the subcommand of a row, with its options and flags.
pub fn subcommand<'a>(alloc: Global, row: &SubcommandRow) -> Result<Command<'a>, AllocError> {
    let command = Command::new(alloc, row.name).about(row.about);
    let command = with_options(alloc, command, row.options)?;
    with_flags(alloc, command, row.flags)
}

/// Returns the command with these options.
pub fn with_options<'a>(
    alloc: Global,
    mut command: Command<'a>,
    options: &[OptionRow],
) -> Result<Command<'a>, AllocError> {
    for row in options {
        command = command.arg(option(alloc, row))?;
    }
    Ok(command)
}

/// Returns the command with these flags.
pub fn with_flags<'a>(
    alloc: Global,
    mut command: Command<'a>,
    flags: &[FlagRow],
) -> Result<Command<'a>, AllocError> {
    for row in flags {
        command = command.arg(flag(alloc, row))?;
    }
    Ok(command)
}

fn option<'a>(alloc: Global, row: &OptionRow) -> Arg<'a> {
    let option = Arg::new(alloc, row.name)
        .long(row.name)
        .value_name(row.shape)
        .action(row.times.action())
        .required(row.times.is_needed())
        // So that the code that reads the value names the option if the value is invalid.
        .allow_negative_numbers(true)
        .help(row.help);
    if row.shape == FILE {
        option.value_parser(ValueParser::NonEmptyString)
    } else {
        option
    }
}

fn flag<'a>(alloc: Global, row: &FlagRow) -> Arg<'a> {
    let flag = Arg::new(alloc, row.name)
        .action(ArgAction::SetTrue)
        .help(row.help);
    match letter(row.name) {
        Some(letter) => flag.short(letter),
        None => flag.long(row.name),
    }
}

/// Returns the letter that a name consists of, if it is one letter.
fn letter(name: &str) -> Option<char> {
    let mut letters = name.chars();
    match (letters.next(), letters.next()) {
        (Some(letter), None) => Some(letter),
        _ => None,
    }
}

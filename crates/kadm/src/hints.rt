//! What was probably meant by a word that the parser doesn't know. It finds words with a similar spelling itself.

use clap::error::{Error, ErrorKind};
use std::alloc::{AllocError, Global};
use std::io;
use std::io::Write;
use text_fields::field_kind;

/// What a word is called here.
#[derive(Clone, Copy)]
struct Meant {
    word: &'static str,
    is: &'static str,
}

impl Meant {
    fn new(word: &'static str, is: &'static str) -> Meant {
        Meant { word, is }
    }
}

/// What the parser says before a word that it doesn't know.
const BEFORE_WORD: &str = "unexpected argument '";

/// Explains an error of the parser in words of this program, if a word of it is known by another name. Ignores a failed
/// write, and says nothing if memory runs out.
pub(crate) fn explain<E: Write>(alloc: Global, errors: &mut E, words: &[&str], error: &Error) {
    let command = words.get(1).copied().unwrap_or("");
    let _ = match error.kind() {
        ErrorKind::InvalidSubcommand => explain_command(errors, command),
        ErrorKind::UnknownArgument => {
            match unknown_word(alloc, error) {
                Ok(text) => explain_word(errors, command, word_in(&text)),
                Err(_) => Ok(()),
            }
        }
        _ => Ok(()),
    };
}

/// Returns what the parser says, from the unknown word on.
fn unknown_word(alloc: Global, error: &Error) -> Result<String, AllocError> {
    let text = format!(in alloc; "{error}")?;
    match text.split_once(BEFORE_WORD) {
        Some((_, rest)) => String::from_str(alloc, rest),
        None => Ok(String::new(alloc)),
    }
}

/// Returns the word before the closing quote.
fn word_in(text: &str) -> &str {
    match text.split_once('\'') {
        Some((word, _)) => word,
        None => "",
    }
}

/// Says which command a command of MIT's or Heimdal's `kadmin`, or a common word, is.
fn explain_command<E: Write>(errors: &mut E, command: &str) -> io::Result<()> {
    match command_meant(command) {
        Some(is) => writeln!(errors, "kadm: the command is `kadm {is}`"),
        None => Ok(()),
    }
}

/// Says what a word after a command is.
fn explain_word<E: Write>(errors: &mut E, command: &str, word: &str) -> io::Result<()> {
    if word.is_empty() {
        return Ok(());
    }
    let Some(option) = word.strip_prefix("--") else {
        return explain_alone(errors, command, word);
    };
    if field_kind(option).is_some() {
        return writeln!(
            errors,
            "kadm: a field of a policy is set by `--set {option}=VALUE`"
        );
    }
    match option_meant(option) {
        Some(is) => writeln!(errors, "kadm: {is}"),
        None => Ok(()),
    }
}

/// Says what a word alone is, for a command that takes none.
fn explain_alone<E: Write>(errors: &mut E, command: &str, word: &str) -> io::Result<()> {
    match command {
        "list" => writeln!(
            errors,
            "kadm: `kadm show {word}` shows one principal; `kadm list --like '{word}*'` lists those that match"
        ),
        "init" => writeln!(errors, "kadm: the realm is named by `--realm {word}`"),
        "restore" => writeln!(errors, "kadm: the file is named by `--from {word}`"),
        "import" => writeln!(errors, "kadm: a principal is named by `--name {word}`"),
        "lint" | "migrate" | "batch" => {
            writeln!(errors, "kadm: the database is named by `--db {word}`")
        }
        _ => Ok(()),
    }
}

/// Returns the command that a word means.
fn command_meant(word: &str) -> Option<&'static str> {
    let known = [
        Meant::new("addprinc", "add"),
        Meant::new("add_principal", "add"),
        Meant::new("ank", "add"),
        Meant::new("create", "add"),
        Meant::new("delprinc", "remove"),
        Meant::new("delete_principal", "remove"),
        Meant::new("delete", "remove"),
        Meant::new("del", "remove"),
        Meant::new("rm", "remove"),
        Meant::new("modprinc", "policy"),
        Meant::new("modify_principal", "policy"),
        Meant::new("modify", "policy"),
        Meant::new("cpw", "passwd"),
        Meant::new("change_password", "passwd"),
        Meant::new("getprinc", "show"),
        Meant::new("get_principal", "show"),
        Meant::new("get", "show"),
        Meant::new("listprincs", "list"),
        Meant::new("list_principals", "list"),
        Meant::new("ls", "list"),
        Meant::new("ktadd", "keytab"),
        Meant::new("ext_keytab", "keytab"),
        Meant::new("purgekeys", "drop --older"),
        Meant::new("load", "import --dump"),
    ];
    meant_by(&known, word)
}

/// Returns how to write what an option means.
fn option_meant(word: &str) -> Option<&'static str> {
    let known = [
        Meant::new(
            "principal",
            "a principal is a word alone, or follows --name",
        ),
        Meant::new("user", "a principal is a word alone, or follows --name"),
        Meant::new("username", "a principal is a word alone, or follows --name"),
        Meant::new("randkey", "random keys are those of --random"),
        Meant::new(
            "expire",
            "a time after which it gets no tickets follows --expires",
        ),
        Meant::new(
            "expiry",
            "a time after which it gets no tickets follows --expires",
        ),
        Meant::new(
            "policy",
            "a field of a policy is set by `kadm policy --set FIELD=VALUE`",
        ),
        Meant::new("force", "kadm asks no question: leave the option away"),
        Meant::new("yes", "kadm asks no question: leave the option away"),
    ];
    meant_by(&known, word)
}

/// Returns what a word is called here, if it is known.
fn meant_by(known: &[Meant], word: &str) -> Option<&'static str> {
    for each in known {
        if each.word == word {
            return Some(each.is);
        }
    }
    None
}

//! The words of a command line, and the values of the options among them.
ghost use Rattle.std.specs.Prelude.{◌≡◌, IfOk, false, map, option_map, string_bytes};
ghost use Rattle.command_line.specs.Values.{texts};
ghost use Rattle.kclient.specs.Words.{asks_help, begins_help, command_of, has_flag, has_flag_in, is_end, is_flag};
ghost use Rattle.kclient.specs.Words.{is_value_next, takes_file, takes_value, value_of};

use command_line::value_at;
use std::alloc::{AllocError, Global};

/// The option that names a cache.
pub(crate) const CACHE: &str = "--cache";

/// The option that names a principal.
pub(crate) const NAME: &str = "--name";

/// The option that names a realm.
pub(crate) const REALM: &str = "--realm";

/// The word behind which there is no option.
pub(crate) const END: &str = "--";

/// Returns the words as texts.
pub(crate) fn words_of(alloc: Global, args: &[String]) -> Result<Vec<&str>, AllocError>
    ensures { IfOk result (λ words. texts words.items ≡ map string_bytes args.now) }
{
    let mut words = Vec::new(alloc);
    for arg in args {
        words.push(arg.as_str())?;
    }
    Ok(words)
}

/// Returns the name of the subcommand, which follows that of the program.
pub(crate) fn command_of<'a>(words: &[&'a str]) -> Option<&'a str>
    ensures { option_map (λ command. command.now) result ≡ command_of (texts words.now) }
{
    words.get(1).copied()
}

/// Returns the value of an option such as `--cache`: the word after it, or what follows it and an equals sign; of
/// several the first.
pub(crate) fn value_of<'a>(words: &[&'a str], option: &str) -> Option<&'a str>
    // Promise, as read_command: the command is the ..
    ensures { option_map (λ value. value.now) result ≡ value_of (texts words.now) option.now }
{
    let mut rest = words;
    while let [word, others @ ..] = rest {
        if *word == END {
            return None;
        }
        if let Some(value) = value_at(option, word, others) {
            return Some(value);
        }
        rest = others;
    }
    None
}

/// Checks whether an option without a value is there.
pub(crate) fn has_flag(words: &[&str], flag: &str) -> bool
    // Promise, as read_command: the command is the ..
    ensures { result ≡ has_flag (texts words.now) flag.now }
{
    match words {
        [_, others @ ..] => has_flag_in(others, flag),
        [] => false,
    }
}

/// Checks whether an option without a value is among the words after the program's name.
fn has_flag_in(words: &[&str], flag: &str) -> bool
    ensures { result ≡ has_flag_in false (texts words.now) flag.now }
{
    let mut rest = words;
    let mut is_value = false;
    while let [word, others @ ..] = rest {
        if is_end(word, is_value) {
            return false;
        }
        if is_flag(word, is_value, flag) {
            return true;
        }
        is_value = is_value_next(word, is_value);
        rest = others;
    }
    false
}

/// Checks whether a word is this flag, and not the value of an option.
fn is_flag(word: &str, is_value: bool, flag: &str) -> bool
    ensures { result ≡ is_flag is_value word.now flag.now }
{
    !is_value && word == flag
}

/// Checks whether no option follows a word.
pub(crate) fn is_end(word: &str, is_value: bool) -> bool
    ensures { result ≡ is_end is_value word.now }
{
    !is_value && word == END
}

/// Checks whether the word after this one is the value of an option.
pub(crate) fn is_value_next(word: &str, is_value: bool) -> bool
    ensures { result ≡ is_value_next is_value word.now }
{
    !is_value && takes_value(word)
}

/// Checks whether a word is an option whose value is the next word.
fn takes_value(word: &str) -> bool
    ensures { result ≡ takes_value word.now }
{
    word == "--kdc"
        || word == REALM
        || word == NAME
        || word == "--service"
        || word == "--life"
        || word == "--start"
        || word == "--least-count"
        || takes_file(word)
}

/// Checks whether a word is an option whose value is the path of a file.
fn takes_file(word: &str) -> bool
    ensures { result ≡ takes_file word.now }
{
    word == CACHE || word == "--keytab" || word == "--password-file" || word == "--seed"
}

/// Checks whether the subcommand is `help`.
fn begins_help(words: &[&str]) -> bool
    ensures { result ≡ begins_help (texts words.now) }
{
    match command_of(words) {
        Some(command) => command == "help",
        None => false,
    }
}

/// Checks whether the words ask for the help or the version.
pub(crate) fn asks_help(words: &[&str]) -> bool
    // Promise, as read_command: the command is the ..
    ensures { result ≡ asks_help (texts words.now) }
{
    begins_help(words)
        || has_flag(words, "--help")
        || has_flag(words, "-h")
        || has_flag(words, "--version")
        || has_flag(words, "-V")
}

//! The names of principals among the words of a command line.
ghost use Rattle.std.specs.Prelude.{◌≡◌, ◌++◌, IfOk, OnOk, false};
ghost use Rattle.command_line.specs.Values.{texts};
ghost use Rattle.kclient.specs.Words.{is_option, listed, name_at, names_of, plain_words, text_of, values_of};

use crate::values::{END, NAME, is_end, is_value_next};
use command_line::value_at;
use std::alloc::{AllocError, Global};

/// Returns the names of principals: the plain words after the command, and then the values of `--name`.
pub(crate) fn principal_names<'a>(
    alloc: Global,
    words: &[&'a str],
) -> Result<Vec<&'a str>, AllocError>
    // Promise, as read_command: the command is the ..
    ensures { IfOk result (λ names. texts names.items ≡ names_of (texts words.now)) }
{
    let mut names = Vec::new(alloc);
    let [_, _, others @ ..] = words else {
        return Ok(names);
    };
    push_plain(&mut names, others)?;
    push_values(&mut names, others, NAME)?;
    Ok(names)
}

/// Adds the words that are neither options nor their values.
fn push_plain<'a>(names: &mut Vec<&'a str>, words: &[&'a str]) -> Result<(), AllocError>
    ensures { OnOk result (texts names.new.items ≡ texts names.old.items ++ plain_words false (texts words.now)) }
{
    let mut rest = words;
    let mut is_value = false;
    while let [word, others @ ..] = rest {
        if is_end(word, is_value) {
            return push_all(names, others);
        }
        push_name(names, word, is_value)?;
        is_value = is_value_next(word, is_value);
        rest = others;
    }
    Ok(())
}

fn push_all<'a>(names: &mut Vec<&'a str>, words: &[&'a str]) -> Result<(), AllocError>
    ensures { OnOk result (texts names.new.items ≡ texts names.old.items ++ texts words.now) }
{
    names.extend_from_slice(words)?;
    Ok(())
}

/// Adds a word if it is neither an option nor the value of one.
fn push_name<'a>(names: &mut Vec<&'a str>, word: &'a str, is_value: bool) -> Result<(), AllocError>
    ensures { OnOk result (texts names.new.items ≡ texts names.old.items ++ name_at is_value word.now) }
{
    if !is_value && !is_option(word) {
        names.push(word)?;
    }
    Ok(())
}

/// Checks whether a word is an option: it begins with a hyphen, and has more.
fn is_option(word: &str) -> bool
    ensures { result ≡ is_option word.now }
{
    match word.as_bytes() {
        [octet, _, ..] => *octet == b'-',
        _ => false,
    }
}

/// Adds the values of an option, in their order.
fn push_values<'a>(
    values: &mut Vec<&'a str>,
    words: &[&'a str],
    option: &str,
) -> Result<(), AllocError>
    ensures { OnOk result (texts values.new.items ≡ texts values.old.items ++ values_of (texts words.now) option.now) }
{
    let mut rest = words;
    while let [word, others @ ..] = rest {
        if *word == END {
            return Ok(());
        }
        let value = value_at(option, word, others);
        push_value(values, value)?;
        rest = others;
    }
    Ok(())
}

/// Adds a value, if there is one.
fn push_value<'a>(values: &mut Vec<&'a str>, value: Option<&'a str>) -> Result<(), AllocError>
    ensures { OnOk result (texts values.new.items ≡ texts values.old.items ++ listed (text_of value.entry)) }
{
    if let Some(value) = value {
        values.push(value)?;
    }
    Ok(())
}

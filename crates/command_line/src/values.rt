//! The value of an option among the words of a command line.
ghost use Rattle.std.specs.Prelude.{◌≡◌, option_map};
ghost use Rattle.command_line.specs.Values.{texts, value_at};

/// Returns the value that an option such as `--db` has at a word, if the word is this option: the word after it, or
/// what follows its first equals sign. `others` are the words after it.
pub fn value_at<'a>(option: &str, word: &'a str, others: &[&'a str]) -> Option<&'a str>
    // Promise: an option's value at a word is the next word, or what follows the word's first equals sign.
    ensures { option_map (λ value. value.now) result ≡ value_at option.now word.now (texts others.now) }
{
    if word == option {
        return others.first().copied();
    }
    match word.split_once('=') {
        Some((name, value)) if name == option => Some(value),
        _ => None,
    }
}

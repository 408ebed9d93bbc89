//! Patterns of names.
ghost use Rattle.std.specs.Prelude.{◌≡◌};
ghost use Rattle.kadm_changes.specs.Patterns.{fits, some_end};

/// Checks whether a text fits a pattern, in which each `*` stands for any bytes, or for none.
pub fn is_like(pattern: &str, text: &str) -> bool
    // Promise: a text fits a pattern exactly if it is the pattern with some bytes, or none, in place of each `*`.
    ensures fits { result ≡ fits pattern.now text.now }
{
    let Some((front, rest)) = pattern.split_once('*') else {
        return pattern == text;
    };
    match text.strip_prefix(front) {
        Some(left) => has_end(rest, left),
        None => false,
    }
}

/// Checks whether an end of a text fits a pattern.
fn has_end(pattern: &str, text: &str) -> bool
    ensures fits { result ≡ some_end (fits pattern.now) text.now }
{
    let mut pattern = pattern;
    let mut left = text;
    while let Some((part, rest)) = pattern.split_once('*') {
        // The first match leaves the most for what follows it.
        let Some((_, behind)) = left.split_once(part) else {
            return false;
        };
        pattern = rest;
        left = behind;
    }
    left.ends_with(pattern)
}

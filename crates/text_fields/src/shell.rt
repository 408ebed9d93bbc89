//! Words of a shell.

use std::alloc::{AllocError, Global};

/// Returns a text as one word of a shell, in single quotes unless the shell takes it as it is.
pub fn shell_word(alloc: Global, text: &str) -> Result<String, AllocError> {
    let mut word = String::new(alloc);
    if !text.is_empty() && text.bytes().all(is_plain) {
        word.push_str(text)?;
        return Ok(word);
    }
    word.push('\'')?;
    for letter in text.chars() {
        if letter == '\'' {
            word.push_str("'\\''")?;
        } else {
            word.push(letter)?;
        }
    }
    word.push('\'')?;
    Ok(word)
}

/// Checks whether a byte means itself to a shell.
fn is_plain(octet: u8) -> bool {
    octet.is_ascii_alphanumeric()
        || matches!(octet, b'.' | b'/' | b'-' | b'_' | b'=' | b'+' | b':' | b',')
}

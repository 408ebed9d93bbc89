//! The command that a line of a report is about.

use std::io::Write;

/// The command that a report is about.
#[derive(Clone, Copy)]
pub(crate) struct Subject<'a> {
    /// Its words: the program's name, the command's, and the options. There may be none outside a batch.
    pub words: &'a [&'a str],
    /// The number of its line in a batch, from 1. `None` outside a batch.
    pub line: Option<usize>,
}

/// Begins a line about a command: with its number and its name, if it is a line of a batch. Ignores a failed write.
pub(crate) fn begin_line<E: Write>(errors: &mut E, subject: &Subject<'_>) {
    let _ = match (subject.line, subject.words) {
        (Some(line), [_, command, ..]) => write!(errors, "kadm: line {line}: {command}: "),
        (Some(line), _) => write!(errors, "kadm: line {line}: "),
        (None, _) => write!(errors, "kadm: "),
    };
}

//! The lines that include files.
ghost use Rattle.std.specs.Prelude.{◌≡◌};
ghost use Rattle.std.specs.Option.{option_map};
ghost use Rattle.krb5_conf.specs.Included.{after_blank, behind, included, said_to_include};

use crate::line::trim;

/// What a line includes.
#[derive(Clone, Copy)]
pub enum Included<'a> {
    /// The file at this path.
    File(&'a [u8]),
    /// The files in this folder.
    Folder(&'a [u8]),
}

impl<'a> Included<'a> {
    /// Returns what a line includes: `include PATH` or `includedir FOLDER`, from the start of the line. `None` if it is
    /// another line.
    pub fn read(line: &'a [u8]) -> Option<Included<'a>>
        // Promise: a line of a `krb5.conf` includes a file or a folder exactly as the definition says.
        ensures { option_map said_to_include result ≡ included line.now }
    {
        match behind(line, b"includedir") {
            Some(folder) => Some(Included::Folder(folder)),
            None => match behind(line, b"include") {
                Some(path) => Some(Included::File(path)),
                None => None,
            },
        }
    }
}

/// Returns what follows a word and a blank at the start of a line.
fn behind<'a>(line: &'a [u8], word: &[u8]) -> Option<&'a [u8]>
    ensures { option_map (λ path. path.now) result ≡ behind word.now line.now }
{
    if line.starts_with(word) {
        after_blank(&line[word.len()..])
    } else {
        None
    }
}

fn after_blank(text: &[u8]) -> Option<&[u8]>
    ensures { option_map (λ path. path.now) result ≡ after_blank text.now }
{
    match text.split_first() {
        Some((first, rest)) if first.is_ascii_whitespace() => Some(trim(rest)),
        _ => None,
    }
}

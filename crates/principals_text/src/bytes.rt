//! The bytes of a file, read as the text of a database.
ghost use Rattle.std.specs.Prelude.{◌≡◌, IfErr, IfOk, Ok};
ghost use Rattle.principals_text.specs.RefusedBytes.{RefusesBytes};
ghost use Rattle.principals_text.specs.Value.{text_database};

use crate::places::fault_place;
use crate::read_fault::ReadError;
use crate::text::read;
use principals::Database;
use std::alloc::{AllocError, Global};
use std::{fmt, str};

/// The reason why the bytes of a file can't be read as a database, and its place in them.
#[derive(Debug, Drop)]
pub struct DatabaseError {
    /// Where the bytes are wrong, if that was found: a line and column if they are not JSON, the member of the
    /// database, or the principal and the member of its row. It never contains a key.
    pub place: Option<String>,
    /// What is wrong.
    pub cause: ReadError,
}

/// Prints the cause alone.
impl fmt::Display for DatabaseError {
    fn fmt<W: fmt::Write>(&self, f: &mut fmt::Formatter<W>) -> fmt::Result {
        f.write_str(self.cause.text())
    }
}

/// Reads the bytes of a file as a database. Bytes that are not UTF-8 fail with `NotJson`.
pub fn read_bytes(alloc: Global, octets: &[u8]) -> Result<Database, DatabaseError>
    // Promise (ok, fault): a database that is read is the one that the file's bytes spell; bytes are refused for their
    // first error, or because they are not UTF-8, unless memory runs out.
    ensures ok { IfOk result (λ database. text_database octets.now ≡ Ok database) }
    ensures fault { IfErr result (λ fault. RefusesBytes octets.now fault.cause) }
{
    let Ok(text) = str::from_utf8(octets) else {
        return Err(DatabaseError {
            place: None,
            cause: ReadError::NotJson,
        });
    };
    match read(alloc, text) {
        Ok(database) => Ok(database),
        Err(cause) => Err(DatabaseError {
            place: find_place(alloc, text, cause),
            cause,
        }),
    }
}

/// Returns where a refused text is wrong, if that can be found.
fn find_place(alloc: Global, text: &str, cause: ReadError) -> Option<String> {
    if !matches!(cause, ReadError::NotJson | ReadError::BadRow) {
        return None;
    }
    match fault_place(alloc, text) {
        Ok(place) if !place.is_empty() => Some(place),
        Ok(_) | Err(AllocError) => None,
    }
}

//! Who runs a program: the user, and who called `sudo`.
ghost use Rattle.std.specs.Prelude.{◌≡◌, ◌==◌, IfOk, option_map, string_bytes};
ghost use Rattle.std.specs.List.{position};
ghost use Rattle.file_store.specs.Callers.{first_field, is_line_of, name_of_user, other_fields, user_of};
ghost use Rattle.file_store.specs.Input.{lines_of};

use crate::inputs::{after_line, first_line};
use std::alloc::{AllocError, Global};

/// Who runs a program.
#[derive(Drop)]
pub struct Caller {
    /// The number of the user, if the system says so.
    pub uid: Option<u32>,
    /// The name of the user in `/etc/passwd`, if it is there.
    pub name: Option<String>,
    /// The number of the user who called `sudo`: the variable `SUDO_UID`.
    pub sudo_uid: Option<String>,
    /// The name of the user who called `sudo`: the variable `SUDO_USER`.
    pub sudo_user: Option<String>,
}

impl Caller {
    /// Returns a copy.
    pub fn copy(&self, alloc: Global) -> Result<Caller, AllocError>
        ensures { IfOk result (λ caller. user_of caller ≡ user_of self.now) }
    {
        Ok(Caller {
            uid: self.uid,
            name: copy_text(alloc, &self.name)?,
            sudo_uid: copy_text(alloc, &self.sudo_uid)?,
            sudo_user: copy_text(alloc, &self.sudo_user)?,
        })
    }
}

fn copy_text(alloc: Global, text: &Option<String>) -> Result<Option<String>, AllocError>
    ensures { IfOk result (λ copy. option_map string_bytes copy ≡ option_map string_bytes text.now) }
{
    match text {
        Some(text) => Ok(Some(String::from_str(alloc, text.as_str())?)),
        None => Ok(None),
    }
}

/// Returns the name of the user whose number has these digits, from the text of `/etc/passwd`.
pub fn name_of_user<'a>(passwd: &'a [u8], digits: &[u8]) -> Option<&'a [u8]>
    // Promise: the user that is named is the one whose number the line has.
    ensures { option_map (λ name. name.now) result ≡ name_of_user digits.now (lines_of passwd.now) }
{
    let mut rest = passwd;
    while !rest.is_empty() {
        let line = first_line(rest);
        if is_line_of(line, digits) {
            return Some(first_field(line));
        }
        rest = after_line(rest);
    }
    None
}

fn is_line_of(line: &[u8], digits: &[u8]) -> bool
    ensures { result ≡ is_line_of digits.now line.now }
{
    first_field(other_fields(other_fields(line))) == digits
}

/// Returns the bytes before the first colon.
fn first_field(line: &[u8]) -> &[u8]
    ensures { result.now ≡ first_field line.now }
{
    match field_end(line) {
        Some(end) => line.split_at(end).0,
        None => line,
    }
}

/// Returns the bytes after the first colon, or no bytes if there is no colon.
fn other_fields(line: &[u8]) -> &[u8]
    ensures { result.now ≡ other_fields line.now }
{
    match field_end(line) {
        Some(end) => line.split_at(end + 1).1,
        None => line.split_at(line.len()).1,
    }
}

/// Returns the index of the first colon.
fn field_end(line: &[u8]) -> Option<usize>
    ensures { result ≡ position (λ b. b == 0x3A) line.now }
{
    line.iter().position(|octet| *octet == b':')
}

//! The user who runs the program, as the system says.
use crate::callers::{Caller, name_of_user};
use crate::plain_files::known_user;
use crate::reading::read_plain;
use crate::store::LONGEST_FILE;
use std::alloc::{AllocError, Global};
use std::env::VarError;
use std::fs::File;
use std::io::{Error, ErrorKind};
use std::rt::{Env, Files};
use std::{env, io, str};

/// The file with the names and the numbers of users.
const PASSWD: &str = "/etc/passwd";

/// Returns who runs the program.
pub(crate) fn read_caller<R: Files<File = File> + Env + Alloc<A = Global>>(
    alloc: Global,
    files: &R,
) -> io::Result<Caller> {
    let uid = known_user(files)?;
    let name = match uid {
        Some(uid) => read_name(alloc, files, uid)?,
        None => None,
    };
    Ok(Caller {
        uid,
        name,
        sudo_uid: variable(files, "SUDO_UID")?,
        sudo_user: variable(files, "SUDO_USER")?,
    })
}

/// Returns the value of a variable, if it is set, not empty, and UTF-8.
fn variable<R: Env + Alloc<A = Global>>(env: &R, name: &str) -> io::Result<Option<String>> {
    match env::var(env, name) {
        Ok(value) => Ok(if_any(value)),
        Err(VarError::NotPresent) | Err(VarError::NotUnicode) => Ok(None),
        Err(VarError::OutOfMemory) => Err(Error::from(ErrorKind::OutOfMemory)),
    }
}

fn if_any(value: String) -> Option<String> {
    if value.is_empty() { None } else { Some(value) }
}

/// Returns the name of a user in `/etc/passwd`, if that can be read and has it.
fn read_name<R: Files<File = File>>(
    alloc: Global,
    files: &R,
    uid: u32,
) -> io::Result<Option<String>> {
    match read_plain(alloc, files, PASSWD, LONGEST_FILE) {
        Ok(Some(passwd)) => Ok(name_in(alloc, &passwd, uid)?),
        Ok(None) => Ok(None),
        Err(error) => match error.kind() {
            ErrorKind::NotFound | ErrorKind::PermissionDenied => Ok(None),
            _ => Err(error),
        },
    }
}

/// Returns the name of a user in the text of `/etc/passwd`, if it is there and is UTF-8.
fn name_in(alloc: Global, passwd: &[u8], uid: u32) -> Result<Option<String>, AllocError> {
    let digits = format!(in alloc; "{uid}")?;
    match name_of_user(passwd, digits.as_bytes()) {
        Some(name) => copied(alloc, name),
        None => Ok(None),
    }
}

fn copied(alloc: Global, octets: &[u8]) -> Result<Option<String>, AllocError> {
    match str::from_utf8(octets) {
        Ok(text) => Ok(Some(String::from_str(alloc, text)?)),
        Err(_) => Ok(None),
    }
}

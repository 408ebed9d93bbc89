//! Warnings about who else can use a file of keys.
use file_store::{RIGHTS, RIGHTS_OF_OTHERS, own_user};
use std::fs::Metadata;
use std::io::Write;
use std::os::unix::fs::MetadataExt;
use std::rt::Files;

/// A file that holds keys.
#[derive(Clone, Copy)]
pub struct KeyFile<'a> {
    /// The word for it in a message.
    pub what: &'a str,
    /// Its path, which a message names.
    pub path: &'a str,
    /// What the system says of it, with its mode and its owner.
    pub metadata: &'a Metadata,
}

/// Warns if a file of keys is open to its group or to others, or belongs to another user than that of this process.
pub fn say_rights<F: Files, W: Write>(files: &F, lines: &mut W, file: KeyFile<'_>) {
    let (what, path) = (file.what, file.path);
    let mode = file.metadata.mode() & RIGHTS;
    if mode & RIGHTS_OF_OTHERS != 0 {
        let _ = writeln!(
            lines,
            "kdcd: {what} {path}: its mode {mode:o} gives its group or others rights; make it 600"
        );
    }
    let owner = file.metadata.uid();
    match own_user(files) {
        Ok(user) if user != owner => {
            let _ = writeln!(
                lines,
                "kdcd: {what} {path}: it belongs to user {owner}, and this server runs as user {user}"
            );
        }
        Ok(_) | Err(_) => {}
    }
}

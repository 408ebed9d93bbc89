//! The command that writes a keytab for each of several principals.
ghost use Rattle.std.specs.Prelude.{◌≡◌, ◌++◌, List, All, IfErr, IfOk, OnErr, OnOk, flat_map, map, option_map};
ghost use Rattle.std.specs.Prelude.{string_bytes};
ghost use Rattle.std.specs.FinMap as rows;
ghost use Rattle.file_store.specs.World.{with_file};
ghost use Rattle.kadm_changes.specs.KeytabFolders.{AreKeytabs, IsKeytabFile, WroteKeytabs, file_octet, path_in};
ghost use Rattle.kadm_changes.specs.KeytabFolders.{with_files};
ghost use Rattle.kadm_changes.specs.Keytabs.{IsFreePath};
ghost use Rattle.kadm_changes.specs.Patterns.{names_like};
ghost use Rattle.kadm_changes.specs.Stops.{IsFailed};
ghost use Rattle.kadm_changes.specs.declared.keytab_folder.KeytabFile as folder_files;

use crate::context::Context;
use crate::databases::{lock_database, read_database};
use crate::early_end::EarlyEnd;
use crate::keytab_text::new_keytab;
use crate::keytabs::{KeytabContent, check_path};
use crate::patterns::is_like;
use crate::reason::{CommandRefusal, Part};
use crate::target::Target;
use file_store::{PathError, Store, Written};
use krb_fields::Name;
use principals::{ChangeFault, Database};
use std::alloc::{AllocError, Global};
use std::io;
use std::io::Write;

/// The end of a keytab's name.
const KEYTAB_END: &[u8] = b".keytab";

/// The keytabs that are written, and where.
#[derive(Clone, Copy)]
pub struct FolderArgs<'a> {
    /// The pattern that the principals' names fit.
    pub like: &'a str,
    /// The folder, which is there.
    pub folder: &'a str,
}

/// A keytab before it is written.
#[derive(Drop)]
struct KeytabFile {
    path: String,
    octets: Vec<u8>,
}

/// Writes a keytab of the current keys of each principal whose name fits, into a folder. The inner `Err` says why it
/// stopped after some of them; after the outer one none was written.
pub fn write_keytabs<'p, T: Store, W: Write, E: Write>(
    context: &mut Context<W, E>,
    store: &mut T,
    target: &Target<'p>,
    to: FolderArgs<'p>,
) -> Result<Result<Written, EarlyEnd<'p>>, EarlyEnd<'p>>
    // Promise (wrote, failed): `keytab --like` writes keytabs into the folder, each of a principal's current keys and
    // at a path of its name, of the names that fit and in their order, none between left out; no other file, and none
    // if one is refused.
    ensures wrote { OnOk result (WroteKeytabs
        (T.world store.old) target.now.db.now to.entry (T.world store.new)) }
    ensures failed { IfOk result (λ end. IfErr end IsFailed) }
    // Promise, as make_update: a command that ends ..
    ensures unchanged { OnErr result (T.world store.new ≡ T.world store.old) }
{
    let alloc = context.alloc;
    lock_database(context, store, target)?;
    let database = read_database(context, store, target.db)?;
    let files = keytab_files(alloc, store, &database, to)?;
    check_files(context, store, &files, to.folder)?;
    Ok(put_files(alloc, store, &files, to.folder))
}

/// Returns the keytabs. Refuses a pattern that no name fits.
fn keytab_files<'p, T: Store>(
    alloc: Global,
    store: &mut T,
    database: &Database,
    to: FolderArgs<'p>,
) -> Result<Vec<KeytabFile>, EarlyEnd<'p>>
    ensures made { IfOk result (λ files. All (IsKeytabFile to.entry.folder.now database.now) files.items) }
    ensures fit { IfOk result (λ files. map (λ file. string_bytes file.path) files.items
        ≡ map (path_in to.entry.folder.now) (names_like to.entry.like.now (rows.entries database.now.rows))) }
    ensures unchanged { T.world store.new ≡ T.world store.old }
{
    let names = names_like(alloc, database, to.like)?;
    if names.is_empty() {
        return Err(EarlyEnd::refused_value(
            Part::Name,
            to.like,
            CommandRefusal::Change(ChangeFault::Absent),
        ));
    }
    let mut files = Vec::new(alloc);
    for name in &names {
        files.push(keytab_file(alloc, store, database, name, to.folder)?)?;
    }
    Ok(files)
}

/// Returns the names that fit a pattern.
fn names_like(alloc: Global, database: &Database, pattern: &str) -> Result<Vec<Name>, AllocError>
    ensures { IfOk result (λ names. map (λ name. name.components) names.items
        ≡ names_like pattern.now (rows.entries database.now.rows)) }
{
    let mut names = Vec::new(alloc);
    for entry in database.entries() {
        if is_like(pattern, &entry.name.to_text(alloc)?) {
            names.push(entry.name.copy(alloc)?)?;
        }
    }
    Ok(names)
}

/// Returns the keytab of a principal.
fn keytab_file<'p, T: Store>(
    alloc: Global,
    store: &mut T,
    database: &Database,
    name: &Name,
    folder: &'p str,
) -> Result<KeytabFile, EarlyEnd<'p>>
    ensures made { IfOk result (λ file. IsKeytabFile folder.now database.now file) }
    ensures path { IfOk result (λ file. string_bytes file.path ≡ path_in folder.now name.now.components) }
    ensures unchanged { T.world store.new ≡ T.world store.old }
{
    let path = path_in(alloc, folder, name)?;
    let octets = new_keytab(alloc, store, database, name, KeytabContent::Current)?;
    Ok(KeytabFile { path, octets })
}

/// Returns the path of a principal's keytab.
fn path_in<'p>(alloc: Global, folder: &'p str, name: &Name) -> Result<String, EarlyEnd<'p>>
    ensures { IfOk result (λ path. string_bytes path ≡ path_in folder.now name.now.components) }
{
    let text = name.to_text(alloc)?;
    let mut path = Vec::from_slice(alloc, folder.as_bytes())?;
    path.push(b'/')?;
    push_file_name(&mut path, text.as_bytes())?;
    path.extend_from_slice(KEYTAB_END)?;
    match String::from_utf8(path) {
        Ok(path) => Ok(path),
        // the text of a name is ASCII
        Err(_) => Err(EarlyEnd::refused(Part::Name, CommandRefusal::BadName)),
    }
}

/// Adds the text of a name, as the name of a file.
fn push_file_name(path: &mut Vec<u8>, text: &[u8]) -> Result<(), AllocError>
    ensures { OnOk result (path.new.items ≡ path.old.items ++ flat_map file_octet text.now) }
{
    for octet in text {
        push_file_octet(path, *octet)?;
    }
    Ok(())
}

fn push_file_octet(path: &mut Vec<u8>, octet: u8) -> Result<(), AllocError>
    ensures { OnOk result (path.new.items ≡ path.old.items ++ file_octet octet) }
{
    match octet {
        b'/' => path.push(b'_')?,
        b'_' => path.extend_from_slice(b"\\5f")?,
        octet => path.push(octet)?,
    }
    Ok(())
}

/// Refuses the paths that a keytab may not have. A refusal is about the folder; standard error names the file.
fn check_files<'p, T: Store, W: Write, E: Write>(
    context: &mut Context<W, E>,
    store: &mut T,
    files: &[KeytabFile],
    folder: &'p str,
) -> Result<(), EarlyEnd<'p>>
    ensures free { OnOk result (All (λ file. IsFreePath (T.world store.old) (string_bytes file.path)) files.now) }
    ensures unchanged { T.world store.new ≡ T.world store.old }
{
    for file in files {
        if let Err(stop) = check_path(context.alloc, store, &file.path) {
            report_file(&mut context.errors, &file.path);
            return Err(stop.at(folder));
        }
    }
    Ok(())
}

/// Reports which of several files can't be written. Ignores a failed write.
fn report_file<E: Write>(errors: &mut E, path: &str) {
    let _ = writeln!(errors, "kadm: cannot write {path}");
}

/// Writes the files, up to the first that fails.
fn put_files<'p, T: Store>(
    alloc: Global,
    store: &mut T,
    files: &[KeytabFile],
    folder: &'p str,
) -> Result<Written, EarlyEnd<'p>>
    ensures done { OnOk result (T.world store.new ≡ option_map (with_files files.now) (T.world store.old)) }
    ensures begun { OnErr result ((written : List folder_files.KeytabFile) × (left : List folder_files.KeytabFile)
        × (files.now ≡ written ++ left)
        × (T.world store.new ≡ option_map (with_files written) (T.world store.old))) }
    ensures failed { IfErr result IsFailed }
{
    let mut unsynced = None;
    for file in files {
        let one = put_file(alloc, store, file, folder)?;
        unsynced = still_unsynced(unsynced, one);
    }
    match unsynced {
        Some(error) => Ok(Written::NotSynced(error)),
        None => Ok(Written::Synced),
    }
}

/// Returns why a file is not surely on the disk, if one of those so far is not.
fn still_unsynced(unsynced: Option<io::Error>, written: Written) -> Option<io::Error> {
    match written {
        Written::Synced => unsynced,
        Written::NotSynced(error) => Some(error),
    }
}

fn put_file<'p, T: Store>(
    alloc: Global,
    store: &mut T,
    file: &KeytabFile,
    folder: &'p str,
) -> Result<Written, EarlyEnd<'p>>
    ensures written { OnOk result (T.world store.new
        ≡ option_map (with_file (string_bytes file.now.path) file.now.octets.items) (T.world store.old)) }
    ensures unchanged { OnErr result (T.world store.new ≡ T.world store.old) }
    ensures failed { IfErr result IsFailed }
{
    match store.write(alloc, &file.path, &file.octets) {
        Ok(written) => Ok(written),
        Err(error) => Err(EarlyEnd::File(PathError::failed(folder, error))),
    }
}

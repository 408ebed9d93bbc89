//! New passwords.
ghost use Rattle.std.specs.Prelude.{◌≡◌, IfOk, IfSome};
ghost use Rattle.kadm_changes.specs.Found.{HasPassword, IsFound, IsFoundIn, IsFoundLine};
ghost use Rattle.kadm_changes.specs.Updates.{IsPasswordOf, IsSecretOf};
ghost use Rattle.kadm_changes.specs.Texts.{path_of};
ghost use Rattle.file_store.specs.Input.{IsTyped, TakesLine, no_input};
ghost use Rattle.file_store.specs.World.{HasFirstLine};

use crate::context::Context;
use crate::databases::read_database;
use crate::early_end::EarlyEnd;
use crate::granting::Grant;
use crate::realm::is_tgs_text;
use crate::reason::{CommandRefusal, Part, RealmEnd};
use crate::target::Target;
use crate::updates::{RowArgs, RowUpdate, Update};
use file_store::{FileError, PathError, STANDARD_INPUT, Store, ask_password, read_password};
use krb_fields::component_to_text;
use std::alloc::{AllocError, Global};
use std::io::Write;

/// Where a password comes from.
#[derive(Clone, Copy)]
pub struct PasswordArgs<'a> {
    /// If no file has the password, it is read from standard input.
    pub file: Option<&'a str>,
    /// Whether to accept a password that is empty or ends in a carriage return.
    pub any: bool,
}

/// The keys of a password, and who gets them.
#[derive(Clone, Copy)]
pub struct PasswordGrant<'a> {
    /// Where the password comes from.
    pub password: PasswordArgs<'a>,
    /// Whether the principal is new, and what becomes of its older keys.
    pub grant: Grant,
}

/// The file of a password, as it was read before the database was locked.
#[derive(Drop)]
pub struct FoundPassword {
    /// The path of the file.
    pub path: String,
    /// What it has.
    pub line: FoundLine,
}

/// The first line of a password's file.
#[derive(Drop)]
pub enum FoundLine {
    /// The password.
    Password(Vec<u8>),
    /// It has more than 1,024 bytes.
    TooLong,
    /// The file could not be read.
    Fault(FileError),
}

/// Reads the file of the password that a line of a batch takes, before the database is locked: the file may be a FIFO,
/// and the read then waits for a writer. `None` if the change takes no password from a file. What is wrong with the
/// file is reported when the change is made. Fails if memory runs out.
pub fn find_password<T: Store>(
    alloc: Global,
    store: &mut T,
    update: &Update<'_>,
) -> Result<Option<FoundPassword>, AllocError>
    ensures found { IfOk result (λ found. IfSome found (λ found. IsFound (T.world store.old) found)) }
    ensures unchanged { T.world store.new ≡ T.world store.old }
{
    match update {
        Update::Row(to) => find_row_password(alloc, store, &to.how),
        Update::Changes(_) => Ok(None),
        Update::Migrate {
            users_are_no_services: _,
        } => Ok(None),
    }
}

/// Reads the file of the password that a change of a row takes.
fn find_row_password<T: Store>(
    alloc: Global,
    store: &mut T,
    how: &RowUpdate<'_>,
) -> Result<Option<FoundPassword>, AllocError>
    ensures found { IfOk result (λ found. IfSome found (λ found. IsFound (T.world store.old) found)) }
    ensures unchanged { T.world store.new ≡ T.world store.old }
{
    match how {
        RowUpdate::Password(to) => find_at(alloc, store, to.password.file),
        RowUpdate::Random(_) => Ok(None),
        RowUpdate::Staged { keytab: _ } => Ok(None),
        RowUpdate::Import { keytab: _ } => Ok(None),
    }
}

/// Reads the file of a password, if one is named.
fn find_at<T: Store>(
    alloc: Global,
    store: &mut T,
    file: Option<&str>,
) -> Result<Option<FoundPassword>, AllocError>
    ensures found { IfOk result (λ found. IfSome found (λ found. IsFound (T.world store.old) found)) }
    ensures unchanged { T.world store.new ≡ T.world store.old }
{
    let Some(path) = file else {
        return Ok(None);
    };
    let named = String::from_str(alloc, path)?;
    let line = find_line(alloc, store, path)?;
    Ok(Some(FoundPassword { path: named, line }))
}

/// Reads the first line of the file of a password.
fn find_line<T: Store>(alloc: Global, store: &mut T, path: &str) -> Result<FoundLine, AllocError>
    ensures found { IfOk result (λ line. IsFoundLine (T.world store.old) path.now line) }
    ensures unchanged { T.world store.new ≡ T.world store.old }
{
    match read_password(alloc, store, path) {
        // the copy has room for the line alone: a batch keeps many
        Ok(Some(line)) => Ok(FoundLine::Password(Vec::from_slice(alloc, &line)?)),
        Ok(None) => Ok(FoundLine::TooLong),
        Err(fault) => Ok(FoundLine::Fault(fault.cause)),
    }
}

/// Gets the password that a change takes, before the database is locked: from its file, or from standard input. It is
/// empty if the change takes none.
pub(crate) fn new_password<'p, T: Store, W: Write, E: Write>(
    context: &mut Context<W, E>,
    store: &mut T,
    target: &Target<'p>,
    row: &RowArgs<'p>,
) -> Result<Vec<u8>, EarlyEnd<'p>>
    // Promise: the password is the first line of its file, if one is named.
    // Promise: without a file it is the next line of standard input; at a terminal that line is there twice.
    ensures given { IfOk result (λ pass. IsSecretOf (T.world store.old) (T.input store.old) row.now.how pass.items) }
    // Promise, as lock_database: what a command reads, ..
    ensures unchanged { T.world store.new ≡ T.world store.old }
{
    match &row.how {
        RowUpdate::Password(to) => {
            let asked = Asked {
                db: target.db,
                name: row.name,
                may_be_tgs: target.whole_realm || is_new(to.grant),
            };
            any_password(context, store, asked, to.password)
        }
        RowUpdate::Random(_) => Ok(Vec::new(context.alloc)),
        RowUpdate::Staged { keytab: _ } => Ok(Vec::new(context.alloc)),
        RowUpdate::Import { keytab: _ } => Ok(Vec::new(context.alloc)),
    }
}

/// The principal whose password is asked for, and the path of the database that says its realm.
#[derive(Clone, Copy)]
struct Asked<'p> {
    db: &'p str,
    name: &'p str,
    /// Whether to ask for the password of `krbtgt/REALM` too.
    may_be_tgs: bool,
}

/// Checks whether the principal is to be a new one.
fn is_new(grant: Grant) -> bool {
    matches!(grant, Grant::New | Grant::NewUser)
}

/// Gets the password from its file, or from standard input.
fn any_password<'p, T: Store, W: Write, E: Write>(
    context: &mut Context<W, E>,
    store: &mut T,
    asked: Asked<'p>,
    args: PasswordArgs<'p>,
) -> Result<Vec<u8>, EarlyEnd<'p>>
    ensures given { IfOk result (λ pass. IsPasswordOf (T.world store.old) (T.input store.old)
        (path_of args.entry.file) pass.items) }
    ensures unchanged { T.world store.new ≡ T.world store.old }
{
    let pass = match args.file {
        Some(path) => read_password_file(context.alloc, store, path)?,
        None => asked_password(context, store, asked)?,
    };
    likely(pass, args.any)
}

/// Gets the password for a line of a batch. It comes from a file, since standard input has the batch. If the file was
/// read before the lock, it is what was read then.
pub(crate) fn batch_password<'p, T: Store>(
    alloc: Global,
    store: &mut T,
    how: &RowUpdate<'p>,
    found: Option<&FoundPassword>,
) -> Result<Vec<u8>, EarlyEnd<'p>>
    requires found { IsFoundIn (T.world store.old) found }
    // Promise, as new_password: the password is the ..
    ensures given { IfOk result (λ pass. IsSecretOf (T.world store.old) no_input how.now pass.items) }
    // Promise, as lock_database: what a command reads, ..
    ensures unchanged { T.world store.new ≡ T.world store.old }
{
    match how {
        RowUpdate::Password(to) => file_password(alloc, store, to.password, found),
        RowUpdate::Random(_) => Ok(Vec::new(alloc)),
        RowUpdate::Staged { keytab: _ } => Ok(Vec::new(alloc)),
        RowUpdate::Import { keytab: _ } => Ok(Vec::new(alloc)),
    }
}

/// Gets the password from its file.
fn file_password<'p, T: Store>(
    alloc: Global,
    store: &mut T,
    args: PasswordArgs<'p>,
    found: Option<&FoundPassword>,
) -> Result<Vec<u8>, EarlyEnd<'p>>
    requires found { IsFoundIn (T.world store.old) found }
    ensures given { IfOk result (λ pass. IsPasswordOf (T.world store.old) no_input
        (path_of args.entry.file) pass.items) }
    ensures unchanged { T.world store.new ≡ T.world store.old }
{
    let Some(path) = args.file else {
        return Err(EarlyEnd::refused(Part::Name, CommandRefusal::NoPassword));
    };
    likely(found_or_read(alloc, store, path, found)?, args.any)
}

/// Returns the password in a file, as the file was read before, if it was.
fn found_or_read<'p, T: Store>(
    alloc: Global,
    store: &mut T,
    path: &'p str,
    found: Option<&FoundPassword>,
) -> Result<Vec<u8>, EarlyEnd<'p>>
    requires found { IsFoundIn (T.world store.old) found }
    ensures line { IfOk result (λ pass. HasFirstLine (T.world store.old) path.now pass.items) }
    ensures unchanged { T.world store.new ≡ T.world store.old }
{
    match found {
        Some(found) if found.path.as_str() == path => password_in(alloc, path, &found.line),
        _ => read_password_file(alloc, store, path),
    }
}

/// Returns the password that was found in a file.
fn password_in<'p>(alloc: Global, path: &'p str, line: &FoundLine) -> Result<Vec<u8>, EarlyEnd<'p>>
    ensures { IfOk result (λ pass. HasPassword line.now pass.items) }
{
    match line {
        FoundLine::Password(pass) => Ok(Vec::from_slice(alloc, pass)?),
        FoundLine::TooLong => Err(too_long(path)),
        FoundLine::Fault(cause) => Err(EarlyEnd::from(PathError {
            path,
            cause: *cause,
        })),
    }
}

/// Reads the password in a file.
fn read_password_file<'p, T: Store>(
    alloc: Global,
    store: &mut T,
    path: &'p str,
) -> Result<Vec<u8>, EarlyEnd<'p>>
    ensures line { IfOk result (λ pass. HasFirstLine (T.world store.old) path.now pass.items) }
    ensures unchanged { T.world store.new ≡ T.world store.old }
{
    match read_password(alloc, store, path)? {
        Some(pass) => Ok(pass),
        None => Err(too_long(path)),
    }
}

/// Returns the stop for a source with too long a password.
fn too_long(source: &str) -> EarlyEnd<'_> {
    EarlyEnd::refused_value(Part::PasswordFile, source, CommandRefusal::LongPassword)
}

/// Returns the password, unless it is unlikely and only likely ones are accepted.
fn likely(pass: Vec<u8>, any: bool) -> Result<Vec<u8>, EarlyEnd<'static>>
    ensures { IfOk result (λ likely. likely.items ≡ pass.items) }
{
    if !any && is_unlikely(&pass) {
        return Err(EarlyEnd::refused(Part::Name, CommandRefusal::BadPassword));
    }
    Ok(pass)
}

/// Checks whether a password is probably a mistake: it is empty, or its line ends as on other systems.
fn is_unlikely(pass: &[u8]) -> bool {
    match pass.last() {
        Some(octet) => *octet == b'\r',
        None => true,
    }
}

/// Asks for the password of a principal, with its name and realm.
fn asked_password<'p, T: Store, W: Write, E: Write>(
    context: &mut Context<W, E>,
    store: &mut T,
    asked: Asked<'p>,
) -> Result<Vec<u8>, EarlyEnd<'p>>
    ensures typed { IfOk result (λ pass. IsTyped (T.input store.old) pass.items) }
    ensures unchanged { T.world store.new ≡ T.world store.old }
{
    let database = read_database(context, store, asked.db)?;
    if !asked.may_be_tgs && is_tgs_text(context.alloc, &database, asked.name) {
        return Err(EarlyEnd::refused(Part::Name, CommandRefusal::EndsRealm(RealmEnd::Guessable)));
    }
    let realm = component_to_text(context.alloc, database.realm())?;
    ask_twice(context.alloc, store, asked.name, &realm)
}

/// Asks twice at a terminal. Both answers have to be the same.
#[tactic(auto, using(crate::proofs::Typing::typed_once, crate::proofs::Typing::typed_twice))]
fn ask_twice<T: Store>(
    alloc: Global,
    store: &mut T,
    name: &str,
    realm: &str,
) -> Result<Vec<u8>, EarlyEnd<'static>>
    ensures typed { IfOk result (λ pass. IsTyped (T.input store.old) pass.items) }
    ensures unchanged { T.world store.new ≡ T.world store.old }
{
    let pass = ask_once(alloc, store, name, realm)?;
    if !store.is_terminal() {
        return Ok(pass);
    }
    let again = ask_once(alloc, store, name, realm)?;
    if again != pass {
        return Err(EarlyEnd::refused(Part::Name, CommandRefusal::Mismatch));
    }
    Ok(pass)
}

/// Asks for the password of a principal, or reads the next line of standard input.
fn ask_once<T: Store>(
    alloc: Global,
    store: &mut T,
    name: &str,
    realm: &str,
) -> Result<Vec<u8>, EarlyEnd<'static>>
    ensures line { IfOk result (λ pass. TakesLine (T.input store.old) pass.items (T.input store.new)) }
    ensures unchanged { T.world store.new ≡ T.world store.old }
{
    match ask_password(alloc, store, name, realm)? {
        Some(pass) => Ok(pass),
        None => Err(too_long(STANDARD_INPUT)),
    }
}

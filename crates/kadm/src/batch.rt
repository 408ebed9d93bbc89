//! Many changes of one database: each line of standard input is a command. The database is read once and written once.
ghost use Rattle.std.specs.Prelude.{◌≡◌, All, IfNone, IfOk, IfSome, OnErr, OnOk, true};
ghost use Rattle.file_store.specs.Input.{HasEnded, TakesLine};
ghost use Rattle.kadm_changes.specs.Found.{IsFound, IsFoundIn};
ghost use Rattle.kadm_changes.specs.Texts.{texts};
ghost use Rattle.kadm.specs.Batches.{IsBatchDone, IsLineRead, input_texts, line_text, line_texts};
ghost use Rattle.kadm.specs.Lines.{AreDone, AreInput, IsCommandMade, IsLineAdded, IsLineDone, IsRun, IsSpelledMade};
ghost use Rattle.kadm.specs.Lines.{IsTurn};

use crate::commands::{Command, CommandKind, WHOLE_REALM, read_args, read_command};
use crate::outcome::Outcome;
use crate::reports::report;
use crate::subject::{Subject, begin_line};
use crate::usage::{UsageError, report_command_fault, report_fault};
use crate::values::{NAME, has_flag, option_value};
use crate::words::{in_batch, is_given};
use crate::writing::WriteCommand;
use clap::ArgMatches;
use clap::error::Error;
use command_line::Status;
use file_store::{FileError, PathError, STANDARD_INPUT, Store};
use kadm_changes::{
    Context, Draft, EarlyEnd, FoundPassword, Note, Target, find_password, lock_database,
    read_database, report_realm, update_in_batch, write_database,
};
use std::alloc::{AllocError, Global};
use std::io::{ErrorKind, Write};
use text_fields::line_words;

/// The greatest length of a line, in bytes.
const LONGEST_LINE: usize = 65_536;

/// How many lines a batch may have.
const MOST_LINES: usize = 1_000_000;

/// The error of a batch with more lines.
const TOO_MANY: &str = "a batch has at most 1,000,000 lines";

/// The option that a line must not have.
const KEEP_MODE: &str = "--keep-mode";

/// The error of a line that has it.
const NO_MODE: &str = "--keep-mode is an option of batch itself, and not of its lines";

/// The error of a line that has `--whole-realm`.
const NO_WHOLE_REALM: &str = "--whole-realm is an option of batch itself, and not of its lines";

/// What a terminal shows before each line.
const PROMPT: &str = "kadm> ";

/// The option that names the file of a password.
const PASSWORD_FILE: &str = "--password-file";

/// A line with a command, as it was read.
#[derive(Drop)]
struct InputLine {
    /// The number of the line, from 1.
    number: usize,
    words: Vec<String>,
}

/// A line with a command, and the password that it takes.
#[derive(Drop)]
struct BatchLine {
    /// The number of the line, from 1.
    number: usize,
    words: Vec<String>,
    /// The file of its password. `None` if it takes none, or names no file of it.
    password: Option<FoundPassword>,
}

/// The commands of a batch.
#[derive(Clone, Copy)]
struct Batch<'a> {
    /// The path of the database.
    db: &'a str,
    lines: &'a [BatchLine],
    /// Whether a line that is not done leaves the others.
    keep_going: bool,
    /// Whether the lines may end the whole realm.
    whole_realm: bool,
}

/// Runs the commands on the lines of standard input. It reads them, and the files of their passwords, before it locks
/// the database. If one is not done, nothing is written, unless the batch keeps going.
pub(crate) fn run_batch<'p, T: Store, W: Write, E: Write>(
    context: &mut Context<W, E>,
    store: &mut T,
    target: &Target<'p>,
    keep_going: bool,
) -> Result<Outcome, EarlyEnd<'p>>
    // Promise (done, unchanged): `batch`: the same, with the changes of all lines one after another, each the change
    // that its words spell for the database of the batch. If one is not done, the file is as it was.
    // Promise: with `--keep-going` each line of a batch is done, or leaves the database as it was.
    ensures done { IfOk result (λ end. IsBatchDone (T.world store.old)
        (T.input store.old) target.now.whole_realm target.now.db.now keep_going end.whole (T.world store.new)) }
    // Promise, as make_update of kadm_changes: a command that ends ..
    ensures unchanged { OnErr result (T.world store.new ≡ T.world store.old) }
{
    let alloc = context.alloc;
    let input = read_lines(alloc, store, &mut context.errors)?;
    let lines = with_passwords(alloc, store, target.db, input)?;
    let locked = lock_database(context, store, target)?;
    let database = read_database(context, store, target.db)?;
    let mut draft = Draft { alloc, database };
    let batch = Batch {
        db: target.db,
        lines: &lines,
        keep_going,
        whole_realm: target.whole_realm,
    };
    let whole = run_lines(context, store, &batch, &mut draft)?;
    let written = write_database(alloc, store, &locked, &draft.database)?;
    let _ = context.errors.write_all(&context.notes);
    if target.whole_realm {
        report_realm(alloc, &mut context.errors, &draft.database);
    }
    Ok(Outcome { whole, written })
}

/// Reads the lines of standard input up to its end. Skips empty lines and comments.
#[tactic(auto, using(crate::proofs::InputLines::each_line))]
fn read_lines<T: Store, E: Write>(
    alloc: Global,
    store: &mut T,
    errors: &mut E,
) -> Result<Vec<InputLine>, EarlyEnd<'static>>
    // Promise: the lines of a batch are those of standard input: each of them, once, in their order.
    ensures read { IfOk result (λ lines. AreInput (T.input store.old) (input_texts lines.items)) }
    ensures unchanged { T.world store.new ≡ T.world store.old }
{
    let mut lines = Vec::new(alloc);
    for number in 1..=MOST_LINES {
        let Some(octets) = next_line(alloc, store)? else {
            return Ok(lines);
        };
        if let Err(fault) = push_line(alloc, &mut lines, number, &octets)? {
            return Err(report_line_fault(errors, number, fault));
        }
    }
    Err(report_line_fault(errors, MOST_LINES, TOO_MANY))
}

/// Reads the next line. `None` if the input has ended.
fn next_line<T: Store>(alloc: Global, store: &mut T) -> Result<Option<Vec<u8>>, EarlyEnd<'static>>
    ensures line { IfOk result (λ found. IfSome found
        (λ line. TakesLine (T.input store.old) line.items (T.input store.new))) }
    ensures ended { IfOk result (λ found. IfNone found (HasEnded (T.input store.old))) }
    ensures unchanged { T.world store.new ≡ T.world store.old }
{
    match store.ask(alloc, PROMPT, LONGEST_LINE) {
        Ok(Some(line)) => Ok(Some(line)),
        Ok(None) => Err(EarlyEnd::from(PathError {
            path: STANDARD_INPUT,
            cause: FileError::LongFile,
        })),
        Err(error) if error.kind() == ErrorKind::UnexpectedEof => Ok(None),
        Err(error) => Err(EarlyEnd::from(PathError::failed(STANDARD_INPUT, error))),
    }
}

/// Adds a line, if it has a command. The inner `Err` says what is wrong with the line.
#[tactic(auto, using(crate::proofs::InputLines::line_pushed, crate::proofs::InputLines::none_pushed))]
fn push_line(
    alloc: Global,
    lines: &mut Vec<InputLine>,
    number: usize,
    octets: &[u8],
) -> Result<Result<(), &'static str>, AllocError>
    // Promise: a line that no shell could split into words ends the batch, and none is left out for that.
    ensures pushed { IfOk result (λ read. OnOk read
        (IsLineAdded octets.now (input_texts lines.old.items) (input_texts lines.new.items))) }
{
    let words = match line_words(alloc, octets)? {
        Ok(words) => words,
        Err(fault) => return Ok(Err(fault)),
    };
    if !words.is_empty() {
        lines.push(InputLine { number, words })?;
    }
    Ok(Ok(()))
}

/// Reads the file of the password of each line that takes one.
fn with_passwords<T: Store>(
    alloc: Global,
    store: &mut T,
    db: &str,
    lines: Vec<InputLine>,
) -> Result<Vec<BatchLine>, AllocError>
    ensures read { IfOk result (λ all. All (IsLineRead (T.world store.old)) all.items) }
    ensures same { IfOk result (λ all. line_texts all.items ≡ input_texts lines.items) }
    ensures unchanged { T.world store.new ≡ T.world store.old }
{
    let mut all = Vec::new(alloc);
    for line in lines {
        let password = line_password(alloc, store, db, &line.words)?;
        all.push(BatchLine {
            number: line.number,
            words: line.words,
            password,
        })?;
    }
    Ok(all)
}

/// Reads the file of the password that a line takes. `None` if it takes none; what is wrong with the line is reported
/// when it is run.
fn line_password<T: Store>(
    alloc: Global,
    store: &mut T,
    db: &str,
    line: &[String],
) -> Result<Option<FoundPassword>, AllocError>
    ensures found { IfOk result (λ found. IfSome found (λ found. IsFound (T.world store.old) found)) }
    ensures unchanged { T.world store.new ≡ T.world store.old }
{
    let words = in_batch(alloc, db, line)?;
    if !is_given(&words, PASSWORD_FILE) || !is_line(alloc, &words) {
        return Ok(None);
    }
    match read_command(alloc, &words) {
        Ok(command) => command_password(alloc, store, &command),
        Err(_) => Ok(None),
    }
}

/// Checks whether the parser takes the words of a line.
fn is_line(alloc: Global, words: &[&str]) -> bool {
    read_args(alloc, words).is_ok() && !has_flag(words, KEEP_MODE) && !has_flag(words, WHOLE_REALM)
}

/// Reads the file of the password that a command takes.
fn command_password<T: Store>(
    alloc: Global,
    store: &mut T,
    command: &Command<'_>,
) -> Result<Option<FoundPassword>, AllocError>
    ensures found { IfOk result (λ found. IfSome found (λ found. IsFound (T.world store.old) found)) }
    ensures unchanged { T.world store.new ≡ T.world store.old }
{
    match &command.kind {
        CommandKind::Write(WriteCommand::Update(update)) => find_password(alloc, store, update),
        _ => Ok(None),
    }
}

/// Reports why a line is no command. Returns how the batch ends. Ignores a failed write.
fn report_line_fault<E: Write>(errors: &mut E, number: usize, fault: &str) -> EarlyEnd<'static> {
    let _ = writeln!(errors, "kadm: line {number}: {fault}");
    EarlyEnd::Usage
}

/// Runs the commands, and returns whether all were done. Ends with the first that is not, unless the batch keeps going.
#[tactic(auto, using(crate::proofs::Batching::run_kept))]
fn run_lines<T: Store, W: Write, E: Write>(
    context: &mut Context<W, E>,
    store: &mut T,
    batch: &Batch<'_>,
    draft: &mut Draft,
) -> Result<bool, EarlyEnd<'static>>
    requires read { All (IsLineRead (T.world store.old)) batch.now.lines.now }
    ensures run { IfOk result (λ whole. IsRun
        (T.world store.old) batch.now.whole_realm batch.now.db.now batch.now.keep_going
        (line_texts batch.now.lines.now) draft.old.database draft.new.database whole) }
    ensures unchanged { T.world store.new ≡ T.world store.old }
{
    if batch.keep_going {
        return run_each(context, store, batch, draft);
    }
    run_all(context, store, batch, draft)?;
    Ok(true)
}

/// Runs the commands up to the first that is not done.
fn run_all<T: Store, W: Write, E: Write>(
    context: &mut Context<W, E>,
    store: &mut T,
    batch: &Batch<'_>,
    draft: &mut Draft,
) -> Result<(), EarlyEnd<'static>>
    requires read { All (IsLineRead (T.world store.old)) batch.now.lines.now }
    // Promise (done, unchanged), as run_batch: `batch`: the same, with ..
    ensures done { OnOk result (AreDone (T.world store.old) batch.now.whole_realm batch.now.db.now
        (line_texts batch.now.lines.now)
        draft.old.database draft.new.database) }
    ensures unchanged { T.world store.new ≡ T.world store.old }
{
    let mut rest = batch.lines;
    while let [line, others @ ..] = rest {
        report_progress(context, store, line.number);
        if let Some(status) = run_line(context, store, batch, line, draft)? {
            let _ = writeln!(
                context.errors,
                "kadm: line {}: nothing was written",
                line.number
            );
            return Err(batch_end(status));
        }
        rest = others;
    }
    Ok(())
}

/// Returns how a batch ends that ends with this line.
fn batch_end(status: Status) -> EarlyEnd<'static> {
    match status {
        Status::Usage => EarlyEnd::Usage,
        Status::Failed => EarlyEnd::LineFailed,
        Status::Done | Status::Refused => EarlyEnd::LineRefused,
    }
}

/// Runs each command, and returns whether all were done.
fn run_each<T: Store, W: Write, E: Write>(
    context: &mut Context<W, E>,
    store: &mut T,
    batch: &Batch<'_>,
    draft: &mut Draft,
) -> Result<bool, EarlyEnd<'static>>
    requires read { All (IsLineRead (T.world store.old)) batch.now.lines.now }
    // Promise (run, unchanged), as run_batch: with `--keep-going` each line ..
    ensures run { IfOk result (λ whole. IsRun (T.world store.old) batch.now.whole_realm batch.now.db.now true
        (line_texts batch.now.lines.now)
        draft.old.database draft.new.database whole) }
    ensures unchanged { T.world store.new ≡ T.world store.old }
{
    let mut whole = true;
    let mut rest = batch.lines;
    while let [line, others @ ..] = rest {
        report_progress(context, store, line.number);
        whole = try_line(context, store, batch, line, whole, draft)?;
        rest = others;
    }
    Ok(whole)
}

/// Runs a command. If it is not done, the database is unchanged and the run is no longer whole.
fn try_line<T: Store, W: Write, E: Write>(
    context: &mut Context<W, E>,
    store: &mut T,
    batch: &Batch<'_>,
    line: &BatchLine,
    whole: bool,
    draft: &mut Draft,
) -> Result<bool, EarlyEnd<'static>>
    requires read { IsLineRead (T.world store.old) line.now }
    ensures turn { IfOk result (λ whole_then. IsTurn (T.world store.old) batch.now.whole_realm batch.now.db.now
        (line_text line.now)
        whole draft.old.database draft.new.database whole_then) }
    ensures unchanged { T.world store.new ≡ T.world store.old }
{
    // a command that is refused in its middle leaves its own copy changed in part
    let database = draft.database.copy(draft.alloc)?;
    let mut changed = Draft {
        alloc: draft.alloc,
        database,
    };
    match run_line(context, store, batch, line, &mut changed)? {
        None => {
            *draft = changed;
            Ok(whole)
        }
        Some(_) => Ok(false),
    }
}

/// Runs a command, and reports why it is not done. Returns its status then. The database may be changed in part.
fn run_line<T: Store, W: Write, E: Write>(
    context: &mut Context<W, E>,
    store: &mut T,
    batch: &Batch<'_>,
    line: &BatchLine,
    draft: &mut Draft,
) -> Result<Option<Status>, EarlyEnd<'static>>
    requires read { IsLineRead (T.world store.old) line.now }
    ensures done { IfOk result (λ end. IfNone end (IsLineDone (T.world store.old) batch.now.whole_realm batch.now.db.now
        (line_text line.now) draft.old.database draft.new.database)) }
    ensures unchanged { T.world store.new ≡ T.world store.old }
{
    let words = in_batch(context.alloc, batch.db, &line.words)?;
    let subject = Subject {
        words: &words,
        line: Some(line.number),
    };
    match run_words(
        &mut context.errors,
        store,
        &subject,
        draft,
        batch.whole_realm,
        line.password.as_ref(),
    ) {
        Ok(note) => {
            keep_note(&mut context.notes, &subject, note)?;
            Ok(None)
        }
        Err(stop) => Ok(Some(report(context, &subject, stop)?)),
    }
}

/// Keeps the note on a line until the database is written. Fails if memory runs out.
fn keep_note(
    notes: &mut Vec<u8>,
    subject: &Subject<'_>,
    note: Option<Note>,
) -> Result<(), AllocError> {
    let (Some(note), Some(name)) = (note, option_value(subject.words, NAME)) else {
        return Ok(());
    };
    begin_line(notes, subject);
    match note.write(notes, name) {
        Ok(()) => Ok(()),
        Err(_) => Err(AllocError),
    }
}

/// Makes the change that the words of a line ask for. Returns a note on what the administrator may not expect.
fn run_words<'a, T: Store, E: Write>(
    errors: &mut E,
    store: &mut T,
    subject: &Subject<'a>,
    draft: &mut Draft,
    whole: bool,
    found: Option<&FoundPassword>,
) -> Result<Option<Note>, EarlyEnd<'a>>
    requires found { IsFoundIn (T.world store.old) found }
    ensures done { OnOk result (IsSpelledMade (T.world store.old) whole
        (texts subject.now.words.now) draft.old.database draft.new.database) }
    ensures unchanged { T.world store.new ≡ T.world store.old }
{
    let matches = read_args(draft.alloc, subject.words);
    check_words(errors, subject, &matches)?;
    match read_command(draft.alloc, subject.words) {
        Ok(command) => run_command(store, &command, draft, whole, found),
        Err(fault) => {
            begin_line(errors, subject);
            Err(report_command_fault(errors, fault))
        }
    }
}

/// Reports what is wrong with the words of a line, as the parser finds it. Also refuses the options of the batch
/// itself: the batch writes the file, and who starts it says whether it may end the whole realm.
fn check_words<E: Write>(
    errors: &mut E,
    subject: &Subject<'_>,
    matches: &Result<ArgMatches<'_>, Error>,
) -> Result<(), EarlyEnd<'static>> {
    match matches {
        Err(error) => {
            begin_line(errors, subject);
            Err(report_fault(errors, error))
        }
        Ok(_) if has_flag(subject.words, KEEP_MODE) => {
            Err(refused_option(errors, subject, NO_MODE))
        }
        Ok(_) if has_flag(subject.words, WHOLE_REALM) => {
            Err(refused_option(errors, subject, NO_WHOLE_REALM))
        }
        Ok(_) => Ok(()),
    }
}

/// Reports an option that a line must not have. Returns how the line ends.
fn refused_option<E: Write>(
    errors: &mut E,
    subject: &Subject<'_>,
    fault: &'static str,
) -> EarlyEnd<'static> {
    begin_line(errors, subject);
    report_command_fault(errors, UsageError::BadValue(fault))
}

/// Makes a change that a line asks for.
fn run_command<'a, T: Store>(
    store: &mut T,
    command: &Command<'a>,
    draft: &mut Draft,
    whole: bool,
    found: Option<&FoundPassword>,
) -> Result<Option<Note>, EarlyEnd<'a>>
    requires found { IsFoundIn (T.world store.old) found }
    ensures done { OnOk result (IsCommandMade
        (T.world store.old) whole command.now draft.old.database draft.new.database) }
    ensures unchanged { T.world store.new ≡ T.world store.old }
{
    match command.kind {
        CommandKind::Write(WriteCommand::Update(update)) => {
            update_in_batch(store, draft, &command.target, whole, update, found)
        }
        _ => Err(EarlyEnd::NotInBatch),
    }
}

/// Reports each second how far the batch is, if standard error is a terminal. Ignores a clock that can't be read and a
/// failed write.
fn report_progress<T: Store, W, E: Write>(context: &mut Context<W, E>, store: &mut T, number: usize)
    ensures unchanged { T.world store.new ≡ T.world store.old }
{
    if !context.progress.watched {
        return;
    }
    let Ok(now) = store.seconds() else {
        return;
    };
    if context.progress.second.is_some_and(|second| second != now) {
        let _ = writeln!(context.errors, "kadm: line {number}");
        let _ = context.errors.flush();
    }
    context.progress.second = Some(now);
}

//! Runs of scripts for a KDC, read line by line.
//!
//! Each line of the input opens a KDC, changes a principal, sends a request or restarts the KDC, in one of the forms in
//! `line.rt`. It prints one line: `ok`, `refused FAULT`, `reply HEX` or `none`. An empty line prints nothing. A line in
//! any other form prints `fault N`, where N is its number, and ends the run.
ghost use Rattle.std.specs.Prelude.{◌≡◌, ◌≢◌, ◌⊎◌, IfOk, IfSome, OnOk, None, Some};
ghost use Rattle.std.specs.FinMap as map;
ghost use Rattle.std.specs.Io.KnownBytes.{Appends};
ghost use Rattle.command_line.specs.Status.{status_code};
ghost use Rattle.command_line.specs.declared.status.Status.TheVariants as statuses;
ghost use Rattle.kdcd.specs.Octets.{octets_of};
ghost use Rattle.kdcd.specs.Run.{CannotRun, Changes, Runs, policy_of, row_change, stop_of};
ghost use Rattle.kdcd.specs.Script.{fault_text, IsFaultText, IsRunStatus, PrintsScript, PrintsText, PrintsUpToFault};
ghost use Rattle.kdcd.specs.Script.{read_part};
ghost use Rattle.kdcd.specs.declared.line.Line.TheVariants as lines;
ghost use Rattle.kdcd.specs.declared.script.ScriptError.TheVariants.{Failed, Fault};
ghost use Rattle.krb_fields.specs.NameLimits.{IsComponent};
ghost use Rattle.kdc_state.specs.State.{opened_state};
ghost use Rattle.replay.specs.declared.opening.Opening.TheVariants.{First};
ghost use Rattle.principals.specs.Change.{refusal};
ghost use Rattle.principals.specs.Database.{first_database};

use crate::answer::Answer;
use crate::input::Input;
use crate::line::{Line, LineChange, LineError, LineRequest};
use command_line::Status;
use kdc_core::{Kdc, Opening};
use krb_elements::KerberosString;
use krb_fields::{Moment, Name, NameFault};
use principal_rows::{KeyList, Limits, Policy};
use principals::{Change, ChangeFault, Database, RowChange};
use std::alloc::{AllocError, Global};
use std::io;
use std::io::{Read, Write};

/// Why a run ended early.
#[derive(Clone, Copy, PartialEq, Eq)]
pub(crate) enum ScriptError {
    /// The last line that was read has none of the forms, or exceeds a limit.
    Fault,
    /// A read or write failed, or memory ran out.
    Failed,
}

impl From<io::Error> for ScriptError {
    ghost from_gives = { λ _ stop. stop ≡ Failed };

    fn from(_: io::Error) -> ScriptError {
        ScriptError::Failed
    }
}

impl From<AllocError> for ScriptError {
    ghost from_gives = { λ _ stop. stop ≡ Failed };

    fn from(_: AllocError) -> ScriptError {
        ScriptError::Failed
    }
}

impl From<LineError> for ScriptError {
    ghost from_gives = { λ fault stop. stop ≡ stop_of fault };

    fn from(fault: LineError) -> ScriptError {
        match fault {
            LineError::Form => ScriptError::Fault,
            LineError::Memory => ScriptError::Failed,
        }
    }
}

/// Runs the script that a reader returns and prints its answers. Returns `Done` at the end of the input, `Refused` at a
/// line in none of the forms, and `Failed` if a read or write fails or memory runs out.
///
/// Unless it is `Failed`, the whole output was written, and the status is the script's. Nothing is promised about a
/// failed run.
pub fn run_script<R: Read + Drop, W: Write>(alloc: Global, reader: R, writer: &mut W) -> Status
    // Promise: a run ends with status 0, 1 or 3, if the calls of its reader and writer return.
    ensures status { IsRunStatus result }
    // Promise: if the status is not 3, the writer took what the script prints, no more and no less, and the status is
    // the script's.
    ensures run { result ≢ statuses.Failed
        → IfSome (R.remaining reader) (λ octets.
        PrintsScript octets (W.contents writer.old) (W.contents writer.new) (status_code result)) }
    // The bytes after the limit change nothing. The first of them shows that the input is too long.
    // Promise: no byte after the first 16,777,217 of an input changes that; the last of these shows that the input is
    // too long.
    ensures bounded { result ≢ statuses.Failed
        → IfSome (R.remaining reader) (λ octets.
        PrintsScript (read_part octets) (W.contents writer.old) (W.contents writer.new) (status_code result)) }
{
    run_input(alloc, reader, writer)
}

/// Runs the lines, and prints the number of the one that is a fault.
fn run_input<R: Read + Drop, W: Write>(alloc: Global, reader: R, writer: &mut W) -> Status
    ensures status { IsRunStatus result }
    ensures run { result ≢ statuses.Failed
        → IfSome (R.remaining reader) (λ octets.
        PrintsScript octets (W.contents writer.old) (W.contents writer.new) (status_code result)) }
{
    let Ok(mut input) = Input::new(alloc, reader) else {
        return Status::Failed;
    };
    match run_lines(alloc, &mut input, writer) {
        Ok(()) => Status::Done,
        Err(ScriptError::Fault) => match print_fault(writer, input.number()) {
            Ok(()) => Status::Refused,
            Err(_) => Status::Failed,
        },
        Err(ScriptError::Failed) => Status::Failed,
    }
}

fn print_fault<W: Write>(writer: &mut W, number: usize) -> io::Result<()>
    // Promise: an answer prints its text; an error the number of its line.
    ensures { OnOk result (Appends (W.contents writer.old) (W.contents writer.new) (fault_text number)) }
{
    writeln!(writer, "fault {number}")?;
    writer.flush()
}

fn run_lines<R: Read + Drop, W: Write>(
    alloc: Global,
    input: &mut Input<R>,
    writer: &mut W,
) -> Result<(), ScriptError>
    requires octets { input.old.taken ≡ 0 }
    requires lines { input.old.number ≡ 0 }
    ensures done { OnOk result
        (IfSome (octets_of R.remaining input.old.octets) (λ octets.
        PrintsScript octets (W.contents writer.old) (W.contents writer.new) 0)) }
    ensures fault { result ≡ Err Fault
        → IfSome (octets_of R.remaining input.old.octets) (λ octets.
        PrintsUpToFault octets (W.contents writer.old) (W.contents writer.new) input.new.number) }
{
    let mut kdc = None;
    run_on(alloc, &mut kdc, input, writer)
}

/// Runs the lines. One of them opens the KDC.
fn run_on<R: Read + Drop, W: Write>(
    alloc: Global,
    kdc: &mut Option<Kdc>,
    input: &mut Input<R>,
    writer: &mut W,
) -> Result<(), ScriptError>
    requires kdc { kdc.old ≡ None }
    requires octets { input.old.taken ≡ 0 }
    requires lines { input.old.number ≡ 0 }
    ensures done { OnOk result
        (IfSome (octets_of R.remaining input.old.octets) (λ octets.
        PrintsScript octets (W.contents writer.old) (W.contents writer.new) 0)) }
    ensures fault { result ≡ Err Fault
        → IfSome (octets_of R.remaining input.old.octets) (λ octets.
        PrintsUpToFault octets (W.contents writer.old) (W.contents writer.new) input.new.number) }
{
    let mut line = Vec::new(alloc);
    while input.next_line(&mut line)? {
        run_text(alloc, kdc, &line, writer)?;
    }
    writer.flush()?;
    Ok(())
}

/// Runs the text of a line and prints its result. An empty text does nothing.
fn run_text<W: Write>(
    alloc: Global,
    kdc: &mut Option<Kdc>,
    text: &[u8],
    writer: &mut W,
) -> Result<(), ScriptError>
    ensures ok { OnOk result (PrintsText kdc.old text.now kdc.new (W.contents writer.old) (W.contents writer.new)) }
    ensures fault { result ≡ Err Fault → IsFaultText kdc.old text.now }
    ensures unchanged { result ≡ Err Fault → W.contents writer.new ≡ W.contents writer.old }
{
    if text.is_empty() {
        return Ok(());
    }
    let line = Line::parse(alloc, text)?;
    let answer = run_line(alloc, kdc, line)?;
    answer.print(alloc, writer)?;
    Ok(())
}

/// Runs one line on the KDC, if a line has opened one.
fn run_line(alloc: Global, kdc: &mut Option<Kdc>, line: Line) -> Result<Answer, ScriptError>
    // Promise: a line does and prints what the definitions of the KDC say: a new KDC with its first database, a change
    // or its refusal, a restart, a reply or none.
    ensures ok { IfOk result (λ answer. Runs kdc.old line kdc.new answer) }
    // Promise: a line that was read is an error only if no KDC is open, or its realm is invalid.
    ensures fault { result ≡ Err Fault → CannotRun kdc.old line }
{
    match line {
        Line::Open {
            realm,
            limits,
            krbtgt_keys,
        } => {
            *kdc = Some(open(alloc, &realm, limits, krbtgt_keys)?);
            Ok(Answer::Done)
        }
        Line::Change { name, what } => change(alloc, kdc, name, what),
        Line::Request(request) => handle(alloc, kdc, &request),
        Line::Restart { at } => restart(kdc, at),
    }
}

fn open(
    alloc: Global,
    realm: &KerberosString,
    limits: Limits,
    krbtgt_keys: KeyList,
) -> Result<Kdc, ScriptError>
    ensures ok { IfOk result (λ kdc. kdc ≡ opened_state (first_database realm.now krbtgt_keys) limits First) }
    ensures fault { result ≡ Err Fault → ¬ IsComponent realm.now }
{
    let database = match Database::first(alloc, realm.as_slice(), krbtgt_keys) {
        Ok(database) => database,
        Err(NameFault::BadName) => return Err(ScriptError::Fault),
        Err(NameFault::Memory) => return Err(ScriptError::Failed),
    };
    Ok(Kdc::open(alloc, database, limits, Opening::First)?)
}

/// Changes a principal. The database may refuse the change.
fn change(
    alloc: Global,
    kdc: &mut Option<Kdc>,
    name: Option<Name>,
    what: LineChange,
) -> Result<Answer, ScriptError>
    ensures ok { IfOk result (λ answer. Runs kdc.old (lines.Change name what) kdc.new answer) }
    ensures fault { result ≡ Err Fault → CannotRun kdc.old (lines.Change name what) }
{
    let Some(kdc) = kdc else {
        return Err(ScriptError::Fault);
    };
    let Some(name) = name else {
        return Ok(Answer::Refused(ChangeFault::BadName));
    };
    let what = row_change(kdc, &name, what);
    apply(alloc, kdc, &Change { name, what })
}

/// Returns the change of a principal's row. Fields of the policy that the line doesn't set keep their values.
fn row_change(kdc: &Kdc, name: &Name, what: LineChange) -> RowChange
    ensures { result ≡ row_change kdc.now name.now what }
{
    match what {
        LineChange::Add(keys) => RowChange::Add(keys),
        LineChange::NewKeys(keys) => RowChange::NewKeys(keys),
        LineChange::DropKeys(version) => RowChange::DropKeys(version),
        LineChange::Remove => RowChange::Remove,
        LineChange::Set(setting) => RowChange::SetPolicy(setting.on(current_policy(kdc, name))),
    }
}

/// Returns the policy of a principal, or the default if it has no row; the database refuses such a change anyway.
fn current_policy(kdc: &Kdc, name: &Name) -> Policy
    ensures { result ≡ policy_of (map.get kdc.now.database.rows name.now.components) }
{
    match kdc.get(name) {
        Some(row) => row.policy,
        None => Policy::default(),
    }
}

/// Applies a change, which the database may refuse.
fn apply(alloc: Global, kdc: &mut Kdc, change: &Change) -> Result<Answer, ScriptError>
    ensures ok { IfOk result (λ answer.
        Changes kdc.old change.now (refusal kdc.old.database change.now) (Some kdc.new) answer) }
    ensures fault { result ≢ Err Fault }
{
    match kdc.apply(alloc, change) {
        Ok(()) => Ok(Answer::Done),
        Err(ChangeFault::Memory) => Err(ScriptError::Failed),
        Err(fault) => Ok(Answer::Refused(fault)),
    }
}

/// Restarts the KDC at this moment.
fn restart(kdc: &mut Option<Kdc>, at: Moment) -> Result<Answer, ScriptError>
    ensures ok { IfOk result (λ answer. Runs kdc.old (lines.Restart at) kdc.new answer) }
    ensures fault { result ≡ Err Fault → CannotRun kdc.old (lines.Restart at) }
{
    let Some(kdc) = kdc else {
        return Err(ScriptError::Fault);
    };
    kdc.restart(at);
    Ok(Answer::Done)
}

fn handle(
    alloc: Global,
    kdc: &mut Option<Kdc>,
    request: &LineRequest,
) -> Result<Answer, ScriptError>
    ensures ok { IfOk result (λ answer. Runs kdc.old (lines.Request request.now) kdc.new answer) }
    ensures fault { result ≡ Err Fault → CannotRun kdc.old (lines.Request request.now) }
{
    let Some(kdc) = kdc else {
        return Err(ScriptError::Fault);
    };
    let reply = kdc.handle(
        alloc,
        request.at,
        &request.random,
        request.room,
        &request.octets,
    )?;
    match reply {
        Some(reply) => Ok(Answer::Reply(reply)),
        None => Ok(Answer::NoReply),
    }
}

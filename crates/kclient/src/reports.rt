//! What a command prints at its end, and its status.
ghost use Rattle.std.specs.Prelude.{◌≡◌, IfOk};
ghost use Rattle.kclient.specs.Ends.{IsOther, IsPrinted, IsReported};

use crate::run::Printed;
use client_files::{ClientError, StepError};
use client_login::LoginError;
use command_line::{Status, print_failure, print_refusal, print_usage_error};
use std::io;
use std::io::Write;

/// Reports how a command line ended, and returns its status.
#[tactic(auto, using(crate::proofs::Ending::reported_failed, crate::proofs::Ending::reported_so))]
pub(crate) fn report<W: Write, E: Write>(
    out: &mut W,
    errors: &mut E,
    notes: &str,
    end: &Result<Printed, ClientError>,
) -> Status
    ensures { IsReported end.now result }
{
    match print(out, errors, notes, end) {
        Ok(status) => status,
        Err(error) => {
            report_unwritten(errors, error);
            Status::Failed
        }
    }
}

/// Prints the result of a command, and returns its status. An error is a failed write.
fn print<W: Write, E: Write>(
    out: &mut W,
    errors: &mut E,
    notes: &str,
    end: &Result<Printed, ClientError>,
) -> io::Result<Status>
    ensures { IfOk result (λ status. IsPrinted end.now status) }
{
    write!(errors, "{notes}")?;
    let status = match end {
        Ok(printed) => print_text(out, printed)?,
        Err(fault) => print_fault(out, errors, fault)?,
    };
    out.flush()?;
    errors.flush()?;
    Ok(status)
}

fn print_text<W: Write>(out: &mut W, printed: &Printed) -> io::Result<Status>
    ensures { IfOk result (λ status. status ≡ printed.now.status) }
{
    write!(out, "{}", printed.text)?;
    Ok(printed.status)
}

/// Prints `refused` with a word, or `failed`, on standard output, and the error on standard error. A usage error goes
/// to standard output alone.
fn print_fault<W: Write, E: Write>(
    out: &mut W,
    errors: &mut E,
    fault: &ClientError,
) -> io::Result<Status>
    ensures { IfOk result (λ status. IsOther status) }
{
    if matches!(fault.cause, StepError::Usage(_)) {
        return print_usage_error(out, fault);
    }
    let status = print_word(out, fault.cause)?;
    writeln!(errors, "kclient: {fault}")?;
    Ok(status)
}

fn print_word<W: Write>(out: &mut W, cause: StepError) -> io::Result<Status>
    ensures { IfOk result (λ status. IsOther status) }
{
    match (cause, cause.name()) {
        (StepError::Login(LoginError::Refused(error)), _) => print_refusal(out, &error.code),
        (StepError::OldKey(LoginError::Refused(error)), _) => print_refusal(out, &error.code),
        (_, Some(name)) => print_refusal(out, &name),
        (_, None) => print_failure(out),
    }
}

/// Reports on standard error that standard output can't be written. If that fails too, there is nowhere to report it.
pub(crate) fn report_unwritten<E: Write>(errors: &mut E, error: io::Error) {
    let _ = writeln!(errors, "kclient: standard output: {error}");
    let _ = errors.flush();
}

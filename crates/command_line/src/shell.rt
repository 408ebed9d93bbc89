//! How a program's `main` begins and ends: the words of its command line, and the report of why it ends.
ghost use Rattle.std.specs.Prelude.{◌≡◌, IfOk};
ghost use Rattle.command_line.specs.declared.status.Status.TheVariants.{Failed, Refused, Usage};

use crate::given::GivenError;
use crate::status::Status;
use std::fmt::Display;
use std::io::Write;
use std::{env, io};

/// What is wrong with a word that `read_words` refuses.
const NOT_UTF8: &str = "a word is not UTF-8";

/// Reads the words of the command line, from the program's name on. Fails if one is not UTF-8.
pub fn read_words(rt: &HostRuntime) -> Result<Vec<String>, GivenError> {
    match env::args(rt) {
        Ok(args) => Ok(args.collect(rt.alloc())?),
        Err(error) if error.kind() == io::ErrorKind::InvalidData => {
            Err(GivenError::not_utf8(NOT_UTF8))
        }
        Err(error) => Err(GivenError::words(error)),
    }
}

/// Prints a usage error. Fails if the output fails.
pub fn print_usage_error<W: Write>(out: &mut W, why: &impl Display) -> io::Result<Status>
    ensures { IfOk result (λ status. status ≡ Usage) }
{
    writeln!(out, "error: {why}")?;
    Ok(Status::Usage)
}

/// Prints `refused WORD`. Fails if the output fails.
pub fn print_refusal<W: Write>(out: &mut W, word: &impl Display) -> io::Result<Status>
    ensures { IfOk result (λ status. status ≡ Refused) }
{
    writeln!(out, "refused {word}")?;
    Ok(Status::Refused)
}

/// Prints `failed`. Fails if the output fails.
pub fn print_failure<W: Write>(out: &mut W) -> io::Result<Status>
    ensures { IfOk result (λ status. status ≡ Failed) }
{
    writeln!(out, "failed")?;
    Ok(Status::Failed)
}

/// Prints a usage error on standard output.
pub fn report_usage(rt: &HostRuntime, why: &impl Display) -> io::Result<Status> {
    println!(rt; "error: {why}")?;
    Ok(Status::Usage)
}

/// Says on standard error why a program ends, and on standard output `refused WORD`, or `failed` if there is no word.
/// Fails if standard output fails.
pub fn report_end(
    rt: &HostRuntime,
    program: &str,
    why: &impl Display,
    refusal: Option<&str>,
) -> io::Result<Status> {
    let _ = eprintln!(rt; "{program}: {why}");
    match refusal {
        Some(word) => {
            println!(rt; "refused {word}")?;
            Ok(Status::Refused)
        }
        None => {
            println!(rt; "failed")?;
            Ok(Status::Failed)
        }
    }
}

/// Says that a program failed, and why. If that can't be written, there is nowhere to report it.
pub fn report_failure(rt: &HostRuntime, program: &str, why: &impl Display) -> Status {
    let _ = report_end(rt, program, why, None);
    Status::Failed
}

//! One command line: from its words to what the program did.
use crate::PROGRAM;
use crate::options::{path_beside, read_args, serve_options};
use crate::script::run_script;
use crate::sealing::seal;
use crate::serving::serve_realm;
use clap::ArgMatches;
use clap::error::{Error, ErrorKind};
use command_line::{Status, parse_status, report_end, report_failure, report_usage};
use std::io;

/// Runs a command line, whose first word is the program's name, and returns the status. Standard output has the result,
/// standard error the reason of a refusal or a failure.
pub(crate) fn kdcd_run(rt: &HostRuntime, args: &[String]) -> Status {
    match run_words(rt, args) {
        Ok(status) => status,
        Err(error) => report_failure(rt, PROGRAM, &error),
    }
}

/// Runs the command, or prints the help that the words ask for. Fails if a write fails or memory runs out.
fn run_words(rt: &HostRuntime, args: &[String]) -> io::Result<Status> {
    let alloc = rt.alloc();
    let beside = path_beside(alloc, args)?;
    match read_args(alloc, args, &beside) {
        Ok(matches) => run_command(rt, &matches),
        Err(error) => explain(rt, &error),
    }
}

/// Prints the help, or what is wrong with the words. Fails if memory ran out.
fn explain(rt: &HostRuntime, error: &Error) -> io::Result<Status> {
    if error.kind() == ErrorKind::OutOfMemory {
        return Err(io::Error::from(io::ErrorKind::OutOfMemory));
    }
    print!(rt; "{error}")?;
    Ok(parse_status(error))
}

fn run_command(rt: &HostRuntime, matches: &ArgMatches<'_>) -> io::Result<Status> {
    match matches.subcommand() {
        Some(("script", _)) => Ok(run_script(rt.alloc(), rt.stdin(), &mut rt.stdout())),
        Some(("serve", args)) => serve(rt, args),
        Some(("seal", args)) => seal(rt, args.get_str("journal")),
        _ => Ok(Status::Usage),
    }
}

fn serve(rt: &HostRuntime, args: &ArgMatches<'_>) -> io::Result<Status> {
    let options = match serve_options(rt.alloc(), args)? {
        Ok(options) => options,
        Err(why) => return report_usage(rt, &why),
    };
    match serve_realm(rt, &options) {
        Ok(status) => status,
        Err(fault) => report_end(rt, PROGRAM, &fault, fault.refusal()),
    }
}

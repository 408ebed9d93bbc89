//! The KDC's program: `kdcd script` runs a script from standard input to standard output, and `kdcd serve` serves a
//! realm over UDP and TCP. `kdcd seal` seals the journal of a server that has ended.
#![tactic(auto)]

mod answer;
mod field;
mod host;
mod input;
mod line;
mod octets;
mod options;
mod run;
mod script;
mod sealing;
mod serving;

use crate::run::kdcd_run;
use command_line::{GivenError, Status, UsageStream, open_missing_streams, read_words};
use std::process::ExitCode;

/// The name of the program, in front of what it says on standard error.
const PROGRAM: &str = "kdcd";

fn main(rt: HostRuntime) -> ExitCode {
    let status = match run_given(&rt) {
        Ok(status) => status,
        Err(error) => error.report(&rt, PROGRAM, UsageStream::Output),
    };
    ExitCode::from(status.code())
}

/// Runs the command line that the program is given, and returns its status.
fn run_given(rt: &HostRuntime) -> Result<Status, GivenError> {
    open_missing_streams(rt)?;
    let args = read_words(rt)?;
    Ok(kdcd_run(rt, &args))
}

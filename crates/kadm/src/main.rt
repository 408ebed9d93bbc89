//! The administration tool: `kadm COMMAND --db FILE ..`. `kadm --help` lists the commands.
#![tactic(auto)]

mod assigning;
mod batch;
mod changing;
mod checking;
mod commands;
mod escaping;
mod hints;
mod json_lines;
mod key_types;
mod linting;
mod listing;
mod options;
mod outcome;
mod printing;
mod reasons;
mod reports;
mod restoring;
mod run;
mod settings;
mod showing;
mod subject;
mod usage;
mod values;
mod words;
mod writing;

use crate::run::{CommandLine, kadm_run};
use command_line::{GivenError, Status, UsageStream, open_missing_streams, read_words};
use file_store::{FileStore, Variable};
use std::env;
use std::env::VarError;
use std::io::IsTerminal;
use std::process::ExitCode;

/// The name of the program, in front of what it says on standard error.
const PROGRAM: &str = "kadm";

/// The variable of the environment with the database of a command line that names none.
const KADM_DB: &str = "KADM_DB";

/// What is wrong with that variable if it is not UTF-8.
const DB_NOT_UTF8: &str = "KADM_DB is not UTF-8";

/// What the command line and the environment give.
#[derive(Drop)]
struct Given<'a> {
    args: Vec<String>,
    /// The path that `KADM_DB` has.
    db: Option<&'a str>,
}

impl<'a> Given<'a> {
    fn read(
        rt: &HostRuntime,
        named: &'a Result<String, VarError>,
    ) -> Result<Given<'a>, GivenError> {
        let args = read_words(rt)?;
        match Variable::new(named)? {
            Variable::Absent => Ok(Given { args, db: None }),
            Variable::Text(path) => Ok(Given {
                args,
                db: Some(path),
            }),
            Variable::NotUtf8 => Err(GivenError::not_utf8(DB_NOT_UTF8)),
        }
    }
}

fn main(rt: HostRuntime) -> ExitCode {
    let status = match run_given(&rt) {
        Ok(status) => status,
        Err(error) => error.report(&rt, PROGRAM, UsageStream::Errors),
    };
    ExitCode::from(status.code())
}

/// Runs the command line that the program is given, with its environment, and returns its status.
fn run_given(rt: &HostRuntime) -> Result<Status, GivenError> {
    open_missing_streams(rt)?;
    let named = env::var(rt, KADM_DB);
    let given = Given::read(rt, &named)?;
    let errors = rt.stderr();
    let line = CommandLine {
        args: given.args.as_slice(),
        db: given.db,
        is_watched: errors.is_terminal(),
    };
    let mut store = FileStore::new(rt);
    let status = kadm_run(rt.alloc(), line, &mut store, rt.stdout(), errors);
    Ok(status)
}

//! Serving a realm: `kdcd serve`.
use crate::host::{Errors, SystemHost};
use command_line::Status;
use kdc_server::{Ran, ServeOptions, SystemPart, run_server};
use kdc_sockets::{BindError, ReadyWriter, SharedWriter};
use std::io;
use std::io::Write;

/// Why a server did not start.
pub type StartError<'a> = kdc_server::StartError<'a, BindError>;

/// Serves as the options say, with lines on standard error, and gives the status. The inner error is a failed write.
pub fn serve_realm<'a>(
    rt: &'a HostRuntime,
    options: &ServeOptions<'a>,
) -> Result<io::Result<Status>, StartError<'a>> {
    let mut errors = error_writer(rt)?;
    let mut host = SystemHost::new(rt, options, &errors)?;
    let ran = run_server(rt.alloc(), &mut host, options)?;
    Ok(say_served(rt, &mut errors, &ran))
}

/// Prints how much was served, and on standard error how many lines of the log were lost, if any.
fn say_served(
    rt: &HostRuntime,
    errors: &mut Errors,
    ran: &Ran<SystemHost<'_>>,
) -> io::Result<Status> {
    let totals = &ran.totals;
    println!(rt;
        "served {} {} {}",
        totals.events, totals.faults, totals.refused
    )?;
    let lost = ran
        .server
        .wire
        .log()
        .log()
        .as_ref()
        .map_or(0, |log| log.unreported());
    if lost > 0 {
        // If that fails, nothing is left to report it.
        let _ = writeln!(errors, "kdcd: log: {lost} lines are lost");
    }
    Ok(Status::Done)
}

fn error_writer<'a>(rt: &HostRuntime) -> Result<Errors, StartError<'a>> {
    match ReadyWriter::new(rt.alloc(), rt, rt.stderr()) {
        Ok(errors) => Ok(SharedWriter::new(rt.alloc(), errors)?),
        Err(error) => Err(StartError::System(SystemPart::StandardError, error)),
    }
}

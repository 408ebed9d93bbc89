//! Sealing a journal: `kdcd seal`.
use crate::PROGRAM;
use command_line::{Status, report_end};
use file_store::{CLOCK, now};
use journal::SealOutcome;
use kdc_files::{JournalPlace, doubt_word, seal_at_path};
use std::io;

/// Seals the journal at a path, and gives the status. An error is a failed write.
pub fn seal(rt: &HostRuntime, path: Option<&str>) -> io::Result<Status> {
    let Some(path) = path else {
        return Ok(Status::Usage);
    };
    let place = JournalPlace {
        files: rt,
        path,
        lines: rt.stderr(),
    };
    let at = match now(rt) {
        Ok(at) => at,
        Err(error) => return report_end(rt, PROGRAM, &format_args!("{CLOCK}: {error}"), None),
    };
    match seal_at_path(rt.alloc(), place, at) {
        Ok(SealOutcome::Sealed) => {
            println!(rt; "ok")?;
            Ok(Status::Done)
        }
        Ok(SealOutcome::Doubted(doubt)) => {
            report_end(
                rt,
                PROGRAM,
                &format_args!("journal {path}: not sealed: {doubt}"),
                Some(doubt_word(doubt)),
            )
        }
        Err(fault) => {
            report_end(
                rt,
                PROGRAM,
                &format_args!("journal {path}: {fault}"),
                fault.refusal(),
            )
        }
    }
}

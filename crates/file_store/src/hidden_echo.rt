//! A line that is typed at a terminal without an echo.
use std::alloc::Global;
use std::env::VarError;
use std::rt::Env;
use std::{env, io};

/// The variable of the environment by which a script says that it has turned the terminal's echo off.
const ECHO: &str = "PLOVERTRUNK_ECHO";

/// Ends the line on the terminal after an answer that was typed without an echo: the typed line feed doesn't show
/// either.
pub(crate) fn end_hidden_line<R: Env + Alloc<A = Global> + Eprint>(rt: &R) -> io::Result<()> {
    match env::var(rt, ECHO) {
        Ok(value) if value.as_str() == "off" => rt.eprint("\n"),
        Err(VarError::OutOfMemory) => Err(io::Error::from(io::ErrorKind::OutOfMemory)),
        _ => Ok(()),
    }
}

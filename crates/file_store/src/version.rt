//! The version of the programs.

/// The version of the programs. `--version` prints it after a program's name.
pub const VERSION: &str = "0.9.0";

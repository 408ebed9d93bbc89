//! What each program's `main` begins and ends with, whatever the program does: its standard streams, the words of its
//! command line, its options as tables, what it prints at its end, and its status.
//!
//! ```
//! fn run_given(rt: &HostRuntime) -> Result<Status, GivenError> {
//!     open_missing_streams(rt)?;
//!     let args = read_words(rt)?;
//!     let command = with_subcommands(rt.alloc(), Command::new(rt.alloc(), "kadm"), &SUBCOMMANDS)?;
//!     ..
//! }
//! ```
//!
//! Subcommands and their options are tables ([`SubcommandRow`]). The toolchain's `clap` parses a command line; of the
//! libraries this one alone needs it. [`value_at`] finds an option's value without `clap`, and has a contract. What a
//! program uses of its system is in `file_store`.
#![tactic(auto)]

mod command_options;
mod given;
mod shell;
mod standard_streams;
mod status;
mod values;

pub use crate::command_options::{
    FlagRow, OptionRow, SubcommandRow, Times, parse_status, subcommand, with_flags, with_options,
    with_subcommands,
};
pub use crate::given::{GivenError, UsageStream};
pub use crate::shell::{
    print_failure, print_refusal, print_usage_error, read_words, report_end, report_failure,
    report_usage,
};
pub use crate::standard_streams::open_missing_streams;
pub use crate::status::Status;
pub use crate::values::value_at;

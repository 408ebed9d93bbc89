//! What is wrong with a command line, in words.
ghost use Rattle.std.specs.Prelude.{◌≡◌, IfOk, Some};
ghost use Rattle.kadm_changes.specs.Texts.{texts};
ghost use Rattle.kadm.specs.Values.{value_of};

use crate::assigning::{field_option, value_option};
use crate::settings::{accepted_by, invalid_setting};
use crate::values::option_value;
use clap::error::{Error, ErrorKind};
use command_line::print_usage_error;
use kadm_changes::{AskedSetting, EarlyEnd};
use std::alloc::AllocError;
use std::io::Write;

/// What follows `error:` if a command line gives no command.
pub(crate) const NO_COMMAND: &str = "give a command; 'kadm --help' lists them";

/// Why a command line gives no command.
#[derive(Clone, Copy)]
pub(crate) enum UsageError<'a> {
    /// An option is wrong. The text says what is right.
    BadValue(&'static str),
    /// A policy has no field with this name.
    NoField(AskedSetting<'a>),
    /// A field of a policy does not accept this value. The text says what it accepts.
    NoSetting(AskedSetting<'a>, &'static str),
    Memory,
}

/// Returns the value of an option. Without it the fault has this text.
pub(crate) fn required<'a>(
    words: &[&'a str],
    option: &str,
    text: &'static str,
) -> Result<&'a str, UsageError<'a>>
    ensures { IfOk result (λ value. value_of (texts words.now) option.now ≡ Some value.now) }
{
    match option_value(words, option) {
        Some(value) => Ok(value),
        None => Err(UsageError::BadValue(text)),
    }
}

/// Returns what is wrong with the first invalid setting, if there is one.
pub(crate) fn setting_fault<'a>(words: &[&'a str]) -> Option<UsageError<'a>> {
    let setting = invalid_setting(words)?;
    match accepted_by(setting.field) {
        Some(accepted) => Some(UsageError::NoSetting(setting, accepted)),
        None => Some(UsageError::NoField(setting)),
    }
}

/// Reports what the parser says of a command line. Returns how it ends. Ignores a failed write.
pub(crate) fn report_fault<E: Write>(errors: &mut E, error: &Error) -> EarlyEnd<'static> {
    if error.kind() == ErrorKind::OutOfMemory {
        return EarlyEnd::from(AllocError);
    }
    let _ = write!(errors, "{error}");
    EarlyEnd::Usage
}

/// Reports what is wrong with the options of a subcommand. Returns how it ends. Ignores a failed write.
pub(crate) fn report_command_fault<E: Write>(
    errors: &mut E,
    fault: UsageError<'_>,
) -> EarlyEnd<'static> {
    let _ = match fault {
        UsageError::BadValue(fault) => print_usage_error(errors, &fault),
        UsageError::NoField(setting) => print_usage_error(
            errors,
            &format_args!(
                "{}: a policy has no field {}; 'kadm policy --help' lists the fields",
                field_option(setting.form),
                setting.field
            ),
        ),
        UsageError::NoSetting(setting, accepted) => print_usage_error(
            errors,
            &format_args!(
                "{}: {} takes {accepted}, not '{}'",
                value_option(setting.form),
                setting.field,
                setting.value
            ),
        ),
        UsageError::Memory => return EarlyEnd::from(AllocError),
    };
    EarlyEnd::Usage
}

//! The row and the words of the command that puts a database from another file in place.
ghost use Rattle.std.specs.Prelude.{◌≡◌, IfOk, Some, codes};
ghost use Rattle.kadm_changes.specs.Texts.{texts};
ghost use Rattle.kadm.specs.Words.{IsWriteSpelled, command_of};

use crate::options::{DATABASE, WHOLE_REALM};
use crate::usage::{UsageError, required};
use crate::writing::WriteCommand;
use command_line::{OptionRow, SubcommandRow, Times};

/// The command's name.
pub(crate) const RESTORE_NAME: &str = "restore";

pub(crate) const RESTORE: SubcommandRow = SubcommandRow {
    name: RESTORE_NAME,
    about: "Puts a database from another file in place, if it is of the same realm; owner and mode stay",
    options: &[DATABASE, FROM],
    flags: &[WHOLE_REALM],
};

const FROM: OptionRow = OptionRow {
    name: "from",
    shape: "FILE",
    help: "The database to put in place, such as a backup; it stays as it is",
    times: Times::Once,
};

/// What follows `error:` if no file is named.
const NO_BACKUP: &str = "--from names the database to put in place";

/// Returns which file to put in place.
pub(crate) fn restore_args<'a>(words: &'a [&'a str]) -> Result<WriteCommand<'a>, UsageError<'a>>
    ensures { command_of (texts words.now) ≡ Some (codes "restore")
        → IfOk result (λ write. IsWriteSpelled (texts words.now) write) }
{
    Ok(WriteCommand::Restore {
        from: required(words, "--from", NO_BACKUP)?,
    })
}

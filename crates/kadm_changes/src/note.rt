//! What an administrator may not expect of a change that was made.

use krb_fields::Second;
use std::io;
use std::io::Write;
use text_fields::UtcDate;

/// What is said of a principal with a password for which there are tickets.
const GUESSABLE: &str = "it is a service: anyone can try passwords on its tickets";

/// When an old password expired, or would have.
#[derive(Clone, Copy)]
pub struct OldExpiry {
    /// The time in its `password_expires`.
    pub at: Second,
    /// Whether that was past.
    pub is_past: bool,
}

impl OldExpiry {
    fn write<W: Write>(self, out: &mut W) -> io::Result<()> {
        if self.is_past {
            return write!(out, "password_expires was past; it is now never");
        }
        write!(
            out,
            "password_expires was {}; it is now never",
            UtcDate(self.at)
        )
    }
}

/// What an administrator may not expect of a change.
#[derive(Clone, Copy)]
pub enum Note {
    /// A principal has the keys of a new password.
    Password {
        /// Its old `password_expires`, if that is now never.
        cleared: Option<OldExpiry>,
        /// Whether there are tickets for it, on which anyone can try passwords.
        guessable: bool,
    },
    /// A principal was added with random keys; it is a user, or a service, whose name may have a typing error.
    Added {
        is_user: bool,
    },
    /// A principal has new random keys of this version, and its older ones are dropped.
    Replaced {
        version: u32,
    },
    /// A principal has new random keys of this version, and its older ones stay.
    Renewed {
        version: u32,
    },
}

impl Note {
    /// Writes the note about a principal, as the end of a line.
    pub fn write<W: Write>(self, out: &mut W, name: &str) -> io::Result<()> {
        match self {
            Note::Password { cleared, guessable } => {
                write!(out, "{name}: ")?;
                write_password(out, cleared, guessable)?;
                writeln!(out)
            }
            Note::Added { is_user: true } => {
                writeln!(out, "{name}: added, with keys of version 1")
            }
            Note::Added { is_user: false } => writeln!(
                out,
                "{name}: added, with keys of version 1; \
                 `--existing` refuses a name that the database doesn't have"
            ),
            Note::Replaced { version } => writeln!(
                out,
                "{name}: has new keys, version {version}; older versions are dropped"
            ),
            Note::Renewed { version } => writeln!(
                out,
                "{name}: has new keys, version {version}; older versions stay"
            ),
        }
    }
}

/// Writes what a new password has done.
fn write_password<W: Write>(
    out: &mut W,
    cleared: Option<OldExpiry>,
    guessable: bool,
) -> io::Result<()> {
    match (cleared, guessable) {
        (Some(old), false) => old.write(out),
        (Some(old), true) => {
            old.write(out)?;
            write!(out, "; {GUESSABLE}")
        }
        (None, true) => write!(out, "{GUESSABLE}"),
        (None, false) => Ok(()),
    }
}

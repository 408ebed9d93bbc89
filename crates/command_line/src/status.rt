//! How a program ends.
ghost use Rattle.std.specs.Prelude.{◌≡◌};
ghost use Rattle.command_line.specs.Status.{status_code};

/// The way in which a program ends.
#[derive(Clone, Copy)]
pub enum Status {
    /// It did what the command line says.
    Done,
    /// It refused to do so, because of what it read or of an answer that it got.
    Refused,
    /// The command line is wrong.
    Usage,
    /// A call of the system failed, or memory ran out.
    Failed,
}

impl Status {
    /// Returns the exit status of the program.
    pub fn code(self) -> u8
        ensures { result ≡ status_code self }
    {
        match self {
            Status::Done => 0,
            Status::Refused => 1,
            Status::Usage => 2,
            Status::Failed => 3,
        }
    }
}
